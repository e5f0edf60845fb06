// The refusals by name, in the order of document 01's table, then those of document 02. As a byte, a refusal is its number.
ghost use Rattle.std.specs.Prelude.{◌≡◌};
ghost use Rattle.job.specs.Refusal.{number};

#[derive(Clone, Copy, PartialEq, Eq)]
pub enum Refusal {
    // the file's contents
    FileSize,
    Offsets,
    BodySizes,
    // its head
    FactCount,
    Deadline,
    ForeignFact,
    // its pools and stores
    Availability,
    // its actions
    ZeroDuration,
    ForeignActionFact,
    AddedAndDeleted,
    ActionUse,
    // the plan
    PlanSize,
    UnknownAction,
    StepOrder,
    AfterDeadline,
    Clash,
    PoolExceeded,
    StoreExceeded,
    NeedMissing,
    GoalMissing,
    // the planner
    PlanSlice,
    NoPlan,
    // the writer
    FileSlice,
    // the earliest time
    ForeignAskedFact,
    // the price
    RateOver,
    // the job's actions, after its limits
    UseBeyond,
    // the handovers of its pools
    HandoverOver,
    // the list of the shortest days
    ListEnded,
    // the shortest lengths of its actions
    ShortestLength,
    // the true lengths of a plan's steps
    TrueLengths,
    // the reserve of its stores
    ReserveOver,
    // two jobs pooled to one
    PoolTooLarge,
    PoolUnlike,
    // a join
    JoinedTooLong,
    // the replanner
    NoPlanWithKept,
}

// The refusal's number in the table.
impl From<Refusal> for u8 {
    ghost from_gives = { λ why result. result ≡ number why };

    fn from(why: Refusal) -> u8 {
        match why {
            Refusal::FileSize => 1,
            Refusal::Offsets => 2,
            Refusal::BodySizes => 3,
            Refusal::FactCount => 4,
            Refusal::Deadline => 5,
            Refusal::ForeignFact => 6,
            Refusal::Availability => 7,
            Refusal::ZeroDuration => 8,
            Refusal::ForeignActionFact => 9,
            Refusal::AddedAndDeleted => 10,
            Refusal::ActionUse => 11,
            Refusal::PlanSize => 12,
            Refusal::UnknownAction => 13,
            Refusal::StepOrder => 14,
            Refusal::AfterDeadline => 15,
            Refusal::Clash => 16,
            Refusal::PoolExceeded => 17,
            Refusal::StoreExceeded => 18,
            Refusal::NeedMissing => 19,
            Refusal::GoalMissing => 20,
            Refusal::PlanSlice => 21,
            Refusal::NoPlan => 22,
            Refusal::FileSlice => 23,
            Refusal::ForeignAskedFact => 24,
            Refusal::RateOver => 25,
            Refusal::UseBeyond => 26,
            Refusal::HandoverOver => 27,
            Refusal::ListEnded => 28,
            Refusal::ShortestLength => 29,
            Refusal::TrueLengths => 30,
            Refusal::ReserveOver => 31,
            Refusal::PoolTooLarge => 32,
            Refusal::PoolUnlike => 33,
            Refusal::JoinedTooLong => 34,
            Refusal::NoPlanWithKept => 35,
        }
    }
}
