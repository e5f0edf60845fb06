// The job of a day by value: its actions, its resources and its sets of facts, with every limit once.
#![tactic(auto)]

pub mod refusal; // the table of refusals
pub mod validate; // the tests of a job value
mod beyond; // test 26
pub mod lengths; // how long an action lasts at least, and test 29
pub mod same; // whether two values hold the same job
pub mod resources; // what an action takes of pools and stores
pub mod resumed; // the job of what is left of a day

ghost use Rattle.std.specs.Prelude.{◌≡◌, ◌^◌, ◌<◌};
ghost use Rattle.job.specs.Job.{entries, handover_count, shortest_count, head_size, reserve_in, unused_action};
ghost use Rattle.job.specs.Job.{zero_value};

// An action of a job. Sets of facts are words: fact n is bit n.
#[derive(Clone, Copy)]
pub struct Action {
    pub duration: u8, // minutes (document 01: length), the longest where it is known only within a range
    pub needs: u64, // preconditions
    pub adds: u64,
    pub deletes: u64,
    pub pools: [u32; Job::POOLS], // what it holds of each pool while it runs
    pub stores: [u32; Job::STORES], // what it uses up of each store
}

impl Action {
    // The longest duration, in minutes.
    pub const DURATION: u8 = 255;

    // The largest use of a pool or store.
    pub const USE: u32 = 1_000_000;

    // What stands in an unused place: all zero.
    pub fn unused() -> Action
        ensures { result ≡ unused_action }
    {
        Action {
            duration: 0,
            needs: 0,
            adds: 0,
            deletes: 0,
            pools: [0u32; Job::POOLS],
            stores: [0u32; Job::STORES],
        }
    }
}

// How many pools, stores and actions a job has. What its arrays hold beyond that is ignored.
#[derive(Clone, Copy, PartialEq, Eq)]
pub struct Counts {
    pub pools: usize,
    pub stores: usize,
    pub actions: usize,
}

// Which entries the contents of the job's file have. What a value holds beyond its form is ignored.
#[derive(Clone, Copy, PartialEq, Eq)]
pub enum Form {
    Four, // the head, the pools, the stores and the actions
    Five, // and the handovers of the pools
    Six, // and the shortest lengths of the actions
}

impl Form {
    // How many entries.
    pub fn entries(self) -> usize
        ensures { result ≡ entries self }
    {
        match self {
            Form::Four => 4,
            Form::Five => 5,
            Form::Six => 6,
        }
    }

    // How many handovers a job of this form with so many pools has.
    pub fn handovers(self, pools: usize) -> usize
        ensures { result ≡ handover_count self pools }
    {
        match self {
            Form::Four => 0,
            Form::Five | Form::Six => pools,
        }
    }

    // How many shortest lengths a job of this form with so many actions has.
    pub fn shortest(self, actions: usize) -> usize
        ensures { result ≡ shortest_count self actions }
    {
        match self {
            Form::Four | Form::Five => 0,
            Form::Six => actions,
        }
    }
}

// How a step uses up stores: which head the job's file has. The reserve of a value under the old rule is ignored.
#[derive(Clone, Copy, PartialEq, Eq)]
pub enum StoreRule {
    PerStep, // its amount once: a head of 19 bytes
    PerHour, // its amount for each started hour, and a part of each store is kept back: a head of 20 bytes
}

impl StoreRule {
    // How many bytes the head has.
    pub fn head(self) -> usize
        ensures { result ≡ head_size self }
    {
        match self {
            StoreRule::PerStep => 19,
            StoreRule::PerHour => 20,
        }
    }

    // The reserve of a job under this rule, for which a value holds this one.
    pub fn reserve(self, held: u8) -> u8
        ensures { result ≡ reserve_in self held }
    {
        match self {
            StoreRule::PerStep => 0,
            StoreRule::PerHour => held,
        }
    }
}

// A job. Pools are renewable resources, stores consumable ones: an availability for each. Its small parts stand first,
// so that a value, which is often copied, has no gaps.
#[derive(Clone, Copy)]
pub struct Job {
    pub facts: u8,
    pub form: Form,
    pub rule: StoreRule,
    pub reserve: u8, // percent of each store that is kept back
    pub deadline: u16,
    pub handovers: [u8; Job::POOLS], // minutes that a share of the pool stays in use after its step
    pub start: u64,
    pub goal: u64,
    pub counts: Counts,
    pub pools: [u32; Job::POOLS],
    pub stores: [u32; Job::STORES],
    pub shortest: [u8; Job::ACTIONS], // minutes that the action lasts at least
    pub actions: [Action; Job::ACTIONS],
}

impl Job {
    // The most facts.
    pub const FACTS: u8 = facts::BITS;

    // The latest deadline, in minutes.
    pub const DEADLINE: u16 = 1_440;

    // The places of an array of amounts, one for each pool or one for each store.
    pub const AMOUNTS: usize = 4;

    // The most pools, stores and actions.
    pub const POOLS: usize = Job::AMOUNTS;

    pub const STORES: usize = Job::AMOUNTS;

    pub const ACTIONS: usize = 64;

    // The largest availability of a pool or store.
    pub const AVAILABILITY: u32 = 1_000_000;

    // The longest handover, in minutes.
    pub const HANDOVER: u8 = 30;

    // The largest reserve, in percent.
    pub const RESERVE: u8 = 50;

    // The job that stands beside a refusal: all zero.
    pub fn zero() -> Job
        ensures { result ≡ zero_value }
    {
        let unused = Action::unused();
        let none = Counts {
            pools: 0,
            stores: 0,
            actions: 0,
        };
        Job {
            facts: 0,
            deadline: 0,
            start: 0,
            goal: 0,
            form: Form::Four,
            rule: StoreRule::PerStep,
            reserve: 0,
            counts: none,
            pools: [0u32; Job::POOLS],
            handovers: [0u8; Job::POOLS],
            stores: [0u32; Job::STORES],
            shortest: [0u8; Job::ACTIONS],
            actions: [unused; Job::ACTIONS],
        }
    }
}

// A number of 32 bits as one of 64, for callers that need the bound with it.
pub fn wide(number: u32) -> u64
    ensures { (result ≡ number) × (result < 2 ^ 32) }
{
    number as u64
}
