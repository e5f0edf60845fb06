// Both planners on a pooled job, in both orders and beside the two jobs alone.
use crate::draw::Pair;
use compared::{NoEnd, Outcome, unless_differs};
use job::Job;
use job::refusal::Refusal;

// What is said of a pooled job, and the later end of the two jobs alone, where both have one.
#[derive(Clone, Copy)]
pub struct Pooled {
    pub outcome: Outcome,
    pub alone: Option<u32>,
}

const USE_BEYOND: Outcome = Err(NoEnd::Refused(Refusal::UseBeyond));

const UNLIKE: Outcome = Err(NoEnd::Refused(Refusal::PoolUnlike));

const TOO_LARGE: Outcome = Err(NoEnd::TooLarge);

// What a refused pair says: jobs as small as these are refused by 26 or 33 alone.
fn refused(why: Refusal) -> NoEnd {
    match why {
        Refusal::UseBeyond | Refusal::PoolUnlike => NoEnd::Refused(why),
        _ => NoEnd::Differs,
    }
}

// What both planners say of the job that two become.
fn together(first: Job, second: Job) -> Outcome {
    let pooled = pooling::pool(first, second).map_err(refused)?;
    two_planners::compare(pooled)
}

// Whether the pooled day ends no later than the later of both alone, where both have a plan. Where 33 is told there is
// no pooled day.
fn no_later(pooled: Outcome, alone: Option<u32>) -> bool {
    match (pooled, alone) {
        (_, None) => true,
        (Ok(end), Some(alone)) => end <= alone,
        (Err(_), Some(_)) => pooled == UNLIKE,
    }
}

pub fn compare(pair: &Pair) -> Pooled {
    let first = two_planners::compare(pair.first);
    let second = two_planners::compare(pair.second);
    let alone = match (first, second) {
        (Ok(end), Ok(other)) => Some(end.max(other)),
        _ => None,
    };
    let pooled = together(pair.first, pair.second);
    let other_order = together(pair.second, pair.first);
    if pooled == TOO_LARGE || other_order == TOO_LARGE {
        return Pooled {
            outcome: TOO_LARGE,
            alone,
        };
    }
    let beyond = first == USE_BEYOND || second == USE_BEYOND;
    let as_promised = pooled == other_order
        && (pooled == USE_BEYOND) == beyond
        && !(pooled == UNLIKE && pair.alike)
        && no_later(pooled, alone);
    Pooled {
        outcome: unless_differs(as_promised, pooled),
        alone,
    }
}
