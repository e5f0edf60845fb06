// The actions of a random job.
use crate::draw::Facts;
use crate::{Kind, draw};
use job::{Action, Job};

// What it uses of each pool, or of each store: 0 to 3.
fn uses(seed: u64) -> [u32; Job::AMOUNTS] {
    let [first, second, third] = [0, 1, 2].map(|place| u32::from(draw::number(seed, place, 4)));
    [first, second, third, 1]
}

// What it deletes: nothing, what it needs, or facts of their own.
fn deletes(seed: u64, facts: Facts, needs: u64) -> u64 {
    match draw::number(seed, 0, 3) {
        0 => 0,
        1 => needs,
        _ => facts.set(draw::part(seed, 1), 0),
    }
}

// An action with nothing peculiar. No fact is both added and deleted.
fn plain(seed: u64, facts: Facts) -> Action {
    let needs = facts.set(draw::part(seed, 1), 1);
    let adds = facts.set(draw::part(seed, 2), 0);
    let deletes = deletes(draw::part(seed, 3), facts, needs);
    Action {
        duration: 1 + draw::number(seed, 0, 4),
        needs,
        adds,
        deletes: draw::without(deletes, adds),
        pools: uses(draw::part(seed, 4)),
        stores: uses(draw::part(seed, 5)),
    }
}

// The same action where fact 0 is a token: action 0 adds it, and each other action needs and deletes it. What would add
// it otherwise adds fact 1.
fn with_token(action: Action, number: usize) -> Action {
    if number == 0 {
        return Action {
            needs: 0,
            adds: 1,
            deletes: 0,
            ..action
        };
    }
    let adds = draw::without(action.adds, 1) | (action.adds % 2 * 2);
    Action {
        needs: action.needs | 1,
        adds,
        deletes: draw::without(action.deletes, adds) | 1,
        ..action
    }
}

// The same action as a link of a chain: it needs fact `number` and adds the next one.
fn link(action: Action, number: usize) -> Action {
    if 4 <= number {
        return action;
    }
    let adds = 2u64 << number;
    Action {
        duration: 1 + action.duration % 2,
        needs: 1u64 << number,
        adds,
        deletes: draw::without(action.deletes, adds),
        ..action
    }
}

// Action `number` of a job of the kind.
pub fn action(seed: u64, kind: Kind, facts: Facts, number: usize) -> Action {
    let action = plain(seed, facts);
    match kind {
        Kind::Token => with_token(action, number),
        Kind::Chain => link(action, number),
        Kind::Ties => Action {
            duration: 2,
            ..action
        },
        _ => action,
    }
}

// A shortest length of 1 up to the action's own.
pub fn shortest(seed: u64, action: &Action) -> u8 {
    if action.duration == 0 {
        return 0;
    }
    1 + draw::number(seed, 0, action.duration)
}
