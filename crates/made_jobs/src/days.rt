// The jobs of document 01's "Days to try it on", by the numbers of the cases.
use crate::parts::{action, empty, using, with_action, with_pool, with_store, with_two};
use job::Job;

pub fn case_2(deadline: u16) -> Job {
    let job = with_action(
        empty(5, deadline, 0b00011, 0b11000),
        action(3, 0b00001, 0b01000, 0),
    );
    with_two(
        job,
        action(2, 0b00010, 0b00100, 0),
        action(5, 0b00100, 0b10000, 0),
    )
}

// Case 4, with so much of the pool.
pub fn case_4(deadline: u16, pool: u32) -> Job {
    let first = using(action(2, 0, 0b01, 0), 1, 0);
    let second = using(action(2, 0, 0b10, 0), 1, 0);
    with_two(
        with_pool(empty(2, deadline, 0b00, 0b11), pool),
        first,
        second,
    )
}

pub fn case_6(deadline: u16) -> Job {
    let there = action(2, 0b01, 0b10, 0b01);
    let back = action(1, 0b10, 0b01, 0);
    with_two(empty(2, deadline, 0b01, 0b11), there, back)
}

// Case 7, with so much of the store.
pub fn case_7(store: u32) -> Job {
    let first = using(action(2, 0, 0b01, 0), 0, 2);
    let second = using(action(2, 0, 0b10, 0), 0, 2);
    with_two(with_store(empty(2, 4, 0b00, 0b11), store), first, second)
}

// Case 13: no action adds fact 1, the goal.
pub fn case_13(deadline: u16) -> Job {
    with_action(empty(2, deadline, 0b00, 0b10), action(1, 0, 0b01, 0))
}
