// A crew, and the jobs that it and the day of `beyond` become.
use crate::jobs;
use job::{Action, Job};
use made_jobs::parts;

// The one action of the crew, with these facts.
fn crew_action(needs: u64, adds: u64) -> Action {
    Action {
        pools: [1, 6, 0, 0],
        stores: [2, 8, 0, 0],
        ..parts::action(4, needs, adds, 0)
    }
}

// The job with these pools and stores, two of each, and no actions yet.
fn geared(job: Job, pools: [u32; Job::POOLS], stores: [u32; Job::STORES]) -> Job {
    Job {
        pools,
        stores,
        ..parts::with_counts(job, 2, 2, 0)
    }
}

// A crew with a pool and a store more than the day has.
pub fn crew() -> Job {
    let job = geared(
        parts::empty(2, 20, 0b10, 0b01),
        [5, 7, 0, 0],
        [11, 13, 0, 0],
    );
    parts::with_action(job, crew_action(0b10, 0b01))
}

// The head and the gear of the day and the crew together.
fn pooled_gear(start: u64, goal: u64) -> Job {
    geared(
        parts::empty(5, 20, start, goal),
        [7, 7, 0, 0],
        [14, 13, 0, 0],
    )
}

// The day, and the crew behind its three facts.
pub fn day_and_crew() -> Job {
    let two = parts::with_two(
        pooled_gear(0b10_001, 0b01_110),
        jobs::action(3, 0b001, 0b010, 0, 1, 1),
        jobs::action(2, 0b010, 0b100, 0, 1, 1),
    );
    parts::with_action(two, crew_action(0b10_000, 0b01_000))
}

// The crew, and the day behind its two facts.
pub fn crew_and_day() -> Job {
    let one = parts::with_action(pooled_gear(0b001_10, 0b110_01), crew_action(0b10, 0b01));
    parts::with_two(
        one,
        jobs::action(3, 0b001_00, 0b010_00, 0, 1, 1),
        jobs::action(2, 0b010_00, 0b100_00, 0, 1, 1),
    )
}

// The day, and another one behind its three facts.
pub fn two_days() -> Job {
    let job = parts::with_pool(parts::empty(6, 10, 0b001_001, 0b110_110), 4);
    let two = parts::with_two(
        parts::with_store(job, 6),
        jobs::action(3, 0b001, 0b010, 0, 1, 1),
        jobs::action(2, 0b010, 0b100, 0, 1, 1),
    );
    parts::with_two(
        two,
        jobs::action(3, 0b001_000, 0b010_000, 0, 1, 1),
        jobs::action(2, 0b010_000, 0b100_000, 0, 1, 1),
    )
}
