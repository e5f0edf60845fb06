// Jobs whose numbers tell every place from every other.
use job::{Action, Job};
use made_jobs::parts;

// Amounts that differ from place to place: `beyond` from the count on.
fn amounts(count: usize, number: u16, beyond: u32) -> [u32; 4] {
    let first = 900_000 + u32::from(number);
    let mut amounts = [first, first + 1, first + 2, first + 3];
    amounts[count.min(4)..].fill(beyond);
    amounts
}

// An action within the counts, unlike every other.
fn filled_action(at: u8, pools: usize, stores: usize, beyond: u32) -> Action {
    let number = u16::from(at) * 256;
    Action {
        duration: 255 - at,
        needs: 0x8070_6050_4030_2000 + u64::from(at),
        adds: 0x1122_3344_5566_7700 + u64::from(at),
        deletes: 0xEEDD_CCBB_AA99_8840,
        pools: amounts(pools, number, beyond),
        stores: amounts(stores, number + 128, beyond),
    }
}

// An action beyond the counts: length 0, and one number in every other place.
fn idle_action(number: u32) -> Action {
    Action {
        duration: 0,
        needs: u64::from(number),
        adds: u64::from(number),
        deletes: u64::from(number),
        pools: [number; 4],
        stores: [number; 4],
    }
}

// 64 facts and so many pools, stores and actions; the actions are still all zero.
fn filled_resources(pools: usize, stores: usize, actions: usize, beyond: u32) -> Job {
    let none = parts::empty(64, 1_439, 0x0123_4567_89AB_CDEF, 0xFEDC_BA98_7654_3210);
    Job {
        pools: amounts(pools, 65_000, beyond),
        stores: amounts(stores, 65_100, beyond),
        ..parts::with_counts(none, pools, stores, actions)
    }
}

// A job of so many pools, stores and actions. `beyond` stands in each place beyond the counts.
pub fn filled(pools: usize, stores: usize, actions: usize, beyond: u32) -> Job {
    let mut job = filled_resources(pools, stores, actions, beyond);
    for (at, action) in (0u8..64).zip(job.actions.iter_mut()) {
        *action = if usize::from(at) < actions {
            filled_action(at, pools, stores, beyond)
        } else {
            idle_action(beyond)
        };
    }
    job
}
