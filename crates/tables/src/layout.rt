// Where the search's tables have what: a row for each action first, then a place for each fact and kind of number. The
// two have other columns; a trait of both would be used by no function.
use job::Job;

// The table of sets.
#[derive(Clone, Copy)]
pub struct SetTable {}

impl SetTable {
    // The row of an action: what it needs, what it adds, what it deletes, and the actions that it clashes with.
    pub const ROW: usize = 4;

    pub const ADDS: usize = 1;

    pub const DELETES: usize = 2;

    pub const CLASHES: usize = 3;

    // Behind the rows, for each fact its landmarks, then the facts whose adders never overlap its own.
    pub const MARKS: usize = SetTable::ROW * Job::ACTIONS;

    pub const APART: usize = SetTable::MARKS + Job::FACTS as usize;

    pub const ENTRIES: usize = SetTable::APART + Job::FACTS as usize;
}

// The table of numbers.
#[derive(Clone, Copy)]
pub struct NumberTable {}

impl NumberTable {
    // The row of an action: its duration, what it uses of each pool, and of each store.
    pub const ROW: usize = 9;

    pub const POOLS: usize = 1;

    pub const STORES: usize = NumberTable::POOLS + Job::POOLS;

    // Behind the rows the shares, a row of all facts for each store, then for each pool, and the last for steps.
    pub const SHARES: usize = NumberTable::ROW * Job::ACTIONS;

    pub const SHARE_ROW: usize = Job::FACTS as usize;

    pub const STEPS_ROW: usize = Job::STORES + Job::POOLS;

    pub const SHARE_ROWS: usize = NumberTable::STEPS_ROW + 1;

    // Then the minute at which each pool opens, and for each fact the least minutes of an adder.
    pub const OPENINGS: usize = NumberTable::SHARES
        + NumberTable::SHARE_ROWS * NumberTable::SHARE_ROW;

    pub const LEAST: usize = NumberTable::OPENINGS + Job::POOLS;

    pub const ENTRIES: usize = NumberTable::LEAST + Job::FACTS as usize;
}
