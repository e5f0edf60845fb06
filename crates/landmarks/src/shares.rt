// Shares: what a fact takes of each store, of the minutes of each pool, and of the steps, at least, in parts of 2,520
// to the unit. Nine rows of 64 numbers, four for stores, four for pools and one for steps, behind the numbers of the
// actions: found, and then tested.
ghost use Rattle.std.specs.Prelude.{◌≡◌, true, ◌+◌, ◌*◌, ◌^◌, ◌≤◌, ◌<◌, length};
ghost use Rattle.tables.specs.Tables.{duration_at, Numbers};
ghost use Rattle.landmarks.specs.Landmarks.{sum_over};
ghost use Rattle.landmarks.specs.Tables.{KeptBefore, PutFrom, share_from, row_at, weight_at};
ghost use Rattle.landmarks.specs.Tables.{WithinAt, Within, WithinAll};

use facts::members::Members;
use job::Job;
use tables::layout::{NumberTable, SetTable};

// Parts of a unit: a share of one unit among up to ten facts is a whole number of them.
pub const SCALE: u64 = 2520;

// The sum over the facts of a set of the numbers from place `at` on.
pub fn sum(numbers: &[u32], at: usize, set: u64) -> u64
    requires { (length numbers.now ≡ 1220) × (at + 64 ≤ 1220) }
    ensures { (result ≡ sum_over (share_from numbers.now at) 64 set) × (result ≤ 2 ^ 38) }
{
    let mut all: u64 = 0;
    for p in Members::of(set) {
        all += u64::from(numbers[at + p as usize]);
    }
    all
}

// What action i uses of the row's store, or its minutes times what it uses of the row's pool, or one for a step.
fn weight(numbers: &[u32], i: usize, row: usize) -> u64
    requires { (length numbers.now ≡ 1220) × (i < 64) × (row < 9) × (duration_at numbers.now i ≤ 255) }
    ensures { (result ≡ weight_at numbers.now i row) × (result ≤ 2 ^ 40) }
{
    if row < Job::STORES {
        return u64::from(numbers[i * NumberTable::ROW + NumberTable::STORES + row]);
    }
    if row < NumberTable::STEPS_ROW {
        let amount = numbers[i * NumberTable::ROW + NumberTable::POOLS + (row - Job::STORES)];
        return u64::from(amount) * u64::from(numbers[i * NumberTable::ROW]);
    }
    1
}

// Whether the shares of what action i adds are within its weight.
fn within_at(sets: &[u64], numbers: &[u32], start: u64, row: usize, i: usize) -> bool
    requires { (length sets.now ≡ 384) × (length numbers.now ≡ 1220) × (i < 64) × (row < 9)
        × (duration_at numbers.now i ≤ 255) }
    ensures { result ≡ true → WithinAt sets.now numbers.now start row i }
{
    let new = facts::difference(sets[i * SetTable::ROW + SetTable::ADDS], start);
    let at = NumberTable::SHARES + row * NumberTable::SHARE_ROW;
    sum(numbers, at, new) <= SCALE * weight(numbers, i, row)
}

// The same for every action.
fn within(sets: &[u64], numbers: &[u32], actions: usize, start: u64, row: usize) -> bool
    requires { (length sets.now ≡ 384) × Numbers numbers.now actions × (row < 9) }
    ensures { result ≡ true → Within sets.now numbers.now actions start row }
{
    (0..actions).all(|i| within_at(sets, numbers, start, row, i))
}

// The weight in equal shares, rounded down, or the largest that an entry can have.
fn share(weight: u64, among: u32) -> u32
    requires { weight ≤ 2 ^ 40 }
{
    if among == 0 {
        return 0;
    }
    u32::try_from(SCALE * weight / u64::from(among)).unwrap_or(u32::MAX)
}

// Leaves the lesser of an entry and a share for the facts of a set, from place `at` on.
fn lower(numbers: &mut [u32], at: usize, set: u64, share: u32)
    requires { (length numbers.old ≡ 1220) × (at + 64 ≤ 1220) }
    ensures { KeptBefore at 1220 numbers.old numbers.new }
{
    for p in Members::of(set) {
        let entry = at + p as usize;
        numbers[entry] = numbers[entry].min(share);
    }
}

// Puts a number into each of 64 entries from place `at` on.
fn put(numbers: &mut [u32], at: usize, number: u32)
    requires { (length numbers.old ≡ 1220) × (at + 64 ≤ 1220) }
    ensures { PutFrom 64 at number numbers.old numbers.new }
{
    numbers[at..at + NumberTable::SHARE_ROW].fill(number);
}

// Puts the least share of each fact into the row.
fn search(numbers: &mut [u32], sets: &[u64], actions: usize, start: u64, row: usize)
    requires { (length sets.now ≡ 384) × Numbers numbers.old actions × (row < 9) }
    ensures { KeptBefore (row_at row) 1220 numbers.old numbers.new }
{
    let at = NumberTable::SHARES + row * NumberTable::SHARE_ROW;
    put(numbers, at, u32::MAX);
    for i in 0..actions {
        let new = facts::difference(sets[i * SetTable::ROW + SetTable::ADDS], start);
        let part = share(weight(numbers, i, row), new.count_ones());
        lower(numbers, at, new, part);
    }
}

// Fills one row, and puts it to nothing should it not pass the test.
fn fill_row(numbers: &mut [u32], sets: &[u64], actions: usize, start: u64, row: usize)
    requires { (length sets.now ≡ 384) × Numbers numbers.old actions × (row < 9) }
    ensures { KeptBefore (row_at row) 1220 numbers.old numbers.new
        × Within sets.now numbers.new actions start row }
{
    search(numbers, sets, actions, start, row);
    if !within(sets, numbers, actions, start, row) {
        let at = NumberTable::SHARES + row * NumberTable::SHARE_ROW;
        put(numbers, at, 0);
    }
}

// Fills all rows.
pub fn fill(numbers: &mut [u32], sets: &[u64], actions: usize, start: u64)
    requires { (length sets.now ≡ 384) × Numbers numbers.old actions }
    ensures { KeptBefore 576 1220 numbers.old numbers.new
        × WithinAll sets.now numbers.new actions start }
{
    for row in 0..NumberTable::SHARE_ROWS {
        fill_row(numbers, sets, actions, start, row);
    }
}
