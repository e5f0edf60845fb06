// Cliques: facts whose adders never overlap, so that adding them takes the sum of their least minutes.
#![tactic(auto)]

mod apart; // for each fact the facts whose adders never overlap its own
mod least; // for each fact the least minutes of an adder

ghost use Rattle.std.specs.Prelude.{◌≡◌, true, ◌≤◌, ◌<◌, length, IfSome};
ghost use Rattle.facts.specs.FactSet.{has};
ghost use Rattle.tables.specs.Tables.{Numbers};
ghost use Rattle.landmarks.specs.Tables.{KeptBefore};
ghost use Rattle.landmarks.specs.Marked.{WithinLimits};
ghost use Rattle.cliques.specs.Cliques.{Remaining, CliqueMinutes};
ghost use Rattle.cliques.specs.Marked.{MarkedTables};

use facts::members::Members;
use job::Job;
use tables::Frame;
use tables::layout::{NumberTable, SetTable};
use tables::longer::longer;

// No plan is longer than a day: a clique that takes more need not be added up further.
const DAY: u64 = Job::DEADLINE as u64;

// Puts landmarks, shares, openings and cliques behind the tables of the actions.
pub fn fill(sets: &mut [u64], numbers: &mut [u32], times: &[u32], frame: Frame, start: u64)
    requires { (length sets.old ≡ 384) × Numbers numbers.old frame.actions × WithinLimits times.now frame }
    ensures { KeptBefore 256 384 sets.old sets.new
        × KeptBefore 576 1220 numbers.old numbers.new
        × MarkedTables sets.new numbers.new times.now frame start }
{
    landmarks::fill(sets, numbers, times, frame, start);
    apart::fill(sets, numbers, times, frame, start);
    least::fill(numbers, sets, frame.actions);
}

// The fact of a set with the most minutes, none where the set is empty.
fn longest(numbers: &[u32], set: u64) -> Option<u8>
    requires { length numbers.now ≡ 1220 }
    ensures { IfSome result (λ q. (q < 64) × (has set q ≡ true)) }
{
    let mut best = None;
    for q in Members::of(set) {
        best = Some(match best {
            Some(first) => longer(numbers, NumberTable::LEAST, 1, first, q),
            None => q,
        });
    }
    best
}

// The allowed fact to be taken next, none where none is left or the sum is above a day.
fn pick(numbers: &[u32], allowed: u64, sum: u64) -> Option<u8>
    requires { length numbers.now ≡ 1220 }
    ensures { IfSome result (λ q. (q < 64) × (has allowed q ≡ true) × (sum ≤ 1440)) }
{
    if DAY < sum {
        return None;
    }
    longest(numbers, allowed)
}

// The allowed facts that are apart from q.
fn remaining(sets: &[u64], allowed: u64, q: u8) -> u64
    requires { (length sets.now ≡ 384) × (q < 64) }
    ensures { Remaining sets.now allowed q result }
{
    let others = facts::difference(allowed, facts::single(q));
    facts::common(others, sets[SetTable::APART + q as usize])
}

// The minutes of a clique of the set: of the fact with the most minutes, of the one with the most of those apart from
// it, and so on.
pub fn minutes(sets: &[u64], numbers: &[u32], set: u64) -> u64
    requires { (length sets.now ≡ 384) × (length numbers.now ≡ 1220) }
    ensures { CliqueMinutes sets.now numbers.now set result }
{
    let mut sum: u64 = 0;
    let mut allowed = set;
    while let Some(q) = pick(numbers, allowed, sum) {
        sum += u64::from(numbers[NumberTable::LEAST + q as usize]);
        allowed = remaining(sets, allowed, q);
    }
    sum
}
