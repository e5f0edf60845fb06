// Whether a listed plan can begin with some steps. Where one of these says no, none does.
ghost use Rattle.std.specs.Prelude.{◌≡◌, ◌≤◌, ◌<◌, length};
ghost use Rattle.tables.specs.Tables.{Lent, Known};
ghost use Rattle.search.specs.Horizons.{Whole};
ghost use Rattle.walker.specs.Walk.{for_rules, behind, NeedsAllow, RulesAllow, StepsAllow, SearchAllows, Kept};

use crate::spare;
use search::horizons;
use states::{minute, moves};
use tables::layout::SetTable;
use tables::{Frame, Steps};

// A minute after every stop.
const LAST: u32 = 66_000;

// Whether the action is one of the job's, what it needs holds, and something that it adds does not hold yet and can be
// of use by the horizon.
pub fn needs_allow(
    sets: &[u64],
    numbers: &[u32],
    tails: &[u32],
    actions: usize,
    horizon: u16,
    held: u64,
    a: u8,
    start: u16,
) -> bool
    requires { Lent sets.now numbers.now actions × (length tails.now ≡ 64) }
    ensures { NeedsAllow sets.now numbers.now tails.now actions horizon held a
        start result }
{
    if actions <= a as usize {
        return false;
    }
    let at = a as usize * SetTable::ROW;
    if !facts::subset(sets[at], held) {
        return false;
    }
    let new = facts::difference(sets[at + SetTable::ADDS], held);
    minute::stop(numbers, a, start) + tails::least(tails, new) <= u32::from(horizon)
}

// The frame without a goal.
fn for_rules(frame: Frame) -> Frame
    ensures { result ≡ for_rules frame }
{
    Frame { goal: 0, ..frame }
}

// Whether the steps keep the rules.
fn rules_allow(file: &[u8], frame: Frame, steps: Steps) -> bool
    requires { steps.count ≤ 32 }
    ensures { RulesAllow file.now frame steps result }
{
    leaf::finish(file, for_rules(frame), steps).is_some()
}

// Whether no step is spare and the steps keep the rules.
pub fn steps_allow(
    sets: &[u64],
    numbers: &[u32],
    tails: &[u32],
    file: &[u8],
    frame: Frame,
    steps: Steps,
) -> bool
    requires { Lent sets.now numbers.now frame.actions × Known frame.actions steps
        × (length tails.now ≡ 64) }
    ensures { StepsAllow file.now sets.now numbers.now tails.now
        frame steps result }
{
    if !spare::none_spare(sets, numbers, tails, frame.actions, frame.horizon, steps) {
        return false;
    }
    rules_allow(file, frame, steps)
}

// The frame for plans that begin with the steps, the last of which is of this action and starts at this minute; new
// steps stand behind it.
fn behind(frame: Frame, steps: Steps, given: u64, start: u16, number: u8) -> Frame
    requires { number < 64 }
    ensures { result ≡ behind frame steps given start number }
{
    Frame {
        first: start,
        least: number + 1,
        kept: steps,
        given,
        ..frame
    }
}

// Whether an accepted plan that ends by the horizon begins with the steps.
pub fn search_allows(
    sets: &[u64],
    numbers: &[u32],
    times: &[u32],
    file: &[u8],
    frame: Frame,
    steps: Steps,
    start: u16,
    number: u8,
) -> bool
    requires { Whole sets.now numbers.now times.now frame × Kept frame steps × (number < 64)
        × (frame.origin ≡ 0) }
    ensures { SearchAllows file.now sets.now numbers.now times.now
        frame steps start number result }
{
    let given = moves::gone(sets, numbers, frame.actions, steps, 0, LAST);
    let begun = behind(frame, steps, given, start, number);
    horizons::solve(sets, numbers, times, file, begun).is_some()
}
