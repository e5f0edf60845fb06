// Facts that must be carried back: whether they can hold at the event minute before.
ghost use Rattle.std.specs.Prelude.{◌≡◌, ◌≤◌, ◌<◌, length};
ghost use Rattle.tables.specs.Tables.{Known, Lent};
ghost use Rattle.states.specs.Moves.{NoEventBetween};
ghost use Rattle.pruning.specs.Carried.{FitAll, AddsOf, LatestStart, DeadUnlessCarried};

use earliest::set_time;
use facts::members::Members;
use states::moves;
use states::state::State;
use tables::Frame;
use tables::layout::SetTable;

// What the actions of a set add.
fn adds_of(sets: &[u64], left: u64) -> u64
    requires { length sets.now ≡ 384 }
    ensures { AddsOf sets.now left 64 result }
{
    let mut set: u64 = 0;
    for k in Members::of(left) {
        set = facts::union(sets[k as usize * SetTable::ROW + SetTable::ADDS], set);
    }
    set
}

// The latest of a minute and the starts of the actions of a set, should they stop at the state's minute.
fn latest_start(numbers: &[u32], frame: Frame, st: State, left: u64, from: u16) -> u16
    requires { (length numbers.now ≡ 1220) × (frame.actions ≤ 64) × FitAll numbers.now frame st left
        × (from < st.minute) }
    ensures { LatestStart numbers.now left st.minute from 64 result }
{
    let mut m = from;
    for k in Members::of(left) {
        m = moves::later_start(m, moves::start_of(numbers, k, st.minute), st.minute);
    }
    m
}

// Whether what is wanted, and added neither now nor by the actions left nor by kept steps since the event minute
// before, and what the steps that run in the minute before need, can hold at that event minute.
pub fn in_time(
    sets: &[u64],
    numbers: &[u32],
    times: &[u32],
    frame: Frame,
    st: State,
    left: u64,
    last: u16,
) -> bool
    requires { Lent sets.now numbers.now frame.actions × Known frame.actions st.steps
        × (length times.now ≡ 2080) × (frame.facts ≤ 64) × FitAll numbers.now frame st left
        × (frame.first < st.minute) × Known frame.actions frame.kept × (frame.origin ≤ frame.first)
        × (frame.first ≤ last) × (last < st.minute) }
    ensures { NoEventBetween frame.handovers frame.pools st.steps last st.minute
        → DeadUnlessCarried sets.now numbers.now times.now frame st left result }
{
    let event = latest_start(numbers, frame, st, left, last);
    let minute = u32::from(event);
    let kept = frame.kept;
    let given = moves::gone(
        sets,
        numbers,
        frame.actions,
        kept,
        minute,
        u32::from(st.minute),
    );
    let now = facts::union(st.at.added, adds_of(sets, left));
    let added = facts::union(now, given);
    let carried = facts::union(facts::difference(st.wanted, added), st.at.held);
    set_time::by(
        times,
        frame.facts,
        carried,
        minute - u32::from(frame.origin),
    )
}
