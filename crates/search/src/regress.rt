// The search for one horizon, from event minute to event minute.
ghost use Rattle.std.specs.Prelude.{true, ◌∷◌, ◌<◌};
ghost use Rattle.regression.specs.DeadEnd.{Until};
ghost use Rattle.tables.specs.Tables.{chosen, from_of};
ghost use Rattle.states.specs.States.{next_step, MayStop, OpenIn};
ghost use Rattle.pruning.specs.Missing.{Fresh};
ghost use Rattle.search.specs.Search.{Ready, Answered, NoneFrom};

use leaf::Answer;
use pruning::{carried, missing, tests};
use states::state::State;
use states::{moves, rules};
use tables::Frame;

// With action i stopping at the state's minute, and the actions of `left` not decided.
#[cycle(attempt_choose_regress)]
fn attempt(
    sets: &[u64],
    numbers: &[u32],
    times: &[u32],
    file: &[u8],
    frame: Frame,
    st: State,
    i: u8,
    left: u64,
) -> Option<Answer>
    requires { Ready sets.now numbers.now times.now frame st × (i < frame.actions)
        × MayStop sets.now numbers.now frame st i true × (frame.first < st.minute) }
    ensures { Answered file.now frame
        (NoneFrom file.now sets.now numbers.now times.now frame st
        (OpenIn frame st left) (λ J. next_step J st i ∷ chosen J st.steps)) result }
{
    let next = moves::take(sets, numbers, frame, st, i);
    if !tests::all_needed(sets, frame.actions, next) {
        return None;
    }
    let start = moves::start_of(numbers, i, st.minute);
    if !tests::all_reached(sets, numbers, times, frame, next, start) {
        return None;
    }
    choose(sets, numbers, times, file, frame, next, left)
}

// Decides for the undecided actions which stop at the state's minute, one after the other; then goes back to the event
// before.
#[cycle(attempt_choose_regress)]
fn choose(
    sets: &[u64],
    numbers: &[u32],
    times: &[u32],
    file: &[u8],
    frame: Frame,
    st: State,
    undecided: u64,
) -> Option<Answer>
    requires { Ready sets.now numbers.now times.now frame st × (frame.first < st.minute) }
    ensures { Answered file.now frame
        (NoneFrom file.now sets.now numbers.now times.now frame st
        (OpenIn frame st undecided) (λ J. chosen J st.steps)) result }
{
    let last = moves::event(st.steps, frame, st.minute);
    let mut left = rules::candidates(sets, numbers, frame, st, undecided);
    while carried::in_time(sets, numbers, times, frame, st, left, last) {
        if left == 0 {
            let before = moves::back(sets, numbers, frame, st, last);
            return regress(sets, numbers, times, file, frame, before);
        }
        let i = rules::pick(numbers, left);
        left = facts::difference(left, facts::single(i));
        let answer = attempt(sets, numbers, times, file, frame, st, i, left);
        if answer.is_some() {
            return answer;
        }
    }
    None
}

// Goes on from a state, whose minute is an event: with fewer minutes left at each call.
#[cycle(attempt_choose_regress)]
pub fn regress(
    sets: &[u64],
    numbers: &[u32],
    times: &[u32],
    file: &[u8],
    frame: Frame,
    st: State,
) -> Option<Answer>
    requires { Ready sets.now numbers.now times.now frame st × Fresh st }
    ensures { Answered file.now frame
        (NoneFrom file.now sets.now numbers.now times.now frame st
        (Until (from_of frame) st.minute) (λ J. chosen J st.steps)) result }
{
    if st.minute <= frame.first {
        let steps = st.steps;
        return leaf::finish(file, frame, steps);
    }
    if !missing::suffices(sets, numbers, frame, st) {
        return None;
    }
    let undecided = rules::all(frame.actions);
    choose(sets, numbers, times, file, frame, st, undecided)
}
