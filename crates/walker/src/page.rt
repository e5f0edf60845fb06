// The plan at a place of the list of a task's shortest plans.
ghost use Rattle.std.specs.Prelude.{◌≡◌};
ghost use Rattle.job.specs.Job.{job_in};
ghost use Rattle.job.specs.Refusal.{first};
ghost use Rattle.job.specs.Valid.{job_rows};
ghost use Rattle.job.specs.Refusal.{pass};
ghost use Rattle.search.specs.Horizons.{until, Whole};
ghost use Rattle.solver.specs.Task.{day_of, TaskFits};
ghost use Rattle.walker.specs.Page.{WholeTask, PageFrom, PageOf};

use crate::walk;
use earliest::set_time;
use job::{Job, resumed};
use jobfile::Layout;
use leaf::Answer;
use pairs::Pair;
use search::horizons;
use solver::Task;
use states::minute;
use tables::layout::{NumberTable, SetTable};
use tables::{Frame, Steps};

// The plan at the place, if the list has one there, from the tables of a whole day; or none, where there is no plan at all.
fn plan_from(
    sets: &[u64],
    numbers: &[u32],
    times: &[u32],
    file: &[u8],
    frame: Frame,
    place: u32,
) -> Option<Option<Answer>>
    requires { Whole sets.now numbers.now times.now frame × (frame.origin ≡ 0) }
    ensures { PageFrom file.now sets.now numbers.now times.now
        frame place result }
{
    let best = horizons::shortest(sets, numbers, times, file, frame)?;
    if minute::wide(frame.horizon) < best.end {
        return None;
    }
    let horizon = (best.end % minute::MINUTES) as u16;
    let mut tails = [0u32; tails::ENTRIES];
    tails::fill(&mut tails, sets, numbers, frame.actions, frame.goal);
    let w = walk::walk_on(
        sets,
        numbers,
        times,
        &tails,
        file,
        horizons::until(frame, horizon),
        Steps::none(),
        frame.start,
        0,
        place,
    );
    Some(w.answer)
}

// The plan at the place of the list of the task, which is of a whole day, if the list has one there; or none, where there
// is no plan at all.
pub fn plan_at(job: Job, task: Task, place: u32) -> Option<Option<Answer>>
    requires { (first (job_rows (job_in job)) ≡ pass) × TaskFits (day_of job task) task × WholeTask task }
    ensures { PageOf (day_of job task) task.goal place result }
{
    let stocks = task.stocks;
    let kept = task.kept;
    let day = resumed::resumed(job, task.start, stocks);
    let mut sets = [0u64; SetTable::ENTRIES];
    let mut numbers = [0u32; NumberTable::ENTRIES];
    tables::fill::fill(&mut sets, &mut numbers, day);
    let mut times = [set_time::NONE; Pair::COUNT];
    let hand = solver::fill_times(&mut times, day, kept, task.first);
    let frame = Frame::of(day, task.goal, task.first, kept);
    cliques::fill(&mut sets, &mut numbers, &times, frame, hand);
    let mut file = [0u8; Layout::FILE];
    let length = writer::write(job, &mut file).ok()?;
    plan_from(&sets, &numbers, &times, &file[..length], frame, place)
}
