// A random job, and plans of it that pass 12 to 15. Few of them pass 16 to 20: joining asks nothing more.
ghost use Rattle.std.specs.Prelude.{◌<◌};

use job::Job;
use lent::first_steps;
use random_jobs::draw;
use timeline::Plan;

// The places of the draws. No other draw of a seed has them.
const DEADLINE: u64 = 60;

const STEPS: u64 = 61;

const MINUTES: u64 = 62;

const ACTION: u64 = 63;

// Every plan that is drawn ends by this minute: 17 steps, 6 minutes apart at most, and no action of a random job is
// longer than the rest.
const ENOUGH: u32 = 110;

const ENOUGH_FOR_THREE: u32 = 400;

// The job of a seed, with the whole day's time.
pub fn job(seed: u64) -> Job {
    let mut job = random_jobs::roomy_job(seed);
    job.deadline = Job::DEADLINE;
    job
}

// A deadline for plans that joined end at this minute, where there is time: in every other seed about that minute, and
// otherwise one that may be too early for three plans, or for two.
pub fn deadline(seed: u64, end: u32) -> u16 {
    let minute = if seed % 2 == 0 {
        end % ENOUGH_FOR_THREE + u32::from(draw::number(seed, DEADLINE, 3))
    } else {
        ENOUGH + u32::from(draw::number(seed, DEADLINE, 150))
    };
    if minute <= ENOUGH {
        return ENOUGH as u16;
    }
    ((minute - 1) % ENOUGH_FOR_THREE) as u16
}

// How many actions of the job the plans have: two, or one where the job has no more.
fn actions(job: &Job) -> u8
    ensures { 0 < result }
{
    if 1 < job.counts.actions { 2 } else { 1 }
}

// Writes a plan of 0 to 17 steps to these bytes, each the same number of minutes behind the one before, and returns it.
pub fn plan<'b>(job: &Job, seed: u64, bytes: &'b mut [u8; Plan::BYTES]) -> &'b [u8] {
    let actions = actions(job);
    let steps = usize::from(draw::number(seed, STEPS, 18));
    let apart = 1 + draw::number(seed, MINUTES, 6);
    let mut start = 0u8;
    for (k, step) in bytes
        .as_chunks_mut::<{ Plan::STEP }>()
        .0
        .iter_mut()
        .take(steps)
        .enumerate()
    {
        *step = [
            draw::number(draw::part(seed, k as u64), ACTION, actions),
            start,
            0,
        ];
        start = start.wrapping_add(apart);
    }
    first_steps(bytes, steps)
}
