// What the programs print: a day with its end, its number of steps, the peak of each pool and the steps; or by which
// number a question is refused.
#![tactic(auto)]

ghost use Rattle.std.specs.Prelude.{◌≡◌, ◌≢◌, ◌≤◌, Err, IfOk, Ok};
ghost use Rattle.std.specs.IoError.{error_kind};

use job::Job;
use job::refusal::Refusal;
use std::io;
use std::io::ErrorKind;
use timeline::{Day, Plan};

// What a program's printing came to. Where the reader has left, as `head` does, nobody wants the rest: no failure.
pub fn unless_left(printed: io::Result<()>) -> io::Result<()>
    ensures left { (why : _) → printed ≡ Err why → error_kind why ≡ ErrorKind.BrokenPipe → result ≡ Ok tt }
    ensures other { ((why : _) → printed ≡ Err why → error_kind why ≢ ErrorKind.BrokenPipe) → result ≡ printed }
{
    match printed {
        Err(why) if why.kind() == ErrorKind::BrokenPipe => Ok(()),
        other => other,
    }
}

// A word and a number, on a line of their own.
pub fn print_line(rt: &impl Print, word: &[u8], x: u64) -> io::Result<()> {
    rt.write_all(word)?;
    println!(rt; "{x}")
}

// Why there is no answer.
pub fn print_refusal(rt: &impl Print, why: Refusal) -> io::Result<()> {
    println!(rt; "refused {}", u8::from(why))
}

// The duration of an action. A plan that is handed out has only actions of the job.
fn duration(job: &Job, action: u8) -> u8 {
    job.actions
        .get(usize::from(action))
        .map_or(0, |found| found.duration)
}

// The steps in plan order: the start of each, its end and its action.
fn print_steps(rt: &impl Print, job: &Job, steps: usize, plan: [u8; Plan::BYTES]) -> io::Result<()>
    requires { steps ≤ 32 }
{
    for step in plan[..steps * Plan::STEP].chunks_exact(Plan::STEP) {
        let action = step[0];
        let start = u32::from(u16::from_le_bytes([step[1], step[2]]));
        let stop = start + u32::from(duration(job, action));
        println!(rt; "{start} {stop} {action}")?;
    }
    Ok(())
}

// The peak of each pool of the job, on one line.
fn print_peaks(rt: &impl Print, job: &Job, day: Day) -> io::Result<()> {
    print!(rt; "peak")?;
    for peak in day.peaks.iter().take(job.counts.pools) {
        print!(rt; " {peak}")?;
    }
    println!(rt)
}

// A day of the job with its plan: its end, its number of steps, the peak of each pool, then the steps. Or why there is
// no day.
pub fn print_day(
    rt: &impl Print,
    job: Job,
    day: Result<Day, Refusal>,
    plan: [u8; Plan::BYTES],
) -> io::Result<()>
    requires { IfOk day (λ day. day.steps ≤ 32) }
{
    match day {
        Ok(day) => {
            print_line(rt, b"makespan ", u64::from(day.end))?;
            print_line(rt, b"steps ", day.steps as u64)?;
            print_peaks(rt, &job, day)?;
            print_steps(rt, &job, day.steps, plan)
        }
        Err(why) => print_refusal(rt, why),
    }
}

// The answer for the job of a file: the day that is planned for it, with the plan; or why there is none.
pub fn print_answer<F: FnOnce(Job, &mut [u8]) -> Result<Day, Refusal>>(
    rt: &impl Print,
    file: &[u8],
    plan_day: F,
) -> io::Result<()>
    requires callable { F.IsAlwaysCallable plan_day }
    requires few { (job : _) (out : _) (day : _) (left : _) → F.post plan_day job out day left → IfOk day (λ day. day.steps ≤ 32) }
{
    match reader::read(file) {
        Ok(job) => {
            let mut plan = [0u8; Plan::BYTES];
            let day = plan_day(job, &mut plan);
            print_day(rt, job, day, plan)
        }
        Err(why) => print_refusal(rt, why),
    }
}
