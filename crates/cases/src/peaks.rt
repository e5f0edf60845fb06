// The peaks of a day: for each pool the most that is in use together.
use job::Job;
use std::io;
use timeline::Day;

// The peak of each pool, where the job has any. A pool that the job lacks has none.
pub fn print(rt: &impl Print, job: Job, day: Day) -> io::Result<()> {
    let pools = job.counts.pools;
    if pools != 0 {
        print!(rt; ", peak")?;
    }
    for (k, peak) in day.peaks.iter().enumerate() {
        if k < pools {
            print!(rt; " {peak}")?;
        } else if *peak != 0 {
            print!(rt; ", a peak beyond")?;
        }
    }
    Ok(())
}
