// The writer: a job and a lent slice in; the file at the front of the slice, or the first refusal of the job
// and of 23.
#![tactic(auto)]

mod encode; // the parts of a file

ghost use Rattle.job.specs.Job.{job_in};
ghost use Rattle.writer.specs.Wrote.{Wrote};

use job::Job;
use job::refusal::Refusal;
use job::validate::validate;

// Writes the file of the job to the front of the slice and returns its length. A refusal changes no byte.
pub fn write(job: Job, out: &mut [u8]) -> Result<usize, Refusal>
    ensures { Wrote (job_in job) out.old result out.new }
{
    validate(job)?;
    let layout = encode::layout(job);
    let places = layout.places();
    if out.len() < places.end {
        return Err(Refusal::FileSlice);
    }
    encode::file(out, job, layout, places);
    Ok(places.end)
}
