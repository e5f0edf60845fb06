// Two jobs pooled to one: that of the record's file, and that of the next file.
use crate::Record;
use crate::call::Call;
use crate::calls::{print_plan, refused, unless};
use crate::lending::{ROOM, leading_number, rest};
use job::Job;
use lent::{FILL, front, front_mut};
use made_jobs::parts::same_everywhere;
use std::io;

// The bytes of the next file's length, which stands before it; the file of the pooled job stands behind it.
const LENGTH: usize = 2;

// The pooled job is planned, or written into a slice of so many bytes.
pub fn print(
    rt: &impl Print,
    first: Job,
    call: Call,
    record: Record,
    given: &[u8],
) -> io::Result<()> {
    let length = leading_number(given, LENGTH) as usize;
    let behind = rest(given, LENGTH);
    let second = reader::read(front(behind, length));
    match second.and_then(|second| pooling::pool(first, second)) {
        Ok(job) if call == Call::PlanPooled => print_plan(rt, job, record.room),
        Ok(job) => print_written(rt, job, record.room, rest(behind, length)),
        Err(why) => refused(rt, why),
    }
}

fn print_written(rt: &impl Print, job: Job, room: usize, expected: &[u8]) -> io::Result<()> {
    let mut slice = [FILL; ROOM];
    match writer::write(job, front_mut(&mut slice, room)) {
        Ok(size) => {
            print!(rt; "{size} bytes")?;
            unless(rt, is_file(&slice, size, expected), ", wrong bytes")?;
            unless(rt, is_job(job, expected), ", job different")
        }
        Err(why) => {
            refused(rt, why)?;
            unless(rt, lent::kept(&slice, 0), ", wrong bytes")
        }
    }
}

// Whether the first bytes, so many, are the expected file, and the rest is as before.
fn is_file(slice: &[u8], size: usize, expected: &[u8]) -> bool {
    front(slice, size) == expected && lent::kept(slice, size)
}

// Whether the job is in every place the one of the expected file, or the job of zeros where that is refused.
fn is_job(job: Job, expected: &[u8]) -> bool {
    same_everywhere(job, reader::read(expected).unwrap_or(Job::zero()))
}
