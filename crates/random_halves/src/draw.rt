// A random small job and a halfway set.
use job::Job;
use random_jobs::draw;

// The place of the draw of a halfway set. No other draw of a seed has it.
const HALFWAY: u64 = 67;

#[derive(Clone, Copy)]
pub struct Asked {
    pub job: Job,
    pub halfway: u64,
}

// The job of a seed and a halfway set. In seven seeds of eight no action uses more of a pool or store than there is, and
// the deadline is later.
pub fn asked_of(seed: u64) -> Asked {
    let set = draw::part(seed, HALFWAY);
    let mut job = random_jobs::random_job(seed);
    if 0 < seed % 8 {
        job = random_jobs::roomy_job(seed);
        job.deadline = job
            .deadline
            .wrapping_add(u16::from(draw::number(set, 4, 4)));
    }
    Asked {
        job,
        halfway: random_jobs::other_goal(set, &job),
    }
}
