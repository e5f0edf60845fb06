// The job of what is left of a day.
ghost use Rattle.std.specs.Prelude.{◌≡◌};
ghost use Rattle.job.specs.Resumed.{resumed_value, unreserved_value};

use crate::Job;

// The job with other facts at its start and other availabilities of its stores.
pub fn resumed(job: Job, start: u64, stores: [u32; Job::STORES]) -> Job
    ensures { result ≡ resumed_value job start stores }
{
    let mut rest = job;
    rest.start = start;
    rest.stores = stores;
    rest
}

// The job with no part of its stores kept back: what is left of an allowed total may all be used up.
pub fn without_reserve(job: Job) -> Job
    ensures { result ≡ unreserved_value job }
{
    let mut rest = job;
    rest.reserve = 0;
    rest
}
