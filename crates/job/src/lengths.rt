// How long the actions of a job last at least, and test 29: the longest lengths stand in the actions.
ghost use Rattle.std.specs.Prelude.{◌≡◌, length};
ghost use Rattle.lists.specs.Lists.{any_below};
ghost use Rattle.job.specs.Job.{job_in, Fits};
ghost use Rattle.job.specs.Lengths.{shortest_by};
ghost use Rattle.job.specs.Valid.{wrong_range, has_wrong_range};

use crate::{Form, Job};

// The shortest length of an action with this longest one, for which a job of this form holds a shortest one.
pub fn shortest(form: Form, held: u8, longest: u8) -> u8
    ensures { result ≡ shortest_by form held longest }
{
    match form {
        Form::Four | Form::Five => longest,
        Form::Six => held,
    }
}

// Whether the shortest length is 0 or over the longest.
fn wrong_range(shortest: u8, longest: u8) -> bool
    ensures { result ≡ wrong_range shortest longest }
{
    (shortest == 0) | (longest < shortest)
}

// Test 29: whether that is so of an action of the job.
pub fn any_wrong_range(job: Job) -> bool
    requires { Fits job.counts }
    ensures { result ≡ any_below (length (job_in job).actions) (has_wrong_range (job_in job)) }
{
    let form = job.form;
    let counts = job.counts;
    let mut found = false;
    for i in 0..counts.actions {
        let action = job.actions[i];
        let least = shortest(form, job.shortest[i], action.duration);
        found |= wrong_range(least, action.duration);
    }
    found
}
