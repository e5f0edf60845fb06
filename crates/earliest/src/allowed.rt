// Which actions may be chosen, alone or together.
ghost use Rattle.std.specs.Prelude.{◌≡◌, ◌+◌, ◌≤◌};
ghost use Rattle.job.specs.Valid.{over};
ghost use Rattle.earliest.specs.Sweep.{fits_alone_in, fit_together_in, is_longer, MayJoin};

use job::{Action, Job};

// Whether the two uses together are more than there is.
fn exceeded(available: u32, first: u32, second: u32) -> bool
    ensures { result ≡ over available (first + second) }
{
    u64::from(available) < u64::from(first) + u64::from(second)
}

// Whether the two use no more of each pool than there is.
fn fit_together(pools: usize, available: [u32; Job::POOLS], a: Action, b: Action) -> bool
    requires { pools ≤ 4 }
    ensures { result ≡ fit_together_in pools available a b }
{
    for k in 0..pools {
        if exceeded(available[k], a.pools[k], b.pools[k]) {
            return false;
        }
    }
    true
}

// Whether the action uses no more of each pool than there is: it fits together with one that uses nothing.
pub fn fits_alone(pools: usize, available: [u32; Job::POOLS], a: Action) -> bool
    requires { pools ≤ 4 }
    ensures { result ≡ fits_alone_in pools available a }
{
    fit_together(pools, available, a, Action::unused())
}

// Whether action i is the longer one of i and j. Of two equally long ones it is the one with the higher number, so that
// two actions are tried once.
fn is_longer(duration: u8, other: u8, i: usize, j: usize) -> bool
    ensures { result ≡ is_longer duration other i j }
{
    (other, j) < (duration, i)
}

// Whether actions i and j are a choice, i the longer one.
pub fn may_join(
    pools: usize,
    available: [u32; Job::POOLS],
    i: usize,
    j: usize,
    a: Action,
    b: Action,
) -> bool
    requires { pools ≤ 4 }
    ensures { MayJoin pools available i j a b result }
{
    if !is_longer(a.duration, b.duration, i, j) {
        return false;
    }
    if timeline::hinders(a, b) | timeline::hinders(b, a) {
        return false;
    }
    fit_together(pools, available, a, b)
}
