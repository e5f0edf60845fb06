// One action of a body, taken apart; and amounts, which actions and other bodies have. Nothing is tested here.
ghost use Rattle.std.specs.Prelude.{◌≡◌, ◌/◌, ◌<◌, ◌≤◌, length, get_or};
ghost use Rattle.lists.specs.Lists.{filled};
ghost use Rattle.encoding.specs.Bytes.{from_bytes, split};
ghost use Rattle.job.specs.Job.{action_value};
ghost use Rattle.jobfile.specs.File.{action_size, action_of};
ghost use Rattle.reader.specs.View.{action_at};

use encoding::read_number;
use job::{Action, Job};
use jobfile::Layout;

// The amount of 4 bytes at place i, 0 where the bytes end before it.
fn amount(bytes: &[u8], i: usize) -> u32
    requires { i < 4 }
    ensures { result ≡ get_or (split 4 from_bytes bytes.now) i 0 }
{
    if bytes.len() / Layout::AMOUNT <= i {
        return 0;
    }
    read_number(bytes, i * Layout::AMOUNT, Layout::AMOUNT) as u32
}

// Amounts of 4 bytes each, at most four. Place by place: a loop would be compiled to a call that clears the array and
// one that copies it, for each of 128 arrays of a file.
pub fn amounts(bytes: &[u8]) -> [u32; Job::AMOUNTS]
    requires { length bytes.now ≤ 16 }
    ensures { result ≡ filled 4 0 (split 4 from_bytes bytes.now) }
{
    let first = amount(bytes, 0);
    let second = amount(bytes, 1);
    let third = amount(bytes, 2);
    let fourth = amount(bytes, 3);
    [first, second, third, fourth]
}

// One action of a job with so many pools and stores.
fn action(bytes: &[u8], pools: usize, stores: usize) -> Action
    requires { (pools ≤ 4) × (stores ≤ 4) × (length bytes.now ≡ action_size pools stores) }
    ensures { result ≡ action_value (action_of pools stores bytes.now) }
{
    let uses = Layout::ACTION;
    let middle = uses + Layout::AMOUNT * pools;
    let held = amounts(&bytes[uses..middle]);
    let taken = amounts(&bytes[middle..]);
    Action {
        duration: read_number(bytes, Layout::DURATION_AT, Layout::DURATION) as u8,
        needs: read_number(bytes, Layout::NEEDS_AT, Layout::SET),
        adds: read_number(bytes, Layout::ADDS_AT, Layout::SET),
        deletes: read_number(bytes, Layout::DELETES_AT, Layout::SET),
        pools: held,
        stores: taken,
    }
}

// Action i of a body whose actions have so many bytes each.
pub fn action_at(bytes: &[u8], size: usize, i: usize, pools: usize, stores: usize) -> Action
    requires { (pools ≤ 4) × (stores ≤ 4) × (size ≡ action_size pools stores) × (i < length bytes.now / size) }
    ensures { result ≡ action_value (action_at bytes.now pools stores i) }
{
    let end = (i + 1) * size;
    let at = end - size;
    action(&bytes[at..end], pools, stores)
}
