// A plan's bytes, so many minutes later, and two plans one behind the other.
ghost use Rattle.std.specs.Prelude.{◌≡◌, ◌++◌, ◌+◌, ◌%◌, ◌≤◌, ◌<◌, length};
ghost use Rattle.encoding.specs.Bytes.{from_bytes, to_bytes, part, overwrite};
ghost use Rattle.joining.specs.Inner.{WritesLater, WritesBoth};

use encoding::{read_number, write_number};
use timeline::Plan;

// Writes the step whose bytes begin at `at` in the plan to the same place of the slice, so many minutes later.
fn write_step(out: &mut [u8], plan: &[u8], at: usize, minutes: u32)
    requires { (at + 3 ≤ length out.old) × (at + 3 ≤ length plan.now) }
    ensures { out.new ≡ overwrite out.old at
        (to_bytes 1 (from_bytes (part plan.now at 1))
        ++ to_bytes 2 (minutes + from_bytes (part plan.now (at + 1) 2))) }
{
    let number = read_number(plan, at, 1);
    let start = read_number(plan, at + 1, 2);
    write_number(out, at, 1, number);
    write_number(out, at + 1, 2, u64::from(minutes) + start);
}

// Writes the steps of a plan, each so many minutes later, to the front of the slice.
fn write_later(out: &mut [u8], plan: &[u8], minutes: u32)
    requires { length plan.now ≤ length out.old }
    ensures { WritesLater minutes plan.now out.old out.new }
{
    for i in 0..plan.len() / Plan::STEP {
        write_step(out, plan, i * Plan::STEP, minutes);
    }
}

// Writes the first plan to the front of the slice, and the second behind it, so many minutes later: the mutable part
// after the first half is lent on to the plan writer.
pub fn write_both(out: &mut [u8], first: &[u8], second: &[u8], minutes: u32)
    requires { (length first.now % 3 ≡ 0) × (length first.now + length second.now ≤ length out.old) }
    ensures { WritesBoth minutes first.now second.now out.old
        out.new }
{
    write_later(out, first, 0);
    let size = first.len();
    write_later(&mut out[size..], second, minutes);
}
