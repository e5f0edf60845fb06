// The steps as a plan's bytes.
ghost use Rattle.std.specs.Prelude.{◌≡◌, ◌++◌, ◌+◌, ◌*◌, ◌≤◌, length};
ghost use Rattle.encoding.specs.Bytes.{to_bytes, overwrite};
ghost use Rattle.leaf.specs.Order.{WritesPlan};

use encoding::write_number;
use tables::Steps;
use timeline::Plan;

// Writes a step from place `at` on: its number, then its start.
fn write_step(out: &mut [u8], at: usize, number: u8, start: u16)
    requires { at + 3 ≤ length out.old }
    ensures { out.new ≡ overwrite out.old at (to_bytes 1 number ++ to_bytes 2 start) }
{
    write_number(out, at, 1, u64::from(number));
    write_number(out, at + 1, 2, u64::from(start));
}

// Writes all steps.
pub fn write_plan(out: &mut [u8], steps: Steps)
    requires { (steps.count ≤ 32) × (steps.count * 3 ≤ length out.old) }
    ensures { WritesPlan steps out.old out.new }
{
    for k in 0..steps.count {
        let number = steps.numbers[k];
        let start = steps.starts[k];
        write_step(out, k * Plan::STEP, number, start);
    }
}
