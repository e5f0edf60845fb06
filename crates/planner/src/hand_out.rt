// The answer of the search as a call tells it: the plan at the front of the lent slice, or that there is none.
ghost use Rattle.std.specs.Prelude.{◌≡◌, ◌*◌, ◌≤◌, length};
ghost use Rattle.encoding.specs.Bytes.{overwrite};
ghost use Rattle.leaf.specs.Answer.{bytes_in};
ghost use Rattle.planner.specs.Plan.{Whole, HandedOut};

use job::refusal::Refusal;
use leaf::Answer;
use timeline::{Day, Plan};

// Writes the plan to the front of the slice, and returns its end, its number of steps and its peaks. Where there is no
// plan, the refusal given says so, and no byte changes.
pub fn hand_out(answer: Option<Answer>, none: Refusal, out: &mut [u8]) -> Result<Day, Refusal>
    requires { Whole answer × (96 ≤ length out.old) }
    ensures { HandedOut answer none out.old result out.new }
{
    let answer = answer.ok_or(none)?;
    let size = answer.count * Plan::STEP;
    out[..size].copy_from_slice(&answer.plan[..size]);
    let peaks = answer.peaks;
    Ok(Day {
        end: answer.end,
        steps: answer.count,
        peaks,
    })
}
