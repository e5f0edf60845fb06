// A minute before which no plan ends.
ghost use Rattle.std.specs.Prelude.{List, ◌≡◌, ℕ, ◌+◌, ◌≤◌, length};
ghost use Rattle.search.specs.Horizons.{Raised};

use earliest::set_time;
use tables::Frame;

// A minute before which no plan ends, where none ends by the first free minute: the one after that, or the earliest
// time of the goal.
pub fn lowest(times: &[u32], frame: Frame) -> u32
    requires { (length times.now ≡ 2080) × (frame.facts ≤ 64) }
    ensures { (file sets numbers : List ℕ)
        → Raised file sets numbers times.now frame (frame.first + 1) result }
{
    let time = set_time::set_time(times, frame.facts, frame.goal);
    if set_time::LATEST < time {
        return time;
    }
    let first = u32::from(frame.first) + 1;
    first.max(time + u32::from(frame.origin))
}
