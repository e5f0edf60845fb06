// Landmarks: what every plan that makes a fact true must add on the way, and what that takes at least.
#![tactic(auto)]

pub mod marks; // the landmarks of each fact
pub mod shares; // what a fact takes of each store, of each pool and of the steps at least
mod openings; // before which minute a pool is not used

ghost use Rattle.std.specs.Prelude.{◌≡◌, length};
ghost use Rattle.tables.specs.Tables.{Numbers};
ghost use Rattle.landmarks.specs.Tables.{KeptBefore};
ghost use Rattle.landmarks.specs.Marked.{WithinLimits, LandmarkTables};

use tables::Frame;

// Puts landmarks, shares and openings behind the tables of the actions.
pub fn fill(sets: &mut [u64], numbers: &mut [u32], times: &[u32], frame: Frame, start: u64)
    requires { (length sets.old ≡ 384) × Numbers numbers.old frame.actions × WithinLimits times.now frame }
    ensures { KeptBefore 256 384 sets.old sets.new
        × KeptBefore 576 1220 numbers.old numbers.new
        × LandmarkTables sets.new numbers.new times.now frame start }
{
    marks::fill(sets, frame.actions, start);
    shares::fill(numbers, sets, frame.actions, start);
    openings::fill(numbers, sets, times, frame);
}
