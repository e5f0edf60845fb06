// A view of the actions body of a lent file: its bytes, and the size of one action. Its functions are thin: the work on
// an action is done by a function over a plain slice and numbers.
ghost use Rattle.std.specs.Prelude.{◌≡◌, ◌/◌, ◌<◌, ◌≤◌, length};
ghost use Rattle.job.specs.Job.{action_value};
ghost use Rattle.jobfile.specs.File.{action_size};
ghost use Rattle.reader.specs.View.{action_at};

use crate::action::action_at;
use job::Action;

#[derive(Clone, Copy)]
pub struct ActionsView<'a> {
    pub bytes: &'a [u8],
    pub size: usize,
}

impl<'a> ActionsView<'a> {
    // The view of a body whose actions have so many bytes each.
    pub fn over(bytes: &'a [u8], size: usize) -> ActionsView<'a>
        ensures { (result.bytes ≡ bytes.entry) × (result.size ≡ size) }
    {
        ActionsView { bytes, size }
    }

    // The number of actions.
    pub fn count(self) -> usize
        requires { 0 < self.size }
        ensures { result ≡ length self.entry.bytes.now / self.entry.size }
    {
        self.bytes.len() / self.size
    }

    // Action i of a job with so many pools and stores.
    pub fn action(self, i: usize, pools: usize, stores: usize) -> Action
        requires { (pools ≤ 4) × (stores ≤ 4) × (self.size ≡ action_size pools stores)
            × (i < length self.bytes.now / self.size) }
        ensures { result ≡ action_value (action_at self.entry.bytes.now pools stores i) }
    {
        action_at(self.bytes, self.size, i, pools, stores)
    }
}
