// The job file: its layout and the places of its bodies. The reader and the writer are crates of their own.
#![tactic(auto)]

ghost use Rattle.std.specs.Prelude.{◌≡◌, ◌<◌};
ghost use Rattle.jobfile.specs.File.{action_size, places_of, missized, Small};

use job::{Form, Job};

// The form of a file and the lengths in bytes of its bodies, 0 for one beyond the form.
#[derive(Clone, Copy)]
pub struct Layout {
    pub form: Form,
    pub head: usize,
    pub pools: usize,
    pub stores: usize,
    pub actions: usize,
    pub handovers: usize,
    pub shortest: usize,
}

// Where the bodies of a file begin, each where the one before it ends, and where the last one ends.
#[derive(Clone, Copy)]
pub struct Places {
    pub head: usize,
    pub pools: usize,
    pub stores: usize,
    pub actions: usize,
    pub handovers: usize,
    pub shortest: usize,
    pub end: usize,
}

impl Layout {
    // The most bytes of a file.
    pub const FILE: usize = 4_096;

    // The bytes of a number of the contents, of an amount, and of a set of facts.
    pub const NUMBER: usize = 2;

    pub const AMOUNT: usize = 4;

    pub const SET: usize = 8;

    // The contents: an entry for each body, its offset and its length.
    pub const ENTRY: usize = Layout::NUMBER + Layout::NUMBER;

    // Where the offset and the length stand in an entry.
    pub const OFFSET_AT: usize = 0;

    pub const LENGTH_AT: usize = Layout::OFFSET_AT + Layout::NUMBER;

    // The bytes of four entries, of five and of six: where the first body stands.
    pub const FOUR_ENTRIES: usize = 4 * Layout::ENTRY;

    pub const FIVE_ENTRIES: usize = 5 * Layout::ENTRY;

    pub const SIX_ENTRIES: usize = 6 * Layout::ENTRY;

    // The places of the bodies in the contents.
    pub const HEAD_PLACE: usize = 0;

    pub const POOLS_PLACE: usize = 1;

    pub const STORES_PLACE: usize = 2;

    pub const ACTIONS_PLACE: usize = 3;

    pub const HANDOVERS_PLACE: usize = 4;

    pub const SHORTEST_PLACE: usize = 5;

    // The bytes of a handover, and of a shortest length.
    pub const MINUTES: usize = 1;

    // The head: the number of facts, the deadline, the start and the goal, each behind the one before, and in a longer
    // head the reserve.
    pub const FACTS: usize = 1;

    pub const DEADLINE: usize = 2;

    pub const FACTS_AT: usize = 0;

    pub const DEADLINE_AT: usize = Layout::FACTS_AT + Layout::FACTS;

    pub const START_AT: usize = Layout::DEADLINE_AT + Layout::DEADLINE;

    pub const GOAL_AT: usize = Layout::START_AT + Layout::SET;

    pub const HEAD: usize = Layout::GOAL_AT + Layout::SET;

    pub const RESERVE: usize = 1;

    pub const RESERVE_AT: usize = Layout::HEAD;

    pub const LONG_HEAD: usize = Layout::RESERVE_AT + Layout::RESERVE;

    // An action: its duration and its three sets, as long as an action without its uses, which stand behind them.
    pub const DURATION: usize = 1;

    pub const DURATION_AT: usize = 0;

    pub const NEEDS_AT: usize = Layout::DURATION_AT + Layout::DURATION;

    pub const ADDS_AT: usize = Layout::NEEDS_AT + Layout::SET;

    pub const DELETES_AT: usize = Layout::ADDS_AT + Layout::SET;

    pub const ACTION: usize = Layout::DELETES_AT + Layout::SET;

    // The bytes of an action in a job with so many pools and stores.
    pub fn action_size(pools: usize, stores: usize) -> usize
        requires { (pools < 65536) × (stores < 65536) }
        ensures { result ≡ action_size pools stores }
    {
        Layout::ACTION + Layout::AMOUNT * pools + Layout::AMOUNT * stores
    }

    // Where the bodies stand, behind the contents.
    pub fn places(self) -> Places
        requires { Small self }
        ensures { result ≡ places_of self }
    {
        let form = self.form;
        let head = Layout::ENTRY * form.entries();
        let pools = head + self.head;
        let stores = pools + self.pools;
        let actions = stores + self.stores;
        let handovers = actions + self.actions;
        let shortest = handovers + self.handovers;
        let end = shortest + self.shortest;
        Places {
            head,
            pools,
            stores,
            actions,
            handovers,
            shortest,
            end,
        }
    }

    // Whether a body has a length that no job has: refusal 3.
    pub fn missized(self) -> bool
        requires { Small self }
        ensures { result ≡ missized self }
    {
        let form = self.form;
        let action = Layout::action_size(self.pools / Layout::AMOUNT, self.stores / Layout::AMOUNT);
        (self.head < Layout::HEAD)
            | (Layout::LONG_HEAD < self.head)
            | (self.pools % Layout::AMOUNT != 0)
            | (Layout::AMOUNT * Job::POOLS < self.pools)
            | (self.stores % Layout::AMOUNT != 0)
            | (Layout::AMOUNT * Job::STORES < self.stores)
            | (self.actions % action != 0)
            | (Job::ACTIONS < self.actions / action)
            | (self.handovers != Layout::MINUTES * form.handovers(self.pools / Layout::AMOUNT))
            | (self.shortest != Layout::MINUTES * form.shortest(self.actions / action))
    }
}
