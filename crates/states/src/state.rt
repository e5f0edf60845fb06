// A state of the search.
use crate::amounts::Uses;
use crate::minute::Minute;
use tables::Steps;

// The chosen steps and what they use, the minute that the search stands at and the facts wanted then; the steps from
// `since` on stop at that minute, and what more than one of them adds is `twice`.
#[derive(Clone, Copy)]
pub struct State {
    pub steps: Steps,
    pub minute: u16,
    pub wanted: u64,
    pub at: Minute,
    pub uses: Uses,
    pub twice: u64,
    pub since: usize,
}
