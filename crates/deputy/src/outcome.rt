// What a call came to.
use call_table::Answer;
use node_event::Way;

/// What a call came to before a signal is taken: how it was served, its answer, and another process at which it raised a signal.
#[derive(Debug, Drop)]
pub struct Outcome {
    pub way: Way,
    pub answer: Option<Answer>,
    pub raised: Option<u32>,
}
