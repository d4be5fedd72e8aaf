use thiserror::Error;

/// A learnt set lacks the participant's own vote: its first update there does something else, or
/// there is none. The participant is then as it was.
#[derive(Clone, Copy, Debug, Error)]
#[error("the set lacks the participant's own vote")]
pub struct NotMine;
