ghost use Rattle.std.specs.Prelude.{◌≡◌, None};

use la_replica::{Mail, Out, Said};

/// What a replica did in one step, and what it sends.
#[derive(Drop)]
pub struct Done {
    /// What it did with what came.
    pub said: Said,
    /// What it did with its second vote, where that led it to cast one.
    pub voted: Option<Voted>,
    /// All that is sent, in order.
    pub mail: Mail,
}

impl Done {
    // What a replica did that cast no second vote.
    #[inline(always)]
    pub(crate) fn without_vote(out: Out) -> Done
        ensures { result ≡ record { said = out.said; voted = None; mail = out.mail } }
    {
        Done {
            said: out.said,
            voted: None,
            mail: out.mail,
        }
    }
}

/// A vote that was cast in an adopt-commit object's second instance.
#[derive(Drop)]
pub struct Voted {
    /// That instance.
    pub instance: u8,
    /// What the replica did with the vote.
    pub said: Said,
}
