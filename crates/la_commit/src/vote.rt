ghost use Rattle.std.specs.Prelude.{◌≡◌};
ghost use Rattle.la_commit.specs.Votes.{vote_of, op_of};

use la_set::Op;

/// A participant's vote: its value, and whether it saw that value alone.
#[derive(Clone, Copy, PartialEq, Eq)]
pub struct Vote {
    /// The value that is voted for.
    pub value: u64,
    /// Whether all votes of the set that the participant learnt in the first agreement have it. In
    /// that agreement itself no vote is sole.
    pub sole: bool,
}

impl Vote {
    /// The vote that an operation casts, if it is one.
    pub fn of(op: &Op) -> Option<Vote>
        ensures { result ≡ vote_of op.now }
    {
        match op {
            Op::Vote { value, sole } => Some(Vote {
                value: *value,
                sole: *sole,
            }),
            _ => None,
        }
    }
}

impl From<Vote> for Op {
    ghost from_gives = { λ vote op. op ≡ op_of vote };

    fn from(vote: Vote) -> Op {
        Op::Vote {
            value: vote.value,
            sole: vote.sole,
        }
    }
}
