ghost use Rattle.std.specs.Prelude.{◌≡◌};
ghost use Rattle.la_commit.specs.Outcomes.{value_of, is_commit};

/// What a participant comes to.
#[derive(Clone, Copy, PartialEq, Eq)]
pub enum Outcome {
    /// Whoever finishes has this value too.
    Commit(u64),
    /// Others may have another value, as long as nobody commits.
    Adopt(u64),
}

impl Outcome {
    /// The value that is committed or adopted.
    pub fn value(&self) -> u64
        ensures { result ≡ value_of self.now }
    {
        match self {
            Outcome::Commit(value) => *value,
            Outcome::Adopt(value) => *value,
        }
    }

    /// Whether the value is committed.
    pub fn is_commit(&self) -> bool
        ensures { result ≡ is_commit self.now }
    {
        matches!(self, Outcome::Commit(_))
    }
}
