ghost use Rattle.std.specs.Prelude.{◌≡◌, ◌≤◌, length};
ghost use Rattle.la_serve.specs.Said.{why_word};

/// What is written of a line that the journal does not gain.
#[derive(Drop)]
pub enum Said {
    /// These lines.
    Lines(Vec<u8>),
    /// That the line was refused.
    Refused(Why),
}

/// Why a line was refused that was not taken.
#[derive(Clone, Copy)]
pub enum Why {
    /// There is no such object.
    NoSuchObject,
    /// The object does not take this operation.
    Foreign,
    /// Another submission has this number.
    Stale,
    /// This number is not the next, and no submission has it.
    Gap,
    /// An element has more live tags than a remove may name.
    TooManyTags,
    /// There was no memory.
    Memory,
}

/// The word for it.
pub fn why_word(why: Why) -> &'static str
    ensures text { result.now ≡ why_word why }
    ensures short { length result.now ≤ 12 }
{
    match why {
        Why::NoSuchObject => "NoSuchObject",
        Why::Foreign => "Foreign",
        Why::Stale => "Stale",
        Why::Gap => "Gap",
        Why::TooManyTags => "TooManyTags",
        Why::Memory => "Memory",
    }
}
