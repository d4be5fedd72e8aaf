// What the types mean: laws which no code runs.
ghost use Rattle.std.specs.Prelude.{◌≡◌};
ghost use Rattle.la_set.specs.Histories.{Histories};
ghost use Rattle.la_set.specs.Counts.{counts_of};
ghost use Rattle.la_types.specs.Bytes.{plain};

/// The counts of a set are eight numbers and nothing else, so an operation that carries them comes
/// back as it was.
pub fn counts_of_sets_are_plain()
    ensures { (set : Histories) → plain (counts_of set) ≡ counts_of set }
{}
