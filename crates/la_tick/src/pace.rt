// How long it takes to the next tick.
ghost use Rattle.std.specs.Prelude.{◌≡◌, ℕ, ◌+◌, max, nat_lt};
ghost use Rattle.la_tick.specs.Paces.{interval};

// The longest interval, in milliseconds, unless the first is longer.
const LONGEST: u64 = 60_000;

// The interval, in milliseconds, and the one that it begins with.
#[derive(Clone, Copy)]
pub(crate) struct Pace {
    pub(crate) first: u64,
    pub(crate) now: u64,
}

impl Pace {
    // Begins with this interval, at least with one millisecond.
    pub(crate) fn new(first: u64) -> Pace
        ensures first { result.first ≡ max first 1 }
        ensures now { result.now ≡ interval (max first 1) 0 }
    {
        let first = first.max(1);
        Pace { first, now: first }
    }

    // Whether it has doubled.
    pub(crate) fn is_slow(self) -> bool
        ensures { result ≡ nat_lt self.first self.now }
    {
        self.now > self.first
    }

    // It begins anew.
    pub(crate) fn at_first(self) -> Pace
        ensures first { result.first ≡ self.first }
        ensures now { (ticks : ℕ) → self.now ≡ interval self.first ticks → result.now ≡ interval self.first 0 }
    {
        Pace {
            now: self.first,
            ..self
        }
    }

    // The interval has passed.
    pub(crate) fn after_tick(self) -> Pace
        ensures first { result.first ≡ self.first }
        ensures now { (ticks : ℕ) → self.now ≡ interval self.first ticks
            → result.now ≡ interval self.first (ticks + 1) }
    {
        let most = self.first.max(LONGEST);
        Pace {
            now: self.now.saturating_mul(2).min(most),
            ..self
        }
    }
}
