/// What kind of object one is. Each kind has operations of its own; all others change nothing.
#[derive(Clone, Copy, PartialEq, Eq)]
pub enum Kind {
    /// Absorbs `Inc` and `Dec`, and answers their total.
    Counter,
    /// Absorbs `Raise`, and answers the largest value.
    MaxRegister,
    /// Absorbs `Put` and `Remove`, and answers which elements it has.
    OrSet,
}
