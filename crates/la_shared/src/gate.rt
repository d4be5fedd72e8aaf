/// What a caller runs beside its offers: which of them it lets through, and what it does inside a
/// turn. With it a test can lose offers, or stop in a turn.
pub trait Gate: Sync {
    /// Whether replica `from` may make its offer of this instance and ballot to acceptor `to`. An
    /// offer that is not let through is lost. A single offer does not ask it: whoever goes through
    /// several acceptors does.
    fn lets(&self, from: u8, to: u8, instance: u8, ballot: u32) -> bool;

    /// What runs in each turn of acceptor `to`, once what it has accepted was taken. Until it
    /// returns, no other offer there is answered.
    fn inside(&self, to: u8);
}

/// The gate that lets every offer through, and does nothing in a turn.
#[derive(Drop)]
pub struct FreeGate;

impl Gate for FreeGate {
    fn lets(&self, from: u8, to: u8, instance: u8, ballot: u32) -> bool {
        let _ = (from, to, instance, ballot);
        true
    }

    fn inside(&self, to: u8) {
        let _ = to;
    }
}
