ghost use Rattle.std.specs.Prelude.{◌≡◌, Some, IfOk, IfErr, IsOk, OnOk, OnErr, if◌then◌else◌};
ghost use Rattle.la_set.specs.Counts.{zero_counts};
ghost use Rattle.la_own.specs.declared.error.OwnError.TheVariants.{Memory};
ghost use Rattle.la_types.specs.Seen.{up_to};
ghost use Rattle.la_types.specs.Flags.{flag_bytes, plain_flag_op, flag_op, flag_of, flag_start};
ghost use Rattle.la_types.specs.Flags.{flag_read, flag_step, is_ahead};
ghost use Rattle.la_types.specs.declared.flag.FlagOp.TheVariants.{Enable};

use crate::Begins;
use crate::bytes::{Written, counts_in, put_counts};
use la_own::{OwnError, laws, own_bytes, own_op};
use la_set::{Counts, Op, REPLICAS, Update, UpdateId};
use la_shelf::{Absorbs, Refusal};
use std::alloc::{AllocError, Global};

/// What is done to a [`Flag`].
#[derive(Clone, Copy, PartialEq, Eq)]
pub enum FlagOp {
    /// Turns it on.
    Enable,
    /// Turns it off as far as its maker had seen it turned on: `seen` is `view.counts()` of the
    /// view that he acted by. That view has an enabling of his own only once this is learnt. One
    /// that it lacks stays on: wait until the view has it.
    Disable { seen: Counts },
}

impl FlagOp {
    /// The operation to submit, of one byte, or of 33. An enabling takes no memory and is never
    /// refused.
    pub fn to_op(&self, alloc: Global) -> Result<Op, OwnError>
        ensures ok { IfOk result (λ op. op ≡ flag_op self.now) }
        ensures comes_back { IfOk result (λ op. flag_of op ≡ Some (plain_flag_op self.now)) }
        ensures error { IfErr result (λ error. error ≡ Memory) }
        ensures room { self.now ≡ Enable → IsOk result }
    {
        laws::bytes_come_back();
        own_op(alloc, self.written().as_slice())
    }

    // The bytes of the operation.
    fn written(&self) -> Written
        ensures bytes { result.items ≡ flag_bytes self.now }
        ensures back { flag_read (flag_bytes self.now) ≡ Some (plain_flag_op self.now) }
    {
        let mut bytes = Written::new();
        match self {
            FlagOp::Enable => {
                bytes.push(1);
                bytes
            }
            FlagOp::Disable { seen } => {
                bytes.push(2);
                put_counts(&mut bytes, *seen);
                bytes
            }
        }
    }

    /// What an operation does to a flag, and `None` exactly where it is none of a flag's. It takes
    /// no memory.
    pub fn of_op(op: &Op) -> Option<FlagOp>
        ensures { result ≡ flag_of op.now }
    {
        let own = own_bytes(op)?;
        read(own.as_slice())
    }
}

// What these bytes say.
fn read(bytes: &[u8]) -> Option<FlagOp>
    ensures { result ≡ flag_read bytes.now }
{
    match bytes.len() {
        1 if bytes[0] == 1 => Some(FlagOp::Enable),
        33 if bytes[0] == 2 => Some(FlagOp::Disable {
            seen: counts_in(&bytes[1..]),
        }),
        _ => None,
    }
}

/// A flag that is on where some enabling was not seen by any disabling: so an enabling wins over a
/// disabling that was made at the same time. It also wins over one that its own replica made before
/// its view had the enabling: who turns a flag on, and off at once, leaves it on.
///
/// It is 64 bytes, whatever the number of updates. It has no kinds, one question, `()`, and its
/// answer is whether it is on; nothing of it takes memory, and it is never full.
#[derive(Drop)]
pub struct Flag {
    state: FlagState,
}

/// What a flag keeps of its updates.
#[derive(Clone, Copy)]
pub struct FlagState {
    /// Of each replica the number of its last enabling.
    pub enabled: Counts,
    /// Of each replica how many of its updates some disabling had seen.
    pub seen: Counts,
}

impl Flag {
    /// A flag that is off. It takes no memory.
    pub fn new() -> Flag
        ensures { result.state ≡ flag_start }
    {
        Flag {
            state: FlagState {
                enabled: Counts::zero(),
                seen: Counts::zero(),
            },
        }
    }
}

impl Absorbs for Flag {
    ghost use Rattle.la_types.specs.Flags.{flag_meaning};
    ghost use Rattle.la_types.specs.FlagLaws.{flag_lawful};

    type Kind = ();

    type State = FlagState;

    type Query = ();

    type Answer = bool;

    ghost state = { λ flag. flag.state };

    ghost meaning = { flag_meaning };

    ghost full = { λ _ _. ⊥ };

    fn fresh(&self) -> bool {
        self.state.enabled == Counts::zero() && self.state.seen == Counts::zero()
    }

    fn absorb(&mut self, update: &Update) -> Result<(), Refusal>
        ensures ok { OnOk result (self.new.state ≡ flag_meaning.after self.old.state update.now) }
        ensures err { OnErr result (self.new.state ≡ self.old.state) }
        ensures never { IsOk result }
    {
        if let Some(does) = FlagOp::of_op(&update.op) {
            self.state = step(self.state, update.id, does);
        }
        Ok(())
    }

    fn ask(&self, _question: &()) -> Result<bool, AllocError> {
        Ok(is_ahead(&self.state))
    }

    fn state(&self) -> Result<FlagState, AllocError> {
        Ok(self.state)
    }

    ghost lawful = { flag_lawful };
}

impl Begins for Flag {
    fn begin(_alloc: Global) -> Flag {
        Flag::new()
    }
}

// The state once an update with this id has done this.
fn step(state: FlagState, id: UpdateId, does: FlagOp) -> FlagState
    ensures { result ≡ flag_step state id (Some does) }
{
    match does {
        FlagOp::Enable => FlagState {
            enabled: state.enabled.max(up_to(id)),
            seen: state.seen,
        },
        FlagOp::Disable { seen } => FlagState {
            enabled: state.enabled,
            seen: state.seen.max(seen),
        },
    }
}

// The update with this id, and those of its replica before it.
fn up_to(id: UpdateId) -> Counts
    ensures { result ≡ up_to id }
{
    if id.replica >= REPLICAS {
        return Counts::zero();
    }
    let mut counts = [0; 8];
    counts[id.replica as usize] = id.number;
    Counts::from(counts)
}

// Whether of some replica an update enabled that was not seen.
fn is_ahead(state: &FlagState) -> bool
    ensures { result ≡ is_ahead state.now }
{
    (0..REPLICAS).any(|replica| state.seen.of(replica) < state.enabled.of(replica))
}
