// A journal that has grown, with its state in its place.
ghost use Rattle.std.specs.Prelude.{◌≡◌, ◌<◌, ◌≤◌, false, IfOk, IfErr};
ghost use Rattle.la_journal.specs.Durable.{IsSettled};
ghost use Rattle.la_durable.specs.Nodes.{kept_by};
ghost use Rattle.la_serve.specs.Starting.{is_grown, Compacts, LeavesAlike, IsNotBegun};

use crate::NodeFault;
use la_durable::NodeMachine;
use la_journal::{Disk, Durable, Uncompacted};
use std::alloc::Global;

// How many bytes the option counts as one.
const KIBIBYTE: usize = 1024;

/// Whether a start compacts a journal of so many bytes.
pub fn is_grown(compact: u32, found: usize) -> bool
    ensures { result ≡ is_grown compact found }
{
    compact > 0 && compact as usize <= found / KIBIBYTE
}

/// Compacts a journal that has grown, and answers whether no text says its state, so that it stays as it is. It leads to
/// the same state, whatever becomes of it, and so does what a crash leaves at any moment.
pub fn compact_grown<D: Disk>(
    alloc: Global,
    grown: bool,
    durable: &mut Durable<NodeMachine, D>,
) -> Result<bool, NodeFault>
    requires settled { IsSettled D.seen D.may_leave durable.old.disk }
    requires unclosed { durable.old.closed ≡ false }
    ensures machine { durable.new.machine ≡ durable.old.machine }
    ensures ok { IfOk result (λ unsaid. Compacts D.seen D.may_leave grown unsaid (kept_by durable.old.machine) durable.old.disk durable.new.disk durable.new.closed) }
    ensures any_moment { LeavesAlike D.seen D.moment D.left_since (kept_by durable.old.machine) durable.old.disk durable.new.disk }
    ensures later { D.faults durable.old.disk ≤ D.faults durable.new.disk }
    ensures cause { IfErr result (IsNotBegun (D.faults durable.old.disk < D.faults durable.new.disk)) }
{
    if !grown {
        return Ok(false);
    }
    match durable.compact(alloc) {
        Ok(()) => Ok(false),
        Err(Uncompacted::Unsaid) => Ok(true),
        Err(Uncompacted::Memory) => Err(NodeFault::Memory),
        Err(Uncompacted::Disk) | Err(Uncompacted::Closed) => Err(NodeFault::DiskFault),
    }
}
