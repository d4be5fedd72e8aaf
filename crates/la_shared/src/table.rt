ghost use Rattle.std.specs.Prelude.{◌≡◌};

use crate::caller::Caller;
use crate::turns::Turns;
use atomic_table::Table;
use la_acceptor::Acceptor;
use std::alloc::Global;

/// The table behind an acceptor: three words and one slot.
#[derive(Drop)]
pub struct Core {
    pub table: Table<Option<Acceptor>, Caller, (), Turns, Global>,
    ghost sized: { (table.shared.table_id.words ≡ 3) × (table.shared.table_id.slots ≡ 1) },
}
