ghost use Rattle.std.specs.Prelude.{◌≡◌, OnOk};
ghost use Rattle.la_script.specs.Text.{id_text, set_text};
ghost use Rattle.la_script.specs.Pieces.{AddsText};

use crate::Pieces;
use la_set::{REPLICAS, UpdateId, UpdateSet};
use std::alloc::AllocError;

/// Writes an id.
pub fn put_id(out: &mut Pieces, id: UpdateId) -> Result<(), AllocError>
    ensures { OnOk result (AddsText out.old out.new (id_text id)) }
{
    let UpdateId { replica, number } = id;
    out.push_number(u64::from(replica))?;
    out.push_ascii(b'.')?;
    out.push_number(u64::from(number))
}

/// Writes the ids of a set's updates, by its counts.
pub fn put_set(out: &mut Pieces, set: &UpdateSet) -> Result<(), AllocError>
    ensures { OnOk result (AddsText out.old out.new (set_text set.now)) }
{
    let counts = set.counts();
    let mut behind = false;
    out.push_ascii(b'{')?;
    for replica in 0..REPLICAS {
        let count = counts.of(replica);
        out.push_ids(behind, replica, count)?;
        behind |= count > 0;
    }
    out.push_ascii(b'}')
}
