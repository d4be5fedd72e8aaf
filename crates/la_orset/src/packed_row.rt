ghost use Rattle.std.specs.Prelude.{◌≡◌};

use crate::rows::Row;
use std::marker::Model;

/// A [`Row`] in 13 bytes.
#[derive(Drop)]
pub struct PackedRow {
    number: [u8; 4],
    element: [u8; 8],
    gone: bool,
}

impl Model for PackedRow {
    ghost use Rattle.std.specs.Int.{w32, w64, from_le_bytes};
    ghost use Rattle.la_orset.specs.declared.rows.Row.{Row};

    ghost Value = { Row };

    ghost view = { λ s. record {
      number = from_le_bytes w32 s.number;
      gone = s.gone;
      element = from_le_bytes w64 s.element;
    } };
}

impl PackedRow {
    /// Packs a row.
    pub fn new(row: Row) -> PackedRow
        ensures { result ≡ row }
    {
        PackedRow {
            number: row.number.to_le_bytes(),
            element: row.element.to_le_bytes(),
            gone: row.gone,
        }
    }

    /// The row's number among its replica's updates.
    pub fn number(&self) -> u32
        ensures { result ≡ self.now.number }
    {
        u32::from_le_bytes(self.number)
    }

    /// The row, unpacked.
    pub fn row(&self) -> Row
        ensures { result ≡ self.now }
    {
        Row {
            number: self.number(),
            gone: self.gone,
            element: u64::from_le_bytes(self.element),
        }
    }
}
