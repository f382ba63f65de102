// A table of sides as another crate writes it: it implements `SideTable` and no other trait of tables.
ghost use Rattle.std.specs.Prelude.{◌≡◌, ℕ};

use half_edges::table::{BitTable, SideTable};

// Up to 8 vertices, in the first 8 rows of bits.
#[derive(Drop)]
pub(crate) struct EightTable {
    bits: BitTable,
}

impl SideTable for EightTable {
    ghost vertices = { 8 };

    ghost room = { 65535 };

    ghost holds = { λ ts n table. ⟦<BitTable as SideTable>⟧.holds ts n table.bits };

    fn empty() -> EightTable {
        EightTable {
            bits: BitTable::empty(),
        }
    }

    fn has_side(&self, indices: &[u16], sides: usize, x: u16, y: u16) -> bool {
        self.bits.has_side(indices, sides, x, y)
    }

    fn add_side(&mut self, indices: &[u16], m: usize, x: u16, y: u16) {
        self.bits.add_side(indices, m, x, y);
    }
}
