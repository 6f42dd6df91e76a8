// What each node adds: the difference of two rows times the node's entry.
ghost use Rattle.std.specs.Prelude.{◌≡◌, ◌*◌, length};
ghost use Rattle.lists.specs.Rows.{rows_from};
ghost use Rattle.layout.specs.Layout.{row_after_row, buffer};
ghost use Rattle.layout.specs.Width.{symbols_of, bytes_of};
ghost use Rattle.refusals.specs.Inner.Accepted.{SymbolTile};
ghost use Rattle.differences.specs.Differences.{difference_at};
ghost use Rattle.differences.specs.Inner.Changes.{change_rows, told};

use crate::change::Change;
use crate::rows::Rows;

impl Change<'_> {
    // Rows as they stand in its lanes.
    fn rows(self) -> Rows
        ensures { result ≡ change_rows self.entry }
    {
        let code = self.generator.codec.code;
        let width = symbols::width_of(code.header).bytes;
        Rows {
            code,
            width,
            lanes: self.lanes,
        }
    }

    // A row, as a tile, times each node's entry. Each node's part is cut by its place: after `chunks_mut` a proof knows the length alone
    // (docs/PROOF-NOTES.md).
    fn fill_nodes(self, tile: &[u8], out: &mut [u8])
        requires { let rows = change_rows self in SymbolTile rows.code.header rows.width 1 rows.lanes tile.now × (length out.old ≡ rows.code.header.n * (rows.width * rows.lanes)) }
        ensures { let rows = change_rows self.entry in out.new ≡ rows_from (told rows self.entry.symbol tile.now) 0 rows.code.header.n }
    {
        let rows = self.rows();
        let n = self.generator.codec.code.header.n as usize;
        let size = tile.len();
        for node in 0..n {
            let weight = self.generator.entry(self.symbol, node);
            let start = node * size;
            let end = start + size;
            rows.multiply(weight, tile, &mut out[start..end]);
        }
    }

    // Node after node.
    #[tactic(auto, using(crate::proofs::Tiles::row_bytes_long, crate::proofs::Tiles::row_few, crate::proofs::Tiles::length_less_bytes, crate::proofs::Tiles::less_tile))]
    pub fn fill_differences(self, out: &mut [u8])
        requires { let rows = change_rows self in length out.old ≡ rows.code.header.n * (rows.width * rows.lanes) }
        ensures { let rows = change_rows self.entry in out.new ≡ bytes_of rows.width (buffer row_after_row rows.code.header.n rows.lanes (difference_at rows.code.header self.entry.symbol (symbols_of rows.width self.entry.old.now) (symbols_of rows.width self.entry.new.now))) }
    {
        let rows = self.rows();
        let size = self.new.len();
        let mut row = [0u8; 8192];
        let row = &mut row[..size];
        let mut tile = [0u8; 8192];
        let tile = &mut tile[..size];
        rows.subtract(self.new, self.old, row);
        rows.load(row, tile);
        self.fill_nodes(tile, out);
    }
}
