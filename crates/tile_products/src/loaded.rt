// A tile of rows of 64 lanes that is loaded for a matrix: what its outputs share is made once.
ghost use Rattle.std.specs.Prelude.{◌≡◌, ℕ, ◌*◌, ◌≤◌, true, List, length};
ghost use Rattle.lists.specs.Numbers.{all_below};
ghost use Rattle.field.specs.Kinds.{modulus};
ghost use Rattle.field.specs.Widths.{bytes_for};
ghost use Rattle.tile_products.specs.Inner.Products.{groups_of, Prepared, Lists, Loaded, OutputRows};
ghost use Rattle.tile_products.specs.Inner.Matrices.{Begun, OutputsOf};

use crate::groups_of;
use crate::matrix::Matrix;
use crate::primes::Prime;
use field::Field;
use subset_sums::Listed;

// Over 256 elements the table has the tile's sums of subsets, over a prime field nothing is made.
#[derive(Clone, Copy)]
pub struct LoadedTile<'a> {
    matrix: Matrix<'a>,
    tile: &'a [u8],
    table: &'a [u8],
    ghost bytes: { all_below 256 tile.now ≡ true },
    ghost loaded: { Loaded (modulus matrix.shape.field) (groups_of matrix.shape.rows) tile.now table.now },
}

impl<'a> LoadedTile<'a> {
    // `table` is scratch.
    pub fn new(matrix: Matrix<'a>, tile: &'a [u8], table: &'a mut [u8]) -> LoadedTile<'a>
        requires tile_long { length tile.now ≡ groups_of matrix.shape.rows * (bytes_for (modulus matrix.shape.field) * 256) }
        requires table_long { length table.old ≡ groups_of matrix.shape.rows * 1024 }
        ensures matrix { result.matrix ≡ matrix.entry }
        ensures tile { result.tile.now ≡ tile.now }
    {
        match matrix.shape.field {
            Field::Prime(_) => {}
            Field::Binary(_) => subset_sums::fill_table(tile, table),
        }
        LoadedTile {
            matrix,
            tile,
            table,
        }
    }

    // One output: in each lane the sum of the rows' symbols times the weights that the lists were made for.
    fn output(self, list: &[u16], counts: &[u8], out: &mut [u8])
        requires made { ∥ Lists (modulus self.matrix.shape.field) self.matrix.shape.rows list.now counts.now ∥₁ }
        requires out_long { length out.old ≡ bytes_for (modulus self.matrix.shape.field) * 64 }
        ensures { let m = self.entry.matrix.shape in let p = modulus m.field in (ws : List ℕ) → length ws ≡ m.rows → Prepared p ws list.now counts.now → OutputRows p m.rows ws self.entry.tile.now out.new }
    {
        let rows = self.matrix.shape.rows;
        match self.matrix.shape.field {
            Field::Prime(f) => Prime::new(f.p).output(rows, list, self.tile, out),
            Field::Binary(_) => Listed {
                tab: self.table,
                list,
                counts,
            }
            .output(out),
        }
    }

    // Every output, each through its own part.
    pub fn outputs(self, out: &mut [u8])
        requires { self.matrix.shape.outputs * (bytes_for (modulus self.matrix.shape.field) * 64) ≤ length out.old }
        ensures { let m = self.entry.matrix in let p = modulus m.shape.field in (w : ℕ → List ℕ) → Begun p m.shape.rows w m.shape.outputs m.lists.now m.counts.now → OutputsOf p m.shape.rows m.shape.outputs w self.entry.tile.now m.shape.outputs out.new }
    {
        let m = self.matrix;
        let row = m.shape.field.width() * 64;
        let size = 8 * groups_of(m.shape.rows);
        for j in 0..m.shape.outputs {
            let start = j * size;
            let end = start + size;
            let at = j * 8;
            let at_end = at + 8;
            let to = j * row;
            let to_end = to + row;
            self.output(
                &m.lists[start..end],
                &m.counts[at..at_end],
                &mut out[to..to_end],
            );
        }
    }
}
