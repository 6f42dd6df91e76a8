// Rows turned into columns by squares of 16 by 16, each read and written where it stands. The last square of a row or a column ends with
// it, and may take again what is done. The width of the rows stands beside them, and `to` beside `out`: a struct of the two is handed over in
// memory, and few lanes are gathered in a fifth more time.
ghost use Rattle.std.specs.Prelude.{◌≡◌, ℕ, ◌+◌, ◌*◌, ◌≤◌, ◌<◌, length};
ghost use Rattle.tiles.specs.Inner.Squares.{TurnedTo};

use crate::squares;

// Columns `first` to `first` + 15 of the rows as rows of their own, which are `to` apart. Where these have room for fewer than 16 bytes,
// what goes beyond a row is written over by the next one.
fn turn_sixteen(count: usize, width: usize, first: usize, rows: &[u8], to: usize, out: &mut [u8])
    requires { (16 ≤ count) × (count * width + first + 16 ≤ length rows.now + width) × (16 < count → count ≤ to) × (15 * to + count ≤ length out.old) }
    ensures { TurnedTo width to first 16 count rows.now out.old out.new }
{
    for i in 0..count.div_ceil(16) {
        let at = (i * 16).min(count - 16);
        squares::turn_square(width, first, &rows[at * width..], to, at, out);
    }
}

// The first columns of the rows, 16 or more of each.
pub fn turn_all(count: usize, columns: usize, width: usize, rows: &[u8], to: usize, out: &mut [u8])
    requires { (16 ≤ count) × (16 ≤ columns) × (count * width + columns ≤ length rows.now + width) × (16 < count → count ≤ to) × (columns * to + count ≤ length out.old + to) }
    ensures { TurnedTo width to 0 columns count rows.now out.old out.new }
{
    for i in 0..columns.div_ceil(16) {
        let first = (i * 16).min(columns - 16);
        turn_sixteen(count, width, first, rows, to, &mut out[first * to..]);
    }
}
