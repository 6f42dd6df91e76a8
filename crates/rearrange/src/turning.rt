// A table of symbols of either width turned: its columns one after the other. Width, rows, lanes and bytes stand side by side: the one caller
// would make a `Table { w, rows, lanes, bytes }` in each of its two arms, in six lines where a call is one, and each step here would read
// `self.w.bytes`, `self.rows` and `self.lanes` in code and clauses.
ghost use Rattle.std.specs.Prelude.{◌≡◌, ◌*◌, ◌<◌, length};
ghost use Rattle.layout.specs.Layout.{row_after_row, lane_after_lane, lane_of, rearranged};
ghost use Rattle.layout.specs.Width.{symbols_of, bytes_of};

use symbols::Width;

// Fills one lane: column t of a table whose rows have `width` symbols. Here and below a part that is written is cut by its place: after
// `chunks_mut` a proof knows the length alone (docs/PROOF-NOTES.md).
#[tactic(auto, using(lists::proofs::Fill::fills_start, lists::proofs::Rows::row_inside), unfolding(layout::specs::Layout::lane_of))]
fn fill_lane(w: Width, rows: usize, width: usize, t: usize, table: &[u8], lane: &mut [u8])
    requires { (t < width) × (length table.now ≡ rows * width * w.bytes) × (length lane.old ≡ rows * w.bytes) }
    ensures { lane.new ≡ bytes_of w.bytes (lane_of row_after_row rows width t (symbols_of w.bytes table.now)) }
{
    for i in 0..rows {
        let start = i * w.bytes;
        let end = start + w.bytes;
        let symbol = w.symbol_at(table, i * width + t);
        w.write_symbol(symbol, &mut lane[start..end]);
    }
}

// Fills every lane through its own part.
#[tactic(auto, using(lists::proofs::Rows::row_inside, lists::proofs::Fill::fills_start))]
fn turn_symbols(w: Width, rows: usize, lanes: usize, source: &[u8], out: &mut [u8])
    requires { (length source.now ≡ rows * lanes * w.bytes) × (length out.old ≡ rows * lanes * w.bytes) }
    ensures { out.new ≡ bytes_of w.bytes (rearranged row_after_row lane_after_lane rows lanes (symbols_of w.bytes source.now)) }
{
    for t in 0..lanes {
        let size = rows * w.bytes;
        let start = t * size;
        let end = start + size;
        fill_lane(w, rows, lanes, t, source, &mut out[start..end]);
    }
}

// The same. Bytes are moved as they are: as symbols of one byte they took 3 to 18 % longer.
#[tactic(auto, using(layout::proofs::Widths::symbols_one, layout::proofs::Widths::bytes_one))]
pub fn turn(w: Width, rows: usize, lanes: usize, source: &[u8], out: &mut [u8])
    requires { (length source.now ≡ rows * lanes * w.bytes) × (length out.old ≡ rows * lanes * w.bytes) }
    ensures { out.new ≡ bytes_of w.bytes (rearranged row_after_row lane_after_lane rows lanes (symbols_of w.bytes source.now)) }
{
    if w.bytes == 1 {
        tiles::scatter(rows, lanes, source, out);
        return;
    }
    turn_symbols(w, rows, lanes, source, out);
}
