// Lanes of a block as rows of bytes of a tile of 64 lanes.
// A part that is written is cut by its place: after `chunks_mut` a proof knows the length alone (docs/PROOF-NOTES.md).
ghost use Rattle.std.specs.Prelude.{◌≡◌, ℕ, ◌+◌, ◌*◌, ◌/◌, ◌≤◌, ◌<◌, length, get_or};
ghost use Rattle.lists.specs.Rows.{from};
ghost use Rattle.layout.specs.Layout.{row_after_row, lane_after_lane, lane_of};
ghost use Rattle.layout.specs.Width.{symbols_of, bytes_of};
ghost use Rattle.tiles.specs.Inner.Tiles.{TileOf};
ghost use Rattle.block_products.specs.Inner.Ways.{side_of};

use crate::Way;
use crate::job::Part;
use symbols::Width;

// Byte V of each symbol of W bytes. Both are constants, so that the lanes become vector instructions.
pub fn pick_bytes<const W: usize, const V: usize>(part: &[u8], out: &mut [u8])
    requires few { W ≤ 2 }
    requires byte { V < W }
    requires long { length part.now ≡ length out.old * W }
    ensures { out.new ≡ from (λ q. get_or part.now (q * W + V) 0) 0 (length out.old) }
{
    for q in 0..out.len() {
        out[q] = part[q * W + V];
    }
}

// The same where neither is a constant.
fn copy_bytes(w: Width, v: usize, part: &[u8], out: &mut [u8])
    requires byte { v < w.bytes }
    requires long { length part.now ≡ length out.old * w.bytes }
    ensures { out.new ≡ from (λ q. get_or part.now (q * w.bytes + v) 0) 0 (length out.old) }
{
    match (w.bytes, v) {
        (1, _) => pick_bytes::<1, 0>(part, out),
        (_, 0) => pick_bytes::<2, 0>(part, out),
        (_, _) => pick_bytes::<2, 1>(part, out),
    }
}

impl Part<'_> {
    // The bytes of these lanes of a row of symbols as rows of a tile, those of the high bytes first.
    fn load_row(self, part: &[u8], rows: &mut [u8])
        requires part_long { length part.now ≡ self.count * self.job.w.bytes }
        requires rows_long { length rows.old ≡ self.job.w.bytes * 64 }
        ensures { let p = self.entry in let w = p.job.w.bytes in TileOf w w p.count (λ v q. get_or part.now (q * w + v) 0) rows.new }
    {
        let w = self.job.w;
        for v in 0..w.bytes {
            let start = v * 64;
            let end = start + self.count;
            copy_bytes(w, v, part, &mut rows[start..end]);
        }
    }

    // The lanes of rows of symbols that stand one after the other.
    fn load_rows(self, tile: &mut [u8])
        requires { self.job.w.bytes * self.job.m.rows * 64 ≤ length tile.old }
        ensures { let p = self.entry in let j = p.job in (t : ℕ) → t < p.count → lane_of row_after_row (j.w.bytes * j.m.rows) 64 t tile.new ≡ bytes_of j.w.bytes (lane_of row_after_row j.m.rows j.m.lanes (p.first + t) (symbols_of j.w.bytes j.source.now)) }
    {
        let job = self.job;
        let w = job.w;
        let lanes = job.m.lanes;
        let size = w.bytes * 64;
        for r in 0..job.m.rows {
            let from = (r * lanes + self.first) * w.bytes;
            let to = from + self.count * w.bytes;
            let start = r * size;
            let end = start + size;
            self.load_row(&job.source[from..to], &mut tile[start..end]);
        }
    }

    // The same of lanes that stand one after the other.
    fn load_lanes(self, tile: &mut [u8])
        requires { (self.job.w.bytes * self.job.m.rows + 15) / 16 * 1024 ≤ length tile.old }
        ensures { let p = self.entry in let j = p.job in (t : ℕ) → t < p.count → symbols_of j.w.bytes (lane_of row_after_row (j.w.bytes * j.m.rows) 64 t tile.new) ≡ lane_of lane_after_lane j.m.rows j.m.lanes (p.first + t) (symbols_of j.w.bytes j.source.now) }
    {
        let job = self.job;
        let lane = job.w.bytes * job.m.rows;
        let start = self.first * lane;
        let end = start + self.count * lane;
        tiles::gather64(lane, self.count, &job.source[start..end], tile);
    }

    // The lanes as they stand in the block.
    pub fn load(self, tile: &mut [u8])
        requires { (self.job.w.bytes * self.job.m.rows + 15) / 16 * 1024 ≤ length tile.old }
        ensures { let p = self.entry in let j = p.job in (t : ℕ) → t < p.count → symbols_of j.w.bytes (lane_of row_after_row (j.w.bytes * j.m.rows) 64 t tile.new) ≡ lane_of (side_of j.m.way) j.m.rows j.m.lanes (p.first + t) (symbols_of j.w.bytes j.source.now) }
    {
        match self.job.m.way {
            Way::RowsToLanes => self.load_rows(tile),
            Way::LanesToRows | Way::LanesToMarks => self.load_lanes(tile),
        }
    }
}
