// The products of a tile's lanes written where they belong: `words` has as many rows of bytes for each output as a symbol has bytes.
// A part that is written is cut by its place: after `chunks_mut` a proof knows the length alone (docs/PROOF-NOTES.md).
ghost use Rattle.std.specs.Prelude.{◌≡◌, ℕ, ◌+◌, ◌*◌, ◌/◌, ◌≤◌, ◌<◌, length, get_or};
ghost use Rattle.block_products.specs.Inner.Ways.{out_bytes, Sums, LanesDone, RowsDone, MarksDone, Done};

use crate::job::Part;
use crate::loading::pick_bytes;
use crate::{Way, marking};

impl Part<'_> {
    // The symbols of a row of high bytes and a row of low bytes.
    fn join(self, part: &[u8], out: &mut [u8])
        requires part_long { length part.now ≡ 128 }
        requires out_long { length out.old ≡ self.count * 2 }
        ensures { (q v : ℕ) → q < self.entry.count → v < 2 → get_or out.new (q * 2 + v) 0 ≡ get_or part.now (v * 64 + q) 0 }
    {
        for q in 0..self.count {
            out[q * 2] = part[q];
            out[q * 2 + 1] = part[64 + q];
        }
    }

    // The symbols of an output's rows of bytes. With `copy_from_slice`, a call for each 64 bytes, lanes took 7 % longer to become rows.
    fn store_row(self, part: &[u8], out: &mut [u8])
        requires part_long { length part.now ≡ self.job.w.bytes * 64 }
        requires out_long { length out.old ≡ self.count * self.job.w.bytes }
        ensures { let w = self.entry.job.w.bytes in (q v : ℕ) → q < self.entry.count → v < w → get_or out.new (q * w + v) 0 ≡ get_or part.now (v * 64 + q) 0 }
    {
        let w = self.job.w;
        if w.bytes == 1 {
            pick_bytes::<1, 0>(&part[..self.count], out);
            return;
        }
        self.join(part, out);
    }

    // These lanes of the rows of a buffer.
    fn store_rows(self, words: &[u8], out: &mut [u8])
        requires words_long { self.job.w.bytes * self.job.m.outputs * 64 ≤ length words.now }
        requires out_long { length out.old ≡ self.job.w.bytes * self.job.m.outputs * self.job.m.lanes }
        ensures { let p = self.entry in let j = p.job in (f : ℕ → ℕ → ℕ) → Sums j.w.bytes j.m.outputs p.first p.count f words.now → RowsDone j.w.bytes j.m.outputs j.m.lanes f p.first out.old → RowsDone j.w.bytes j.m.outputs j.m.lanes f (p.first + p.count) out.new }
    {
        let w = self.job.w;
        let size = w.bytes * 64;
        let row = self.job.m.lanes * w.bytes;
        let at = self.first * w.bytes;
        let part = self.count * w.bytes;
        for i in 0..self.job.m.outputs {
            let from = i * size;
            let to = from + size;
            let start = i * row + at;
            let end = start + part;
            self.store_row(&words[from..to], &mut out[start..end]);
        }
    }

    // The same of lanes that stand one after the other.
    fn store_lanes(self, words: &[u8], blocks: &mut [u8], out: &mut [u8])
        requires words_long { (self.job.w.bytes * self.job.m.outputs + 15) / 16 * 1024 ≤ length words.now }
        requires blocks_long { (self.job.w.bytes * self.job.m.outputs + 15) / 16 * 1024 ≤ length blocks.old }
        requires out_long { length out.old ≡ self.job.w.bytes * self.job.m.outputs * self.job.m.lanes }
        ensures { let p = self.entry in let j = p.job in (f : ℕ → ℕ → ℕ) → Sums j.w.bytes j.m.outputs p.first p.count f words.now → LanesDone j.w.bytes j.m.outputs j.m.lanes f p.first out.old → LanesDone j.w.bytes j.m.outputs j.m.lanes f (p.first + p.count) out.new }
    {
        let n = self.job.w.bytes * self.job.m.outputs;
        let size = n.div_ceil(16) * 1024;
        let start = self.first * n;
        let end = start + self.count * n;
        tiles::scatter64(
            n,
            self.count,
            &words[..size],
            &mut blocks[..size],
            &mut out[start..end],
        );
    }

    // The marks of these lanes.
    fn store_marks(self, words: &[u8], out: &mut [u8])
        requires words_long { self.job.w.bytes * self.job.m.outputs * 64 ≤ length words.now }
        requires out_long { length out.old ≡ self.job.m.lanes }
        ensures { let p = self.entry in let j = p.job in (f : ℕ → ℕ → ℕ) → Sums j.w.bytes j.m.outputs p.first p.count f words.now → MarksDone j.m.outputs j.m.lanes f p.first out.old → MarksDone j.m.outputs j.m.lanes f (p.first + p.count) out.new }
    {
        let first = self.first;
        let last = first + self.count;
        let rows = self.job.w.bytes * self.job.m.outputs;
        marking::mark_rows(rows, words, &mut out[first..last]);
    }

    // As the way says; `blocks` is scratch.
    pub fn store(self, words: &[u8], blocks: &mut [u8], out: &mut [u8])
        requires words_long { (self.job.w.bytes * self.job.m.outputs + 15) / 16 * 1024 ≤ length words.now }
        requires blocks_long { (self.job.w.bytes * self.job.m.outputs + 15) / 16 * 1024 ≤ length blocks.old }
        requires out_long { length out.old ≡ out_bytes self.job.m.way self.job.w.bytes self.job.m.outputs self.job.m.lanes }
        ensures { let p = self.entry in let j = p.job in (f : ℕ → ℕ → ℕ) → Sums j.w.bytes j.m.outputs p.first p.count f words.now → Done j.m.way j.w.bytes j.m.outputs j.m.lanes f p.first out.old → Done j.m.way j.w.bytes j.m.outputs j.m.lanes f (p.first + p.count) out.new }
    {
        match self.job.m.way {
            Way::RowsToLanes => self.store_lanes(words, blocks, out),
            Way::LanesToRows => self.store_rows(words, out),
            Way::LanesToMarks => self.store_marks(words, out),
        }
    }
}
