// A product of a matrix and lanes, and the part of it that is one tile. The width w stands beside the field that gives it: what loops do is stated
// in it, and nothing is rewritten there (docs/PROOF-NOTES.md). The buffer for the sums is lent to each function, so its length, `out_bytes`,
// stands in their clauses: no field of a job can hold it.
ghost use Rattle.std.specs.Prelude.{◌≡◌, true, List, ℕ, ◌+◌, ◌*◌, ◌^◌, ◌≤◌, ◌<◌, length};
ghost use Rattle.lists.specs.Numbers.{all_below};
ghost use Rattle.field.specs.Kinds.{modulus, usable};
ghost use Rattle.field.specs.Widths.{bytes_for};
ghost use Rattle.tile_products.specs.Inner.Matrices.{Begun, Made};
ghost use Rattle.block_products.specs.Inner.Ways.{out_bytes, result_bytes, lane_sum, Done, Room};

use crate::Product;
use symbols::Width;
use tile_products::scratch::{
    LARGE_ROWS, LARGE_TABLE, MIDDLE_ROWS, MIDDLE_TABLE, SMALL_ROWS, SMALL_TABLE,
};
use tile_products::{Matrix, Shape};

// The lists of a matrix and the bytes of the lanes. No `Matrix`: what is said of a job goes by its outputs, rows and
// lanes, which would stand two fields deeper, and a matrix is put together in one place.
#[derive(Clone, Copy)]
pub struct Job<'a> {
    pub m: Product,
    pub w: Width,
    pub lists: &'a [u16],
    pub counts: &'a [u8],
    pub source: &'a [u8],
    pub ghost usable_field: { usable m.field ≡ true },
    pub ghost wide: { w.bytes ≡ bytes_for (modulus m.field) },
    pub ghost few_rows: { m.rows ≤ 255 },
    pub ghost few_outputs: { m.outputs ≤ 255 },
    pub ghost few_lanes: { m.lanes ≤ 4096 },
    pub ghost made: { ∥ Made (modulus m.field) m.rows m.outputs lists.now counts.now ∥₁ },
    pub ghost bytes: { all_below 256 source.now ≡ true },
    pub ghost source_long: { length source.now ≡ w.bytes * m.rows * m.lanes },
}

// At most 64 lanes, from lane `first` on.
#[derive(Clone, Copy)]
pub struct Part<'a> {
    pub job: Job<'a>,
    pub first: usize,
    pub count: usize,
    pub ghost few: { count ≤ 64 },
    pub ghost inside: { first + count ≤ job.m.lanes },
}

impl Part<'_> {
    // The sums of these lanes; `tile`, `table` and `words` are scratch: the rows of a tile, its table or its blocks, the rows of the product.
    // Three slices: a value of the three arrays, `&mut Scratch<ROWS, TABLE>`, would make this function and `fill_lanes` generic in two sizes, with
    // the bounds that stand at `fill_in` in each.
    fn fill_tile(self, tile: &mut [u8], table: &mut [u8], words: &mut [u8], out: &mut [u8])
        requires out_long { length out.old ≡ out_bytes self.job.m.way self.job.w.bytes self.job.m.outputs self.job.m.lanes }
        requires room { Room self.job.w.bytes self.job.m.outputs self.job.m.rows (length tile.old) (length table.old) (length words.old) }
        ensures { let p = self.entry in let j = p.job in (ws : ℕ → List ℕ) → Begun (modulus j.m.field) j.m.rows ws j.m.outputs j.lists.now j.counts.now → Done j.m.way j.w.bytes j.m.outputs j.m.lanes (lane_sum j.m j.w.bytes ws j.source.now) p.first out.old → Done j.m.way j.w.bytes j.m.outputs j.m.lanes (lane_sum j.m j.w.bytes ws j.source.now) (p.first + p.count) out.new }
    {
        let job = self.job;
        let matrix = Matrix {
            shape: Shape {
                field: job.m.field,
                outputs: job.m.outputs,
                rows: job.m.rows,
            },
            lists: job.lists,
            counts: job.counts,
        };
        let groups = tile_products::groups_of(job.m.rows);
        let size = groups * (job.w.bytes * 256);
        let sums = groups * 1024;
        self.load(tile);
        matrix.apply(&tile[..size], &mut table[..sums], words);
        self.store(words, table, out);
    }
}

impl Job<'_> {
    // The sums of all lanes, a part after the other, in that scratch.
    fn fill_lanes(self, tile: &mut [u8], table: &mut [u8], words: &mut [u8], out: &mut [u8])
        requires out_long { length out.old ≡ out_bytes self.m.way self.w.bytes self.m.outputs self.m.lanes }
        requires room { Room self.w.bytes self.m.outputs self.m.rows (length tile.old) (length table.old) (length words.old) }
        ensures { let j = self.entry in (ws : ℕ → List ℕ) → Begun (modulus j.m.field) j.m.rows ws j.m.outputs j.lists.now j.counts.now → out.new ≡ result_bytes j.m.way j.w.bytes j.m.outputs j.m.lanes (lane_sum j.m j.w.bytes ws j.source.now) }
    {
        let lanes = self.m.lanes;
        for first in (0..lanes).step_by(64) {
            let part = Part {
                job: self,
                first,
                count: (lanes - first).min(64),
            };
            part.fill_tile(tile, table, words, out);
        }
    }

    // The same in scratch of its own: so many bytes for rows, so many for a table. A bound of a const parameter stands in the clause: no value
    // holds it.
    fn fill_in<const ROWS: usize, const TABLE: usize>(self, out: &mut [u8])
        requires out_long { length out.old ≡ out_bytes self.m.way self.w.bytes self.m.outputs self.m.lanes }
        requires room { Room self.w.bytes self.m.outputs self.m.rows ROWS TABLE ROWS }
        requires rows_fit { ROWS < 2 ^ 63 }
        requires table_fits { TABLE < 2 ^ 63 }
        ensures { let j = self.entry in (ws : ℕ → List ℕ) → Begun (modulus j.m.field) j.m.rows ws j.m.outputs j.lists.now j.counts.now → out.new ≡ result_bytes j.m.way j.w.bytes j.m.outputs j.m.lanes (lane_sum j.m j.w.bytes ws j.source.now) }
    {
        let mut tile = [0u8; ROWS];
        let mut table = [0u8; TABLE];
        let mut words = [0u8; ROWS];
        self.fill_lanes(&mut tile, &mut table, &mut words, out);
    }

    // In scratch for at most 16 rows of bytes, for at most 64, or for any: clearing the largest takes longer than all of
    // Encode of 64 lanes at (15, 10). The arms name const parameters: a choice written once would be a trait with a generic method and an `impl` for
    // each of the four crates that choose so, in place of two `if`s in each.
    pub fn fill(self, out: &mut [u8])
        requires { length out.old ≡ out_bytes self.m.way self.w.bytes self.m.outputs self.m.lanes }
        ensures { let j = self.entry in (ws : ℕ → List ℕ) → Begun (modulus j.m.field) j.m.rows ws j.m.outputs j.lists.now j.counts.now → out.new ≡ result_bytes j.m.way j.w.bytes j.m.outputs j.m.lanes (lane_sum j.m j.w.bytes ws j.source.now) }
    {
        let most = self.w.bytes * self.m.outputs.max(self.m.rows);
        if most <= 16 {
            return self.fill_in::<SMALL_ROWS, SMALL_TABLE>(out);
        }
        if most <= 64 {
            return self.fill_in::<MIDDLE_ROWS, MIDDLE_TABLE>(out);
        }
        self.fill_in::<LARGE_ROWS, LARGE_TABLE>(out);
    }
}
