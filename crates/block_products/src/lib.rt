// Products of a matrix of weights and the lanes of a block, 64 lanes at a time, over every kind of field: the lanes stand row after row or
// lane after lane, and the sums are written so, or told by marks.
#![tactic(auto)]

ghost use Rattle.std.specs.Prelude.{◌≡◌, List, ℕ, length};
ghost use Rattle.field.specs.Kinds.{modulus};
ghost use Rattle.tile_products.specs.Inner.Matrices.{Begun};
ghost use Rattle.block_products.specs.Inner.Ways.{result_bytes, lane_sum, Ready};

use field::Field;
use job::Job;
use symbols::Width;

mod job;
mod loading;
mod marking;
mod storing;

// From rows of symbols to lanes of sums, from lanes to rows, or from lanes to a mark for each lane with a sum that is not 0.
// An enum, and no types with a trait: such types would each state where lanes stand and what is done so far, where one match loads and one
// stores.
#[derive(Clone, Copy)]
pub enum Way {
    RowsToLanes,
    LanesToRows,
    LanesToMarks,
}

// So many sums of the symbols in so many rows of each lane. Not over a `Shape`: `j.m.shape.outputs` would stand for `j.m.outputs` in nearly each
// clause, and one place, `fill_tile`, puts a `Shape` together.
#[derive(Clone, Copy)]
pub struct Product {
    pub way: Way,
    pub field: Field,
    pub outputs: usize,
    pub rows: usize,
    pub lanes: usize,
}

// The sums of all lanes with the weights that the lists were made for.
pub fn fill(m: Product, w: Width, lists: &[u16], counts: &[u8], source: &[u8], out: &mut [u8])
    requires { Ready m w.bytes lists.now counts.now source.now (length out.old) }
    ensures { (ws : ℕ → List ℕ) → Begun (modulus m.field) m.rows ws m.outputs lists.now counts.now → out.new ≡ result_bytes m.way w.bytes m.outputs m.lanes (lane_sum m w.bytes ws source.now) }
{
    let job = Job {
        m,
        w,
        lists,
        counts,
        source,
    };
    job.fill(out);
}
