// The difference of two lanes, and its comparison with a multiple of a row.
ghost use Rattle.std.specs.Prelude.{◌≡◌, ◌<◌, length};
ghost use Rattle.lists.specs.Padded.{padded};
ghost use Rattle.generator.specs.Records.{size};
ghost use Rattle.plan.specs.Plans.{plan_of};
ghost use Rattle.refusals.specs.Accepted.{IsLane};
ghost use Rattle.find_update.specs.Inner.Starts.{amount_in, differences, is_multiple};

use generator::{Code, Codec};
use plan::Plan;

// What was added at each node: after less before, and zeros after it.
// An array with zeros after: it is as long as the lanes, so no length stands beside it.
#[tactic(auto, using(lists::proofs::Fill::filled_start, lists::proofs::Numbers::below_at, field::proofs::Bounds::sub_below, field::proofs::KindLaws::size_fits), unfolding(lists::specs::Padded::zeros))]
pub fn difference(code: Code, before: &[u16], after: &[u16]) -> [u16; 255]
    requires { IsLane code.header before.now × IsLane code.header after.now }
    ensures { result ≡ padded 255 (differences code.header before.now after.now) }
{
    let field = code.header.field;
    let mut out = [0u16; 255];
    for (j, (&x, &y)) in after.iter().zip(before).enumerate() {
        out[j] = field.sub(x as u32, y as u32) as u16;
    }
    out
}

// A difference of two lanes of a code, and the plan with whose rows it is compared.
#[derive(Clone, Copy)]
pub struct LaneDifference<'a> {
    pub codec: Codec<'a>,
    pub plan: &'a Plan,
    pub symbols: &'a [u16],
    pub ghost planned: { plan.now ≡ plan_of codec.code.header },
    pub ghost lane: { IsLane codec.code.header symbols.now },
}

impl LaneDifference<'_> {
    // What was added at the first node of a row, over the row's entry there, which is the first of the base word.
    pub fn amount(self, row: usize) -> u32
        requires { row < self.codec.code.header.k }
        ensures { result ≡ amount_in self.entry.codec.code.header self.entry.symbols.now row }
    {
        let first = self.plan.firsts[row] as usize;
        let over = self.codec.field.inverse(self.plan.base[0] as u32);
        self.codec.field.mul(self.symbols[first] as u32, over)
    }

    // Whether the difference is x times the row. By a `for`: for `(0..n).all(|j| ..)` it would be shown of all nodes at once what `entry_at` and
    // `is_product` ask and what the answer means, which the invariant says node by node.
    pub fn is_multiple(self, row: usize, x: u32) -> bool
        requires { (row < self.codec.code.header.k) × (x < size self.codec.code.header) }
        ensures { result ≡ is_multiple self.entry.codec.code.header self.entry.symbols.now row x }
    {
        let n = self.codec.code.header.n as usize;
        let shift = self.plan.shifts[row] as usize;
        for j in 0..n {
            let entry = plan::entry_at(n, shift, &self.plan.base, j);
            if !self.codec.field.is_product(x, entry, self.symbols[j]) {
                return false;
            }
        }
        true
    }
}
