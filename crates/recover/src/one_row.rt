// One node's share of many lanes: the product of a matrix of one row and the lanes of the block, 64 at a time.
ghost use Rattle.std.specs.Prelude.{◌≡◌, ◌*◌, length};
ghost use Rattle.recover.specs.Inner.OneRow.{share_product, sum_bytes};

use crate::shares::Weighted;
use block_products::{Product, Way};
use tile_products::{WeightCodes, scratch};

impl Weighted<'_> {
    // The product of one row of weights and the lanes.
    fn product(self) -> Product
        ensures { result ≡ share_product self.entry.code.header self.entry.lanes }
    {
        let h = self.code.header;
        Product {
            way: Way::LanesToRows,
            field: h.field,
            outputs: 1,
            rows: h.k as usize,
            lanes: self.lanes,
        }
    }

    // The sums of all lanes. The lists of one row fit the smallest scratch.
    pub fn fill_row(self, out: &mut [u8])
        requires { length out.old ≡ self.width.bytes * self.lanes }
        ensures { let v = self.entry in out.new ≡ sum_bytes v.code.header v.width.bytes v.lanes v.weights.now v.shares.now }
    {
        let field = self.code.header.field;
        let weights = &self.weights[..self.code.header.k as usize];
        let mut codes: [u64; 256] = kernel::filled(0);
        let codes = WeightCodes::new(field, &mut codes);
        let mut lists: [u16; scratch::SMALL_LISTS] = kernel::filled(0);
        let mut counts: [u8; scratch::SMALL_COUNTS] = kernel::filled(0);
        codes.prepare(weights, 0, &mut lists, &mut counts);
        block_products::fill(
            self.product(),
            self.width,
            &lists,
            &counts,
            self.shares,
            out,
        );
    }
}
