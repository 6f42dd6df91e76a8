// The message of listed shares: the product of the inverse and the lanes.
ghost use Rattle.std.specs.Prelude.{◌≡◌, ◌*◌, ◌≤◌, length};
ghost use Rattle.generator.specs.Records.{width};
ghost use Rattle.recover_matrix.specs.Inner.Inverse.{inverse_product, square_bytes, ListRoom};

use crate::Inverse;
use tile_products::scratch::{
    LARGE_COUNTS, LARGE_LISTS, MIDDLE_COUNTS, MIDDLE_LISTS, SMALL_COUNTS, SMALL_LISTS,
};

// The bytes of a square matrix of 16, 64 and 255 rows, two for a symbol.
pub const SMALL_SQUARE: usize = 512;

pub const MIDDLE_SQUARE: usize = 8192;

pub const LARGE_SQUARE: usize = 130050;

impl Inverse<'_, '_> {
    // The message in scratch for lists of so many elements, so many counts, and square matrices of so many bytes. A bound of a const parameter
    // stands in the clause: no value holds it.
    fn fill_in<const LISTS: usize, const COUNTS: usize, const SQUARE: usize>(
        self,
        lanes: usize,
        shares: &[u8],
        out: &mut [u8],
    )
        requires { (LISTS ≤ 130560) × (COUNTS ≤ 2040) × (SQUARE ≤ 130050) × ListRoom self.codec.code.header.k LISTS COUNTS × (square_bytes self.codec.code.header ≤ SQUARE) × (lanes ≤ 4096) × (length shares.now ≡ width self.codec.code.header * self.codec.code.header.k * lanes) × (length out.old ≡ width self.codec.code.header * self.codec.code.header.k * lanes) }
        ensures { out.new ≡ inverse_product self.entry.codec.code.header self.entry.nodes.now lanes shares.now }
    {
        let w = symbols::width_of(self.codec.code.header);
        let mut lists = [0u16; LISTS];
        let mut counts = [0u8; COUNTS];
        let k = self.codec.code.header.k as usize;
        self.list_rows::<SQUARE>(k, &mut lists, &mut counts);
        block_products::fill(self.product(lanes), w, &lists, &counts, shares, out);
    }

    // The message of the nodes' shares, row after row, in the smallest scratch that the nodes fit: at most 16, at most 64, or any.
    // Clearing what 64 nodes take was 6 % of Recover of 64 lanes at (15, 10). Of the choice written once block_products (src/job.rt) says what it would be.
    pub fn fill_message(self, lanes: usize, shares: &[u8], out: &mut [u8])
        requires { (lanes ≤ 4096) × (length shares.now ≡ width self.codec.code.header * self.codec.code.header.k * lanes) × (length out.old ≡ width self.codec.code.header * self.codec.code.header.k * lanes) }
        ensures { out.new ≡ inverse_product self.entry.codec.code.header self.entry.nodes.now lanes shares.now }
    {
        let k = self.codec.code.header.k;
        if k <= 16 {
            self.fill_in::<SMALL_LISTS, SMALL_COUNTS, SMALL_SQUARE>(lanes, shares, out)
        } else if k <= 64 {
            self.fill_in::<MIDDLE_LISTS, MIDDLE_COUNTS, MIDDLE_SQUARE>(lanes, shares, out)
        } else {
            self.fill_in::<LARGE_LISTS, LARGE_COUNTS, LARGE_SQUARE>(lanes, shares, out)
        }
    }
}
