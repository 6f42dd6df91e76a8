// The shares of all lanes: the nodes' columns as lists, and their products with the lanes.
ghost use Rattle.std.specs.Prelude.{◌≡◌, ◌≤◌, ◌<◌, length};
ghost use Rattle.generator.specs.Records.{modulus_of};
ghost use Rattle.tile_products.specs.Inner.Matrices.{Begun};
ghost use Rattle.encode.specs.Inner.Columns.{ColumnRoom, column_of, column_product};
ghost use Rattle.encode.specs.Inner.Encoded.{record_header, share_bytes, encoded};

use crate::message::Message;
use block_products::{Product, Way};
use generator::Header;
use plan::Generator;
use tile_products::WeightCodes;
use tile_products::scratch::{
    LARGE_COUNTS, LARGE_LISTS, MIDDLE_COUNTS, MIDDLE_LISTS, SMALL_COUNTS, SMALL_LISTS,
};

// Fills the node's column of the generator.
fn fill_column(generator: &Generator, node: usize, column: &mut [u16])
    requires { (node < generator.now.codec.code.header.n) × (length column.old ≡ generator.now.codec.code.header.k) }
    ensures { column.new ≡ column_of generator.now.codec.code.header node }
{
    for (r, entry) in column.iter_mut().enumerate() {
        *entry = generator.entry(r, node);
    }
}

// The lists of every node's column; `column` is scratch, lent to all nodes. `prepare_all` takes an array of 255 numbers for each output: to clear
// and copy it for each node was a fifth of Encode on 64 lanes.
#[tactic(auto, using(lists::proofs::Rows::row_inside, tile_products::proofs::Beginning::begun_none, crate::proofs::Words::length_column, crate::proofs::Words::column_below))]
fn list_columns(
    generator: &Generator,
    codes: WeightCodes,
    column: &mut [u16],
    lists: &mut [u16],
    counts: &mut [u8],
)
    requires { (codes.field ≡ generator.now.codec.code.header.field) × (length column.old ≡ generator.now.codec.code.header.k) × ColumnRoom generator.now.codec.code.header (length lists.old) (length counts.old) }
    ensures { Begun (modulus_of generator.now.codec.code.header) generator.now.codec.code.header.k (column_of generator.now.codec.code.header) generator.now.codec.code.header.n lists.new counts.new }
{
    for node in 0..generator.codec.code.header.n as usize {
        fill_column(generator, node, column);
        codes.prepare(column, node, lists, counts);
    }
}

// The same in scratch of its own.
fn fill_lists(generator: &Generator, lists: &mut [u16], counts: &mut [u8])
    requires { ColumnRoom generator.now.codec.code.header (length lists.old) (length counts.old) }
    ensures { Begun (modulus_of generator.now.codec.code.header) generator.now.codec.code.header.k (column_of generator.now.codec.code.header) generator.now.codec.code.header.n lists.new counts.new }
{
    let Header { field, k, .. } = generator.codec.code.header;
    let mut codes: [u64; 256] = kernel::filled(0);
    let codes = WeightCodes::new(field, &mut codes);
    let mut column = [0u16; 255];
    list_columns(generator, codes, &mut column[..k as usize], lists, counts);
}

impl Message<'_> {
    // The product of the generator's columns and its lanes.
    fn product(self) -> Product
        ensures { result ≡ column_product (record_header self.entry) self.entry.lanes }
    {
        let Header { field, n, k, .. } = self.generator.codec.code.header;
        Product {
            way: Way::RowsToLanes,
            field,
            outputs: n as usize,
            rows: k as usize,
            lanes: self.lanes,
        }
    }

    // Fills all lanes, as a product of matrices, in scratch for lists of so many elements and so many counts. A bound of a const parameter
    // stands in the clause: no value holds it.
    fn fill_in<const LISTS: usize, const COUNTS: usize>(self, out: &mut [u8])
        requires { (LISTS ≤ 130560) × (COUNTS ≤ 2040) × ColumnRoom (record_header self) LISTS COUNTS × (length out.old ≡ share_bytes self) }
        ensures { out.new ≡ encoded self.entry }
    {
        let mut lists = [0u16; LISTS];
        let mut counts = [0u8; COUNTS];
        fill_lists(self.generator, &mut lists, &mut counts);
        block_products::fill(self.product(), self.width, &lists, &counts, self.bytes, out);
    }

    // The same in the smallest scratch that the record's nodes fit. Clearing the largest takes 9 µs, all of
    // Encode of 64 lanes at (15, 10) 2. Of the choice written once block_products (src/job.rt) says what it would be.
    pub fn fill_lanes(self, out: &mut [u8])
        requires { length out.old ≡ share_bytes self }
        ensures { out.new ≡ encoded self.entry }
    {
        let n = self.generator.codec.code.header.n;
        if n <= 16 {
            self.fill_in::<SMALL_LISTS, SMALL_COUNTS>(out)
        } else if n <= 64 {
            self.fill_in::<MIDDLE_LISTS, MIDDLE_COUNTS>(out)
        } else {
            self.fill_in::<LARGE_LISTS, LARGE_COUNTS>(out)
        }
    }
}
