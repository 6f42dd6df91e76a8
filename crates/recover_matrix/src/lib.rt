// The inverse of the encoding at listed nodes, as lists of weights, and the message by it. Each entry is a sum over the terms of a row and the quotient of the nodes' product polynomial by a linear factor: all sums together are the product of two matrices.
#![tactic(auto)]

ghost use Rattle.std.specs.Prelude.{◌≡◌, true, ◌≤◌, ◌<◌, length};
ghost use Rattle.lists.specs.Rows.{rows_from};
ghost use Rattle.lists.specs.Padded.{padded};
ghost use Rattle.layout.specs.Width.{bytes_of};
ghost use Rattle.generator.specs.Records.{modulus_of, width};
ghost use Rattle.generator.specs.Claims.{are_nodes};
ghost use Rattle.node_weights.specs.Inner.Rows.{setup_of, row_terms};
ghost use Rattle.tile_products.specs.Inner.Matrices.{Begun};
ghost use Rattle.recover_matrix.specs.Inner.Inverse.{inverse_row, inverse_sums, node_quotient, padded_row, row_product, square_bytes, ListRoom};

pub mod message;

use block_products::{Product, Way};
use generator::Codec;
use interpolation::polynomials::Polynomial;
use node_weights::Setup;
use tile_products::WeightCodes;

// The inverse at listed nodes, by what was prepared for them.
#[derive(Clone, Copy)]
pub struct Inverse<'f, 'a> {
    pub codec: Codec<'f>,
    pub nodes: &'a [u8],
    pub setup: &'a Setup,
    pub ghost different: { are_nodes codec.code.header nodes.now ≡ true },
    pub ghost prepared: { setup.now ≡ setup_of codec.code.header nodes.now },
}

impl Inverse<'_, '_> {
    // The terms of every row, one row's after the other. Each row is cut by its place: after `chunks_mut` a proof knows the length alone
    // (docs/PROOF-NOTES.md).
    fn fill_terms(self, out: &mut [u8])
        requires { length out.old ≡ square_bytes self.codec.code.header }
        ensures { let h = self.entry.codec.code.header in out.new ≡ bytes_of (width h) (rows_from (row_terms h) 0 h.k) }
    {
        let h = self.codec.code.header;
        let k = h.k as usize;
        let w = symbols::width_of(h);
        let size = w.bytes * k;
        for r in 0..k {
            let row = self.setup.row_terms(self.codec, r);
            let start = r * size;
            let end = start + size;
            w.write_symbols(&row[..k], &mut out[start..end]);
        }
    }

    // The quotient of the product polynomial by the linear factor of node i, and zeros after it.
    fn quotient(self, i: usize) -> [u16; 255]
        requires { i < self.codec.code.header.k }
        ensures { result ≡ padded 255 (node_quotient self.entry.codec.code.header self.entry.nodes.now i) }
    {
        let k = self.codec.code.header.k as usize;
        let nodes = &self.setup.nodes;
        let product = Polynomial {
            field: self.codec.field,
            coefficients: &nodes.product[1..=k],
        };
        product.quotient(nodes.points[i] as u32)
    }

    // The lists of the quotients by the linear factors of the nodes' points. Here and below, lists and counts are lent side by side: a value of both
    // arrays, `&mut WeightLists<LISTS, COUNTS>`, would make each function down to `prepare` generic in two sizes, and of a struct of two slices each
    // clause would say what they lead to before and after (tiles/src/scattering.rt).
    #[tactic(auto, using(lists::proofs::Padding::take_padded, crate::proofs::Rows::length_quotient, crate::proofs::Rows::quotient_below, crate::proofs::Prepared::few))]
    fn list_quotients(self, codes: WeightCodes, lists: &mut [u16], counts: &mut [u8])
        requires { (codes.field ≡ self.codec.code.header.field) × ListRoom self.codec.code.header.k (length lists.old) (length counts.old) }
        ensures { let h = self.entry.codec.code.header in Begun (modulus_of h) h.k (node_quotient h self.entry.nodes.now) h.k lists.new counts.new }
    {
        let k = self.codec.code.header.k as usize;
        let quotient = move |i: usize| -> [u16; 255]
            requires { i < self.codec.code.header.k }
            ensures { result ≡ padded 255 (node_quotient self.entry.codec.code.header self.entry.nodes.now i) }
        { self.quotient(i) };
        codes.prepare_all(k, k, quotient, lists, counts);
    }

    // The product of k sums of k symbols and so many lanes, row after row.
    fn product(self, lanes: usize) -> Product
        ensures { result ≡ row_product self.entry.codec.code.header lanes }
    {
        let k = self.codec.code.header.k as usize;
        Product {
            way: Way::LanesToRows,
            field: self.codec.code.header.field,
            outputs: k,
            rows: k,
            lanes,
        }
    }

    // Row r: column r of the sums, each times the scale of the row and that of its node, and zeros after it.
    // An array with zeros after: it has k entries, as the code says, so no length stands beside it.
    #[tactic(auto, using(lists::proofs::Fill::filled_start, crate::proofs::Prepared::few, crate::proofs::Prepared::own_scale_below, crate::proofs::Prepared::row_scale_below, crate::proofs::Prepared::sum_inside, crate::proofs::Prepared::sum_below), unfolding(lists::specs::Padded::zeros))]
    fn row(self, r: usize, sums: &[u8]) -> [u16; 255]
        requires { (r < self.codec.code.header.k) × (sums.now ≡ bytes_of (width self.codec.code.header) (inverse_sums self.codec.code.header self.nodes.now)) }
        ensures { result ≡ padded 255 (inverse_row self.entry.codec.code.header self.entry.nodes.now r) }
    {
        let k = self.codec.code.header.k as usize;
        let field = self.codec.field;
        let w = symbols::width_of(self.codec.code.header);
        let scale = self.setup.shifts.scales[r] as u32;
        let mut out = [0u16; 255];
        for i in 0..k {
            let own = field.mul(scale, self.setup.nodes.scales[i] as u32);
            let sum = w.symbol_at(sums, i * k + r) as u32;
            out[i] = field.mul(own, sum) as u16;
        }
        out
    }

    // The lists of all rows, from the sums, each with zeros after it up to so many.
    fn list_from(
        self,
        rows: usize,
        sums: &[u8],
        codes: WeightCodes,
        lists: &mut [u16],
        counts: &mut [u8],
    )
        requires { (sums.now ≡ bytes_of (width self.codec.code.header) (inverse_sums self.codec.code.header self.nodes.now)) × (codes.field ≡ self.codec.code.header.field) × (self.codec.code.header.k ≤ rows) × (rows ≤ 255) × ListRoom rows (length lists.old) (length counts.old) }
        ensures { let h = self.entry.codec.code.header in Begun (modulus_of h) rows (padded_row h self.entry.nodes.now rows) h.k lists.new counts.new }
    {
        let k = self.codec.code.header.k as usize;
        let row = move |r: usize| -> [u16; 255]
            requires { (r < self.codec.code.header.k) × (sums.now ≡ bytes_of (width self.codec.code.header) (inverse_sums self.codec.code.header self.nodes.now)) }
            ensures { result ≡ padded 255 (inverse_row self.entry.codec.code.header self.entry.nodes.now r) }
        { self.row(r, sums) };
        codes.prepare_all(rows, k, row, lists, counts);
    }

    // The same, with the sums of all rows' terms with all quotients made in scratch of so many bytes for each of two square matrices.
    pub fn list_rows<const SQUARE: usize>(self, rows: usize, lists: &mut [u16], counts: &mut [u8])
        requires { (SQUARE ≤ 130050) × (square_bytes self.codec.code.header ≤ SQUARE) × (self.codec.code.header.k ≤ rows) × (rows ≤ 255) × ListRoom rows (length lists.old) (length counts.old) }
        ensures { let h = self.entry.codec.code.header in Begun (modulus_of h) rows (padded_row h self.entry.nodes.now rows) h.k lists.new counts.new }
    {
        let k = self.codec.code.header.k as usize;
        let w = symbols::width_of(self.codec.code.header);
        let size = w.bytes * k * k;
        let mut codes: [u64; 256] = kernel::filled(0);
        let codes = WeightCodes::new(self.codec.code.header.field, &mut codes);
        let mut room = [0u8; SQUARE];
        let mut other_room = [0u8; SQUARE];
        let terms = &mut room[..size];
        let sums = &mut other_room[..size];
        self.fill_terms(terms);
        self.list_quotients(codes, lists, counts);
        block_products::fill(self.product(k), w, lists, counts, terms, sums);
        self.list_from(rows, sums, codes, lists, counts);
    }
}
