// Marks of the lanes that do not agree with the message of their first k symbols: each other node is checked, as a product of matrices.
// A mark is a byte, for the product writes the marks of 64 lanes as bytes.
ghost use Rattle.std.specs.Prelude.{◌≡◌, ◌-◌, ◌≤◌, length};
ghost use Rattle.generator.specs.Records.{modulus_of};
ghost use Rattle.tile_products.specs.Inner.Matrices.{Begun};
ghost use Rattle.wrong_lanes.specs.Inner.Checks.{check_row, OtherRoom};
ghost use Rattle.listed_products.specs.Inner.Shares.{AgreeMarks, agree_product, listed_points};

use crate::ListedBlock;
use block_products::{Product, Way};
use field::lent::Arithmetic;
use interpolation::powers::Root;
use tile_products::WeightCodes;
use tile_products::scratch::{
    LARGE_COUNTS, LARGE_LISTS, MIDDLE_COUNTS, MIDDLE_LISTS, SMALL_COUNTS, SMALL_LISTS,
};
use wrong_lanes::check_rows::Others;

impl ListedBlock<'_, '_> {
    // The lists of the checks of all but the first k nodes.
    fn list_checks(self, lists: &mut [u16], counts: &mut [u8])
        requires { OtherRoom (length self.nodes.now) self.code.header.k (length lists.old) (length counts.old) }
        ensures { let b = self.entry in let h = b.code.header in let rows = length b.nodes.now in Begun (modulus_of h) rows (check_row (modulus_of h) h.k (listed_points h b.nodes.now)) (rows - h.k) lists.new counts.new }
    {
        let h = self.code.header;
        let rows = self.nodes.len();
        let tables = field::constant_tables();
        let field = Arithmetic::new(h.field, &tables);
        let root = Root {
            field,
            value: h.root,
        };
        let points = root.points(self.nodes, 0);
        let others = Others {
            field,
            k: h.k as usize,
            points: &points[..rows],
        };
        let mut codes: [u64; 256] = kernel::filled(0);
        let codes = WeightCodes::new(h.field, &mut codes);
        others.list(codes, lists, counts);
    }

    // The product of these checks and the lanes.
    fn checks(self) -> Product
        ensures { result ≡ agree_product self.entry.code.header (length self.entry.nodes.now) self.entry.lanes }
    {
        let h = self.code.header;
        let rows = self.nodes.len();
        Product {
            way: Way::LanesToMarks,
            field: h.field,
            outputs: rows - h.k as usize,
            rows,
            lanes: self.lanes,
        }
    }

    // Marks all lanes in scratch for lists of so many elements and so many counts. A bound of a const parameter stands in the clause: no value
    // holds it.
    fn mark_in<const LISTS: usize, const COUNTS: usize>(self, marks: &mut [u8])
        requires { (LISTS ≤ 130560) × (COUNTS ≤ 2040) × OtherRoom (length self.nodes.now) self.code.header.k LISTS COUNTS × (length marks.old ≡ self.lanes) }
        ensures { let b = self.entry in AgreeMarks b.code.header b.lanes b.nodes.now b.shares.now marks.new }
    {
        let w = symbols::width_of(self.code.header);
        let mut lists = [0u16; LISTS];
        let mut counts = [0u8; COUNTS];
        self.list_checks(&mut lists, &mut counts);
        block_products::fill(self.checks(), w, &lists, &counts, self.shares, marks);
    }

    // The same in the smallest scratch that the listed nodes fit: of the choice written once block_products (src/job.rt) says what it would be.
    pub fn mark_lanes(self, marks: &mut [u8])
        requires { length marks.old ≡ self.lanes }
        ensures { let b = self.entry in AgreeMarks b.code.header b.lanes b.nodes.now b.shares.now marks.new }
    {
        let rows = self.nodes.len();
        if rows <= 16 {
            self.mark_in::<SMALL_LISTS, SMALL_COUNTS>(marks)
        } else if rows <= 64 {
            self.mark_in::<MIDDLE_LISTS, MIDDLE_COUNTS>(marks)
        } else {
            self.mark_in::<LARGE_LISTS, LARGE_COUNTS>(marks)
        }
    }
}
