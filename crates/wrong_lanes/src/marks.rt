// Marks of the lanes that are no word of the code: one lane by its check sums, more as a product of matrices.
// A mark is a byte, for the product writes the marks of 64 lanes as bytes.
ghost use Rattle.std.specs.Prelude.{◌≡◌, ◌≤◌, length};
ghost use Rattle.lists.specs.Padded.{zeros};
ghost use Rattle.layout.specs.Layout.{share_layout};
ghost use Rattle.layout.specs.Width.{symbols_of};
ghost use Rattle.generator.specs.Records.{width};
ghost use Rattle.wrong_lanes.specs.Inner.Marks.{word_marks};
ghost use Rattle.wrong_lanes.specs.Inner.Checks.{check_product, CheckRoom};

use crate::Block;
use crate::check_rows::list_checks;
use block_products::{Product, Way};
use check_sums::lane::{Lane, PowerRows, ROOM};
use tile_products::scratch::{
    LARGE_COUNTS, LARGE_LISTS, MIDDLE_COUNTS, MIDDLE_LISTS, SMALL_COUNTS, SMALL_LISTS,
};

impl Block<'_> {
    // One lane alone, for which a product would take a whole tile's time.
    fn mark_lane(self, marks: &mut [u8])
        requires { (self.lanes ≡ 1) × (length marks.old ≡ 1) }
        ensures { let b = self.entry in marks.new ≡ word_marks share_layout b.code.header b.lanes (symbols_of (width b.code.header) b.shares.now) }
    {
        let h = self.code.header;
        let n = h.n as usize;
        let values = symbols::width_of(h).read_symbols(self.shares);
        let mut room: [u8; ROOM] = kernel::filled(0);
        let rows = PowerRows::new(self.code, &mut room);
        let lane = Lane {
            rows,
            symbols: &values[..n],
        };
        marks[0] = u8::from(!lane.is_word());
    }

    // The product of the checks and the lanes.
    fn product(self) -> Product
        ensures { result ≡ check_product self.entry.code.header self.entry.lanes }
    {
        let h = self.code.header;
        Product {
            way: Way::LanesToMarks,
            field: h.field,
            outputs: self.code.checks(),
            rows: h.n as usize,
            lanes: self.lanes,
        }
    }

    // Marks of several lanes as a product of matrices, in scratch for lists of so many elements and so many counts. A bound of a const parameter
    // stands in the clause: no value holds it.
    fn mark_in<const LISTS: usize, const COUNTS: usize>(self, marks: &mut [u8])
        requires { (LISTS ≤ 130560) × (COUNTS ≤ 2040) × CheckRoom self.code.header LISTS COUNTS × (length marks.old ≡ self.lanes) }
        ensures { let b = self.entry in marks.new ≡ word_marks share_layout b.code.header b.lanes (symbols_of (width b.code.header) b.shares.now) }
    {
        let w = symbols::width_of(self.code.header);
        let mut lists = [0u16; LISTS];
        let mut counts = [0u8; COUNTS];
        list_checks(self.code, self.lanes, &mut lists, &mut counts);
        block_products::fill(self.product(), w, &lists, &counts, self.shares, marks);
    }

    // Marks all lanes, which have the mark 0 before, in the smallest scratch that the record's nodes fit: clearing the largest takes four times as
    // long as Encode of 64 lanes at (15, 10), and of the choice written once block_products (src/job.rt) says what it would be.
    pub fn mark_lanes(self, marks: &mut [u8])
        requires { marks.old ≡ zeros self.lanes }
        ensures { let b = self.entry in marks.new ≡ word_marks share_layout b.code.header b.lanes (symbols_of (width b.code.header) b.shares.now) }
    {
        let n = self.code.header.n;
        if self.lanes == 1 {
            self.mark_lane(marks)
        } else if n <= 16 {
            self.mark_in::<SMALL_LISTS, SMALL_COUNTS>(marks)
        } else if n <= 64 {
            self.mark_in::<MIDDLE_LISTS, MIDDLE_COUNTS>(marks)
        } else {
            self.mark_in::<LARGE_LISTS, LARGE_COUNTS>(marks)
        }
    }
}
