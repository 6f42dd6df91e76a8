// The plan sheet as text.
#![tactic(auto)]

ghost use Rattle.std.specs.Prelude.{◌≡◌, ◌+◌, ◌≤◌, ◌<◌, length};
ghost use Rattle.lists.specs.Padded.{zeros};
ghost use Rattle.lists.specs.Rows.{from};
ghost use Rattle.generator.specs.Records.{record_of};
ghost use Rattle.plan.specs.Plans.{entry_in};
ghost use Rattle.text.specs.Text.{fields};
ghost use Rattle.text.specs.Writing.{OnPage};
ghost use Rattle.text.specs.Inner.Writer.{room, Writes};
ghost use Rattle.sheet_text.specs.Sheet.{numbers_line, row_line, sheet_for};
ghost use Rattle.sheet_text.specs.Inner.Sheet.{sheet_of};

use plan::{Plan, build_plan};
use text::Writer;

// The sheet of a plan.
#[derive(Drop)]
struct PlanSheet {
    plan: Plan,
}

impl PlanSheet {
    // n, k, d and the two roundings of k·d / n, or the one where they are equal.
    #[tactic(auto, using(lists::proofs::Tests::tests), unfolding(crate::specs::Sheet::roundings, crate::specs::Sheet::numbers_line, text::specs::Text::ascii))]
    fn write_numbers(&self, writer: &mut Writer)
        requires { 25 ≤ room writer.old }
        ensures text { Writes writer.old writer.new (numbers_line self.now.plan) }
        ensures room { room writer.old ≤ room writer.new + 25 }
    {
        let Plan {
            n,
            k,
            d,
            low,
            high,
            ..
        } = self.plan;
        if low == high {
            writer.line("plan", &[n, k, d, low]);
        } else {
            writer.line("plan", &[n, k, d, low, high]);
        }
    }

    // The entries of row r, and the line feed.
    #[tactic(auto, using(lists::proofs::Rows::from_next, text::proofs::Written::writing_start, text::proofs::Written::writing_next), unfolding(text::specs::Text::fields))]
    fn write_entries(&self, writer: &mut Writer, r: u8)
        requires { 1531 ≤ room writer.old }
        ensures text { Writes writer.old writer.new (fields (from (entry_in self.now.plan r) 0 self.now.plan.n)) }
        ensures room { room writer.old ≤ room writer.new + 1531 }
    {
        for j in 0..self.plan.n {
            writer.field(self.plan.entry(u32::from(r), u32::from(j)));
        }
        writer.byte(b'\n');
    }

    // The line of row r.
    fn write_row(&self, writer: &mut Writer, r: u8)
        requires row { r < self.now.plan.k }
        requires room { 1546 ≤ room writer.old }
        ensures text { Writes writer.old writer.new (row_line self.now.plan r) }
        ensures room { room writer.old ≤ room writer.new + 1546 }
    {
        let row = usize::from(r);
        writer.word("row");
        writer.field(r);
        writer.field(self.plan.shifts[row]);
        writer.field(self.plan.firsts[row]);
        self.write_entries(writer, r);
    }

    // The first line has at most 25 bytes, and each of at most 255 rows has at most 1,546.
    #[tactic(auto, using(text::proofs::Written::writing_start, text::proofs::Written::writing_row))]
    fn write(&self, writer: &mut Writer)
        requires { 394255 ≤ room writer.old }
        ensures { Writes writer.old writer.new (sheet_of self.now.plan) }
    {
        self.write_numbers(writer);
        for r in 0..self.plan.k {
            self.write_row(writer, r);
        }
    }
}

// An empty page: zeros, with room for any sheet.
#[tactic(auto, unfolding(lists::specs::Padded::zeros))]
pub fn page() -> [u8; 394255]
    ensures zeros { result ≡ zeros 394255 }
    ensures long { 394255 ≡ length result }
{
    [0; 394255]
}

// Writes the sheet of a record at the front of a page, and gives its length (and no slice: see `written` of `Writer`). The page is lent,
// for the library has no heap.
// The texts differ in what reads the record and in what writes it: `text::answered(out, build_plan(rec), |plan, writer| ..)` would be these lines
// with a bound of both, and another crate's word for a refusal.
pub fn sheet(rec: &[u8], out: &mut [u8; 394255]) -> usize
    ensures { OnPage out.old out.new result (sheet_for (record_of rec.now)) }
{
    let mut writer = Writer::new(out);
    match build_plan(rec) {
        Ok(plan) => PlanSheet { plan }.write(&mut writer),
        Err(refusal) => writer.line("refused", &[u8::from(refusal)]),
    }
    writer.written()
}
