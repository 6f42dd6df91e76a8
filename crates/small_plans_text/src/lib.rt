// Every accepted record of kind 1 with p up to 31, as text.
#![tactic(auto)]

ghost use Rattle.std.specs.Prelude.{◌≡◌, true, false, [], ◌∷◌, ◌+◌, ◌≤◌, ◌<◌, length, MatchOption};
ghost use Rattle.lists.specs.Padded.{zeros};
ghost use Rattle.field.specs.Primes.{is_prime};
ghost use Rattle.field.specs.Fields.{order_of};
ghost use Rattle.text.specs.Text.{decimal, line};
ghost use Rattle.text.specs.Writing.{OnPage};
ghost use Rattle.text.specs.Inner.Writer.{room, Writes};
ghost use Rattle.small_plans_text.specs.SmallPlans.{root_lines, field_lines, small_plans};

use field::{Field, is_prime};
use text::Writer;

// A prime from 3 to 31.
#[derive(Clone, Copy)]
struct SmallPrime {
    p: u8,
    ghost prime: { is_prime p ≡ true },
    ghost least: { 3 ≤ p },
    ghost most: { p ≤ 31 },
}

impl SmallPrime {
    fn new(p: u8) -> Option<Self>
        requires least { 3 ≤ p }
        requires most { p ≤ 31 }
        ensures { MatchOption result (is_prime p ≡ false) (λ prime. prime.p ≡ p) }
    {
        if is_prime(u32::from(p)) {
            Some(SmallPrime { p })
        } else {
            None
        }
    }

    // The order of a root, which is n in every accepted record with this p and root, or 0 where there is none, as the definition gives it: 0
    // and 1 both stand for no record, and an option would tell them apart.
    #[tactic(auto, using(lists::proofs::Tests::tests, std::proofs::lemmas::Bool::and_from, field::proofs::Meanings::prime_field, field::proofs::Meanings::prime_size, crate::proofs::OrderBound::order_fits))]
    fn order(self, root: u8) -> u8
        requires { root < self.p }
        ensures order { result ≡ order_of self.p root }
        ensures most { result ≤ self.p }
    {
        let field = Field::new(u32::from(self.p));
        // From p down, as the orders of most roots are large.
        for n in (0..self.p).rev() {
            if field.has_order(u32::from(root), u32::from(n) + 1) {
                return n + 1;
            }
        }
        0
    }

    // The lines with one root: k from 1 to n.
    #[tactic(auto, using(text::proofs::Written::writes_none, text::proofs::Written::writing_start, text::proofs::Written::writing_row, crate::proofs::Lines::line_with, crate::proofs::Lines::root_none))]
    fn write_root(self, writer: &mut Writer, root: u8)
        requires below { root < self.p }
        requires room { 558 ≤ room writer.old }
        ensures text { Writes writer.old writer.new (root_lines self.p root) }
        ensures room { room writer.old ≤ room writer.new + 558 }
    {
        let p = self.p;
        let n = self.order(root);
        if n < 2 {
            return;
        }
        for k in 1..=n {
            write_plan(writer, p, root, n, k);
        }
    }

    // The lines of all roots, which are below p.
    #[tactic(auto, using(text::proofs::Written::writing_start, text::proofs::Written::writing_row))]
    fn write_roots(self, writer: &mut Writer)
        requires { 17298 ≤ room writer.old }
        ensures text { Writes writer.old writer.new (field_lines self.p) }
        ensures room { room writer.old ≤ room writer.new + 17298 }
    {
        let p = self.p;
        for root in 0..p {
            self.write_root(writer, root);
        }
    }
}

// The line of a record.
fn write_plan(writer: &mut Writer, p: u8, root: u8, n: u8, k: u8)
    requires { 18 ≤ room writer.old }
    ensures text { Writes writer.old writer.new (line (decimal p) (root ∷ n ∷ k ∷ [])) }
    ensures room { room writer.old ≤ room writer.new + 18 }
{
    writer.number(p);
    writer.fields(&[root, n, k]);
}

// The lines with one p: none where p is no prime.
#[tactic(auto, using(text::proofs::Written::writes_none, crate::proofs::Lines::field_none))]
fn write_field(writer: &mut Writer, p: u8)
    requires least { 3 ≤ p }
    requires most { p ≤ 31 }
    requires room { 17298 ≤ room writer.old }
    ensures text { Writes writer.old writer.new (field_lines p) }
    ensures room { room writer.old ≤ room writer.new + 17298 }
{
    if let Some(prime) = SmallPrime::new(p) {
        prime.write_roots(writer);
    }
}

// All lines: p from 3 to 31, for each at most 31 roots with at most 31 lines of at most 18 bytes.
#[tactic(auto, using(text::proofs::Written::writing_start, text::proofs::Written::writing_row))]
fn write_plans(writer: &mut Writer)
    requires { 501642 ≤ room writer.old }
    ensures { Writes writer.old writer.new small_plans }
{
    for p in 3..32 {
        write_field(writer, p);
    }
}

// An empty page: zeros, with room for the lines.
#[tactic(auto, unfolding(lists::specs::Padded::zeros))]
pub fn page() -> [u8; 501642]
    ensures zeros { result ≡ zeros 501642 }
    ensures long { 501642 ≡ length result }
{
    [0; 501642]
}

// Writes the lines at the front of a page, and gives their length (and no slice: see `written` of `Writer`). The page is lent, for the
// library has no heap.
pub fn small_plans(out: &mut [u8; 501642]) -> usize
    ensures { OnPage out.old out.new result small_plans }
{
    let mut writer = Writer::new(out);
    write_plans(&mut writer);
    writer.written()
}
