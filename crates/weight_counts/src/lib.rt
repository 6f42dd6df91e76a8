// How many messages of a record have a word with w nodes that are not zero, w from 0 to n: the Hamming weight w.
// The words with a given support of w nodes are counted by differences, and each of C(n, w) supports has as many.
// What the call promises stands in specs/Weights.antt.
#![tactic(auto)]

ghost use Rattle.std.specs.Prelude.{◌≡◌, ℕ, ◌+◌, ◌-◌, ◌*◌, ◌%◌, ◌^◌, ◌<◌, ◌≤◌, true, length, slice_index};
ghost use Rattle.lists.specs.Rows.{from};
ghost use Rattle.field.specs.Kinds.{usable};
ghost use Rattle.generator.specs.Answers.{numbered, outcome_of};
ghost use Rattle.weight_counts.specs.Weights.{weight_counts, messages_bad, weights_fault, WeightsPromise, WeightsSay};
ghost use Rattle.weight_counts.specs.Inner.Counting.{Small, with_previous, differences_of, binomials};

use generator::{Code, Refusal};

// Takes from each place, from the last down to `first`, the place before it. One function for this and the next, `with_previous(counts, first, |x, y| x - y)`,
// would save a loop of one line and have three clauses more: where the closure may be called, and what it gives.
fn subtract_previous(counts: &mut [u32], first: usize)
    requires { (0 < first) × (first ≤ length counts.old) × ((y : ℕ) → first ≤ y → y < length counts.old → slice_index counts.old (y - 1) ≤ slice_index counts.old y) }
    ensures { counts.new ≡ with_previous ◌-◌ first counts.old }
{
    for y in (first..counts.len()).rev() {
        counts[y] -= counts[y - 1];
    }
}

// The next row of Pascal's triangle, in 32 bits.
fn add_previous(row: &mut [u32])
    requires { 0 < length row.old }
    ensures { row.new ≡ with_previous (λ x y. (x + y) % 2 ^ 32) 1 row.old }
{
    for b in (1..row.len()).rev() {
        row[b] = row[b].wrapping_add(row[b - 1]);
    }
}

// Row n of Pascal's triangle, in 32 bits.
fn pascal_row(n: u8) -> [u32; 256]
    ensures { result ≡ binomials n }
{
    let mut row = [0u32; 256];
    row[0] = 1;
    for _ in 0..n {
        add_previous(&mut row);
    }
    row
}

// Multiplies each place by its factor.
fn scale(counts: &mut [u32], factors: &[u32])
    requires { (length counts.old ≤ length factors.now) × ((w : ℕ) → w < length counts.old → slice_index counts.old w * slice_index factors.now w ≤ 65536) }
    ensures { counts.new ≡ from (λ w. slice_index counts.old w * slice_index factors.now w) 0 (length counts.old) }
{
    for (w, count) in counts.iter_mut().enumerate() {
        *count *= factors[w];
    }
}

// A code with at most 65,536 messages.
#[derive(Clone, Copy)]
struct SmallCode {
    code: Code,
    ghost small: { Small code.header },
}

impl SmallCode {
    // Puts at y how many words are zero at n − y given nodes: q^(k + y − n), and 1 where y is at most n − k.
    fn put_powers(self, counts: &mut [u32])
        requires { length counts.old ≡ self.code.header.n + 1 }
        ensures { counts.new ≡ differences_of self.code.header 0 }
    {
        let h = self.code.header;
        let q = h.field.size();
        let fixed = self.code.checks();
        let mut x: u32 = 1;
        for (y, count) in counts.iter_mut().enumerate() {
            *count = x;
            if fixed <= y {
                x *= q;
            }
        }
    }

    // The difference table: leaves at w how many words have a given support of w nodes.
    fn take_differences(self, counts: &mut [u32])
        requires { counts.old ≡ differences_of self.code.header 0 }
        ensures { counts.new ≡ differences_of self.code.header self.code.header.n }
    {
        let n = self.code.header.n as usize;
        for w in 0..n {
            subtract_previous(counts, w + 1);
        }
    }

    // Writes all counts.
    fn fill_counts(self, counts: &mut [u32])
        requires { length counts.old ≡ self.code.header.n + 1 }
        ensures { counts.new ≡ weight_counts self.code.header }
    {
        self.put_powers(counts);
        self.take_differences(counts);
        let row = pascal_row(self.code.header.n);
        scale(counts, &row);
    }
}

// Number 16: more than 65,536 messages.
#[tactic(auto, unfolding(crate::specs::Weights::messages_bad))]
fn messages_bad(code: Code) -> bool
    ensures { result ≡ messages_bad code.header }
{
    let h = code.header;
    let q = h.field.size();
    q.checked_pow(h.k as u32).is_none_or(|count| 65536 < count)
}

// Numbers 8 and 16; `size` is the length of the written buffer.
#[tactic(auto, using(generator::proofs::Answered::tests), unfolding(crate::specs::Weights::weights_fault))]
fn weights_fault(code: Code, size: usize) -> Result<(), Refusal>
    ensures { numbered result ≡ outcome_of (weights_fault code.header size) }
{
    let n = code.header.n as usize;
    Refusal::Length.when(size != n + 1)?;
    Refusal::Many.when(messages_bad(code))
}

// Counts over a code.
pub fn counts_accepted(code: Code, counts: &mut [u32]) -> Result<(), Refusal>
    ensures { WeightsPromise counts.old counts.new (numbered result) code.header (weights_fault code.header (length counts.old)) }
{
    weights_fault(code, counts.len())?;
    SmallCode { code }.fill_counts(counts);
    Ok(())
}

// Writes for each w from 0 to n how many messages have a word with w nodes that are not zero, or gives what turns the call away and writes nothing.
pub fn weight_counts(rec: &[u8], counts: &mut [u32]) -> Result<(), Refusal>
    ensures { WeightsSay rec.now counts.old counts.new (numbered result) }
{
    let code = records::read_record(rec)?;
    counts_accepted(code, counts)
}
