// Setting a block right: each lane becomes the word of the code that differs from it at no more than (n - k) / 2 nodes.
// What the call promises stands in specs/Promise.antt, in plain terms in specs/Meaning.antt.
#![tactic(auto)]

ghost use Rattle.std.specs.Prelude.{◌≡◌, ℕ, true, ◌<◌, length, get_or};
ghost use Rattle.lists.specs.Choice.{when};
ghost use Rattle.layout.specs.Layout.{share_layout};
ghost use Rattle.generator.specs.Answers.{numbered};
ghost use Rattle.refusals.specs.Accepted.{SymbolBuffer};
ghost use Rattle.correct.specs.Blocks.{corrected_bytes, corrected_count, far_bad};
ghost use Rattle.correct.specs.Promise.{correct_fault, CorrectPromise, CorrectSays};
ghost use Rattle.correct.specs.Inner.Marked.{MarkedShares};

use check_sums::lane::{PowerRows, ROOM};
use generator::{Code, Refusal};
use wrong_lanes::Block;

mod lane;

use lane::Marked;

// That the marks are those of the shares stands in each clause, here and in two functions below: the shares are lent to be written, so no ghost
// field of `Marked` can hold it.
impl Marked<'_, '_> {
    // Whether there is a lane that no word is near enough to. By a `for`: of `any` over the chunks two goals stayed open, that each is a lane
    // and that the answer speaks of them all.
    fn has_far(self, shares: &[u8]) -> bool
        requires { MarkedShares self.rows.code.header (length self.marks.now) self.marks.now shares.now }
        ensures { result ≡ far_bad share_layout self.entry.rows.code.header (length self.entry.marks.now) shares.now }
    {
        let h = self.rows.code.header;
        let size = symbols::width_of(h).bytes * h.n as usize;
        for (t, lane) in shares.chunks(size).enumerate() {
            if !self.is_near(t, lane) {
                return true;
            }
        }
        false
    }

    // Sets every lane right, and gives the number of symbols altered. Each lane is cut by its place: after `chunks_mut` a proof knows the
    // length alone (docs/PROOF-NOTES.md).
    #[tactic(auto, using(lists::proofs::Fill::fills_start, generator::proofs::Widths::width_some, tiles::proofs::Parts::fills_whole, crate::proofs::Counting::apart_none, crate::proofs::Counting::apart_all, crate::proofs::LaneBytes::symbols_long, crate::proofs::LaneBytes::part_inside, crate::proofs::LaneBytes::corrected_size), unfolding(crate::specs::Blocks::corrected_count))]
    fn correct_lanes(self, shares: &mut [u8]) -> u32
        requires { MarkedShares self.rows.code.header (length self.marks.now) self.marks.now shares.old }
        ensures { let h = self.entry.rows.code.header in let l = length self.entry.marks.now in (shares.new ≡ corrected_bytes share_layout h l shares.old) × (result ≡ corrected_count share_layout h l shares.old) }
    {
        let h = self.rows.code.header;
        let size = symbols::width_of(h).bytes * h.n as usize;
        let mut count: u32 = 0;
        for t in 0..self.marks.len() {
            let start = t * size;
            let end = start + size;
            count += self.write_nearest(t, &mut shares[start..end]);
        }
        count
    }

    // Sets the lanes right if each has a word near enough; the last lane is judged before the first byte is written.
    #[tactic(auto, using(generator::proofs::Answered::tests))]
    fn correct(self, shares: &mut [u8]) -> Result<u32, Refusal>
        requires { MarkedShares self.rows.code.header (length self.marks.now) self.marks.now shares.old }
        ensures { let h = self.entry.rows.code.header in let l = length self.entry.marks.now in CorrectPromise share_layout l shares.old shares.new (numbered result) h (when (far_bad share_layout h l shares.old) 14) }
    {
        Refusal::Far.when(self.has_far(shares))?;
        Ok(self.correct_lanes(shares))
    }
}

// Sets the lanes right, with the rows of powers made here.
fn correct_wrong(code: Code, marks: &[u8], shares: &mut [u8]) -> Result<u32, Refusal>
    requires { MarkedShares code.header (length marks.now) marks.now shares.old }
    ensures { CorrectPromise share_layout (length marks.now) shares.old shares.new (numbered result) code.header (when (far_bad share_layout code.header (length marks.now) shares.old) 14) }
{
    let mut room: [u8; ROOM] = kernel::filled(0);
    let rows = PowerRows::new(code, &mut room);
    Marked { rows, marks }.correct(shares)
}

// Whether every lane is marked 0.
fn none_marked(marks: &[u8]) -> bool
    ensures { result ≡ true → (t : ℕ) → t < length marks.now → get_or marks.now t 0 ≡ 0 }
{
    marks.iter().all(|mark| *mark == 0)
}

// The same, but for shares with no lane marked, which stay as they are: nothing is made for them.
fn correct_any(code: Code, marks: &[u8], shares: &mut [u8]) -> Result<u32, Refusal>
    requires { MarkedShares code.header (length marks.now) marks.now shares.old }
    ensures { CorrectPromise share_layout (length marks.now) shares.old shares.new (numbered result) code.header (when (far_bad share_layout code.header (length marks.now) shares.old) 14) }
{
    if none_marked(marks) {
        return Ok(0);
    }
    correct_wrong(code, marks, shares)
}

// The same for shares of symbols: the lanes that are no word of the code are marked, all at once.
#[tactic(auto, using(wrong_lanes::proofs::Marking::length_marks, crate::proofs::MarkedBytes::no_marks, crate::proofs::MarkedBytes::marked_all), unfolding(lists::specs::Padded::zeros))]
fn correct_symbols(code: Code, lanes: usize, shares: &mut [u8]) -> Result<u32, Refusal>
    requires { SymbolBuffer code.header code.header.n lanes shares.old }
    ensures { CorrectPromise share_layout lanes shares.old shares.new (numbered result) code.header (when (far_bad share_layout code.header lanes shares.old) 14) }
{
    let mut room = [0u8; 4096];
    let marks = &mut room[..lanes];
    let block = Block {
        code,
        lanes,
        shares,
    };
    block.mark_lanes(marks);
    correct_any(code, marks, shares)
}

// Sets a block right over a code.
#[tactic(auto, using(generator::proofs::Answered::giving_tests, belongs::proofs::Accepts::belongs_accepts, crate::proofs::Answers::correct_refuses), unfolding(crate::specs::Promise::correct_fault))]
fn correct_accepted(code: Code, lanes: usize, shares: &mut [u8]) -> Result<u32, Refusal>
    ensures { CorrectPromise share_layout lanes shares.old shares.new (numbered result) code.header (correct_fault share_layout code.header lanes shares.old) }
{
    belongs::belongs_fault(code.header, lanes, shares)?;
    correct_symbols(code, lanes, shares)
}

// Replaces each lane by the word of the code that differs from it at no more than (n - k) / 2 nodes and gives how many symbols it altered, or gives what turns the call away and writes nothing.
pub fn correct_block(rec: &[u8], lanes: u32, shares: &mut [u8]) -> Result<u32, Refusal>
    ensures { CorrectSays rec.now lanes shares.old shares.new (numbered result) }
{
    let code = records::read_record(rec)?;
    correct_accepted(code, lanes as usize, shares)
}
