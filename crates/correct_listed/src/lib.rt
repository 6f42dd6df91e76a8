// The message of listed shares of which some are wrong: in each lane the one whose encoding differs from the listed symbols at no more than
// (s - k) / 2 of the s nodes; and for each of these in how many lanes it was wrong.
// What the call promises stands in specs/Promise.antt, in plain terms in specs/Meaning.antt.
#![tactic(auto)]

ghost use Rattle.std.specs.Prelude.{◌≡◌, ℕ, true, ◌*◌, ◌^◌, ◌≤◌, ◌<◌, length, get_or, sum};
ghost use Rattle.lists.specs.Choice.{when};
ghost use Rattle.layout.specs.Layout.{share_layout};
ghost use Rattle.generator.specs.Answers.{numbered};
ghost use Rattle.generator.specs.Records.{width};
ghost use Rattle.recover_matrix.specs.Inner.Inverse.{square_bytes, ListRoom};
ghost use Rattle.listed_products.specs.Inner.Shares.{AgreeMarks};
ghost use Rattle.correct_listed.specs.Blocks.{far_listed_bad};
ghost use Rattle.correct_listed.specs.Promise.{correct_listed_fault, CorrectListedPromise, CorrectListedSays};

use check_sums::lane::{PowerRows, ROOM};
use generator::{Code, Refusal};
use listed_products::{ListedBlock, MessageLists};
use recover_matrix::message::{LARGE_SQUARE, MIDDLE_SQUARE, SMALL_SQUARE};
use tile_products::scratch::{
    LARGE_COUNTS, LARGE_LISTS, MIDDLE_COUNTS, MIDDLE_LISTS, SMALL_COUNTS, SMALL_LISTS,
};

mod fault;
mod lane;

use lane::Marked;

// Listed nodes and their shares of so many lanes, as they are handed in.
#[derive(Clone, Copy)]
struct Listed<'a> {
    code: Code,
    lanes: usize,
    nodes: &'a [u8],
    shares: &'a [u8],
}

// Whether every lane is marked 0.
fn none_marked(marks: &[u8]) -> bool
    ensures { result ≡ true → (t : ℕ) → t < length marks.now → get_or marks.now t 0 ≡ 0 }
{
    marks.iter().all(|mark| *mark == 0)
}

// The sum of some counts.
fn total(counts: &[u32]) -> u32
    requires { sum counts.now < 2 ^ 32 }
    ensures { result ≡ sum counts.now }
{
    counts.iter().sum()
}

// Shares of which some lane is marked: the last lane is judged before the first byte is written.
fn set_wrong(
    block: ListedBlock,
    messages: MessageLists,
    marks: &[u8],
    message: &mut [u8],
    wrong: &mut [u32],
) -> Result<u32, Refusal>
    requires { let h = block.code.header in AgreeMarks h block.lanes block.nodes.now block.shares.now marks.now × (messages.code.header ≡ h) × (messages.nodes.now ≡ block.nodes.now) × (length message.old ≡ width h * h.k * block.lanes) × (length wrong.old ≡ length block.nodes.now) }
    ensures { let b = block.entry in let h = b.code.header in CorrectListedPromise share_layout b.lanes b.nodes.now b.shares.now message.old message.new wrong.old wrong.new (numbered result) h (when (far_listed_bad share_layout h b.nodes.now b.lanes b.shares.now) 14) }
{
    let mut room: [u8; ROOM] = kernel::filled(0);
    let rows = PowerRows::new(block.code, &mut room);
    let marked = Marked {
        rows,
        lanes: block.lanes,
        nodes: block.nodes,
        shares: block.shares,
        marks,
    };
    Refusal::Far.when(marked.has_far())?;
    messages.fill(block.lanes, block.shares, message);
    wrong.fill(0);
    marked.set_lanes(messages, message, wrong);
    Ok(total(wrong))
}

// The lists of the messages in scratch for so many elements, so many counts, and square matrices of so many bytes. Where no lane is marked the
// message is that of the first k symbols, and nothing more is made. A bound of a const parameter stands in the clause: no value holds it.
fn set_in<const LISTS: usize, const COUNTS: usize, const SQUARE: usize>(
    block: ListedBlock,
    marks: &[u8],
    message: &mut [u8],
    wrong: &mut [u32],
) -> Result<u32, Refusal>
    requires { let h = block.code.header in (LISTS ≤ 130560) × (COUNTS ≤ 2040) × (SQUARE ≤ 130050) × ListRoom (length block.nodes.now) LISTS COUNTS × (square_bytes h ≤ SQUARE) × AgreeMarks h block.lanes block.nodes.now block.shares.now marks.now × (length message.old ≡ width h * h.k * block.lanes) × (length wrong.old ≡ length block.nodes.now) }
    ensures { let b = block.entry in let h = b.code.header in CorrectListedPromise share_layout b.lanes b.nodes.now b.shares.now message.old message.new wrong.old wrong.new (numbered result) h (when (far_listed_bad share_layout h b.nodes.now b.lanes b.shares.now) 14) }
{
    let mut lists = [0u16; LISTS];
    let mut counts = [0u8; COUNTS];
    block.list_message::<SQUARE>(&mut lists, &mut counts);
    let messages = MessageLists {
        code: block.code,
        nodes: block.nodes,
        lists: &lists,
        counts: &counts,
    };
    if none_marked(marks) {
        messages.fill(block.lanes, block.shares, message);
        wrong.fill(0);
        return Ok(0);
    }
    set_wrong(block, messages, marks, message, wrong)
}

// The same for shares of symbols: the lanes that do not agree with the message of their first k symbols are marked, all at once. In the smallest
// scratch that the listed nodes fit: of the choice written once block_products (src/job.rt) says what it would be.
fn set_symbols(block: ListedBlock, message: &mut [u8], wrong: &mut [u32]) -> Result<u32, Refusal>
    requires { let h = block.code.header in (length message.old ≡ width h * h.k * block.lanes) × (length wrong.old ≡ length block.nodes.now) }
    ensures { let b = block.entry in let h = b.code.header in CorrectListedPromise share_layout b.lanes b.nodes.now b.shares.now message.old message.new wrong.old wrong.new (numbered result) h (when (far_listed_bad share_layout h b.nodes.now b.lanes b.shares.now) 14) }
{
    let mut room = [0u8; 4096];
    let marks = &mut room[..block.lanes];
    block.mark_lanes(marks);
    let rows = block.nodes.len();
    if rows <= 16 {
        set_in::<SMALL_LISTS, SMALL_COUNTS, SMALL_SQUARE>(block, marks, message, wrong)
    } else if rows <= 64 {
        set_in::<MIDDLE_LISTS, MIDDLE_COUNTS, MIDDLE_SQUARE>(block, marks, message, wrong)
    } else {
        set_in::<LARGE_LISTS, LARGE_COUNTS, LARGE_SQUARE>(block, marks, message, wrong)
    }
}

impl Listed<'_> {
    // Sets listed shares right over a code.
    #[tactic(auto, using(generator::proofs::Answered::giving_tests, crate::proofs::Accepts::listed_accepts, crate::proofs::Answers::listed_refuses), unfolding(crate::specs::Promise::correct_listed_fault))]
    fn correct_accepted(self, message: &mut [u8], wrong: &mut [u32]) -> Result<u32, Refusal>
        ensures { let v = self.entry in CorrectListedPromise share_layout v.lanes v.nodes.now v.shares.now message.old message.new wrong.old wrong.new (numbered result) v.code.header (correct_listed_fault share_layout v.code.header v.lanes v.nodes.now v.shares.now (length message.old) (length wrong.old)) }
    {
        self.fault(message.len(), wrong.len())?;
        let block = ListedBlock {
            code: self.code,
            lanes: self.lanes,
            nodes: self.nodes,
            shares: self.shares,
        };
        set_symbols(block, message, wrong)
    }
}

// Writes the message of listed shares of which some are wrong, and for each place of the list in how many lanes it was wrong; gives the sum of
// these counts, or gives what turns the call away and writes nothing.
pub fn correct_listed(
    rec: &[u8],
    lanes: u32,
    nodes: &[u8],
    shares: &[u8],
    message: &mut [u8],
    wrong: &mut [u32],
) -> Result<u32, Refusal>
    ensures { CorrectListedSays rec.now lanes nodes.now shares.now message.old message.new wrong.old wrong.new (numbered result) }
{
    let code = records::read_record(rec)?;
    let listed = Listed {
        code,
        lanes: lanes as usize,
        nodes,
        shares,
    };
    listed.correct_accepted(message, wrong)
}
