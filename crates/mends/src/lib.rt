// The single changes that make a lane a word of the code.
// What the call promises stands in specs/Promise.antt, what it means in specs/Mends.antt.
#![tactic(auto)]

ghost use Rattle.std.specs.Prelude.{◌≡◌, ◌*◌, length};
ghost use Rattle.generator.specs.Records.{width};
ghost use Rattle.generator.specs.Answers.{numbered, outcome_of};
ghost use Rattle.layout.specs.Width.{bytes_of};
ghost use Rattle.mends.specs.Mends.{mend_nodes, mend_symbols};
ghost use Rattle.mends.specs.Promise.{in_front, mends_fault, MendsPromise, MendsSay};

use check_sums::lane::{self, Lane, PowerRows, ROOM};
use generator::{Code, Refusal};
use refusals::{lane_length_bad, length_bad, symbols_bad};

mod changes;

// Lists the nodes and their new symbols, none where the lane is a word; gives how many.
fn list_mends(lane: Lane, nodes: &mut [u8], symbols: &mut [u8]) -> usize
    requires { let h = lane.rows.code.header in (length nodes.old ≡ h.n) × (length symbols.old ≡ h.n * width h) }
    ensures { let h = lane.entry.rows.code.header in let ws = lane.entry.symbols.now in (result ≡ length (mend_nodes h ws)) × (nodes.new ≡ in_front (mend_nodes h ws) nodes.old) × (symbols.new ≡ in_front (bytes_of (width h) (mend_symbols h ws)) symbols.old) }
{
    let code = lane.rows.code;
    let checks = code.checks();
    let sums = lane.sums();
    if lane::all_zero(&sums[..checks]) {
        return 0;
    }
    changes::list(code, lane.symbols, &sums[..checks], nodes, symbols)
}

// Numbers 8 and 11; `nodes` and `symbols` are the lengths of the written buffers.
#[tactic(auto, using(generator::proofs::Answered::tests), unfolding(crate::specs::Promise::mends_fault))]
fn mends_fault(code: Code, lane: &[u8], nodes: usize, symbols: usize) -> Result<(), Refusal>
    ensures { numbered result ≡ outcome_of (mends_fault code.header lane.now nodes symbols) }
{
    let h = code.header;
    Refusal::Length.when(lane_length_bad(h, lane.len()))?;
    Refusal::Length.when(length_bad(h.n as usize, nodes))?;
    Refusal::Length.when(lane_length_bad(h, symbols))?;
    Refusal::Symbol.when(symbols_bad(h, lane))
}

// Lists over a code.
fn mends_accepted(
    code: Code,
    lane: &[u8],
    nodes: &mut [u8],
    symbols: &mut [u8],
) -> Result<u32, Refusal>
    ensures { MendsPromise lane.now nodes.old symbols.old nodes.new symbols.new (numbered result) code.header (mends_fault code.header lane.now (length nodes.old) (length symbols.old)) }
{
    mends_fault(code, lane, nodes.len(), symbols.len())?;
    let n = code.header.n as usize;
    let w = symbols::width_of(code.header);
    let ws = w.read_symbols(lane);
    let mut room: [u8; ROOM] = kernel::filled(0);
    let rows = PowerRows::new(code, &mut room);
    let received = Lane {
        rows,
        symbols: &ws[..n],
    };
    let count = list_mends(received, nodes, symbols) as u32;
    Ok(count)
}

// Lists every node and new symbol whose single change makes the lane a word, lowest node first, and gives how many; or gives what turns the call away and writes nothing.
// Two lent buffers and a count, as callers from C lend them.
pub fn single_mends(
    rec: &[u8],
    lane: &[u8],
    nodes: &mut [u8],
    symbols: &mut [u8],
) -> Result<u32, Refusal>
    ensures { MendsSay rec.now lane.now nodes.old symbols.old nodes.new symbols.new (numbered result) }
{
    let code = records::read_record(rec)?;
    mends_accepted(code, lane, nodes, symbols)
}
