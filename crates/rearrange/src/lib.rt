// Shares that stand node after node, put lane after lane, and back: those of all nodes, or of k listed ones. Symbols are moved, not judged.
// What the four calls promise stands in specs/Promise.antt.
#![tactic(auto)]

ghost use Rattle.std.specs.Prelude.{◌≡◌, length};
ghost use Rattle.generator.specs.Answers.{numbered};
ghost use Rattle.rearrange.specs.Inner.Moves.{rows_of, read_as, written_as};
ghost use Rattle.rearrange.specs.Promise.{RearrangePromise, RearrangeSays, ToLanesSays, ToNodesSays, ListedToLanesSays, ListedToNodesSays, rearrange_fault};

use generator::{Code, Header, Refusal};

mod fault;
mod turning;

// Whose shares are moved: those of all nodes, or of k listed ones.
#[derive(Clone, Copy)]
enum Shares {
    All,
    Listed,
}

impl Shares {
    // A row for each of the nodes.
    fn rows(self, h: Header) -> u8
        ensures { result ≡ rows_of self h }
    {
        match self {
            Shares::All => h.n,
            Shares::Listed => h.k,
        }
    }
}

// How the shares stand that are read; they are written the other way.
#[derive(Clone, Copy)]
enum Order {
    ByNode,
    ByLane,
}

// Over a code: row j's symbol of lane t goes from j·lanes + t to t·rows + j, or back.
#[tactic(auto, using(layout::proofs::Runs::turned, generator::proofs::Answered::tests, crate::proofs::Accepts::rearrange_accepts, crate::proofs::Refused::rearrange_refuses), unfolding(generator::specs::Answers::outcome_of, blocks::specs::Bytes::rearranged_bytes))]
fn rearrange_accepted(
    code: Code,
    rows: u8,
    lanes: usize,
    order: Order,
    source: &[u8],
    out: &mut [u8],
) -> Result<(), Refusal>
    ensures { RearrangePromise (read_as order) (written_as order) rows lanes source.now out.old out.new (numbered result) code.header (rearrange_fault code.header rows lanes (length source.now) (length out.old)) }
{
    fault::rearrange_fault(code, rows, lanes, source.len(), out.len())?;
    let count = rows as usize;
    let w = symbols::width_of(code.header);
    match order {
        Order::ByNode => turning::turn(w, count, lanes, source, out),
        Order::ByLane => turning::turn(w, lanes, count, source, out),
    }
    Ok(())
}

// Over the record itself.
fn rearrange_shares(
    rec: &[u8],
    shares: Shares,
    order: Order,
    lanes: u32,
    source: &[u8],
    out: &mut [u8],
) -> Result<(), Refusal>
    ensures { RearrangeSays (read_as order) (written_as order) (rows_of shares) rec.now lanes source.now out.old out.new (numbered result) }
{
    let code = records::read_record(rec)?;
    let rows = shares.rows(code.header);
    rearrange_accepted(code, rows, lanes as usize, order, source, out)
}

// Writes shares that stand node after node lane after lane, or gives what turns the call away and writes nothing. Each call of the interface
// is a function of its own; what the four share is `rearrange_shares`.
pub fn to_lanes(rec: &[u8], lanes: u32, by_node: &[u8], by_lane: &mut [u8]) -> Result<(), Refusal>
    ensures { ToLanesSays rec.now lanes by_node.now by_lane.old by_lane.new (numbered result) }
{
    rearrange_shares(rec, Shares::All, Order::ByNode, lanes, by_node, by_lane)
}

// Writes shares that stand lane after lane node after node, likewise.
pub fn to_nodes(rec: &[u8], lanes: u32, by_lane: &[u8], by_node: &mut [u8]) -> Result<(), Refusal>
    ensures { ToNodesSays rec.now lanes by_lane.now by_node.old by_node.new (numbered result) }
{
    rearrange_shares(rec, Shares::All, Order::ByLane, lanes, by_lane, by_node)
}

// Writes the shares of k listed nodes, as files hold them, lane after lane, as Recover and Rebuild take them.
pub fn listed_to_lanes(
    rec: &[u8],
    lanes: u32,
    by_node: &[u8],
    by_lane: &mut [u8],
) -> Result<(), Refusal>
    ensures { ListedToLanesSays rec.now lanes by_node.now by_lane.old by_lane.new (numbered result) }
{
    rearrange_shares(rec, Shares::Listed, Order::ByNode, lanes, by_node, by_lane)
}

// Writes the shares of k listed nodes node after node.
pub fn listed_to_nodes(
    rec: &[u8],
    lanes: u32,
    by_lane: &[u8],
    by_node: &mut [u8],
) -> Result<(), Refusal>
    ensures { ListedToNodesSays rec.now lanes by_lane.now by_node.old by_node.new (numbered result) }
{
    rearrange_shares(rec, Shares::Listed, Order::ByLane, lanes, by_lane, by_node)
}
