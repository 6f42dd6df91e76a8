// The calls on single lanes.
ghost use Rattle.std.specs.Prelude.{◌≡◌};
ghost use Rattle.find_update.specs.Numbers.{case_of, found_symbol, found_amount};
ghost use Rattle.balanced_c.specs.Lanes.{FindGives, MendsGive};

use crate::hand_over;
use balanced::Finding;

// What was found in numbers: the case, and the symbol and the amount, 0 where there are none.
#[tactic(auto, unfolding(find_update::specs::Numbers::case_of, find_update::specs::Numbers::found_symbol, find_update::specs::Numbers::found_amount))]
fn numbers_of(finding: Finding) -> (u32, u32, u32)
    ensures { (result.0 ≡ case_of finding) × (result.1 ≡ found_symbol finding) × (result.2 ≡ found_amount finding) }
{
    match finding {
        Finding::Unchanged => (0, 0, 0),
        Finding::Added { symbol, amount } => (1, symbol, amount),
        Finding::NoSingleUpdate => (2, 0, 0),
    }
}

// Which update it was: `answer` receives 0 where the lanes are equal, 1 where an update was found and 2 where there is none; `symbol` and `amount` receive what was found, and 0 otherwise.
pub fn balanced_find_update(
    rec: &[u8],
    before: &[u8],
    after: &[u8],
    answer: &mut u32,
    symbol: &mut u32,
    amount: &mut u32,
) -> u8
    ensures { FindGives rec.now before.now after.now answer.old symbol.old amount.old answer.new symbol.new amount.new result }
{
    match balanced::find_update(rec, before, after) {
        Ok(finding) => {
            let (found, row, added) = numbers_of(finding);
            *answer = found;
            *symbol = row;
            *amount = added;
            0
        }
        Err(refusal) => u8::from(refusal),
    }
}

// Every node and new symbol whose single change makes the lane a word, lowest node first: `count` receives how many; places past them hold what they held.
pub fn balanced_mends(
    rec: &[u8],
    lane: &[u8],
    nodes: &mut [u8],
    symbols: &mut [u8],
    count: &mut u32,
) -> u8
    ensures { MendsGive rec.now lane.now nodes.old symbols.old count.old nodes.new symbols.new count.new result }
{
    hand_over(balanced::single_mends(rec, lane, nodes, symbols), count)
}
