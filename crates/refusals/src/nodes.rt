// Lists of nodes: the conditions of numbers 9 and 10, and the first that a list and its shares meet.
ghost use Rattle.std.specs.Prelude.{◌≡◌, true, ◌*◌, length};
ghost use Rattle.field.specs.Kinds.{usable};
ghost use Rattle.generator.specs.Records.{width};
ghost use Rattle.generator.specs.Answers.{numbered, outcome_of};
ghost use Rattle.refusals.specs.Conditions.{nodes_bad, twice_bad};
ghost use Rattle.refusals.specs.Faults.{list_fault};

use crate::field_symbols::shares_bad;
use generator::{Header, Refusal};

// Number 9: a list names a node that there is not.
pub fn nodes_bad(h: Header, nodes: &[u8]) -> bool
    ensures { result ≡ nodes_bad h nodes.now }
{
    !kernel::all_below(h.n as u32, nodes)
}

// Number 10: a node stands twice in a list. Each place is compared with those after it, up to the first repeat.
// Two loops of list places, which a label leaves, are the form that this place has: it was asked for.
pub fn twice_bad(nodes: &[u8]) -> bool
    ensures { result ≡ twice_bad nodes.now }
{
    let mut found = false;
    'places: for i in 0..nodes.len() {
        for j in i + 1..nodes.len() {
            if nodes[i] == nodes[j] {
                found = true;
                break 'places;
            }
        }
    }
    found
}

// A list of nodes and their shares: the range, repeats, and the symbols last. They come as the call was given them: a value of them would hold no fact before they are judged here.
#[tactic(auto, using(generator::proofs::Answered::tests), unfolding(crate::specs::Faults::list_fault))]
pub fn list_fault(h: Header, lanes: usize, nodes: &[u8], shares: &[u8]) -> Result<(), Refusal>
    requires { (usable h.field ≡ true) × (length shares.now ≡ h.k * lanes * width h) }
    ensures { numbered result ≡ outcome_of (list_fault h nodes.now shares.now) }
{
    Refusal::Range.when(nodes_bad(h, nodes))?;
    Refusal::Twice.when(twice_bad(nodes))?;
    Refusal::Symbol.when(shares_bad(h, h.k, lanes, shares))
}
