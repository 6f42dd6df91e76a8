// A record for any number of nodes from 2 to 255 that carries bytes: bytes as symbols where n divides 255, else the largest prime that fits.
// What the call promises stands in specs/Promise.antt.
#![tactic(auto)]

ghost use Rattle.std.specs.Prelude.{◌≡◌, ◌++◌, ◌≤◌, length, drop};
ghost use Rattle.generator.specs.Answers.{numbered, outcome_of};
ghost use Rattle.choose.specs.Promise.{chosen_record, asked_bad, choose_fault, ChooseSays};

use generator::Refusal;
use refusals::length_bad;

mod table;

// Number 4: n below 2 or no byte, k zero, or k above n.
#[tactic(auto, unfolding(crate::specs::Promise::asked_bad))]
fn asked_bad(n: u32, k: u32) -> bool
    ensures { result ≡ asked_bad n k }
{
    n < 2 || 255 < n || k == 0 || n < k
}

// Number 4, then 8; `size` is the length of the written buffer.
#[tactic(auto, using(generator::proofs::Answered::tests), unfolding(crate::specs::Promise::choose_fault))]
fn choose_fault(n: u32, k: u32, size: usize) -> Result<(), Refusal>
    ensures { numbered result ≡ outcome_of (choose_fault n k size) }
{
    Refusal::Size.when(asked_bad(n, k))?;
    Refusal::Length.when(length_bad(7, size))
}

// The record, of kind 2 or 3, and how many bytes it has.
fn write_chosen(n: u8, k: u8, out: &mut [u8]) -> u8
    requires { (2 ≤ n) × (length out.old ≡ 7) }
    ensures { (result ≡ length (chosen_record n k)) × (out.new ≡ chosen_record n k ++ drop (length (chosen_record n k)) out.old) }
{
    let entry = table::entry_for(n);
    let p = entry.prime;
    let root = entry.root;
    if p == 0 {
        out[..4].copy_from_slice(&[2, root as u8, n, k]);
        return 4;
    }
    let [p_high, p_low] = p.to_be_bytes();
    let [root_high, root_low] = root.to_be_bytes();
    out.copy_from_slice(&[3, p_high, p_low, root_high, root_low, n, k]);
    7
}

// Writes a record for n nodes of which k are needed, and gives how many bytes the record has, or what turns the call away and writes nothing.
pub fn choose_record(n: u32, k: u32, out: &mut [u8]) -> Result<u8, Refusal>
    ensures { ChooseSays n k out.old out.new (numbered result) }
{
    choose_fault(n, k, out.len())?;
    Ok(write_chosen(n as u8, k as u8, out))
}
