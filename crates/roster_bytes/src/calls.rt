// The calls of a roster on lent bytes.
ghost use Rattle.std.specs.Prelude.{◌≡◌, ◌≢◌, ℕ, MatchResult, length};
ghost use Rattle.lists.specs.Choice.{first_of};
ghost use Rattle.generator.specs.Answers.{number, numbered, fault_in};
ghost use Rattle.generator.specs.Records.{record_fault};
ghost use Rattle.roster.specs.Events.{Event, named, says, leaves, returns};
ghost use Rattle.roster_bytes.specs.Bytes.{roster_of};
ghost use Rattle.roster_bytes.specs.Calls.{told_of, StartGives, EventGives, LowestGives, JobGives};

use crate::bytes::{bytes_of, read_roster};
use generator::Refusal;
use roster::{Listing, Roster};

// The roster that bytes hold. Bytes of another length than 256 meet the record's refusal, else number 8.
#[tactic(auto, using(generator::proofs::Answered::tests, crate::proofs::Giving::length_none, crate::proofs::Giving::length_some))]
fn lent_roster(rec: &[u8], bytes: &[u8]) -> Result<Roster, Refusal>
    ensures { MatchResult result (λ r. (length bytes.now ≡ 256) × (r ≡ roster_of bytes.now)) (λ e. (length bytes.now ≢ 256) × (number e ≡ first_of (record_fault rec.now) 8)) }
{
    let Ok(bytes) = <&[u8; 256]>::try_from(bytes) else {
        Roster::start(rec)?;
        return Err(Refusal::Length);
    };
    Ok(read_roster(bytes))
}

// All n nodes of the record present; beside the record's refusal no node is, and all bytes are 0. Of what the bytes held the length alone counts.
#[tactic(auto, using(generator::proofs::Answered::tests, crate::proofs::Giving::some, crate::proofs::Giving::start_empty, crate::proofs::Giving::start_short, crate::proofs::Giving::start_done))]
pub fn start(rec: &[u8], bytes: &mut [u8]) -> Result<(), Refusal>
    ensures { StartGives rec.now bytes.old bytes.new (fault_in (numbered result)) }
{
    lent_roster(rec, bytes)?;
    bytes.fill(0);
    let roster = Roster::start(rec)?;
    bytes.copy_from_slice(&bytes_of(&roster));
    Ok(())
}

// A node returns where it is to be here, else it leaves. Record, bytes and node come one by one, as callers from C lend them; `here` is the
// mark: see `Roster::mark`.
fn mark(rec: &[u8], bytes: &mut [u8], node: u32, here: bool) -> Result<(), Refusal>
    ensures { (e : Event) → named e ≡ node → says e ≡ here → EventGives rec.now bytes.old e bytes.new (fault_in (numbered result)) }
{
    let roster = lent_roster(rec, bytes)?.mark(rec, node, here)?;
    bytes.copy_from_slice(&bytes_of(&roster));
    Ok(())
}

// A node leaves.
pub fn leave(rec: &[u8], bytes: &mut [u8], node: u32) -> Result<(), Refusal>
    ensures { EventGives rec.now bytes.old (leaves node) bytes.new (fault_in (numbered result)) }
{
    mark(rec, bytes, node, false)
}

// A node returns.
pub fn rejoin(rec: &[u8], bytes: &mut [u8], node: u32) -> Result<(), Refusal>
    ensures { EventGives rec.now bytes.old (returns node) bytes.new (fault_in (numbered result)) }
{
    mark(rec, bytes, node, true)
}

// Writes the k lowest present nodes.
pub fn lowest(rec: &[u8], bytes: &[u8], list: &mut [u8]) -> Result<Listing, Refusal>
    ensures { (enough : ℕ) → LowestGives rec.now bytes.now list.old enough list.new (told_of (numbered result) enough) (fault_in (numbered result)) }
{
    lent_roster(rec, bytes)?.lowest(rec, list)
}

// Writes the nodes that the next job reads, and the roster after it.
pub fn next_job(rec: &[u8], bytes: &mut [u8], list: &mut [u8]) -> Result<Listing, Refusal>
    ensures { (enough : ℕ) → JobGives rec.now bytes.old list.old enough bytes.new list.new (told_of (numbered result) enough) (fault_in (numbered result)) }
{
    let mut roster = lent_roster(rec, bytes)?;
    let listing = roster.next_job(rec, list)?;
    if listing == Listing::Written {
        bytes.copy_from_slice(&bytes_of(&roster));
    }
    Ok(listing)
}
