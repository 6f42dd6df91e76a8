// The calls of a roster, which is 256 bytes that the caller keeps: the marks of the nodes 0 to 254, then the job number.
ghost use Rattle.std.specs.Prelude.{◌≡◌};
ghost use Rattle.generator.specs.Answers.{numbered, fault_in};
ghost use Rattle.roster.specs.Events.{leaves, returns};
ghost use Rattle.roster_bytes.specs.Calls.{told_of, StartGives, EventGives, LowestGives, JobGives};

use crate::{hand_over, number_of};
use generator::Refusal;
use roster::Listing;

// All nodes present; beside the record's number 256 zeros.
pub fn balanced_roster_start(rec: &[u8], roster: &mut [u8]) -> u8
    ensures { StartGives rec.now roster.old roster.new result }
{
    number_of(roster_bytes::start(rec, roster))
}

// A node leaves.
pub fn balanced_roster_leave(rec: &[u8], roster: &mut [u8], node: u32) -> u8
    ensures { EventGives rec.now roster.old (leaves node) roster.new result }
{
    number_of(roster_bytes::leave(rec, roster, node))
}

// A node returns.
pub fn balanced_roster_rejoin(rec: &[u8], roster: &mut [u8], node: u32) -> u8
    ensures { EventGives rec.now roster.old (returns node) roster.new result }
{
    number_of(roster_bytes::rejoin(rec, roster, node))
}

// The number of an answer; `enough` receives 1 where the list was written, 0 where too few nodes are present.
#[tactic(auto, unfolding(roster_bytes::specs::Calls::told_of))]
fn tell(answer: Result<Listing, Refusal>, enough: &mut u32) -> u8
    ensures { (result ≡ fault_in (numbered answer)) × (enough.new ≡ told_of (numbered answer) enough.old) }
{
    hand_over(
        answer.map(|listing| u32::from(listing == Listing::Written)),
        enough,
    )
}

// The k lowest present nodes; `enough` receives 1 where they are written, 0 where fewer than k are present.
pub fn balanced_roster_lowest(rec: &[u8], roster: &[u8], list: &mut [u8], enough: &mut u32) -> u8
    ensures { LowestGives rec.now roster.now list.old enough.old list.new enough.new result }
{
    tell(roster_bytes::lowest(rec, roster, list), enough)
}

// The nodes that the next job reads; the roster moves on where they are written.
pub fn balanced_roster_job(rec: &[u8], roster: &mut [u8], list: &mut [u8], enough: &mut u32) -> u8
    ensures { JobGives rec.now roster.old list.old enough.old roster.new list.new enough.new result }
{
    tell(roster_bytes::next_job(rec, roster, list), enough)
}
