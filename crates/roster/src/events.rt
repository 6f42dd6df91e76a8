// Events: a node leaves or returns.
ghost use Rattle.std.specs.Prelude.{◌≡◌, MatchResult};
ghost use Rattle.generator.specs.Answers.{number};
ghost use Rattle.roster.specs.Rosters.{Step, step_with};

use crate::Roster;
use generator::Refusal;

// An event over an accepted record's n: the node is marked as the event says, and the jobs are counted from 0. `here` is the mark: see
// `Roster::mark`.
#[tactic(auto, using(generator::proofs::Answered::tests), unfolding(crate::specs::Rosters::step_with, crate::specs::Rosters::marked, crate::specs::Rosters::event_fault))]
pub fn mark(mut roster: Roster, n: u8, node: u32, here: bool) -> Result<Roster, Refusal>
    ensures { MatchResult result (λ r. step_with n node here roster ≡ record { roster = r; number = 0 }) (λ e. step_with n node here roster ≡ record { roster = roster; number = number e }) }
{
    Refusal::Range.when(n as u32 <= node)?;
    let place = node as usize;
    Refusal::Already.when(roster.marks[place] == here)?;
    roster.marks[place] = here;
    roster.job = 0;
    Ok(roster)
}
