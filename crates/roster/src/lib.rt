// Rosters: which nodes are present, as nodes leave and return, the lowest of them, and the nodes that rebuild jobs read in turn.
// What the calls promise stands in specs/Rosters.antt.
#![tactic(auto)]

ghost use Rattle.std.specs.Prelude.{◌≡◌, MatchResult};
ghost use Rattle.generator.specs.Answers.{number, numbered};
ghost use Rattle.generator.specs.Records.{record_of};
ghost use Rattle.roster.specs.Events.{leaves, returns};
ghost use Rattle.roster.specs.Rosters.{Step, first_roster, start_of, step_by, step_of, lowest_of, lowest_list, job_of, job_list};

use generator::Refusal;

mod events;
mod jobs;
mod present;
mod queries;

// The marks of the nodes 0 to 254, true for a present one, and the number of the next job. Nothing compares or prints a roster as a whole, so
// no more is derived: each derive is one more function to check.
#[derive(Clone, Copy)]
pub struct Roster {
    pub marks: [bool; 255],
    pub job: u8,
}

// What became of a lent list.
#[derive(Clone, Copy, Debug, PartialEq, Eq)]
pub enum Listing {
    Written,
    TooFew,
}

// The nodes below n present.
fn first_roster(n: u8) -> Roster
    ensures { result ≡ first_roster n }
{
    // By the index: with `array::from_fn`, whose closure becomes no vector instructions, a start takes more than twice as long.
    let mut marks = [false; 255];
    for j in 0..255 {
        marks[j] = j < usize::from(n);
    }
    Roster { marks, job: 0 }
}

impl Roster {
    // All n nodes of the record present.
    #[tactic(auto, using(generator::proofs::Answered::tests), unfolding(crate::specs::Rosters::start_of))]
    pub fn start(rec: &[u8]) -> Result<Roster, Refusal>
        ensures { MatchResult result (λ r. start_of (record_of rec.now) ≡ record { roster = r; number = 0 }) (λ e. (start_of (record_of rec.now)).number ≡ number e) }
    {
        let code = records::read_record(rec)?;
        Ok(first_roster(code.header.n))
    }

    // The next roster: a node returns where it is to be here, else it leaves. `here` is the mark that the node gets: an enum of leaving and
    // returning would be turned into it first, `let here = event == Event::Returns`.
    #[tactic(auto, using(generator::proofs::Answered::tests), unfolding(crate::specs::Rosters::step_by))]
    pub fn mark(self, rec: &[u8], node: u32, here: bool) -> Result<Roster, Refusal>
        ensures { MatchResult result (λ r. step_by (record_of rec.now) node here self ≡ record { roster = r; number = 0 }) (λ e. step_by (record_of rec.now) node here self ≡ record { roster = self; number = number e }) }
    {
        let code = records::read_record(rec)?;
        events::mark(self, code.header.n, node, here)
    }

    // The next roster: a node leaves.
    pub fn leave(self, rec: &[u8], node: u32) -> Result<Roster, Refusal>
        ensures { MatchResult result (λ r. step_of (record_of rec.now) (leaves node) self ≡ record { roster = r; number = 0 }) (λ e. step_of (record_of rec.now) (leaves node) self ≡ record { roster = self; number = number e }) }
    {
        self.mark(rec, node, false)
    }

    // The next roster: a node returns.
    pub fn rejoin(self, rec: &[u8], node: u32) -> Result<Roster, Refusal>
        ensures { MatchResult result (λ r. step_of (record_of rec.now) (returns node) self ≡ record { roster = r; number = 0 }) (λ e. step_of (record_of rec.now) (returns node) self ≡ record { roster = self; number = number e }) }
    {
        self.mark(rec, node, true)
    }

    // Writes the k lowest present nodes, rising.
    #[tactic(auto, using(generator::proofs::Answered::tests), unfolding(crate::specs::Rosters::lowest_of, crate::specs::Rosters::lowest_list))]
    pub fn lowest(&self, rec: &[u8], list: &mut [u8]) -> Result<Listing, Refusal>
        ensures answer { numbered result ≡ lowest_of (record_of rec.now) self.now list.old }
        ensures list { list.new ≡ lowest_list (record_of rec.now) self.now list.old }
    {
        let code = records::read_record(rec)?;
        queries::write_lowest(self, code, list)
    }

    // Writes the nodes that the next job reads, and moves the job number on.
    #[tactic(auto, using(generator::proofs::Answered::tests), unfolding(crate::specs::Rosters::job_of, crate::specs::Rosters::job_list))]
    pub fn next_job(&mut self, rec: &[u8], list: &mut [u8]) -> Result<Listing, Refusal>
        ensures answer { numbered result ≡ (job_of (record_of rec.now) self.old list.old).listing }
        ensures roster { self.new ≡ (job_of (record_of rec.now) self.old list.old).roster }
        ensures list { list.new ≡ job_list (record_of rec.now) self.old list.old }
    {
        let code = records::read_record(rec)?;
        jobs::write_job(self, code, list)
    }
}
