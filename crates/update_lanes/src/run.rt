// A run of lanes: judged, then rewritten, lane by lane.
ghost use Rattle.std.specs.Prelude.{◌≡◌, true, ◌/◌, ◌<◌, length};
ghost use Rattle.lists.specs.Counting.{differ};
ghost use Rattle.layout.specs.Width.{symbols_of, bytes_of};
ghost use Rattle.generator.specs.Answers.{numbered, outcome_of};
ghost use Rattle.generator.specs.Records.{width};
ghost use Rattle.field.specs.Kinds.{usable};
ghost use Rattle.update_lanes.specs.Runs.{run_length, first_number, lane_fault, run_symbols};
ghost use Rattle.update_lanes.specs.Inner.Ready.{UpdatableRun};
ghost use Rattle.update_lanes.specs.Inner.Lanes.{lane_update};

use generator::{Header, Refusal};
use plan::Generator;
use symbols::Width;
use update::Update;

// Of so many lanes, symbol `which` of the message in those from `first` on, which was `old` and becomes `new`: a symbol for each lane of the run.
#[derive(Clone, Copy)]
pub struct Run<'a> {
    pub lanes: usize,
    pub which: usize,
    pub first: u32,
    pub old: &'a [u8],
    pub new: &'a [u8],
}

impl Run<'_> {
    // How many lanes it has.
    pub fn count(self, h: Header) -> usize
        requires { usable h.field ≡ true }
        ensures { result ≡ run_length h self.entry.old.now }
    {
        let w = symbols::width_of(h);
        self.old.len() / w.bytes
    }

    // Its lane i as an update of one lane.
    fn lane(self, w: Width, i: usize) -> Update
        requires { (i < length self.old.now / w.bytes) × (i < length self.new.now / w.bytes) }
        ensures { result ≡ lane_update self.entry w.bytes i }
    {
        Update {
            lanes: self.lanes,
            which: self.which,
            lane: self.first as usize + i,
            old: w.symbol_at(self.old, i) as u32,
            new: w.symbol_at(self.new, i) as u32,
        }
    }

    // Judges its lanes, in their order.
    pub fn judge(self, generator: &Generator, shares: &[u8]) -> Result<(), Refusal>
        requires { UpdatableRun generator.now.codec.code.header self.lanes self.which self.first self.old.now self.new.now shares.now }
        ensures { let h = generator.now.codec.code.header in numbered result ≡ outcome_of (first_number (run_length h self.entry.old.now) 0 (lane_fault h self.entry.lanes self.entry.which self.entry.first (symbols_of (width h) self.entry.old.now) (symbols_of (width h) shares.now))) }
    {
        let h = generator.codec.code.header;
        let w = symbols::width_of(h);
        let count = self.count(h);
        for i in 0..count {
            self.lane(w, i).judge_lane(generator, shares)?;
        }
        Ok(())
    }

    // Rewrites its lanes, and counts the symbols that become others.
    pub fn rewrite(self, generator: &Generator, shares: &mut [u8]) -> u32
        requires { UpdatableRun generator.now.codec.code.header self.lanes self.which self.first self.old.now self.new.now shares.old }
        ensures { let h = generator.now.codec.code.header in let after = run_symbols h self.entry.lanes self.entry.which self.entry.first self.entry.old.now self.entry.new.now shares.old in (shares.new ≡ bytes_of (width h) after) × (result ≡ differ (symbols_of (width h) shares.old) after) }
    {
        let h = generator.codec.code.header;
        let w = symbols::width_of(h);
        let lanes = self.count(h);
        let mut altered: u32 = 0;
        for i in 0..lanes {
            altered += self.lane(w, i).rewrite_lane(generator, shares);
        }
        altered
    }
}
