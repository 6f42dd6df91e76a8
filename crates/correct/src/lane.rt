// The lanes of a block as bytes, and their marks. A lane that is marked 0 is a word of the code, and is not decoded.
ghost use Rattle.std.specs.Prelude.{◌≡◌, true, false, ◌*◌, ◌<◌, length, get_or, MatchOption};
ghost use Rattle.lists.specs.Counting.{differ};
ghost use Rattle.lists.specs.Padded.{padded};
ghost use Rattle.layout.specs.Width.{symbols_of, bytes_of};
ghost use Rattle.generator.specs.Records.{width};
ghost use Rattle.nearest_word.specs.Nearest.{has_near, corrected};
ghost use Rattle.decode.specs.Inner.Candidates.{SoundLane};
ghost use Rattle.correct.specs.Inner.Marked.{MarkedLane};

use check_sums::lane::{Lane, PowerRows};
use decode::Corrected;

// A mark for each lane, and the rows of powers by which lanes are decoded.
#[derive(Clone, Copy)]
pub struct Marked<'r, 'm> {
    pub rows: PowerRows<'r>,
    // A mark is a byte, since the sums of every way are written to lent bytes.
    pub marks: &'m [u8],
}

impl Marked<'_, '_> {
    // The word near enough to a lane, if there is one.
    #[tactic(auto, using(crate::proofs::LaneSymbols::lane_short, crate::proofs::LaneSymbols::held_says))]
    fn nearest(self, lane: &[u8]) -> Option<Corrected>
        requires { let h = self.rows.code.header in (length lane.now ≡ width h * h.n) × SoundLane h (symbols_of (width h) lane.now) }
        ensures { let h = self.entry.rows.code.header in let ws = symbols_of (width h) lane.now in MatchOption result (has_near h ws ≡ false) (λ found. (has_near h ws ≡ true) × (found.lane ≡ padded 255 (corrected h ws)) × (found.altered ≡ differ ws (corrected h ws))) }
    {
        let h = self.rows.code.header;
        let n = h.n as usize;
        let held = symbols::width_of(h).read_symbols(lane);
        let received = Lane {
            rows: self.rows,
            symbols: &held[..n],
        };
        decode::correct_lane(received)
    }

    // Whether a word is near enough to lane t.
    #[tactic(auto, using(lists::proofs::Tests::tests, crate::proofs::LaneSymbols::marked_near, crate::proofs::LaneSymbols::found_near))]
    pub fn is_near(self, t: usize, lane: &[u8]) -> bool
        requires { (t < length self.marks.now) × MarkedLane self.rows.code.header (get_or self.marks.now t 0) lane.now }
        ensures { let h = self.entry.rows.code.header in result ≡ has_near h (symbols_of (width h) lane.now) }
    {
        self.marks[t] == 0 || self.nearest(lane).is_some()
    }

    // Writes the word that is near enough to lane t, where there is one, and gives the number of symbols altered.
    #[tactic(auto, using(lists::proofs::Differ::differ_most))]
    pub fn write_nearest(self, t: usize, lane: &mut [u8]) -> u32
        requires { (t < length self.marks.now) × MarkedLane self.rows.code.header (get_or self.marks.now t 0) lane.old }
        ensures { let h = self.entry.rows.code.header in let ws = symbols_of (width h) lane.old in (lane.new ≡ bytes_of (width h) (corrected h ws)) × (result ≡ differ ws (corrected h ws)) }
    {
        if self.marks[t] == 0 {
            return 0;
        }
        let h = self.rows.code.header;
        let n = h.n as usize;
        let w = symbols::width_of(h);
        match self.nearest(lane) {
            None => 0,
            Some(found) => {
                w.write_symbols(&found.lane[..n], lane);
                found.altered as u32
            }
        }
    }
}
