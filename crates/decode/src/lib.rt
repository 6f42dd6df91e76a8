// One lane set right: the word of the code that differs from it at no more than (n - k) / 2 nodes.
#![tactic(auto)]

ghost use Rattle.std.specs.Prelude.{◌≡◌, true, false, MatchOption};
ghost use Rattle.lists.specs.Counting.{differ};
ghost use Rattle.lists.specs.Padded.{padded};
ghost use Rattle.nearest_word.specs.Nearest.{has_near, corrected};
ghost use Rattle.generator.specs.Records.{size};
ghost use Rattle.decode.specs.Inner.Locating.{Below};
ghost use Rattle.decode.specs.Inner.Candidates.{WrongNodes, Candidate};

use arrayvec::ArrayVec;
use check_sums::lane::Lane;
use generator::Codec;
use interpolation::polynomials::Polynomial;

mod errors;
pub mod lanes;
pub mod locator;
pub mod roots;

use lanes::{differing, removed};
use locator::locate;
use roots::find_roots;

// The word near enough to a lane, and zeros after it; and the number of symbols altered.
// `altered` counts symbols that differ; how much of the lane is used the code's n says.
#[derive(Clone, Copy)]
pub struct Corrected {
    pub lane: [u16; 255],
    pub altered: usize,
}

// The check sums of a lane over a code, with zeros after them: from these alone the errors are told.
#[derive(Clone, Copy)]
pub struct Syndrome<'a, 's> {
    pub codec: Codec<'a>,
    pub sums: &'s [u16; 255],
    pub ghost symbols: { Below (size codec.code.header) sums.now },
}

impl Syndrome<'_, '_> {
    // The nodes at which the locator of the check sums vanishes: all wrong ones, if a word is near enough.
    fn wrong_nodes(self) -> ArrayVec<u8, 255>
        ensures { WrongNodes self.entry.codec.code.header self.entry.sums.now result.items }
    {
        let Codec { code, field, .. } = self.codec;
        let t = code.checks() / 2;
        let locator = locate(field, self.sums, t);
        let polynomial = Polynomial {
            field,
            coefficients: &locator[..=t],
        };
        find_roots(code, polynomial)
    }
}

// The only symbols that may be a word near enough, and zeros after them.
fn candidate(lane: Lane) -> [u16; 255]
    ensures { Candidate lane.entry.rows.code.header lane.entry.symbols.now result }
{
    let sums = lane.sums();
    let tables = field::constant_tables();
    let codec = Codec::new(lane.rows.code, &tables);
    let syndrome = Syndrome { codec, sums: &sums };
    let found = syndrome.wrong_nodes();
    let nodes = found.as_slice();
    let count = nodes.len();
    let wrong = syndrome.errors(nodes);
    removed(codec.field, lane.symbols, nodes, &wrong[..count])
}

// The word near enough to a lane, if there is one.
pub fn correct_lane(lane: Lane) -> Option<Corrected>
    ensures { let h = lane.entry.rows.code.header in let ws = lane.entry.symbols.now in MatchOption result (has_near h ws ≡ false) (λ found. (has_near h ws ≡ true) × (found.lane ≡ padded 255 (corrected h ws)) × (found.altered ≡ differ ws (corrected h ws))) }
{
    let rows = lane.rows;
    let n = rows.code.header.n as usize;
    let t = rows.code.checks() / 2;
    let word = candidate(lane);
    let altered = differing(lane.symbols, &word[..n]);
    let nearest = Lane {
        rows,
        symbols: &word[..n],
    };
    (altered <= t && nearest.is_word()).then_some(Corrected {
        lane: word,
        altered,
    })
}
