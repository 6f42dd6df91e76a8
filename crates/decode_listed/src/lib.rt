// Symbols of listed nodes set right: what these nodes hold for the message whose encoding differs from the symbols at no more than (s - k) / 2 of the s nodes.
#![tactic(auto)]

ghost use Rattle.std.specs.Prelude.{◌≡◌, true, false, MatchOption};
ghost use Rattle.lists.specs.Padded.{padded};
ghost use Rattle.generator.specs.Claims.{at_nodes};
ghost use Rattle.near_message.specs.Nearest.{has_near_message, near_message};
ghost use Rattle.near_message.specs.Inner.Listed.{ListedSymbols};
ghost use Rattle.decode_listed.specs.Inner.Candidates.{ListedCandidate};

use check_sums::lane::{Lane, PowerRows};
use decode::lanes::differing;

mod erased;
mod nodes;

use erased::candidate;
use nodes::{at_nodes, put, unlisted};

// Symbols received from listed nodes, with the rows of powers by which check sums are made.
#[derive(Clone, Copy)]
pub struct Received<'r, 'n, 's> {
    pub rows: PowerRows<'r>,
    pub nodes: &'n [u8],
    pub symbols: &'s [u16],
    pub ghost listed: { ListedSymbols rows.code.header nodes.now symbols.now },
}

impl Received<'_, '_, '_> {
    // The only symbols that may be the word of a message near enough, and zeros after them.
    fn candidate(self) -> [u16; 255]
        ensures { ListedCandidate self.entry.rows.code.header self.entry.nodes.now self.entry.symbols.now result }
    {
        let n = self.rows.code.header.n;
        let held = put(self.nodes, self.symbols);
        let lane = Lane {
            rows: self.rows,
            symbols: &held[..n as usize],
        };
        let lost = unlisted(n, self.nodes);
        candidate(lane, lost.as_slice())
    }

    // The symbols that the listed nodes hold for the message near enough, and zeros after them, if there is one.
    pub fn near_symbols(self) -> Option<[u16; 255]>
        ensures { let h = self.entry.rows.code.header in let js = self.entry.nodes.now in let ys = self.entry.symbols.now in MatchOption result (has_near_message h js ys ≡ false) (λ right. (has_near_message h js ys ≡ true) × (right ≡ padded 255 (at_nodes h (near_message h js ys) js))) }
    {
        let rows = self.rows;
        let h = rows.code.header;
        let n = h.n as usize;
        let count = self.nodes.len();
        let t = (count - h.k as usize) / 2;
        let word = self.candidate();
        let right = at_nodes(self.nodes, &word);
        let altered = differing(self.symbols, &right[..count]);
        let found = Lane {
            rows,
            symbols: &word[..n],
        };
        (altered <= t && found.is_word()).then_some(right)
    }
}
