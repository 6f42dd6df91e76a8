// Bytes that are changed where words of symbols carry them: a group that holds some of them keeps its mask while all its words are symbols
// under it, and else is carried anew. No other group is written.
ghost use Rattle.std.specs.Prelude.{◌≡◌, true, ◌+◌, ◌*◌, ◌%◌, ◌≤◌, length};
ghost use Rattle.lists.specs.Numbers.{all_below};
ghost use Rattle.layout.specs.Width.{symbols_of, bytes_of};
ghost use Rattle.carrying.specs.Masks.{masked, opened};
ghost use Rattle.carrying.specs.Carrying.{words_back};
ghost use Rattle.carrying.specs.Changing.{part_replaced, mask_after, changed_group, changed_symbols};

use crate::groups::{PAIR, load_words, open_group, write_covered};
use crate::prime::WordPrime;
use arrayvec::ArrayVec;

// A part of bytes, replaced.
pub fn replace(at: usize, part: &[u8], s: &mut [u8])
    requires { at + length part.now ≤ length s.old }
    ensures { s.new ≡ part_replaced at part.now s.old }
{
    let end = at + part.len();
    kernel::copy(part, &mut s[at..end]);
}

// The bytes of a group, a part of them replaced.
fn open_changed(at: usize, part: &[u8], group: &[u8], out: &mut [u8])
    requires { (length group.now % 2 ≡ 0) × (length out.old + 2 ≡ length group.now) × (at + length part.now ≤ length out.old) }
    ensures { out.new ≡ part_replaced at part.now (bytes_of 2 (opened (symbols_of 2 group.now))) }
{
    open_group(group, out);
    replace(at, part, out);
}

// Its words then.
fn changed_words(at: usize, part: &[u8], group: &[u8]) -> ArrayVec<u16, 255>
    requires { (length group.now % 2 ≡ 0) × (length group.now ≤ 512) × (at + length part.now + 2 ≤ length group.now) }
    ensures { result.items ≡ symbols_of 2 (part_replaced at part.now (bytes_of 2 (opened (symbols_of 2 group.now)))) }
{
    let mut room: [u8; 510] = [0; 510];
    let bytes = &mut room[..group.len() - 2];
    open_changed(at, part, group, bytes);
    load_words(bytes)
}

impl WordPrime {
    // Words are symbols under a mask.
    fn serves(self, c: u16, words: &[u16]) -> bool
        ensures { result ≡ all_below self.p (masked c words.now) }
    {
        for &word in words {
            if self.p <= (word ^ c) as u32 {
                return false;
            }
        }
        true
    }

    // The mask of a group that comes to have other words.
    fn mask_after(self, c: u16, words: &[u16]) -> u16
        requires { length words.now ≤ 255 }
        ensures { result ≡ mask_after self.p c words.now }
    {
        if self.serves(c, words) {
            return c;
        }
        self.find_mask(words)
    }

    // One group.
    fn change_group(self, at: usize, part: &[u8], group: &mut [u8])
        requires { (length group.old % 2 ≡ 0) × (length group.old ≤ 512) × (at + length part.now + 2 ≤ length group.old) }
        ensures { group.new ≡ bytes_of 2 (changed_group self.p at part.now (symbols_of 2 group.old)) }
    {
        let words = changed_words(at, part, group);
        let c = self.mask_after(PAIR.symbol_at(group, 0), &words);
        write_covered(c, &words, group);
    }

    // The groups that hold some of the bytes, from the first on.
    pub fn change_groups(self, at: usize, bytes: &[u8], symbols: &mut [u8])
        requires { (length symbols.old % 2 ≡ 0) × (all_below self.p (symbols_of 2 symbols.old) ≡ true) × (at + length bytes.now ≤ length (words_back self.p (symbols_of 2 symbols.old)) * 2) }
        ensures { symbols.new ≡ bytes_of 2 (changed_symbols self.p at bytes.now (symbols_of 2 symbols.old)) }
    {
        let size = self.group_words() * 2;
        let mut i = at / size;
        let mut place = at % size;
        let mut done = 0;
        while done < bytes.len() {
            let next = bytes.len().min(done + (size - place));
            let from = i * (size + 2);
            let end = symbols.len().min(from + (size + 2));
            self.change_group(place, &bytes[done..next], &mut symbols[from..end]);
            i += 1;
            place = 0;
            done = next;
        }
    }
}
