// Groups of words behind their masks, in symbols of two bytes, and read again.
ghost use Rattle.std.specs.Prelude.{◌≡◌, ◌+◌, ◌*◌, ◌%◌, ◌≤◌, ◌<◌, length, take, slice_index_or};
ghost use Rattle.layout.specs.Width.{symbols_of, bytes_of};
ghost use Rattle.carrying.specs.Masks.{masked, covered, closed, opened};
ghost use Rattle.carrying.specs.Carrying.{word_count, words_of, carried_words, word_bytes_back, words_length};

use crate::prime::WordPrime;
use arrayvec::ArrayVec;
use symbols::Width;

// A word has two bytes.
pub const PAIR: Width = Width { bytes: 2 };

// Word i of bytes; behind an odd number of them stands a zero.
fn word_at(s: &[u8], i: usize) -> u16
    requires { i < word_count (length s.now) }
    ensures { result ≡ slice_index_or (words_of s.now) i 0 }
{
    if i == s.len() / 2 {
        return u16::from_be_bytes([s[i * 2], 0]);
    }
    PAIR.symbol_at(s, i)
}

// The words of bytes.
pub fn load_words(s: &[u8]) -> ArrayVec<u16, 255>
    requires { word_count (length s.now) ≤ 255 }
    ensures { result.items ≡ words_of s.now }
{
    let mut words = ArrayVec::new();
    for i in 0..s.len().div_ceil(2) {
        words.push(word_at(s, i));
    }
    words
}

// The words under a mask, as bytes.
fn write_masked(c: u16, words: &[u16], out: &mut [u8])
    requires { length out.old ≡ length words.now * 2 }
    ensures { out.new ≡ bytes_of 2 (masked c words.now) }
{
    for (i, word) in words.iter().enumerate() {
        let start = i * 2;
        let end = start + 2;
        PAIR.write_symbol(word ^ c, &mut out[start..end]);
    }
}

// A mask, and words under it.
pub fn write_covered(c: u16, words: &[u16], out: &mut [u8])
    requires { length out.old ≡ length words.now * 2 + 2 }
    ensures { out.new ≡ bytes_of 2 (covered c words.now) }
{
    PAIR.write_symbol(c, &mut out[..2]);
    write_masked(c, words, &mut out[2..]);
}

// The byte of a mask under which byte i of its group's words stands: the high and the low one in turn. By `group[i % 2]` in the loop, the
// processor opens a group byte by byte.
fn mask_byte(high: u8, low: u8, i: usize) -> u8
    ensures even { i % 2 ≡ 0 → result ≡ high }
    ensures odd { i % 2 ≡ 1 → result ≡ low }
{
    if i % 2 == 0 { high } else { low }
}

// As many bytes of a group as there is room for: its mask stands first, and a byte is under the mask's byte of its place in the word.
pub fn open_group(group: &[u8], out: &mut [u8])
    requires { (length group.now % 2 ≡ 0) × (length out.old + 2 ≤ length group.now) }
    ensures { out.new ≡ take (length out.old) (bytes_of 2 (opened (symbols_of 2 group.now))) }
{
    let high = group[0];
    let low = group[1];
    for (i, byte) in out.iter_mut().enumerate() {
        *byte = group[i + 2] ^ mask_byte(high, low, i);
    }
}

impl WordPrime {
    // One group of at most 255 words: its mask, and its words under it.
    fn close_group(self, s: &[u8], out: &mut [u8])
        requires { (word_count (length s.now) ≤ 255) × (length out.old ≡ word_count (length s.now) * 2 + 2) }
        ensures { out.new ≡ bytes_of 2 (closed self.p (words_of s.now)) }
    {
        let words = load_words(s);
        write_covered(self.find_mask(&words), &words, out);
    }

    // All groups of bytes.
    pub fn close_groups(self, s: &[u8], out: &mut [u8])
        requires { length out.old ≡ words_length self.p (length s.now) }
        ensures { out.new ≡ carried_words self.p s.now }
    {
        let size = self.group_words() * 2;
        for (i, part) in s.chunks(size).enumerate() {
            let to = i * (size + 2);
            let end = to + part.len().div_ceil(2) * 2 + 2;
            self.close_group(part, &mut out[to..end]);
        }
    }

    // As many bytes as there is room for, of all groups. Here and above the part that is written is cut by its place: after `chunks_mut` a proof
    // knows the length alone (docs/PROOF-NOTES.md).
    pub fn open_groups(self, symbols: &[u8], out: &mut [u8])
        requires { length symbols.now ≡ words_length self.p (length out.old) }
        ensures { out.new ≡ word_bytes_back self.p (length out.old) symbols.now }
    {
        let size = self.group_words() * 2;
        for (i, group) in symbols.chunks(size + 2).enumerate() {
            let to = i * size;
            let end = out.len().min(to + group.len() - 2);
            open_group(group, &mut out[to..end]);
        }
    }
}
