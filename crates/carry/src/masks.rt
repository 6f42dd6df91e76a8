// The mask of a group, digit by digit: each digit is the one with which fewer masks are ruled out.
ghost use Rattle.std.specs.Prelude.{◌≡◌, ◌∷◌, ◌+◌, ◌*◌, ◌≤◌, ◌<◌, leb, length};
ghost use Rattle.lists.specs.Choice.{pick};
ghost use Rattle.carrying.specs.Masks.{ruled_out, all_ruled_out, mask_of};

use crate::prime::WordPrime;

// Of the 2^k masks that begin with the digits of a, those under which a word is no symbol.
fn ruled_out(p: u32, k: u32, a: u32, w: u16) -> u32
    requires { (k ≤ 15) × (a < 65536) }
    ensures { (result ≡ ruled_out p k a w) × (result ≤ 32768) }
{
    let most: u32 = 1 << k;
    let end = (((w as u32 >> k) ^ a) + 1) << k;
    most.min(end.saturating_sub(p))
}

// The same of several words and 0, added.
fn all_ruled_out(p: u32, k: u32, a: u32, words: &[u16]) -> u32
    requires { (k ≤ 15) × (a < 65536) × (length words.now ≤ 255) }
    ensures { result ≡ all_ruled_out p k a (0 ∷ words.now) }
{
    let mut total = ruled_out(p, k, a, 0);
    for &word in words {
        total += ruled_out(p, k, a, word);
    }
    total
}

// The digits of a, and the next one.
fn next_digit(a: u32, low: u32, high: u32) -> u32
    requires { a < 32768 }
    ensures { result ≡ pick (leb low high) (a * 2) (a * 2 + 1) }
{
    if low <= high { a * 2 } else { a * 2 + 1 }
}

impl WordPrime {
    // A mask that is a symbol and makes symbols of all words. Where no mask is ruled out any more, the digits that are left are zeros.
    pub fn find_mask(self, words: &[u16]) -> u16
        requires { length words.now ≤ 255 }
        ensures { result ≡ mask_of self.p words.now }
    {
        let p = self.p;
        let mut total = (words.len() as u32 + 1) * (65536 - p);
        let mut a: u32 = 0;
        for k in (0..16).rev() {
            if total == 0 {
                return (a << (k + 1)) as u16;
            }
            let low = all_ruled_out(p, k, a * 2, words);
            let high = total - low;
            a = next_digit(a, low, high);
            total = low.min(high);
        }
        a as u16
    }
}
