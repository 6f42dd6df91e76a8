// An output: Horner's rule over the binary digits of its weights, adding the listed slices.
ghost use Rattle.std.specs.Prelude.{◌≡◌, ℕ, ◌+◌, ◌*◌, ◌/◌, ◌≤◌, ◌<◌, length, get_or, take, drop};
ghost use Rattle.subset_sums.specs.Inner.Lists.{slices_added, turns_of, Slices};

use kernel::gf256;

// A table of sums of subsets, and the slices of it that an output adds: for digit 7 − b of its weights those that `list` names from place
// b·groups on, as many as `counts` says. The eight lists stand in one lent buffer with their lengths beside it: vectors of fixed room would
// be as long for few rows as for many, and clearing those of 255 outputs takes 8 µs.
#[derive(Clone, Copy)]
pub struct Listed<'a> {
    pub tab: &'a [u8],
    pub list: &'a [u16],
    pub counts: &'a [u8],
    pub ghost slices: { Slices (length list.now / 8) tab.now list.now counts.now },
}

impl<'a> Listed<'a> {
    // How many places each of the eight lists has: one for each group of rows.
    fn groups(self) -> usize
        ensures { result ≡ length self.entry.list.now / 8 }
    {
        self.list.len() / 8
    }

    // The slices of digit 7 − b.
    fn of_digit(self, b: usize) -> &'a [u16]
        requires { b < 8 }
        ensures { result.now ≡ take (get_or self.entry.counts.now b 0) (drop (b * (length self.entry.list.now / 8)) self.entry.list.now) }
    {
        let start = b * self.groups();
        &self.list[start..start + self.counts[b] as usize]
    }

    // One turn of Horner's rule: x times the sum, and the slices of digit 7 − b added. Small enough that the compiler puts it into the
    // loops that call it, where acc stays in registers; a whole loop that is called from two places keeps acc in memory, and takes three
    // times as long.
    pub fn turn(self, b: usize, acc: &mut [u8; 64])
        requires { (b < 8) × (acc.old ≡ turns_of b (length self.list.now / 8) self.tab.now self.list.now self.counts.now) }
        ensures { acc.new ≡ turns_of (b + 1) (length self.entry.list.now / 8) self.entry.tab.now self.entry.list.now self.entry.counts.now }
    {
        gf256::multiply_x(acc);
        add_listed(self.tab, self.of_digit(b), acc);
    }

    // From the highest digit to the lowest.
    pub fn output(self, out: &mut [u8])
        requires { length out.old ≡ 64 }
        ensures { out.new ≡ turns_of 8 (length self.entry.list.now / 8) self.entry.tab.now self.entry.list.now self.entry.counts.now }
    {
        let mut acc = [0u8; 64];
        for b in 0..8 {
            self.turn(b, &mut acc);
        }
        out.copy_from_slice(&acc);
    }
}

// The listed slices added to acc.
fn add_listed(tab: &[u8], list: &[u16], acc: &mut [u8; 64])
    requires { (i : ℕ) → i < length list.now → get_or list.now i 0 + 64 ≤ length tab.now }
    ensures { acc.new ≡ slices_added tab.now list.now acc.old }
{
    for start in list {
        let start = *start as usize;
        gf256::add(&tab[start..start + 64], acc);
    }
}
