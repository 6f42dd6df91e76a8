// The slices that an output adds, listed by where they start: for each binary digit of its weights, from the highest, and each group
// the subset of the four rows whose weight has the digit. Empty subsets are left out.
ghost use Rattle.std.specs.Prelude.{◌≡◌, true, ℕ, ◌+◌, ◌-◌, ◌*◌, ◌/◌, ◌%◌, ◌^◌, ◌≤◌, ◌<◌, length, get_or};
ghost use Rattle.lists.specs.Numbers.{all_below};
ghost use Rattle.subset_sums.specs.Inner.Lists.{subset_at, Listing};
ghost use Rattle.subset_sums.specs.Inner.Spread.{spread_of, spreads, Streams};

// Byte c as a number whose byte b is binary digit b of c, for all c: the digits of 2·c are those of c, one place up.
pub fn fill_spread(sp: &mut [u64; 256])
    ensures { sp.new ≡ spreads }
{
    sp[0] = 0;
    sp[1] = 1;
    for c in 1..128 {
        let up = sp[c] * 256;
        sp[2 * c] = up;
        sp[2 * c + 1] = up + 1;
    }
}

// The weights of an output, and the bytes with their digits spread.
#[derive(Clone, Copy)]
struct Weights<'a> {
    spread: &'a [u64],
    weights: &'a [u16],
    ghost every_byte: { spread.now ≡ spreads },
    ghost byte_weights: { all_below 256 weights.now ≡ true },
}

impl Weights<'_> {
    // The digits of row i's weight, spread; 0 for the rows that fill the last group up.
    fn digits(self, i: usize) -> u64
        ensures { (result ≡ spread_of (get_or self.entry.weights.now i 0)) × (result ≤ 72340172838076673) }
    {
        self.weights
            .get(i)
            .map_or(0, |weight| self.spread[*weight as usize])
    }

    // Byte d is the subset of the four rows of group g whose weight has binary digit d.
    fn subsets(self, g: usize) -> u64
        requires { g < 64 }
        ensures { (b : ℕ) → b < 8 → result / 2 ^ (56 - 8 * b) % 16 ≡ subset_at self.entry.weights.now (7 - b) g }
    {
        let o = 4 * g;
        self.digits(o) + self.digits(o + 1) * 2 + self.digits(o + 2) * 4 + self.digits(o + 3) * 8
    }

    // Group g's slices, one for each digit, after those of the groups before it. By the index: over `counts.iter_mut().enumerate()`, whose
    // length the compiler does not know, lists take three fifths more time.
    fn list_group(self, g: usize, list: &mut [u16], counts: &mut [u8])
        requires { (length list.old ≤ 512) × (g < length list.old / 8) × Streams (length list.old / 8) (λ b. g) self.weights.now list.old counts.old }
        ensures { Streams (length list.old / 8) (λ b. g + 1) self.entry.weights.now list.new counts.new }
    {
        let subsets = self.subsets(g);
        if subsets == 0 {
            return;
        }
        let groups = list.len() / 8;
        for b in 0..8 {
            let v = (subsets >> (56 - 8 * b)) % 16;
            let count = counts[b];
            list[b * groups + count as usize] = entry(g, v);
            counts[b] = count + u8::from(v != 0);
        }
    }
}

// Where subset v of group g has its slice.
fn entry(g: usize, v: u64) -> u16
    requires { (g < 64) × (v < 16) }
    ensures { result ≡ g * 1024 + v * 64 }
{
    (g * 1024) as u16 + (v * 64) as u16
}

// The slices for the weights of an output: those of digit 7 − b from place b·groups on, and how many they are.
pub fn list_output(sp: &[u64], w: &[u16], list: &mut [u16], counts: &mut [u8])
    requires { (sp.now ≡ spreads) × (all_below 256 w.now ≡ true) × (length list.old ≤ 512) × (length list.old % 8 ≡ 0) × (length counts.old ≡ 8) }
    ensures { Listing (length list.old / 8) w.now list.new counts.new }
{
    let weights = Weights {
        spread: sp,
        weights: w,
    };
    counts.fill(0);
    for g in 0..list.len() / 8 {
        weights.list_group(g, list, counts);
    }
}
