// Sums over the field of 256 elements, by sums of all subsets of four symbols that stand side by side.
ghost use Rattle.std.specs.Prelude.{◌≡◌, true, ℕ, ◌+◌, ◌*◌, ◌/◌, ◌%◌, ◌≤◌, length, get_or, drop};
ghost use Rattle.std.specs.Int.Bits.{bit_xor};
ghost use Rattle.lists.specs.Rows.{from};
ghost use Rattle.lists.specs.Numbers.{all_below};
ghost use Rattle.lists.specs.Padded.{padded};
ghost use Rattle.kernel.specs.Inner.Lanes.{lanewise};
ghost use Rattle.subset_sums.specs.Inner.Lists.{Slices};
ghost use Rattle.sliding_sums.specs.Inner.Windows.{window_sums, Windows};
ghost use Rattle.sliding_sums.specs.Inner.Tables.{sliding_subset, sliding_table, place_of, Placed};

use kernel::gf256::times_digit;
use subset_sums::Listed;

// The symbols as bytes.
fn fill_bytes(row: &[u16], out: &mut [u8])
    requires { (all_below 256 row.now ≡ true) × (length out.old ≡ length row.now) }
    ensures { out.new ≡ row.now }
{
    for (i, symbol) in row.iter().enumerate() {
        out[i] = *symbol as u8;
    }
}

// The sum of subset v of four bytes.
fn subset_sum(v: u8, a: u8, b: u8, c: u8, d: u8) -> u8
    ensures { result ≡ bit_xor (a * (v % 2)) (bit_xor (b * (v / 2 % 2)) (bit_xor (c * (v / 2 / 2 % 2)) (d * (v / 2 / 2 / 2 % 2)))) }
{
    times_digit(a, v % 2)
        ^ (times_digit(b, v / 2 % 2)
            ^ (times_digit(c, v / 2 / 2 % 2) ^ times_digit(d, v / 2 / 2 / 2 % 2)))
}

// In each place the sum of subset v of the four bytes from there on.
fn fill_subset(v: u8, row: &[u8], out: &mut [u8])
    requires { length out.old + 3 ≤ length row.now }
    ensures { out.new ≡ from (sliding_subset row.now v) 0 (length out.old) }
{
    for (t, sum) in out.iter_mut().enumerate() {
        *sum = subset_sum(v, row[t], row[t + 1], row[t + 2], row[t + 3]);
    }
}

// The same for all subsets.
fn fill_table(row: &[u8], tab: &mut [u8; 8192])
    requires { 515 ≤ length row.now }
    ensures { tab.new ≡ sliding_table row.now }
{
    for v in 0..16u8 {
        let start = v as usize * 512;
        fill_subset(v, row, &mut tab[start..start + 512]);
    }
}

fn place(o: u16) -> u16
    ensures { result ≡ place_of o }
{
    o / 1024 * 4 + o % 1024 * 8
}

// Slices of a table of rows become slices of this one.
fn place_slices(list: &mut [u16])
    ensures { list.new ≡ lanewise (λ t o. place_of o) list.old }
{
    for slice in list.iter_mut() {
        *slice = place(*slice);
    }
}

// The lists for the weights.
fn prepare(weights: &[u16], list: &mut [u16], counts: &mut [u8; 8])
    requires { (all_below 256 weights.now ≡ true) × (length list.old ≤ 512) × (length list.old % 8 ≡ 0) }
    ensures { Placed (length list.old / 8) weights.now list.new counts.new }
{
    let mut codes = [0u64; 256];
    subset_sums::fill_spread(&mut codes);
    subset_sums::list_output(&codes, weights, list, counts);
    place_slices(list);
}

// Symbols of one byte as numbers.
fn widen(part: &[u8], out: &mut [u16])
    requires { length out.old ≤ length part.now }
    ensures { out.new ≡ from (λ t. get_or part.now t 0) 0 (length out.old) }
{
    for (i, symbol) in out.iter_mut().enumerate() {
        *symbol = part[i] as u16;
    }
}

// The table of a row of symbols.
fn load(row: &[u16], tab: &mut [u8; 8192])
    requires { (length row.now ≤ 510) × (all_below 256 row.now ≡ true) }
    ensures { tab.new ≡ sliding_table (padded 576 row.now) }
{
    let mut bytes = [0u8; 576];
    fill_bytes(row, &mut bytes[..row.len()]);
    fill_table(&bytes, tab);
}

// The table of a row, and the slices of it that the sums add, from each of its first 193 places on.
#[derive(Clone, Copy)]
struct Sliding<'a> {
    listed: Listed<'a>,
    ghost whole: { length listed.tab.now ≡ 8192 },
    ghost slices: { (at : ℕ) → at ≤ 192 → Slices (length listed.list.now / 8) (drop at listed.tab.now) listed.list.now listed.counts.now },
}

impl<'a> Sliding<'a> {
    ghost use Rattle.sliding_sums.specs.Inner.Sliding.{part_sums, sum_from};

    // The slices that make the sums from place `at` on.
    fn from_place(self, at: usize) -> Listed<'a>
        requires { at ≤ 192 }
        ensures tab { result.tab.now ≡ drop at self.entry.listed.tab.now }
        ensures list { result.list.now ≡ self.entry.listed.list.now }
        ensures counts { result.counts.now ≡ self.entry.listed.counts.now }
    {
        let listed = self.listed;
        Listed {
            tab: &listed.tab[at..],
            list: listed.list,
            counts: listed.counts,
        }
    }

    // The sums from place `at` on, at most 64.
    fn fill_part(self, at: usize, out: &mut [u16])
        requires { (at ≤ 192) × (length out.old ≤ 64) }
        ensures { out.new ≡ from (λ t. get_or (part_sums self.entry at 8) t 0) 0 (length out.old) }
    {
        let listed = self.from_place(at);
        let mut acc = [0u8; 64];
        for b in 0..8 {
            listed.turn(b, &mut acc);
        }
        widen(&acc, out);
    }

    // The sums from each place, 64 at a time.
    fn fill_sums(self, sums: &mut [u16])
        requires { length sums.old ≤ 255 }
        ensures { sums.new ≡ from (sum_from self.entry) 0 (length sums.old) }
    {
        let count = sums.len();
        for at in (0..count).step_by(64) {
            let end = count.min(at + 64);
            self.fill_part(at, &mut sums[at..end]);
        }
    }
}

// The sums from each place that `sums` has room for.
pub fn window_sums(weights: &[u16], row: &[u16], sums: &mut [u16])
    requires { Windows 256 weights.now row.now (length sums.old) }
    ensures { sums.new ≡ window_sums 0 weights.now row.now (length sums.old) }
{
    let size = 8 * weights.len().div_ceil(4);
    let mut lists = [0u16; 512];
    let mut counts = [0u8; 8];
    let mut tab = [0u8; 8192];
    let list = &mut lists[..size];
    prepare(weights, list, &mut counts);
    load(row, &mut tab);
    let listed = Listed {
        tab: &tab,
        list,
        counts: &counts,
    };
    let sliding = Sliding { listed };
    sliding.fill_sums(sums);
}
