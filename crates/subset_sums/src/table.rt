// The table: of each group of four rows the sums of all 16 subsets, slices of 64 bytes. Subset v has the rows whose binary digit of v
// is 1; its slice stands at g·1024 + v·64.
ghost use Rattle.std.specs.Prelude.{◌≡◌, ◌+◌, ◌*◌, ◌/◌, ◌^◌, ◌≤◌, ◌<◌, length};
ghost use Rattle.subset_sums.specs.Inner.Subsets.{group_of, table_of, summed, FirstSums};

use kernel::gf256;

// The slice at `to` becomes the sum of that at `a` and a row. Where `tab.copy_within(a..a + 64, to)` puts that slice there first, this takes
// nine times as long.
fn sum(row: &[u8], a: usize, to: usize, tab: &mut [u8])
    requires { (length row.now ≡ 64) × (a + 64 ≤ length tab.old) × (to + 64 ≤ length tab.old) }
    ensures { tab.new ≡ summed row.now a to tab.old }
{
    let mut acc = [0u8; 64];
    acc.copy_from_slice(&tab[a..a + 64]);
    gf256::add(row, &mut acc);
    tab[to..to + 64].copy_from_slice(&acc);
}

// Row i doubles the sums: the row added to each of the subsets of lower rows.
fn double(rows: &[u8; 256], i: usize, tab: &mut [u8])
    requires { (i < 4) × FirstSums rows.now (2 ^ i) tab.old }
    ensures { FirstSums rows.now (2 ^ (i + 1)) tab.new }
{
    let count = 1 << i;
    let start = i * 64;
    for v in 0..count {
        sum(&rows[start..start + 64], v * 64, (count + v) * 64, tab);
    }
}

// The sums of all subsets of four rows.
fn fill_group(rows: &[u8; 256], tab: &mut [u8])
    requires { length tab.old ≡ 1024 }
    ensures { tab.new ≡ group_of rows.now }
{
    tab[..64].fill(0);
    for i in 0..4 {
        double(rows, i, tab);
    }
}

// The same for group after group of rows.
pub fn fill_table(rows: &[u8], tab: &mut [u8])
    requires { length tab.old ≡ length rows.now / 256 * 1024 }
    ensures { tab.new ≡ table_of (length rows.now / 256) rows.now }
{
    let (groups, _) = rows.as_chunks::<256>();
    for (g, four) in groups.iter().enumerate() {
        let to = g * 1024;
        fill_group(four, &mut tab[to..to + 1024]);
    }
}
