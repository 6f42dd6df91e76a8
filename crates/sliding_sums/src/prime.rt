// Sums over a prime field: the products are added up as numbers, and each sum is reduced once.
ghost use Rattle.std.specs.Prelude.{◌≡◌, true, ◌*◌, ◌≤◌, ◌<◌, length};
ghost use Rattle.field.specs.Primes.{is_prime};
ghost use Rattle.sliding_sums.specs.Inner.Windows.{window_sums, Windows};
ghost use Rattle.row_sums.specs.Inner.WideSums.{product_sum};

// The sum of the products as a number. The row is read by the index: by `weights.iter().zip(row).map(..).sum()` the sums of 10 weights take a
// fifth more time, those of 51 up to a sixth.
fn product_sum(weights: &[u16], row: &[u16]) -> u64
    requires { (length weights.now ≤ 255) × (length weights.now ≤ length row.now) }
    ensures { result ≡ product_sum weights.now row.now }
{
    let mut sum: u64 = 0;
    for (j, weight) in weights.iter().enumerate() {
        sum += (*weight as u32 * row[j] as u32) as u64;
    }
    sum
}

// The sums from each place that `sums` has room for. A number p, of which a prime and its bound are asked: a field of its own type does not say
// that it is usable.
pub fn window_sums(p: u32, weights: &[u16], row: &[u16], sums: &mut [u16])
    requires { (is_prime p ≡ true) × (p ≤ 65521) × Windows p weights.now row.now (length sums.old) }
    ensures { sums.new ≡ window_sums p weights.now row.now (length sums.old) }
{
    for (t, sum) in sums.iter_mut().enumerate() {
        *sum = (product_sum(weights, &row[t..]) % p as u64) as u16;
    }
}
