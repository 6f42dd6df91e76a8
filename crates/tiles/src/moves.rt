// Copies whose size the compiler knows, each by one vector: one load and one store. By `copy_from_slice`, a call that asks first whether the
// two overlap, a copy of 16 bytes takes two to four times as long.
ghost use Rattle.std.specs.Prelude.{◌≡◌, ◌+◌, ◌≤◌, ◌<◌, length, take};
ghost use Rattle.tiles.specs.Inner.Words.{patched};

use std::simd::prelude::*;

// The N bytes from place `at` on become those of `from` there; the others are untouched.
fn move_at<const N: usize>(from: &[u8], to: &mut [u8], at: usize)
    requires { (at + N ≤ length from.now) × (at + N ≤ length to.old) }
    ensures { to.new ≡ patched at N from.now to.old }
{
    Simd::<u8, N>::from_slice(&from[at..]).copy_to_slice(&mut to[at..]);
}

// N to 2·N bytes: the first N and the last N, which may overlap.
fn move_ends<const N: usize>(from: &[u8], to: &mut [u8])
    requires { (N ≤ length to.old) × (length to.old ≤ N + N) × (length to.old ≤ length from.now) }
    ensures { to.new ≡ take (length to.old) from.now }
{
    let last = to.len() - N;
    move_at::<N>(from, to, 0);
    move_at::<N>(from, to, last);
}

// Fewer than 16 bytes from a row of 16.
pub fn move_rest(from: &[u8], to: &mut [u8])
    requires { (length from.now ≡ 16) × (length to.old < 16) }
    ensures { to.new ≡ take (length to.old) from.now }
{
    match to.len() {
        8.. => move_ends::<8>(from, to),
        4..=7 => move_ends::<4>(from, to),
        2..=3 => move_ends::<2>(from, to),
        1 => to[0] = from[0],
        0 => {}
    }
}

// Some lanes of a row. A plain loop: by `copy_from_slice`, which calls memmove, lanes are gathered in a tenth more time.
pub fn move_row(from: &[u8], to: &mut [u8])
    requires { length from.now ≡ length to.old }
    ensures { to.new ≡ from.now }
{
    for (i, byte) in to.iter_mut().enumerate() {
        *byte = from[i];
    }
}
