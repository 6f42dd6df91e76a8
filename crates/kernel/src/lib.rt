// Operations over the lanes of slices: loops with no table, which the compiler turns into vector instructions.
#![tactic(auto)]

ghost use Rattle.std.specs.Prelude.{◌≡◌, ◌≤◌, EachIndex, MatchOption, SomeIndex, length, slice_index};
ghost use Rattle.lists.specs.Numbers.{all_below};

pub mod gf256;
pub mod prime;
pub mod wide;

// Whether every byte is a symbol of a field of that size: below it. By the largest byte: `s.iter().all(..)`, which ends at the first that is
// not below, takes about thirty times as long.
pub fn all_below(size: u32, s: &[u8]) -> bool
    ensures { result ≡ all_below size s.now }
{
    if 256 <= size {
        return true;
    }
    largest(s).is_none_or(|top| u32::from(top) < size)
}

// The largest byte.
fn largest(s: &[u8]) -> Option<u8>
    ensures { MatchOption result (length s.now ≡ 0) (λ top. SomeIndex s.now (λ i. slice_index s.now i ≡ top) × EachIndex s.now (λ i. slice_index s.now i ≤ top)) }
{
    s.iter().copied().max()
}

// Copies a row. By the place: `out.copy_from_slice(row)`, and a loop over `out.iter_mut()`, become a call of memmove, which the library would
// want from outside.
pub fn copy(row: &[u8], out: &mut [u8])
    requires { length row.now ≡ length out.old }
    ensures { out.new ≡ row.now }
{
    for t in 0..out.len() {
        out[t] = row[t];
    }
}

// N times x. Its length is all that a caller is told: an array of zeros that a proof sees is read element by element.
pub fn filled<T: Copy, const N: usize>(x: T) -> [T; N]
    ensures { length result ≡ N }
{
    [x; N]
}
