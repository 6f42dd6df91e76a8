// Checksums, which the reference makes by the same rule, and tests of what was lent.
ghost use Rattle.std.specs.Prelude.{◌≡◌};
ghost use Rattle.std.specs.List.{list_all};

// Every byte of a buffer that is only written holds this before the call.
pub const MARK: u8 = 170;

// The checksum with one byte more.
fn with(sum: u64, byte: u8) -> u64 {
    (sum % 4294967291 * 257 + u64::from(byte) + 1) % 4294967291
}

// A checksum in which each byte and its place count.
pub fn sum(s: &[u8]) -> u64 {
    s.iter().fold(0, |sum, byte| with(sum, *byte))
}

// Whether every place holds the given value.
pub fn untouched<T: Copy + PartialEq>(mark: T, s: &[T]) -> bool
    ensures { result ≡ list_all (λ x. T.eq x mark) s.now }
{
    s.iter().all(|x| *x == mark)
}
