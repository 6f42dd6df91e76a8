// Rows over the field of 256 elements: the steps of Horner's rule over the digits of the coefficients. Each step is one pass over acc.
// None, one or two rows have a function each: one with a list of rows needs a loop over it inside the loop over lanes, and is no plainer.
// Rows are read by the index: after `for (sum, symbol) in acc.iter_mut().zip(row)` a proof knows nothing about acc.
ghost use Rattle.std.specs.Prelude.{◌≡◌, ◌*◌, ◌<◌, length, bit_xor, slice_index};
ghost use Rattle.field.specs.Bytes.{times_x};
ghost use Rattle.kernel.specs.Inner.Lanes.{lanewise};

// x times acc.
pub fn multiply_x(acc: &mut [u8])
    ensures { acc.new ≡ lanewise (λ t y. times_x y) acc.old }
{
    for sum in acc.iter_mut() {
        *sum = times_x(*sum);
    }
}

// x times acc, and a row added.
pub fn multiply_x_add(row: &[u8], acc: &mut [u8])
    requires { length row.now ≡ length acc.old }
    ensures { acc.new ≡ lanewise (λ t y. bit_xor (times_x y) (slice_index row.now t)) acc.old }
{
    for (t, sum) in acc.iter_mut().enumerate() {
        *sum = times_x(*sum) ^ row[t];
    }
}

// A row added to acc.
pub fn add(row: &[u8], acc: &mut [u8])
    requires { length row.now ≡ length acc.old }
    ensures { acc.new ≡ lanewise (λ t y. bit_xor y (slice_index row.now t)) acc.old }
{
    for (t, sum) in acc.iter_mut().enumerate() {
        *sum ^= row[t];
    }
}

// Two rows added to acc in one pass.
pub fn add_two(a: &[u8], b: &[u8], acc: &mut [u8])
    requires { (length a.now ≡ length acc.old) × (length b.now ≡ length acc.old) }
    ensures { acc.new ≡ lanewise (λ t y. bit_xor (bit_xor y (slice_index a.now t)) (slice_index b.now t)) acc.old }
{
    for (t, sum) in acc.iter_mut().enumerate() {
        *sum = *sum ^ a[t] ^ b[t];
    }
}

// x times acc, and two rows added.
pub fn multiply_x_add_two(a: &[u8], b: &[u8], acc: &mut [u8])
    requires { (length a.now ≡ length acc.old) × (length b.now ≡ length acc.old) }
    ensures { acc.new ≡ lanewise (λ t y. bit_xor (bit_xor (times_x y) (slice_index a.now t)) (slice_index b.now t)) acc.old }
{
    for (t, sum) in acc.iter_mut().enumerate() {
        *sum = times_x(*sum) ^ a[t] ^ b[t];
    }
}

// x times a byte, with no branch.
pub fn times_x(a: u8) -> u8
    ensures { result ≡ times_x a }
{
    (a << 1) ^ times_digit(0x1D, a >> 7)
}

// a where the digit is 1, and 0 where it is 0: the digit as a mask of eight digits.
pub fn times_digit(a: u8, digit: u8) -> u8
    requires { digit < 2 }
    ensures { result ≡ a * digit }
{
    a & 0u8.wrapping_sub(digit)
}
