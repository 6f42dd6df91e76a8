// Squares of 16 by 16 bytes, turned by four shuffles.
ghost use Rattle.std.specs.Prelude.{◌≡◌, ◌+◌, ◌*◌, ◌≤◌, length};
ghost use Rattle.tiles.specs.Inner.Squares.{shuffled, turned, square_at, Squared};

use std::simd::prelude::*;

type Square = [u8; 256];

// Two halves of 128 bytes interleaved: byte i of the first goes to 2·i, of the second to 2·i + 1.
fn shuffle(x: &Square, y: &mut Square)
    ensures { y.new ≡ shuffled x.now }
{
    for i in 0..128 {
        y[2 * i] = x[i];
        y[2 * i + 1] = x[128 + i];
    }
}

// Four shuffles are the transposition of a square of 16.
fn turn(x: &Square, out: &mut Square)
    ensures { out.new ≡ turned x.now }
{
    let mut a = kernel::filled(0);
    let mut b = kernel::filled(0);
    shuffle(x, &mut a);
    shuffle(&a, &mut b);
    shuffle(&b, &mut a);
    shuffle(&a, out);
}

// 16 bytes of each of 16 rows that stand `width` apart, from byte `first` of each on; of shorter rows they go on into the next ones.
fn take_square(width: usize, first: usize, rows: &[u8], a: &mut Square)
    requires { 15 * width + first + 16 ≤ length rows.now }
    ensures { a.new ≡ square_at width first rows.now }
{
    for i in 0..16 {
        let row = u8x16::from_slice(&rows[i * width + first..]);
        row.copy_to_slice(&mut a[i * 16..]);
    }
}

// And back: what goes beyond a row is written over by the next one.
fn put_square(a: &Square, width: usize, first: usize, rows: &mut [u8])
    requires { 15 * width + first + 16 ≤ length rows.old }
    ensures { Squared width 16 a.now first rows.old rows.new }
{
    for i in 0..16 {
        let row = u8x16::from_slice(&a[i * 16..]);
        row.copy_to_slice(&mut rows[i * width + first..]);
    }
}

// A square of 16 rows, from byte `first` of each on, turned and put into 16 other rows, from byte `at` of each on.
pub fn turn_square(width: usize, first: usize, rows: &[u8], to: usize, at: usize, out: &mut [u8])
    requires { (15 * width + first + 16 ≤ length rows.now) × (15 * to + at + 16 ≤ length out.old) }
    ensures { Squared to 16 (turned (square_at width first rows.now)) at out.old out.new }
{
    let mut a = kernel::filled(0);
    let mut b = kernel::filled(0);
    take_square(width, first, rows, &mut a);
    turn(&a, &mut b);
    put_square(&b, to, at, out);
}
