// Bytes of standard input, put into a buffer that the caller lends; and the one step of a program that answers a record there.
#![tactic(auto)]

ghost use Rattle.std.specs.Prelude.{ℕ, ◌≤◌, length, IfOk};

use std::convert::AsSlice;
use std::io;
use std::io::{Print, Read};

// Reads until buf is full or the input ends, and returns how many bytes it put at the start of buf. A read that fails ends it with the
// error.
pub fn read_full(rt: &impl Input, buf: &mut [u8]) -> io::Result<usize>
    ensures { IfOk result (λ n. n ≤ length buf.new) }
{
    let mut reader = rt.reader();
    let mut done = 0;
    for _ in 0..u64::MAX {
        if done == buf.len() {
            break;
        }
        let n = reader.read(&mut buf[done..])?;
        if n == 0 {
            break;
        }
        done += n;
    }
    Ok(done)
}

// Reads a record from standard input, and prints the text that `write` puts on a page that is lent. At most eight bytes are taken: a longer
// record meets number 2.
pub fn answer<P: AsSlice<u8>, F: FnOnce(&[u8], &mut P) -> usize>(
    rt: &(impl Input + Print),
    page: &mut P,
    write: F,
) -> io::Result<()>
    requires callable { F.IsAlwaysCallable write }
    requires inside { (rec before : _) (end : ℕ) (after : _) → F.post write rec before end after → end ≤ length (P.items after.now) }
{
    let mut rec = [0; 8];
    let size = read_full(rt, &mut rec)?;
    print_text(rt, &rec[..size], page, write)
}

// Lets `write` put the text of a record, or what turns it away, at the front of a page that is lent, and prints what it wrote.
pub fn print_text<P: AsSlice<u8>, F: FnOnce(&[u8], &mut P) -> usize>(
    rt: &impl Print,
    rec: &[u8],
    page: &mut P,
    write: F,
) -> io::Result<()>
    requires callable { F.IsAlwaysCallable write }
    requires inside { (rec before : _) (end : ℕ) (after : _) → F.post write rec before end after → end ≤ length (P.items after.now) }
{
    let end = write(rec, page);
    let bytes: &[u8] = P::as_slice(page);
    rt.write_all(&bytes[..end])
}
