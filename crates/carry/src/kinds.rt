// What carries the bytes of a record: its symbols, as they are or as words.
ghost use Rattle.std.specs.Prelude.{◌≡◌, true, ◌+◌, ◌≤◌, length};
ghost use Rattle.lists.specs.Choice.{when};
ghost use Rattle.lists.specs.Numbers.{all_below};
ghost use Rattle.layout.specs.Width.{symbols_of};
ghost use Rattle.field.specs.Fields.{size_of};
ghost use Rattle.field.specs.Widths.{bytes_for};
ghost use Rattle.generator.specs.Records.{modulus_of};
ghost use Rattle.carrying.specs.Carrying.{carries_none, carried_bytes, bytes_back, carried_length};
ghost use Rattle.carrying.specs.Changing.{changed_bytes};
ghost use Rattle.carry.specs.Inner.Kinds.{field_of, Tested};

use crate::change::replace;
use crate::prime::WordPrime;
use field::Field;
use generator::{Code, Refusal};

#[derive(Clone, Copy)]
pub enum Carrying {
    Bytes,
    Words(WordPrime),
}

impl TryFrom<Code> for Carrying {
    type Error = Refusal;

    ghost try_from_gives = { λ code r. Tested r code.header (when (carries_none (modulus_of code.header)) 18) };

    // Number 18 over a prime with fewer than 34,816 symbols.
    fn try_from(code: Code) -> Result<Self, Refusal> {
        match code.header.field {
            Field::Binary(_) => Ok(Carrying::Bytes),
            Field::Prime(f) if f.p < 34816 => Err(Refusal::Carry),
            Field::Prime(f) => Ok(Carrying::Words(WordPrime { p: f.p })),
        }
    }
}

impl Carrying {
    // How many bytes carry n.
    pub fn carried_length(self, n: usize) -> usize
        requires { n ≤ 4611686018427387904 }
        ensures { result ≡ carried_length (field_of self) n }
    {
        match self {
            Carrying::Bytes => n,
            Carrying::Words(prime) => prime.words_length(n),
        }
    }

    // Bytes as they are carried.
    pub fn write(self, bytes: &[u8], out: &mut [u8])
        requires { length out.old ≡ carried_length (field_of self) (length bytes.now) }
        ensures { out.new ≡ carried_bytes (field_of self) bytes.now }
    {
        match self {
            Carrying::Bytes => kernel::copy(bytes, out),
            Carrying::Words(prime) => prime.close_groups(bytes, out),
        }
    }

    // The bytes that symbols carry, as many as there is room for. The step differs in each arm: one function for this and `write` would be
    // `fn pass(self, from, out, words: F)`, called with `|prime, from, out| prime.open_groups(from, out)`, and no plainer.
    pub fn read(self, symbols: &[u8], out: &mut [u8])
        requires { length symbols.now ≡ carried_length (field_of self) (length out.old) }
        ensures { out.new ≡ bytes_back (field_of self) (length out.old) symbols.now }
    {
        match self {
            Carrying::Bytes => kernel::copy(symbols, out),
            Carrying::Words(prime) => prime.open_groups(symbols, out),
        }
    }

    // A part of n bytes changed where symbols carry them.
    pub fn change(self, n: usize, at: usize, bytes: &[u8], symbols: &mut [u8])
        requires { (length symbols.old ≡ carried_length (field_of self) n) × (at + length bytes.now ≤ n) × (all_below (size_of (field_of self)) (symbols_of (bytes_for (field_of self)) symbols.old) ≡ true) }
        ensures { symbols.new ≡ changed_bytes (field_of self) at bytes.now symbols.old }
    {
        match self {
            Carrying::Bytes => replace(at, bytes, symbols),
            Carrying::Words(prime) => prime.change_groups(at, bytes, symbols),
        }
    }
}
