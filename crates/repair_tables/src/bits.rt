// How many bits of a symbol a node sends.
ghost use Rattle.std.specs.Prelude.{◌≡◌, MatchOption};
ghost use Rattle.traces.specs.Repairs.{bits_for, bits, spare};
ghost use Rattle.repair_tables.specs.Inner.Bits.{bit_count};

use field::Field;
use generator::Code;

// The bits by which a subfield's elements are named. Nothing compares or prints them, so no more is derived: each
// derive is one more function to check.
#[derive(Clone, Copy)]
pub enum Bits {
    One = 1,
    Two = 2,
    Four = 4,
}

// By n − k less the number of missing nodes.
fn bits_for(r: usize) -> Option<Bits>
    ensures { MatchOption result (bits_for r ≡ 0) (λ b. bit_count b ≡ bits_for r) }
{
    match r {
        128.. => Some(Bits::One),
        64..=127 => Some(Bits::Two),
        16..=63 => Some(Bits::Four),
        _ => None,
    }
}

impl Bits {
    // The bits for a code, with so many nodes missing beside the target; none where there is no repair by traces.
    pub fn new(code: Code, missing: usize) -> Option<Self>
        ensures { MatchOption result (bits code.header missing ≡ 0) (λ b. bit_count b ≡ bits code.header missing) }
    {
        let r = code.checks();
        match code.header.field {
            Field::Prime(_) => None,
            Field::Binary(_) => bits_for(r.saturating_sub(missing)),
        }
    }

    // How many they are.
    pub fn count(self) -> u32
        ensures { result ≡ bit_count self }
    {
        self as u32
    }

    // How many further nodes may be missing, with as few bits.
    pub fn spare(self, code: Code, missing: usize) -> u32
        requires { bit_count self ≡ bits code.header missing }
        ensures { result ≡ spare code.header missing }
    {
        let r = code.checks();
        let needed = 1 << (8 - self.count());
        r.saturating_sub(missing).saturating_sub(needed) as u32
    }
}
