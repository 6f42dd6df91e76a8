// The powers of 2, each from the one before it.
ghost use Rattle.std.specs.Prelude.{◌≡◌, ◌+◌, ◌≤◌, ◌<◌};
ghost use Rattle.lists.specs.Rows.{from};
ghost use Rattle.field.specs.Bytes.{times_x};
ghost use Rattle.field.specs.Fields.{power};
ghost use Rattle.text.specs.Inner.Writer.{room, Writes};
ghost use Rattle.tables.specs.Tables.{number_line, power_lines, logarithm_of};

use text::Writer;

// The next power of 2: shifted, and 0x11D taken away where the eighth power of x appears.
#[tactic(auto, using(field::proofs::ByteSteps::times_x_low, field::proofs::ByteSteps::times_x_high))]
fn next(x: u16) -> u16
    requires { x < 256 }
    ensures { result ≡ times_x x }
{
    let shifted = x * 2;
    if shifted < 256 {
        shifted
    } else {
        shifted ^ 0x11D
    }
}

// A number and a line feed.
pub fn write_line(writer: &mut Writer, x: u16)
    requires { 6 ≤ room writer.old }
    ensures text { Writes writer.old writer.new (number_line x) }
    ensures room { room writer.old ≤ room writer.new + 6 }
{
    writer.number(x);
    writer.byte(b'\n');
}

// The powers from exponent 0 to 254.
#[derive(Drop)]
pub struct Powers {
    powers: [u16; 255],
    ghost each: { powers ≡ from (power 0 2) 0 255 },
}

impl Default for Powers {
    #[tactic(auto, using(lists::proofs::Parts::from_at, crate::proofs::TwoPowers::power_byte), unfolding(field::specs::Fields::power))]
    fn default() -> Self {
        let mut powers = [1; 255];
        for e in 1..255 {
            powers[e] = next(powers[e - 1]);
        }
        Powers { powers }
    }
}

impl Powers {
    // The exponent at which the powers come to a, or 255: no Option, for a line holds a number, and that each a from 1 to 255 has an exponent
    // need then not be proved (`logarithm_of`).
    pub fn logarithm(&self, a: u16) -> u16
        ensures value { result ≡ logarithm_of a }
        ensures bound { result < 256 }
    {
        self.powers
            .iter()
            .position(|power| *power == a)
            .unwrap_or(255) as u16
    }

    // The powers, a line for each.
    #[tactic(auto, using(lists::proofs::Rows::get_or_from, text::proofs::Written::writing_start, text::proofs::Written::writing_row, crate::proofs::TwoPowers::power_line), unfolding(crate::specs::Tables::power_lines))]
    pub fn write(&self, writer: &mut Writer)
        requires { 1530 ≤ room writer.old }
        ensures text { Writes writer.old writer.new power_lines }
        ensures room { room writer.old ≤ room writer.new + 1530 }
    {
        for power in &self.powers {
            write_line(writer, *power);
        }
    }
}
