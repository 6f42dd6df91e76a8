// The logarithms, each found among the powers of 2.
ghost use Rattle.std.specs.Prelude.{◌≡◌, ◌+◌, ◌≤◌};
ghost use Rattle.text.specs.Inner.Writer.{room, Writes};
ghost use Rattle.tables.specs.Tables.{logarithm_lines};

use crate::powers::{Powers, write_line};
use text::Writer;

// The logarithms of 1 to 255.
#[tactic(auto, using(text::proofs::Written::writing_start, text::proofs::Written::writing_row), unfolding(crate::specs::Tables::logarithm_lines))]
pub fn write_logarithms(writer: &mut Writer, powers: &Powers)
    requires { 1530 ≤ room writer.old }
    ensures { Writes writer.old writer.new logarithm_lines }
{
    for a in 1..256 {
        write_line(writer, powers.logarithm(a));
    }
}
