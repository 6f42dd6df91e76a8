// Both tables as text.
ghost use Rattle.std.specs.Prelude.{◌≡◌, length};
ghost use Rattle.text.specs.Writing.{OnPage};
ghost use Rattle.tables.specs.Tables.{tables_text};

use crate::logarithms::write_logarithms;
use crate::powers::Powers;
use text::Writer;

// Writes the tables at the front of a page, and gives their length (and no slice: see `written` of `Writer`). The page is lent, as
// each text's is.
pub fn tables(out: &mut [u8; 3060]) -> usize
    ensures { OnPage out.old out.new result tables_text }
{
    let powers = Powers::default();
    let mut writer = Writer::new(out);
    powers.write(&mut writer);
    write_logarithms(&mut writer, &powers);
    writer.written()
}
