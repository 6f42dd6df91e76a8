// The first words of a call on a block.
ghost use Rattle.std.specs.Prelude.{◌≤◌, IfOk};
ghost use Rattle.arrayvec.specs.ArrayVec.{array_vec_len};

use arrayvec::ArrayVec;
use test_words::{BareFault, BareWords};

// The record and the number of lanes.
pub fn block(words: &mut BareWords) -> Result<(ArrayVec<u8, 64>, u32), BareFault>
    ensures { IfOk result (λ block. array_vec_len block.0 ≤ 64) }
{
    let record = words.record()?;
    let lanes = words.number("lanes")?;
    Ok((record, lanes))
}
