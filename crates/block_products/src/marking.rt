// Marks of the lanes of a tile: 1 where a row's byte is not 0.
ghost use Rattle.std.specs.Prelude.{◌≡◌, ◌+◌, ◌*◌, ◌≤◌, eqb, length, get_or};
ghost use Rattle.lists.specs.Choice.{pick};
ghost use Rattle.kernel.specs.Inner.Lanes.{lanewise};
ghost use Rattle.block_products.specs.Inner.Marks.{zero_marks};

// The mark of a lane after one byte more. A mark is a byte, since the sums of every way are written to lent bytes.
fn marked(sum: u8, mark: u8) -> u8
    ensures { result ≡ pick (eqb sum 0) mark 1 }
{
    if sum == 0 { mark } else { 1 }
}

fn add_marks(sums: &[u8], marks: &mut [u8])
    requires { length marks.old ≤ length sums.now }
    ensures { marks.new ≡ lanewise (λ t y. pick (eqb (get_or sums.now t 0) 0) y 1) marks.old }
{
    for (t, mark) in marks.iter_mut().enumerate() {
        *mark = marked(sums[t], *mark);
    }
}

// The marks of lanes from so many rows of bytes.
pub fn mark_rows(rows: usize, words: &[u8], marks: &mut [u8])
    requires few { length marks.old ≤ 64 }
    requires words_long { rows * 64 ≤ length words.now }
    ensures { marks.new ≡ zero_marks rows (length marks.old) (λ i t. get_or words.now (i * 64 + t) 0) }
{
    marks.fill(0);
    for row in words[..rows * 64].chunks(64) {
        add_marks(row, marks);
    }
}
