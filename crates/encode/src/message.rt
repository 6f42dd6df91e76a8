// A message, and the generator that encodes it. The width stands beside the code that gives it: what loops do is stated in it, and nothing is
// rewritten there (docs/PROOF-NOTES.md). The buffer for the shares is lent to each function, so its length, `share_bytes`, stands in their
// clauses: no field of a message can hold it.
ghost use Rattle.encode.specs.Inner.Columns.{MessageBytes};

use plan::Generator;
use symbols::Width;

// Its symbols are that wide, and stand row after row.
#[derive(Clone, Copy)]
pub struct Message<'a> {
    pub generator: &'a Generator<'a>,
    pub width: Width,
    pub lanes: usize,
    pub bytes: &'a [u8],
    ghost rows: { MessageBytes generator.now.codec.code.header width.bytes lanes bytes.now },
}
