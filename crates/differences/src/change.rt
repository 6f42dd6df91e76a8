// A change of one row of a message.
ghost use Rattle.std.specs.Prelude.{◌≡◌, ◌<◌};
ghost use Rattle.generator.specs.Records.{width};
ghost use Rattle.refusals.specs.Inner.Accepted.{SymbolBytes};

use plan::Generator;

// The row of that symbol before and after, in so many lanes.
#[derive(Clone, Copy)]
pub struct Change<'a> {
    pub generator: &'a Generator<'a>,
    pub lanes: usize,
    pub symbol: usize,
    pub old: &'a [u8],
    pub new: &'a [u8],
    ghost row: { symbol < generator.now.codec.code.header.k },
    ghost old_row: { let h = generator.now.codec.code.header in SymbolBytes h (width h) 1 lanes old.now },
    ghost new_row: { let h = generator.now.codec.code.header in SymbolBytes h (width h) 1 lanes new.now },
}
