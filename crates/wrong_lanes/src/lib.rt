// Which lanes of a block are no words of the code: the smallest of them, by the marks of all lanes.
#![tactic(auto)]

ghost use Rattle.std.specs.Prelude.{◌≡◌, ◌<◌, MatchOption};
ghost use Rattle.layout.specs.Layout.{share_layout};
ghost use Rattle.layout.specs.Width.{symbols_of};
ghost use Rattle.generator.specs.Records.{width};
ghost use Rattle.refusals.specs.Accepted.{SymbolBuffer};
ghost use Rattle.blocks.specs.Blocks.{first_wrong};

use generator::Code;

pub mod check_rows;
mod marks;

// So many lanes of shares, which hold symbols of the code's field.
#[derive(Clone, Copy)]
pub struct Block<'a> {
    pub code: Code,
    pub lanes: usize,
    pub shares: &'a [u8],
    pub ghost symbols: { SymbolBuffer code.header code.header.n lanes shares.now },
}

impl Block<'_> {
    // The smallest lane that is no word of the code, if there is one.
    pub fn first_wrong(self) -> Option<usize>
        ensures { let b = self.entry in let wrong = first_wrong share_layout b.code.header b.lanes (symbols_of (width b.code.header) b.shares.now) in MatchOption result (wrong ≡ b.lanes) (λ t. (t ≡ wrong) × (t < b.lanes)) }
    {
        let mut room = [0u8; 4096];
        let marks = &mut room[..self.lanes];
        self.mark_lanes(marks);
        marks.iter().position(|mark| *mark != 0)
    }
}
