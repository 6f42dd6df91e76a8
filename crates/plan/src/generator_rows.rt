// The generator of a code: all that its entries are read from.
ghost use Rattle.std.specs.Prelude.{◌≡◌, ◌<◌};
ghost use Rattle.generator.specs.Generator.{entry};
ghost use Rattle.plan.specs.Inner.Planned.{Planned};

use crate::{base, entries};
use field::Tables;
use generator::{Code, Codec};

// The code with the arithmetic of its field, the shifts of its rows, and its base word, with zeros after them.
#[derive(Clone, Copy)]
pub struct Generator<'t> {
    pub codec: Codec<'t>,
    pub shifts: [u8; 255],
    pub base: [u16; 255],
    ghost planned: { Planned codec.code.header shifts base },
}

impl<'t> Generator<'t> {
    #[tactic(auto, unfolding(crate::specs::Plans::plan_of))]
    pub fn new(code: Code, tables: &'t Tables) -> Self
        ensures { result.codec.code ≡ code }
    {
        let codec = Codec::new(code, tables);
        let shifts = shifts::shifts_of(code.dimensions());
        let base = base::base_word(codec);
        Self {
            codec,
            shifts,
            base,
        }
    }

    // Entry (r, j): the base word at (j + shift of row r) modulo n.
    pub fn entry(&self, r: usize, j: usize) -> u16
        requires { (r < self.now.codec.code.header.k) × (j < self.now.codec.code.header.n) }
        ensures { result ≡ entry self.now.codec.code.header r j }
    {
        let n = self.codec.code.header.n as usize;
        entries::entry_at(n, self.shifts[r] as usize, &self.base, j)
    }
}
