// The condition of number 11 on a number, on a buffer, on the lanes of a buffer one after the other, and on one lane. Here and in the other
// files a usable field is enough: a `Code` would ask more of callers than they are asked.
ghost use Rattle.std.specs.Prelude.{◌≡◌, true, ◌*◌, ◌<◌, length};
ghost use Rattle.layout.specs.Layout.{share_layout};
ghost use Rattle.field.specs.Kinds.{usable};
ghost use Rattle.generator.specs.Records.{width};
ghost use Rattle.refusals.specs.Conditions.{symbol_bad, symbols_bad, lane_bad};

use generator::Header;

// A number that is no symbol.
pub fn symbol_bad(h: Header, x: u32) -> bool
    requires { usable h.field ≡ true }
    ensures { result ≡ symbol_bad h x }
{
    h.field.size() <= x
}

// A buffer that holds a number that is no symbol.
pub fn symbols_bad(h: Header, s: &[u8]) -> bool
    requires { usable h.field ≡ true }
    ensures { result ≡ symbols_bad h s.now }
{
    let field = h.field;
    let size = field.size();
    if field.width() == 1 {
        return !kernel::all_below(size, s);
    }
    !symbols::pairs_below(size, s)
}

// The same for the shares of some nodes, lane by lane: each lane is handed on as the part from its start to the next one's, which was asked
// for (docs/CLAIMS.md, "Forms of the code").
pub fn shares_bad(h: Header, nodes: u8, lanes: usize, shares: &[u8]) -> bool
    requires { (usable h.field ≡ true) × (length shares.now ≡ nodes * lanes * width h) }
    ensures { result ≡ symbols_bad h shares.now }
{
    let w = symbols::width_of(h);
    let size = nodes as usize * w.bytes;
    for lane in 0..lanes {
        let start = lane * size;
        let end = start + size;
        if symbols_bad(h, &shares[start..end]) {
            return true;
        }
    }
    false
}

// A number of one lane that is no symbol: the lane is handed on likewise, and no other byte is read.
pub fn lane_bad(h: Header, lanes: usize, lane: usize, shares: &[u8]) -> bool
    requires { (usable h.field ≡ true) × (lane < lanes) × (length shares.now ≡ h.n * lanes * width h) }
    ensures { result ≡ lane_bad share_layout h lanes lane shares.now }
{
    let w = symbols::width_of(h);
    let size = w.bytes * h.n as usize;
    let start = lane * size;
    let end = start + size;
    symbols_bad(h, &shares[start..end])
}
