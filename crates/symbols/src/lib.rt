// Lists of symbols in a lent buffer, of one byte or of two bytes each, the high byte first.
#![tactic(auto)]

ghost use Rattle.std.specs.Prelude.{◌≡◌, true, ℕ, ◌*◌, ◌/◌, ◌^◌, ◌≤◌, ◌<◌, ltb, length};
ghost use Rattle.lists.specs.Numbers.{all_below};
ghost use Rattle.lists.specs.Padded.{padded};
ghost use Rattle.layout.specs.Width.{symbol_at, symbols_of, symbol_bytes, bytes_of};
ghost use Rattle.field.specs.Kinds.{usable};
ghost use Rattle.generator.specs.Records.{width};

use generator::Header;

// The bytes of a symbol: 1 or 2. The number is a factor of lengths and places.
#[derive(Clone, Copy)]
pub struct Width {
    pub bytes: usize,
    pub ghost some: { 1 ≤ bytes },
    pub ghost most: { bytes ≤ 2 },
}

// The width of a record's symbols. A usable field is enough: a `Code` would ask more of callers than they are asked.
pub fn width_of(h: Header) -> Width
    requires { usable h.field ≡ true }
    ensures { result.bytes ≡ width h }
{
    let field = h.field;
    Width {
        bytes: field.width(),
    }
}

impl Width {
    // Symbol i of a buffer.
    pub fn symbol_at(self, s: &[u8], i: usize) -> u16
        requires { i < length s.now / self.bytes }
        ensures { result ≡ symbol_at self.bytes s.now i }
    {
        if self.bytes == 1 {
            return s[i] as u16;
        }
        let at = i * 2;
        // Not `u16::from_be_bytes`: with it ten rows of symbols take up to twice as long to be turned.
        s[at] as u16 * 256 + s[at + 1] as u16
    }

    // Whether all symbols of a buffer are below a size, one after the other up to the first that is not; `kernel::all_below` and `pairs_below`
    // go through all of them in less time.
    pub fn symbols_below(self, size: u32, s: &[u8]) -> bool
        ensures { result ≡ all_below size (symbols_of self.bytes s.now) }
    {
        for i in 0..s.len() / self.bytes {
            if size <= self.symbol_at(s, i) as u32 {
                return false;
            }
        }
        true
    }

    // The symbols of a buffer that holds at most 255, and zeros after them.
    // An array with zeros after: the buffer tells how many symbols there are, so no length stands beside them.
    pub fn read_symbols(self, s: &[u8]) -> [u16; 255]
        requires { length s.now ≤ 255 * self.bytes }
        ensures { result ≡ padded 255 (symbols_of self.bytes s.now) }
    {
        let count = s.len() / self.bytes;
        let mut symbols: [u16; 255] = [0; 255];
        for i in 0..count {
            symbols[i] = self.symbol_at(s, i);
        }
        symbols
    }

    // One symbol as bytes.
    pub fn write_symbol(self, x: u16, out: &mut [u8])
        requires { (x < 256 ^ self.bytes) × (length out.old ≡ self.bytes) }
        ensures { out.new ≡ symbol_bytes self.bytes x }
    {
        if self.bytes == 1 {
            out[0] = x as u8;
            return;
        }
        out.copy_from_slice(&x.to_be_bytes());
    }

    // Symbols as bytes.
    pub fn write_symbols(self, symbols: &[u16], out: &mut [u8])
        requires { (all_below (256 ^ self.bytes) symbols.now ≡ true) × (length out.old ≡ length symbols.now * self.bytes) }
        ensures { out.new ≡ bytes_of self.bytes symbols.now }
    {
        for (i, symbol) in symbols.iter().enumerate() {
            let start = i * self.bytes;
            let end = start + self.bytes;
            self.write_symbol(*symbol, &mut out[start..end]);
        }
    }
}

// The largest symbol of two bytes: all of them are below m where it is. Without a branch it takes less time than a search;
// `pairs.iter().map(..).max()` takes an eighth more, with AVX2 up to a half.
fn largest_pair(s: &[u8]) -> u16
    ensures { (m : ℕ) → 0 < m → all_below m (symbols_of 2 s.now) ≡ ltb result m }
{
    let (pairs, _) = s.as_chunks::<2>();
    let mut top: u16 = 0;
    for pair in pairs {
        top = top.max(u16::from_be_bytes(*pair));
    }
    top
}

// Whether all symbols of two bytes are below a field's size.
pub fn pairs_below(size: u32, s: &[u8]) -> bool
    requires { 0 < size }
    ensures { result ≡ all_below size (symbols_of 2 s.now) }
{
    (largest_pair(s) as u32) < size
}
