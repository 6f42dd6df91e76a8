// Check sums of one lane, all of them at once: the rows are the nodes' powers of the root, a row's lanes the exponents, and the
// lane's symbols are the weights.
ghost use Rattle.std.specs.Prelude.{◌≡◌, true, ◌+◌, ◌-◌, ◌*◌, ◌/◌, ◌%◌, ◌≤◌, ◌<◌, length};
ghost use Rattle.lists.specs.Numbers.{all_below};
ghost use Rattle.lists.specs.Padded.{padded};
ghost use Rattle.layout.specs.Width.{bytes_of};
ghost use Rattle.generator.specs.Records.{size, width};
ghost use Rattle.generator.specs.Codewords.{is_word};
ghost use Rattle.check_sums.specs.Inner.Sums.{check_sums, power_bytes, power_rows};

use crate::powers::{self, RootPowers};
use generator::{Code, Codec};

// The place of the next power: (i + step) modulo n. The three are added and compared as one type: `n: u8`, which would say n ≤ 255, would be cast
// here, and i and step would keep their clauses.
pub fn stepped(i: usize, step: usize, n: usize) -> usize
    requires { (i < n) × (step < n) × (n ≤ 255) }
    ensures { result ≡ (i + step) % n }
{
    let next = i + step;
    if next < n { next } else { next - n }
}

impl RootPowers<'_> {
    // Byte v of the w bytes of node j's factors in check sums 1, 2, .. The width w stands beside the code that gives it: the caller's loop counts
    // by it, and rows are stated in it (docs/PROOF-NOTES.md).
    fn fill_row(self, w: usize, v: usize, j: usize, row: &mut [u8])
        requires { (w ≡ width self.codec.code.header) × (v < w) × (j < self.codec.code.header.n) }
        ensures { row.new ≡ power_bytes self.entry.codec.code.header (length row.old) w v j }
    {
        let h = self.codec.code.header;
        let powers = self.list;
        let n = h.n as usize;
        // Byte v of the last w of the two.
        let place = v + 2 - w;
        let mut i = j;
        for byte in row.iter_mut() {
            *byte = powers[i].to_be_bytes()[place];
            i = stepped(i, j, n);
        }
    }
}

// The rows of all nodes. Each is cut by its place: after `chunks_mut` a proof knows the length alone (docs/PROOF-NOTES.md).
pub fn fill_power_rows(code: Code, rows: &mut [u8])
    requires { length rows.old ≡ width code.header * code.header.n * (code.header.n - code.header.k) }
    ensures { rows.new ≡ power_rows code.header }
{
    let h = code.header;
    let w = symbols::width_of(h).bytes;
    let count = w * h.n as usize;
    let checks = code.checks();
    let tables = field::constant_tables();
    let codec = Codec::new(code, &tables);
    let list = powers::powers(codec);
    let powers = RootPowers { codec, list: &list };
    for i in 0..count {
        let start = i * checks;
        let end = start + checks;
        powers.fill_row(w, i % w, i / w, &mut rows[start..end]);
    }
}

// Room for the rows of powers of every code.
pub const ROOM: usize = 130050;

// A code and the rows of powers by which the check sums of its lanes are made.
#[derive(Clone, Copy)]
pub struct PowerRows<'a> {
    pub code: Code,
    pub rows: &'a [u8],
    pub ghost made: { rows.now ≡ power_rows code.header },
}

impl<'a> PowerRows<'a> {
    // Made in lent room: as the result of a call they would be copied.
    pub fn new(code: Code, room: &'a mut [u8; ROOM]) -> PowerRows<'a>
        ensures { result.code ≡ code }
    {
        let h = code.header;
        let size = symbols::width_of(h).bytes * h.n as usize * code.checks();
        let rows = &mut room[..size];
        fill_power_rows(code, rows);
        PowerRows { code, rows }
    }
}

// A lane that was received: n symbols of the code, with the rows of powers by which its check sums are made.
#[derive(Clone, Copy)]
pub struct Lane<'r, 'l> {
    pub rows: PowerRows<'r>,
    pub symbols: &'l [u16],
    pub ghost long: { length symbols.now ≡ rows.code.header.n },
    pub ghost below: { all_below (size rows.code.header) symbols.now ≡ true },
}

impl Lane<'_, '_> {
    // The check sums as bytes.
    fn fill_sums(self, sums: &mut [u8])
        requires { let h = self.rows.code.header in length sums.old ≡ width h * (h.n - h.k) }
        ensures { let h = self.entry.rows.code.header in sums.new ≡ bytes_of (width h) (check_sums h self.entry.symbols.now) }
    {
        let code = self.rows.code;
        let checks = code.checks();
        row_sums::combine_symbols(
            code.header.field,
            self.symbols,
            checks,
            self.rows.rows,
            sums,
        );
    }

    // The check sums, and zeros after them.
    // An array with zeros after: it is as long as the code's n − k says, so no length stands beside it.
    pub fn sums(self) -> [u16; 255]
        ensures { result ≡ padded 255 (check_sums self.entry.rows.code.header self.entry.symbols.now) }
    {
        let code = self.rows.code;
        let w = symbols::width_of(code.header);
        let size = w.bytes * code.checks();
        let mut room = [0u8; 510];
        let sums = &mut room[..size];
        self.fill_sums(sums);
        w.read_symbols(sums)
    }

    // Whether the lane is a word of the code.
    pub fn is_word(self) -> bool
        ensures { result ≡ is_word self.entry.rows.code.header self.entry.symbols.now }
    {
        let checks = self.rows.code.checks();
        let found = self.sums();
        all_zero(&found[..checks])
    }
}

// Whether every sum is 0.
pub fn all_zero(sums: &[u16]) -> bool
    ensures { result ≡ all_below 1 sums.now }
{
    sums.iter().all(|sum| *sum == 0)
}
