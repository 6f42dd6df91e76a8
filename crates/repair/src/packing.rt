// Bits packed into planes, and digits into planes of their bits.
ghost use Rattle.std.specs.Prelude.{ℕ, ◌≡◌, ◌≤◌, ◌<◌, ◌*◌, ◌/◌, ◌%◌, ◌^◌, length, get_or};
ghost use Rattle.lists.specs.Rows.{from};
ghost use Rattle.kernel.specs.Inner.Lanes.{lanewise};
ghost use Rattle.repair_tables.specs.Inner.Bits.{bit_count};
ghost use Rattle.repair.specs.Inner.Lanes.{lane_bit};
ghost use Rattle.repair.specs.Packing.{plane_size, packed_size, byte_from, within, planes};

use repair_tables::Bits;
use std::array;

// How many bytes a plane of a bit for each lane takes.
pub fn plane_size(lanes: usize) -> usize
    requires { lanes ≤ 4294967295 }
    ensures { result ≡ plane_size lanes }
{
    lanes.div_ceil(8)
}

// How many bytes a digit for each lane takes.
pub fn packed_size(b: Bits, lanes: usize) -> usize
    requires { lanes ≤ 4294967295 }
    ensures { result ≡ packed_size (bit_count b) lanes }
{
    b.count() as usize * plane_size(lanes)
}

// A bit of a byte.
#[derive(Clone, Copy)]
pub struct Bit {
    pub place: u32,
    pub ghost of_byte: { place < 8 },
}

impl Bit {
    // The bit of one byte.
    pub fn of(self, byte: u8) -> u32
        ensures value { result ≡ byte / 2 ^ self.place % 2 }
        ensures digit { result < 2 }
    {
        (byte as u32 >> self.place) % 2
    }
}

// The byte of the bits of up to 8 lanes, with zeros after the last; `bits` has the bit of each symbol. The same loop as in `gather`:
// `byte_of(|z| bits[lanes[z] as usize])` would be a line in both, and `byte_of<F: Fn(usize) -> u32>` this loop once more, with a bound and with
// clauses of what F asks and gives. The lanes are read by their places, which number the bits from the front (interpolation/src/lib.rt).
fn byte(bits: &[u8; 256], lanes: &[u8]) -> u8
    requires { (length lanes.now ≤ 8) × ((x : ℕ) → get_or bits.now x 0 < 2) }
    ensures { result ≡ byte_from 8 (within (length lanes.now) (λ z. get_or bits.now (get_or lanes.now z 0) 0)) 0 }
{
    let mut x: u32 = 0;
    for z in (0..lanes.len()).rev() {
        x = bits[lanes[z] as usize] as u32 + 2 * x;
    }
    x as u8
}

// The digits of a share's symbols, by the table of all 256.
#[derive(Clone, Copy)]
pub struct Digits<'a> {
    pub table: &'a [u8; 256],
    pub share: &'a [u8],
    pub ghost whole: { length table.now ≡ 256 },
}

impl Digits<'_> {
    // One bit of each digit of the table. With it a lane takes one look-up; with the shift of each digit all lanes take half as long again.
    fn bits(self, bit: Bit) -> [u8; 256]
        ensures { result ≡ from (λ x. get_or self.entry.table.now x 0 / 2 ^ bit.place % 2) 0 256 }
    {
        array::from_fn(|x| bit.of(self.table[x]) as u8)
    }

    // The plane of one bit: a byte for each eight lanes, and one for the rest. Where each lane is asked whether the share has it, it takes three
    // times as long.
    fn pack_plane(self, bit: Bit, out: &mut [u8])
        requires { (length self.share.now ≤ 4096) × (length out.old ≡ plane_size (length self.share.now)) }
        ensures { out.new ≡ lanewise (λ c y. byte_from 8 (lane_bit bit.place self.entry.table.now self.entry.share.now) (c * 8)) out.old }
    {
        let bits = self.bits(bit);
        let (eights, rest) = self.share.as_chunks::<8>();
        for (c, lanes) in eights.iter().enumerate() {
            out[c] = byte(&bits, lanes);
        }
        if !rest.is_empty() {
            out[eights.len()] = byte(&bits, rest);
        }
    }

    // The planes of all b bits. Each is cut by its place: after `chunks_mut` a proof knows the length alone (docs/PROOF-NOTES.md).
    pub fn pack(self, b: Bits, out: &mut [u8])
        requires { (length self.share.now ≤ 4096) × (length out.old ≡ packed_size (bit_count b) (length self.share.now)) }
        ensures { out.new ≡ planes (bit_count b) (length self.entry.share.now) (λ i. get_or self.entry.table.now (get_or self.entry.share.now i 0) 0) }
    {
        let count = b.count() as usize;
        let size = plane_size(self.share.len());
        for e in 0..count {
            let start = e * size;
            let end = start + size;
            self.pack_plane(Bit { place: e as u32 }, &mut out[start..end]);
        }
    }
}
