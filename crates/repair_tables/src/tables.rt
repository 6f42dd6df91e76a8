// Tables for one target: of one node's digits, and of all senders' weights.
ghost use Rattle.std.specs.Prelude.{◌≡◌, true, ◌<◌, ◌*◌, ◌/◌, ◌%◌, ◌^◌, ◌≤◌, length, get_or};
ghost use Rattle.std.specs.Int.Bits.{bit_xor};
ghost use Rattle.lists.specs.Rows.{from};
ghost use Rattle.lists.specs.Numbers.{all_below};
ghost use Rattle.lists.specs.Padded.{padded};
ghost use Rattle.field.specs.Fields.{mul};
ghost use Rattle.generator.specs.Records.{modulus_of};
ghost use Rattle.traces.specs.Traces.{trace_of};
ghost use Rattle.traces.specs.Repairs.{senders, sent_digit};
ghost use Rattle.repair_tables.specs.Inner.Bits.{bit_count};
ghost use Rattle.repair_tables.specs.Inner.Weights.{bit_weight};

use crate::nodes::Target;
use crate::senders::list_senders;
use check_sums::powers::{self, RootPowers};
use std::array;

// The sums of two rows of 16: of the entry for the lower four bits and the entry for the upper four.
fn sums(low: &[u8; 16], high: &[u8; 16]) -> [u8; 256]
    ensures { result ≡ from (λ x. bit_xor (get_or low.now (x % 16) 0) (get_or high.now (x / 16) 0)) 0 256 }
{
    array::from_fn(|x| low[x % 16] ^ high[x / 16])
}

impl Target<'_, '_> {
    // The trace of a product, by its lowest bits.
    fn low_trace(self, f: u32, x: u32) -> u8
        requires { (f < 256) × (x < 256) }
        ensures { result ≡ trace_of (bit_count self.entry.bits) (mul (modulus_of self.entry.codec.code.header) f x) % 2 ^ bit_count self.entry.bits }
    {
        let y = self.codec.field.mul(f, x);
        let t = self.bits.trace(self.codec.field.tables, y);
        (t % (1 << self.bits.count())) as u8
    }

    // The digits of the multiples of `step`, 1 or 16.
    fn sixteen(self, f: u32, step: u32) -> [u8; 16]
        requires { (f < 256) × (step ≤ 16) }
        ensures { result ≡ from (λ i. trace_of (bit_count self.entry.bits) (mul (modulus_of self.entry.codec.code.header) f (i * step)) % 2 ^ bit_count self.entry.bits) 0 16 }
    {
        array::from_fn(|i| self.low_trace(f, i as u32 * step))
    }

    // The weight of bit q of all senders' digits.
    fn weight(self, powers: RootPowers, senders: &[u8], q: usize) -> u8
        requires { (powers.codec.code ≡ self.codec.code) × (all_below self.codec.code.header.n senders.now ≡ true) × (q < length senders.now * bit_count self.bits) }
        ensures { result ≡ bit_weight self.entry.codec.code.header (bit_count self.entry.bits) self.entry.node senders.now q }
    {
        let b = self.bits.count() as usize;
        let node = senders[q / b] as usize;
        let y = self.offset_from(powers, node);
        let e = self.bits.element(1 << (q % b));
        self.codec.field.mul(y, e) as u8
    }

    // The weights of the bits of all senders' digits, with zeros after the last.
    // An array with zeros after: there is a weight for each bit, so no length stands beside it.
    fn list_weights(self, senders: &[u8]) -> [u8; 1020]
        requires { (all_below self.codec.code.header.n senders.now ≡ true) × (length senders.now ≤ 255) }
        ensures { result ≡ padded 1020 (from (bit_weight self.entry.codec.code.header (bit_count self.entry.bits) self.entry.node senders.now) 0 (length senders.now * bit_count self.entry.bits)) }
    {
        let list = powers::powers(self.codec);
        let powers = RootPowers {
            codec: self.codec,
            list: &list,
        };
        let count = senders.len() * self.bits.count() as usize;
        let mut table = [0u8; 1020];
        for q in 0..count {
            table[q] = self.weight(powers, senders, q);
        }
        table
    }

    // The digit that a node sends for each symbol.
    pub fn sent_digits(self, node: u32) -> [u8; 256]
        requires { node < self.codec.code.header.n }
        ensures { result ≡ from (sent_digit self.entry.codec.code.header self.entry.node self.entry.missing.now node) 0 256 }
    {
        let f = self.factor(node);
        let low = self.sixteen(f, 1);
        let high = self.sixteen(f, 16);
        sums(&low, &high)
    }

    // The weights of the nodes that send.
    pub fn weights(self) -> [u8; 1020]
        ensures { let h = self.entry.codec.code.header in let b = bit_count self.entry.bits in let js = senders h self.entry.node self.entry.missing.now in result ≡ padded 1020 (from (bit_weight h b self.entry.node js) 0 (length js * b)) }
    {
        let n = self.codec.code.header.n;
        let nodes = list_senders(n, self.node, self.missing);
        self.list_weights(nodes.as_slice())
    }
}
