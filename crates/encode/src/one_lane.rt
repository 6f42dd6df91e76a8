// Lane by lane, with the base word as it stands in the plan: a lane's symbols are placed at their rows' shifts, two times round, and what
// node j holds is the sum of the base word's entries times the symbols from place −j on. No row is copied.
ghost use Rattle.std.specs.Prelude.{◌≡◌, true, ◌*◌, ◌<◌, length, take};
ghost use Rattle.lists.specs.Numbers.{all_below};
ghost use Rattle.lists.specs.Padded.{zeros, padded};
ghost use Rattle.layout.specs.Layout.{row_after_row, lane_of};
ghost use Rattle.layout.specs.Width.{bytes_of};
ghost use Rattle.generator.specs.Records.{modulus_of, size, distance};
ghost use Rattle.generator.specs.Codewords.{encoding};
ghost use Rattle.sliding_sums.specs.Inner.Windows.{window_sums};
ghost use Rattle.encode.specs.Inner.OneLane.{placed_from, by_node};
ghost use Rattle.encode.specs.Inner.Encoded.{record_header, message_symbols, share_bytes, encoded};

use crate::message::Message;
use generator::Header;
use plan::Generator;

// The symbols at the places of their rows' shifts, two times round, and zeros elsewhere.
#[tactic(auto, using(lists::proofs::Front::drop_next, plan::proofs::Plans::shift_below), unfolding(lists::specs::Padded::zeros, crate::specs::Inner::OneLane::placed_from))]
fn placed(generator: &Generator, symbols: &[u16]) -> [u16; 510]
    requires { length symbols.now ≡ generator.now.codec.code.header.k }
    ensures { result ≡ placed_from generator.now.codec.code.header.n 0 generator.now.shifts symbols.now (zeros 510) }
{
    let n = generator.codec.code.header.n as usize;
    let mut out = [0u16; 510];
    for (r, symbol) in symbols.iter().enumerate() {
        let place = generator.shifts[r] as usize;
        out[place] = *symbol;
        out[place + n] = *symbol;
    }
    out
}

// The sums from each place, turned into the order of the nodes: node j's is the one from place −j on, modulo n.
#[tactic(auto, using(crate::proofs::OneLane::turned))]
fn turn(sums: &mut [u16])
    requires { 0 < length sums.old }
    ensures { sums.new ≡ by_node sums.old }
{
    sums[1..].reverse();
}

impl Message<'_> {
    // What the nodes hold where its symbols are placed in that row, as bytes; `sums` is scratch with a place for each node. Of the base word
    // the first d entries are not zero. The scratch is handed on as it is, for the reason at `window_sums`.
    #[tactic(auto, unfolding(generator::specs::Records::distance))]
    fn write_nodes(self, row: &[u16], sums: &mut [u16], out: &mut [u8])
        requires { let h = record_header self in (length row.now ≡ 510) × (all_below (size h) row.now ≡ true) × (length sums.old ≡ h.n) × (length out.old ≡ self.width.bytes * h.n) }
        ensures { let m = self.entry in let h = record_header m in out.new ≡ bytes_of m.width.bytes (by_node (window_sums (modulus_of h) (take (distance h) m.generator.now.base) row.now (length sums.old))) }
    {
        let code = self.generator.codec.code;
        let d = code.checks() + 1;
        sliding_sums::window_sums(code.header.field, &self.generator.base[..d], row, sums);
        turn(sums);
        self.width.write_symbols(sums, out);
    }

    // Fills a lane with the encoding of its k symbols.
    fn fill_lane(self, symbols: &[u16], out: &mut [u8])
        requires { let h = record_header self in (length symbols.now ≡ h.k) × (all_below (size h) symbols.now ≡ true) × (length out.old ≡ self.width.bytes * h.n) }
        ensures { let m = self.entry in out.new ≡ bytes_of m.width.bytes (encoding (record_header m) symbols.now) }
    {
        let n = self.generator.codec.code.header.n as usize;
        let row = placed(self.generator, symbols);
        let mut sums = [0u16; 255];
        self.write_nodes(&row, &mut sums[..n], out);
    }

    // The symbols of its lane t, and zeros after them.
    // An array with zeros after: there are k of them, as the code says, so no length stands beside them.
    #[tactic(auto, using(lists::proofs::Fill::filled_start, lists::proofs::Fill::filled_end), unfolding(lists::specs::Padded::zeros, layout::specs::Layout::lane_of))]
    fn lane_symbols(self, t: usize) -> [u16; 255]
        requires { t < self.lanes }
        ensures { result ≡ padded 255 (lane_of row_after_row (record_header self.entry).k self.entry.lanes t (message_symbols self.entry)) }
    {
        let k = self.generator.codec.code.header.k as usize;
        let mut out = [0u16; 255];
        for r in 0..k {
            out[r] = self.width.symbol_at(self.bytes, r * self.lanes + t);
        }
        out
    }

    // Fills all lanes, each through its own part, which is cut by its place: after `chunks_mut` a proof knows the length alone
    // (docs/PROOF-NOTES.md).
    pub fn fill_each(self, out: &mut [u8])
        requires { length out.old ≡ share_bytes self }
        ensures { out.new ≡ encoded self.entry }
    {
        let Header { n, k, .. } = self.generator.codec.code.header;
        let size = self.width.bytes * n as usize;
        for t in 0..self.lanes {
            let symbols = self.lane_symbols(t);
            let start = t * size;
            let end = start + size;
            self.fill_lane(&symbols[..k as usize], &mut out[start..end]);
        }
    }
}
