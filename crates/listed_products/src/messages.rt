// The message of the first k symbols of each lane, as a product of the inverse of the encoding at these nodes and the lanes.
ghost use Rattle.std.specs.Prelude.{◌≡◌, true, ◌*◌, ◌≤◌, length};
ghost use Rattle.lists.specs.Numbers.{all_below};
ghost use Rattle.lists.specs.Padded.{padded};
ghost use Rattle.layout.specs.Width.{symbols_of, bytes_of};
ghost use Rattle.generator.specs.Records.{size, width};
ghost use Rattle.recover_matrix.specs.Inner.Inverse.{square_bytes, ListRoom};
ghost use Rattle.listed_products.specs.Inner.Shares.{ListedNodes, ListedBytes, MessageRows, first_message, first_messages, message_product};

use crate::ListedBlock;
use block_products::{Product, Way};
use generator::{Code, Codec};
use recover_matrix::Inverse;

impl ListedBlock<'_, '_> {
    // The lists by which the listed nodes give the message of their first k; two square matrices are made in scratch of so many bytes each.
    pub fn list_message<const SQUARE: usize>(self, lists: &mut [u16], counts: &mut [u8])
        requires { (SQUARE ≤ 130050) × (square_bytes self.code.header ≤ SQUARE) × ListRoom (length self.nodes.now) (length lists.old) (length counts.old) }
        ensures { let b = self.entry in MessageRows b.code.header b.nodes.now lists.new counts.new }
    {
        let k = self.code.header.k as usize;
        let nodes = &self.nodes[..k];
        let shifts = shifts::shifts_of(self.code.dimensions());
        let setup = node_weights::prepare(self.code, nodes, &shifts[..k]);
        let tables = field::constant_tables();
        let inverse = Inverse {
            codec: Codec::new(self.code, &tables),
            nodes,
            setup: &setup,
        };
        inverse.list_rows::<SQUARE>(self.nodes.len(), lists, counts);
    }
}

// These lists: made once, they serve many lanes or one.
#[derive(Clone, Copy)]
pub struct MessageLists<'n, 'l> {
    pub code: Code,
    pub nodes: &'n [u8],
    pub lists: &'l [u16],
    pub counts: &'l [u8],
    pub ghost listed: { ListedNodes code.header nodes.now },
    pub ghost made: { MessageRows code.header nodes.now lists.now counts.now },
}

impl MessageLists<'_, '_> {
    // The product of the messages of so many lanes.
    fn product(self, lanes: usize) -> Product
        ensures { result ≡ message_product self.entry.code.header (length self.entry.nodes.now) lanes }
    {
        let h = self.code.header;
        Product {
            way: Way::LanesToRows,
            field: h.field,
            outputs: h.k as usize,
            rows: self.nodes.len(),
            lanes,
        }
    }

    // The message of the first k symbols of each lane.
    pub fn fill(self, lanes: usize, shares: &[u8], out: &mut [u8])
        requires { let h = self.code.header in ListedBytes h lanes self.nodes.now shares.now × (length out.old ≡ width h * h.k * lanes) }
        ensures { let h = self.entry.code.header in out.new ≡ bytes_of (width h) (first_messages h self.entry.nodes.now lanes (symbols_of (width h) shares.now)) }
    {
        let w = symbols::width_of(self.code.header);
        block_products::fill(self.product(lanes), w, self.lists, self.counts, shares, out);
    }

    // That of one lane, and zeros after it.
    // An array with zeros after: it has k symbols, as the code says, so no length stands beside it.
    pub fn message(self, symbols: &[u16]) -> [u16; 255]
        requires { (length symbols.now ≡ length self.nodes.now) × (all_below (size self.code.header) symbols.now ≡ true) }
        ensures { result ≡ padded 255 (first_message self.entry.code.header self.entry.nodes.now symbols.now) }
    {
        let w = symbols::width_of(self.code.header);
        let size = w.bytes * self.nodes.len();
        let count = w.bytes * self.code.header.k as usize;
        let mut room = [0u8; 510];
        let mut other_room = [0u8; 510];
        let lane = &mut room[..size];
        let out = &mut other_room[..count];
        w.write_symbols(symbols, lane);
        self.fill(1, lane, out);
        w.read_symbols(out)
    }
}
