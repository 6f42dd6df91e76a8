// A single change at node j makes a lane a word exactly if each check sum is root^j times the one before it. Then the first check
// sum over root^j is taken away.
ghost use Rattle.std.specs.Prelude.{◌≡◌, true, map, ◌*◌, ◌≤◌, ◌<◌, length};
ghost use Rattle.lists.specs.Numbers.{all_below};
ghost use Rattle.layout.specs.Width.{bytes_of};
ghost use Rattle.field.specs.Fields.{power};
ghost use Rattle.generator.specs.Records.{modulus_of, size, width};
ghost use Rattle.mends.specs.Inner.BySums.{LaneSums, goes_up, up_nodes, mended_at};
ghost use Rattle.mends.specs.Promise.{in_front};

use arrayvec::ArrayVec;
use check_sums::powers::{self, RootPowers};
use generator::{Code, Codec};
use node_lists::nodes_where;
use shifts::negative;

// A lane that was received and is no word: the powers of the code's root, and the lane with its check sums.
#[derive(Clone, Copy)]
struct Received<'a, 'b> {
    powers: RootPowers<'a>,
    lane: &'b [u16],
    sums: &'b [u16],
    ghost summed: { LaneSums powers.codec.code.header lane.now sums.now },
}

impl Received<'_, '_> {
    // Whether each check sum is c times the one before it. By a `for`: `all`, over a range of places, left two goals, whose proofs were no shorter.
    fn goes_up(self, c: u32) -> bool
        requires { c < size self.powers.codec.code.header }
        ensures { result ≡ goes_up (modulus_of self.entry.powers.codec.code.header) c self.entry.sums.now }
    {
        for pair in self.sums.windows(2) {
            if !self.powers.codec.field.is_product(c, pair[0], pair[1]) {
                return false;
            }
        }
        true
    }

    // Whether they go up by root^j.
    fn goes_up_at(self, j: u8) -> bool
        requires { j < self.powers.codec.code.header.n }
        ensures { let h = self.entry.powers.codec.code.header in result ≡ goes_up (modulus_of h) (power (modulus_of h) h.root j) self.entry.sums.now }
    {
        self.goes_up(self.powers.list[j as usize] as u32)
    }

    // The nodes j for which the check sums go up by root^j, rising.
    #[tactic(auto, unfolding(crate::specs::Inner::BySums::up_nodes))]
    fn up_nodes(self) -> ArrayVec<u8, 255>
        ensures { result.items ≡ up_nodes self.entry.powers.codec.code.header self.entry.sums.now }
    {
        let n = self.powers.codec.code.header.n;
        nodes_where(n, |j| self.goes_up_at(j))
    }

    // The new symbol of node j: what it holds less the first check sum over root^j.
    fn mended(self, j: usize) -> u16
        requires { j < self.powers.codec.code.header.n }
        ensures { result ≡ mended_at self.entry.powers.codec.code.header self.entry.lane.now self.entry.sums.now j }
    {
        let n = self.powers.codec.code.header.n as usize;
        let back = negative(n, j);
        let over = self.powers.list[back] as u32;
        let amount = self.powers.codec.field.mul(self.sums[0] as u32, over);
        self.powers.codec.field.sub(self.lane[j] as u32, amount) as u16
    }

    // The new symbols of the listed nodes.
    fn new_symbols(self, nodes: &[u8]) -> ArrayVec<u16, 255>
        requires { (all_below self.powers.codec.code.header.n nodes.now ≡ true) × (length nodes.now ≤ 255) }
        ensures { result.items ≡ map (mended_at self.entry.powers.codec.code.header self.entry.lane.now self.entry.sums.now) nodes.now }
    {
        let mut symbols = ArrayVec::new();
        for &node in nodes {
            symbols.push(self.mended(usize::from(node)));
        }
        symbols
    }
}

// Writes new symbols at the front.
fn put_symbols(code: Code, new: &[u16], symbols: &mut [u8])
    requires { (all_below (size code.header) new.now ≡ true) × (length new.now ≤ code.header.n) × (length symbols.old ≡ code.header.n * width code.header) }
    ensures { symbols.new ≡ in_front (bytes_of (width code.header) new.now) symbols.old }
{
    let count = new.len();
    let w = symbols::width_of(code.header);
    let end = count * w.bytes;
    w.write_symbols(new, &mut symbols[..end]);
}

// Lists the nodes and their new symbols; gives how many.
pub fn list<'a>(
    code: Code,
    lane: &'a [u16],
    sums: &'a [u16],
    nodes: &mut [u8],
    symbols: &mut [u8],
) -> usize
    requires { LaneSums code.header lane.now sums.now × (length nodes.old ≡ code.header.n) × (length symbols.old ≡ code.header.n * width code.header) }
    ensures { (result ≡ length (up_nodes code.header sums.now)) × (nodes.new ≡ in_front (up_nodes code.header sums.now) nodes.old) × (symbols.new ≡ in_front (bytes_of (width code.header) (map (mended_at code.header lane.now sums.now) (up_nodes code.header sums.now))) symbols.old) }
{
    let tables = field::constant_tables();
    let codec = Codec::new(code, &tables);
    let list = powers::powers(codec);
    let powers = RootPowers { codec, list: &list };
    let received = Received { powers, lane, sums };
    let listed = received.up_nodes();
    let up = listed.as_slice();
    let count = up.len();
    nodes[..count].copy_from_slice(up);
    let new = received.new_symbols(up);
    put_symbols(code, new.as_slice(), symbols);
    count
}
