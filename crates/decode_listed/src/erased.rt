// A lane some of whose nodes are lost: check sums cleared of these, by which the other wrong nodes are located.
ghost use Rattle.std.specs.Prelude.{◌≡◌, true, ◌+◌, ◌≤◌, length};
ghost use Rattle.lists.specs.Numbers.{all_below};
ghost use Rattle.field.specs.Fields.{size_of};
ghost use Rattle.field.specs.Kinds.{modulus};
ghost use Rattle.decode.specs.Inner.Locating.{Below};
ghost use Rattle.decode_listed.specs.Inner.Suspects.{sums_from, cleared_sums, AreLost, Suspects};
ghost use Rattle.decode_listed.specs.Inner.Candidates.{LaneCandidate};

use crate::nodes::suspects;
use arrayvec::ArrayVec;
use check_sums::lane::Lane;
use decode::Syndrome;
use decode::lanes::removed;
use decode::locator::locate;
use decode::roots::find_roots;
use field::lent::Arithmetic;
use generator::Codec;
use interpolation::lagrange::Points;
use interpolation::polynomials::Polynomial;
use interpolation::powers::Root;
use interpolation::sums::weighted_sum;

// Sums of the weights times the symbols from each of the first places on, and zeros after them.
// An array with zeros after: the caller's number says how much of it is used.
#[tactic(auto, using(lists::proofs::Fill::filled_start, lists::proofs::Fill::filled_end), unfolding(lists::specs::Padded::zeros, crate::specs::Inner::Suspects::sums_from))]
fn sums_from(field: Arithmetic, weights: &[u16], symbols: &[u16; 255], count: usize) -> [u16; 255]
    requires { (all_below (size_of (modulus field.field)) weights.now ≡ true) × Below (size_of (modulus field.field)) symbols.now × (length weights.now + count ≤ 256) × (count ≤ 255) }
    ensures { result ≡ sums_from (modulus field.entry.field) weights.now symbols.now count }
{
    let mut out = [0u16; 255];
    for e in 0..count {
        out[e] = weighted_sum(field, weights, &symbols[e..]) as u16;
    }
    out
}

// The check sums of a lane, and the nodes that are lost: what the lane holds there counts for nothing.
#[derive(Clone, Copy)]
struct Erased<'a, 's, 'n> {
    syndrome: Syndrome<'a, 's>,
    lost: &'n [u8],
    ghost are: { AreLost syndrome.codec.code.header lost.now },
}

impl Erased<'_, '_, '_> {
    // The check sums cleared of the lost nodes, and zeros after them: the product over the lost nodes' points is multiplied in.
    fn cleared(self) -> [u16; 255]
        ensures { let s = self.entry.syndrome in result ≡ cleared_sums s.codec.code.header self.entry.lost.now s.sums.now }
    {
        let Codec { code, field, .. } = self.syndrome.codec;
        let root = Root {
            field,
            value: code.header.root,
        };
        let count = self.lost.len();
        let list = root.points(self.lost, 0);
        let points = Points {
            field,
            points: &list[..count],
        };
        let product = points.product();
        let spare = code.checks() - count;
        sums_from(field, &product[..=count], self.syndrome.sums, spare)
    }

    // The nodes that are lost or at which the locator of the cleared check sums vanishes: all wrong ones, if a word is near enough.
    fn suspects(self) -> ArrayVec<u8, 255>
        ensures { let s = self.entry.syndrome in Suspects s.codec.code.header self.entry.lost.now s.sums.now result.items }
    {
        let Codec { code, field, .. } = self.syndrome.codec;
        let lost = self.lost;
        let t = (code.checks() - lost.len()) / 2;
        let cleared = self.cleared();
        let locator = locate(field, &cleared, t);
        let polynomial = Polynomial {
            field,
            coefficients: &locator[..=t],
        };
        let found = find_roots(code, polynomial);
        suspects(code.header.n, lost, found.as_slice())
    }
}

// The only symbols that may be a word near enough to a lane, and zeros after them, where these nodes are lost.
pub fn candidate(lane: Lane, lost: &[u8]) -> [u16; 255]
    requires { AreLost lane.rows.code.header lost.now }
    ensures { LaneCandidate lane.entry.rows.code.header lost.now lane.entry.symbols.now result }
{
    let sums = lane.sums();
    let tables = field::constant_tables();
    let codec = Codec::new(lane.rows.code, &tables);
    let syndrome = Syndrome { codec, sums: &sums };
    let erased = Erased { syndrome, lost };
    let found = erased.suspects();
    let nodes = found.as_slice();
    let count = nodes.len();
    let wrong = syndrome.errors(nodes);
    removed(codec.field, lane.symbols, nodes, &wrong[..count])
}
