// The checks of a lane as lists of weights: its check sums, or that each other node holds what the first k give.
ghost use Rattle.std.specs.Prelude.{◌≡◌, ◌+◌, ◌-◌, ◌≤◌, ◌<◌, length, take, set};
ghost use Rattle.lists.specs.Padded.{padded};
ghost use Rattle.field.specs.Fields.{sub};
ghost use Rattle.field.specs.Kinds.{modulus};
ghost use Rattle.interpolation.specs.Inner.Points.{SymbolList};
ghost use Rattle.interpolation.specs.Inner.Lagrange.{scales_of};
ghost use Rattle.tile_products.specs.Inner.Matrices.{Begun};
ghost use Rattle.check_sums.specs.Inner.Powers.{factors_of};
ghost use Rattle.wrong_lanes.specs.Inner.Checks.{other_values, check_row, CheckLists, CheckRoom, OtherRoom};

use check_sums::powers::{self, RootPowers};
use field::Field;
use field::lent::Arithmetic;
use generator::{Code, Codec};
use interpolation::lagrange::Points;
use tile_products::WeightCodes;

// Nodes by their points; the first k of them fix what the others hold.
#[derive(Clone, Copy)]
pub struct Others<'f, 'p> {
    pub field: Arithmetic<'f>,
    pub k: usize,
    pub points: &'p [u16],
    pub ghost symbols: { SymbolList (modulus field.field) points.now },
    pub ghost enough: { k ≤ length points.now },
}

impl<'f, 'p> Others<'f, 'p> {
    // The points of the first k.
    fn first(self) -> Points<'f, 'p>
        ensures { (result.field.field ≡ self.entry.field.field) × (result.points.now ≡ take self.entry.k self.entry.points.now) }
    {
        Points {
            field: self.field,
            points: &self.points[..self.k],
        }
    }

    // The weights of check e: those by which the first k give node number k + e, −1 there, and zeros after them.
    // An array with zeros after: there is one for each node, so no length stands beside it.
    fn weights(self, scales: &[u16], e: usize) -> [u16; 255]
        requires { (scales.now ≡ scales_of (modulus self.field.field) (take self.k self.points.now)) × (self.k + e < length self.points.now) }
        ensures { let o = self.entry in let p = modulus o.field.field in result ≡ set (padded 255 (other_values p o.k o.points.now e)) (o.k + e) (sub p 0 1) }
    {
        let at = self.k + e;
        let z = self.points[at] as u32;
        let mut weights = self.first().values(scales, z);
        weights[at] = self.field.sub(Field::ZERO, Field::ONE) as u16;
        weights
    }

    // The lists of the checks of the other nodes: k weights each, which take k products each to make. Here and below, lists and counts are lent side
    // by side: a value of both arrays, `&mut WeightLists<LISTS, COUNTS>`, would make each function down to `prepare` generic in two sizes, and of a
    // struct of two slices each clause would say what they lead to before and after (tiles/src/scattering.rt).
    pub fn list(self, codes: WeightCodes, lists: &mut [u16], counts: &mut [u8])
        requires { (codes.field ≡ self.field.field) × OtherRoom (length self.points.now) self.k (length lists.old) (length counts.old) }
        ensures { let o = self.entry in let p = modulus o.field.field in let xs = o.points.now in Begun p (length xs) (check_row p o.k xs) (length xs - o.k) lists.new counts.new }
    {
        let rows = self.points.len();
        let scales = self.first().scales();
        let scales = &scales[..self.k];
        let weights = move |e: usize| -> [u16; 255]
            requires { (scales.now ≡ scales_of (modulus self.field.field) (take self.k self.points.now)) × (self.k + e < length self.points.now) }
            ensures { let o = self.entry in let p = modulus o.field.field in result ≡ set (padded 255 (other_values p o.k o.points.now e)) (o.k + e) (sub p 0 1) }
        { self.weights(scales, e) };
        codes.prepare_all(rows, rows - self.k, weights, lists, counts);
    }
}

// The lists of the checks of the nodes but the first k.
fn list_nodes(powers: RootPowers, codes: WeightCodes, lists: &mut [u16], counts: &mut [u8])
    requires { (codes.field ≡ powers.codec.code.header.field) × CheckRoom powers.codec.code.header (length lists.old) (length counts.old) }
    ensures { CheckLists powers.entry.codec.code.header lists.new counts.new }
{
    let h = powers.codec.code.header;
    let n = h.n as usize;
    let others = Others {
        field: powers.codec.field,
        k: h.k as usize,
        points: &powers.list[..n],
    };
    others.list(codes, lists, counts);
}

// The lists of the check sums: n weights each, which are read from the powers of the root.
fn list_sums(powers: RootPowers, codes: WeightCodes, lists: &mut [u16], counts: &mut [u8])
    requires { (codes.field ≡ powers.codec.code.header.field) × CheckRoom powers.codec.code.header (length lists.old) (length counts.old) }
    ensures { CheckLists powers.entry.codec.code.header lists.new counts.new }
{
    let code = powers.codec.code;
    let n = code.header.n as usize;
    let weights = move |e: usize| -> [u16; 255]
        requires { e < 255 }
        ensures { result ≡ padded 255 (factors_of powers.entry.codec.code.header (e + 1)) }
    { powers.factors(e + 1) };
    codes.prepare_all(n, code.checks(), weights, lists, counts);
}

// The lists of checks for so many lanes: on few lanes making the weights takes longer than the lanes.
pub fn list_checks(code: Code, lanes: usize, lists: &mut [u16], counts: &mut [u8])
    requires { CheckRoom code.header (length lists.old) (length counts.old) }
    ensures { CheckLists code.header lists.new counts.new }
{
    let mut codes: [u64; 256] = kernel::filled(0);
    let codes = WeightCodes::new(code.header.field, &mut codes);
    let tables = field::constant_tables();
    let codec = Codec::new(code, &tables);
    let list = powers::powers(codec);
    let powers = RootPowers { codec, list: &list };
    if lanes <= 256 {
        list_sums(powers, codes, lists, counts)
    } else {
        list_nodes(powers, codes, lists, counts)
    }
}
