// The weights by which listed nodes give back a symbol of the message or another node.
// A list is an array with zeros after: the listed nodes or rows, which each caller has, tell how long it is, so no length stands beside it.
#![tactic(auto)]

ghost use Rattle.std.specs.Prelude.{◌≡◌, true, ◌<◌, ◌≤◌, length};
ghost use Rattle.field.specs.Kinds.{modulus};
ghost use Rattle.lists.specs.Padded.{padded};
ghost use Rattle.generator.specs.Records.{modulus_of, size};
ghost use Rattle.generator.specs.Shifts.{shifts as shifts_for};
ghost use Rattle.generator.specs.Claims.{are_nodes};
ghost use Rattle.node_weights.specs.Inner.Weights.{Rebuilds};
ghost use Rattle.interpolation.specs.Inner.Points.{points_of};
ghost use Rattle.interpolation.specs.Inner.Polynomials.{product_of};
ghost use Rattle.node_weights.specs.Inner.Rows.{basis_of, row_points, base_inverses, setup_of, terms_at, row_terms};

use field::lent::Arithmetic;
use generator::{Code, Codec};
use interpolation::division::Dividend;
use interpolation::lagrange::Points;
use interpolation::polynomials::Polynomial;
use interpolation::powers::Root;

// Lagrange's basis of listed points: the points, the scales of the basis polynomials, and the coefficients of the product polynomial; zeros after each list.
#[derive(Clone, Copy)]
pub struct Basis {
    pub points: [u16; 255],
    pub scales: [u16; 255],
    pub product: [u16; 256],
}

// What is computed once for a list of nodes: the basis of the nodes' points, that of the rows' points, and 1 over the coefficients of the base polynomial.
#[derive(Clone, Copy)]
pub struct Setup {
    pub nodes: Basis,
    pub shifts: Basis,
    pub base: [u16; 255],
}

// Weights for what node `target` holds: the values at root^target of Lagrange's basis polynomials of the nodes' points. Places from k on hold 0.
pub fn rebuild_weights(code: Code, nodes: &[u8], target: u32) -> [u16; 255]
    requires { (are_nodes code.header nodes.now ≡ true) × (target < code.header.n) }
    ensures { Rebuilds code.header nodes.now target result }
{
    let h = code.header;
    let k = h.k as usize;
    let tables = field::constant_tables();
    let field = Arithmetic::new(h.field, &tables);
    let root = Root {
        field,
        value: h.root,
    };
    let z = field.power(h.root, target);
    let list = root.points(nodes, 0);
    let points = Points {
        field,
        points: &list[..k],
    };
    let scales = points.scales();
    points.values(&scales[..k], z)
}

// The basis of the points root^(j + offset).
pub fn lagrange_basis(root: Root, places: &[u8], offset: u32) -> Basis
    requires { (length places.now ≤ 255) × (offset < 256) }
    ensures { let p = modulus root.entry.field.field in result ≡ basis_of p (points_of p root.entry.value offset places.now) }
{
    let count = places.len();
    let list = root.points(places, offset);
    let points = Points {
        field: root.field,
        points: &list[..count],
    };
    let scales = points.scales();
    let product = points.product();
    Basis {
        points: list,
        scales,
        product,
    }
}

// What the inverse of the encoding at the nodes is made from; the shifts are those of the generator's k rows.
#[tactic(auto, using(generator::proofs::Shifts::shifts_length))]
pub fn prepare(code: Code, nodes: &[u8], shifts: &[u8]) -> Setup
    requires { (are_nodes code.header nodes.now ≡ true) × (shifts.now ≡ shifts_for code.header) }
    ensures { result ≡ setup_of code.header nodes.now }
{
    let h = code.header;
    let k = h.k as usize;
    let m = k - 1;
    let tables = field::constant_tables();
    let field = Arithmetic::new(h.field, &tables);
    let root = Root {
        field,
        value: h.root,
    };
    let base = root.base(m);
    let inverses = Polynomial {
        field,
        coefficients: &base[..k],
    }
    .inverses();
    let own = lagrange_basis(root, nodes, 0);
    let rows = lagrange_basis(root, shifts, m as u32);
    Setup {
        nodes: own,
        shifts: rows,
        base: inverses,
    }
}

// The terms of the row with the point x: the coefficients of the product over the points of the other rows, each over that of the base polynomial; and zeros after them.
pub fn terms_at(codec: Codec, product: &[u16], base: &[u16], x: u32) -> [u16; 255]
    requires { (product.now ≡ padded 256 (product_of (modulus_of codec.code.header) (row_points codec.code.header))) × (base.now ≡ padded 255 (base_inverses codec.code.header)) × (x < size codec.code.header) }
    ensures { result ≡ padded 255 (terms_at codec.entry.code.header x) }
{
    let h = codec.code.header;
    let k = h.k as usize;
    let field = codec.field;
    let polynomial = Polynomial {
        field,
        coefficients: &product[1..=k],
    };
    Dividend {
        polynomial,
        weights: &base[..k],
    }
    .quotient_terms(x)
}

impl Setup {
    // The terms of row r.
    pub fn row_terms(&self, codec: Codec, r: usize) -> [u16; 255]
        requires { (self.now.shifts ≡ basis_of (modulus_of codec.code.header) (row_points codec.code.header)) × (self.now.base ≡ padded 255 (base_inverses codec.code.header)) × (r < codec.code.header.k) }
        ensures { result ≡ padded 255 (row_terms codec.entry.code.header r) }
    {
        let x = self.shifts.points[r] as u32;
        terms_at(codec, &self.shifts.product, &self.base, x)
    }
}
