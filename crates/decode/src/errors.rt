// The errors at the nodes where the locator vanishes, from the check sums and Lagrange's basis of the nodes' points.
ghost use Rattle.std.specs.Prelude.{◌≡◌, ◌<◌, ◌≤◌, length};
ghost use Rattle.lists.specs.Padded.{padded};
ghost use Rattle.field.specs.Fields.{size_of};
ghost use Rattle.field.specs.Kinds.{modulus};
ghost use Rattle.interpolation.specs.Inner.Lagrange.{scales_of};
ghost use Rattle.decode.specs.Inner.Errors.{error_of, errors_from, errors_at};

use crate::Syndrome;
use interpolation::division::Dividend;
use interpolation::lagrange::Points;
use interpolation::polynomials::Polynomial;
use interpolation::powers::Root;

// The error at the point x: the sum of the check sums, which are the weights of the product over all points, times the coefficients of that over the other points, times the scale of x, over x.
#[tactic(auto, unfolding(crate::specs::Inner::Errors::error_of))]
fn error_at(product: Dividend, x: u32, scale: u32) -> u32
    requires { (x < size_of (modulus product.polynomial.field.field)) × (scale < size_of (modulus product.polynomial.field.field)) }
    ensures is { result ≡ error_of (modulus product.entry.polynomial.field.field) product.entry.polynomial.coefficients.now product.entry.weights.now x scale }
    ensures symbol { result < size_of (modulus product.entry.polynomial.field.field) }
{
    let field = product.polynomial.field;
    let sum = product.quotient_sum(x);
    let scaled = field.mul(sum, scale);
    let inverse = field.inverse(x);
    field.mul(scaled, inverse)
}

// The errors at all points, and zeros after them.
// An array with zeros after: it is as long as the list that it is made from, so no length stands beside it.
#[tactic(auto, using(lists::proofs::Fill::filled_start, lists::proofs::Fill::filled_end), unfolding(lists::specs::Padded::zeros, crate::specs::Inner::Errors::errors_from))]
fn errors_from(points: Points, product: Dividend) -> [u16; 255]
    requires { product.polynomial.field.field ≡ points.field.field }
    ensures { let p = modulus points.entry.field.field in result ≡ padded 255 (errors_from p product.entry.polynomial.coefficients.now product.entry.weights.now points.entry.points.now (scales_of p points.entry.points.now)) }
{
    let mut out = [0u16; 255];
    for (i, &x) in points.points.iter().enumerate() {
        out[i] = error_at(product, x as u32, points.scale_at(i)) as u16;
    }
    out
}

impl Syndrome<'_, '_> {
    // The errors at the listed nodes, and zeros after them: from as many check sums as there are nodes.
    pub fn errors(self, nodes: &[u8]) -> [u16; 255]
        requires { length nodes.now ≤ 255 }
        ensures { let h = self.entry.codec.code.header in result ≡ padded 255 (errors_at h nodes.now self.entry.sums.now) }
    {
        let Syndrome { codec, sums, .. } = self;
        let field = codec.field;
        let root = Root {
            field,
            value: codec.code.header.root,
        };
        let count = nodes.len();
        let list = root.points(nodes, 0);
        let points = Points {
            field,
            points: &list[..count],
        };
        let product = points.product();
        let polynomial = Polynomial {
            field,
            coefficients: &product[1..=count],
        };
        let dividend = Dividend {
            polynomial,
            weights: &sums[..count],
        };
        errors_from(points, dividend)
    }
}
