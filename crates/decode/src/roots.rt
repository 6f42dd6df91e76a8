// The nodes at which a polynomial vanishes; node j has the point root^j.
ghost use Rattle.std.specs.Prelude.{◌≡◌, ◌<◌};
ghost use Rattle.field.specs.Fields.{size_of};
ghost use Rattle.field.specs.Kinds.{modulus};
ghost use Rattle.generator.specs.Records.{modulus_of};
ghost use Rattle.generator.specs.Codewords.{poly_at};
ghost use Rattle.decode.specs.Inner.Errors.{roots_of};

use arrayvec::ArrayVec;
use field::Field;
use generator::{Code, Header};
use interpolation::polynomials::Polynomial;
use interpolation::sums::multiply_add;

// The value at x, by Horner's rule.
fn value(polynomial: Polynomial, x: u32) -> u32
    requires { x < size_of (modulus polynomial.field.field) }
    ensures is { result ≡ poly_at (modulus polynomial.entry.field.field) polynomial.entry.coefficients.now x }
    ensures symbol { result < size_of (modulus polynomial.entry.field.field) }
{
    let field = polynomial.field;
    let mut sum = Field::ZERO;
    for c in polynomial.coefficients.iter().rev() {
        sum = multiply_add(field, x, sum, u32::from(*c));
    }
    sum
}

// The code's nodes at which the value is 0, rising. Not by `nodes_where`: x goes on from node to node, and a test that is lent can change nothing; it
// would read root^j from `RootPowers`, which would be made, and lent here, for this alone.
pub fn find_roots(code: Code, polynomial: Polynomial) -> ArrayVec<u8, 255>
    requires { polynomial.field.field ≡ code.header.field }
    ensures { let h = code.header in result.items ≡ roots_of (modulus_of h) h.root h.n polynomial.entry.coefficients.now }
{
    let Header { root, n, .. } = code.header;
    let field = polynomial.field;
    let mut nodes = ArrayVec::new();
    let mut x = Field::ONE;
    for j in 0..n {
        let y = value(polynomial, x);
        x = field.mul(root, x);
        if y == Field::ZERO {
            nodes.push(j);
        }
    }
    nodes
}
