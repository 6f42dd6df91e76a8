// Records as they are read: what one holds, or the lowest number that turns it away.
#![tactic(auto)]

ghost use Rattle.std.specs.Prelude.{◌≡◌, true, false, ◌∷◌, ◌≤◌, MatchResult};
ghost use Rattle.field.specs.declared.Field.TheVariants.{Prime};
ghost use Rattle.field.specs.Kinds.{usable, prime_of};
ghost use Rattle.generator.specs.declared.refusal.Refusal.TheVariants as R;
ghost use Rattle.generator.specs.Records.{prime_in, size_bad, root_bad, header_fault, judged, record_of};
ghost use Rattle.generator.specs.Reading.{read_of};

mod sizes;

use field::{Field, Gf256, PrimeField, is_prime};
use generator::{Code, Header, Refusal};
pub use sizes::{high_reads, low_reads};

// A prime from `low` to `high`.
#[tactic(auto, unfolding(generator::specs::Records::prime_in))]
fn prime_in(low: u32, high: u32, p: u32) -> bool
    ensures { result ≡ prime_in low high p }
{
    (low..=high).contains(&p) && is_prime(p)
}

// Number 4: n below 2, k zero, or k above n; n is a byte.
#[tactic(auto, unfolding(generator::specs::Records::size_bad))]
fn size_bad(h: Header) -> bool
    ensures { result ≡ size_bad h }
{
    let n = h.n;
    let k = h.k;
    n < 2 || k == 0 || n < k
}

// Number 5: the root is no symbol of order exactly n. The header is still to be judged, here and below: no more is known than that its field
// is usable.
#[tactic(auto, unfolding(generator::specs::Records::root_bad))]
fn root_bad(h: Header) -> bool
    requires { (usable h.field ≡ true) × (2 ≤ h.n) }
    ensures { result ≡ root_bad h }
{
    let f = h.field;
    let root = h.root;
    let n = h.n as u32;
    root >= f.size() || !f.has_order(root, n)
}

// The code of a header, or number 4 or 5.
fn judge(h: Header) -> Result<Code, Refusal>
    requires { usable h.field ≡ true }
    ensures { read_of result ≡ judged (header_fault h) h }
{
    Refusal::Size.when(size_bad(h))?;
    Refusal::Root.when(root_bad(h))?;
    Ok(Code { header: h })
}

// Number 3: the field of p, where p is a prime from `low` to `high`.
fn prime_field(low: u32, high: u32, p: u32) -> Result<Field, Refusal>
    ensures { MatchResult result (λ f. (f ≡ Prime (prime_of p)) × (prime_in low high p ≡ true)) (λ e. (e ≡ R.Field) × (prime_in low high p ≡ false)) }
{
    Refusal::Field.when(!prime_in(low, high, p))?;
    Ok(Field::Prime(PrimeField::new(p)))
}

// Kind 1: p, the root, n, k.
fn read_prime(body: &[u8]) -> Result<Code, Refusal>
    ensures { read_of result ≡ record_of (1 ∷ body.now) }
{
    let &[p, root, n, k] = body else {
        return Err(Refusal::Body);
    };
    let field = prime_field(3, 251, p as u32)?;
    let root = root as u32;
    judge(Header { field, root, n, k })
}

// Kind 2: the root, n, k.
fn read_binary(body: &[u8]) -> Result<Code, Refusal>
    ensures { read_of result ≡ record_of (2 ∷ body.now) }
{
    let &[root, n, k] = body else {
        return Err(Refusal::Body);
    };
    let field = Field::Binary(Gf256::new());
    let root = root as u32;
    judge(Header { field, root, n, k })
}

// Kind 3: p and the root in two bytes each, n, k.
fn read_wide(body: &[u8]) -> Result<Code, Refusal>
    ensures { read_of result ≡ record_of (3 ∷ body.now) }
{
    let &[p_high, p_low, root_high, root_low, n, k] = body else {
        return Err(Refusal::Body);
    };
    let p = u16::from_be_bytes([p_high, p_low]) as u32;
    let root = u16::from_be_bytes([root_high, root_low]) as u32;
    let field = prime_field(257, 65521, p)?;
    judge(Header { field, root, n, k })
}

// The kind byte chooses the body's length and the field.
pub fn read_record(rec: &[u8]) -> Result<Code, Refusal>
    ensures { read_of result ≡ record_of rec.now }
{
    match rec {
        [1, body @ ..] => read_prime(body),
        [2, body @ ..] => read_binary(body),
        [3, body @ ..] => read_wide(body),
        _ => Err(Refusal::Kind),
    }
}
