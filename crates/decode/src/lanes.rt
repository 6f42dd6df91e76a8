// Lanes compared, and less the errors at some nodes.
ghost use Rattle.std.specs.Prelude.{◌≡◌, true, length};
ghost use Rattle.lists.specs.Counting.{differ};
ghost use Rattle.lists.specs.Numbers.{all_below};
ghost use Rattle.lists.specs.Padded.{padded};
ghost use Rattle.field.specs.Kinds.{modulus};
ghost use Rattle.interpolation.specs.Inner.Points.{SymbolList};
ghost use Rattle.decode.specs.Inner.Errors.{removed as removed_from};

use field::lent::Arithmetic;

// At how many nodes two lanes differ.
pub fn differing(a: &[u16], b: &[u16]) -> usize
    requires { length b.now ≡ length a.now }
    ensures { result ≡ differ a.now b.now }
{
    a.iter().zip(b).filter(|(x, y)| x != y).count()
}

// A lane less the errors at the listed nodes, and zeros after it.
// An array with zeros after: it is as long as the lane, so no length stands beside it.
pub fn removed(field: Arithmetic, lane: &[u16], nodes: &[u8], errors: &[u16]) -> [u16; 255]
    requires { SymbolList (modulus field.field) lane.now × SymbolList (modulus field.field) errors.now × (all_below (length lane.now) nodes.now ≡ true) × (length errors.now ≡ length nodes.now) }
    ensures { result ≡ padded 255 (removed_from (modulus field.entry.field) nodes.now errors.now lane.now) }
{
    let mut out = [0u16; 255];
    out[..lane.len()].copy_from_slice(lane);
    for (&node, &error) in nodes.iter().zip(errors) {
        let j = node as usize;
        out[j] = field.sub(out[j] as u32, error as u32) as u16;
    }
    out
}
