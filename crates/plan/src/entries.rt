// The generator of a plan.
ghost use Rattle.std.specs.Prelude.{◌≡◌, ◌+◌, ◌%◌, ◌≤◌, ◌<◌, length, get_or};
ghost use Rattle.plan.specs.Plans.{entry_in};

use crate::Plan;

// Node j's entry of the row with that shift: the row is the base word turned left. The place is `stepped(j, shift, n)` of check_sums,
// which stands on more than plan does: for this one line plan would stand on it too, or the step and its proof in another crate.
pub fn entry_at(n: usize, shift: usize, base: &[u16], j: usize) -> u16
    requires { (n ≤ 255) × (shift < n) × (j < n) × (n ≤ length base.now) }
    ensures { result ≡ get_or base.now ((j + shift) % n) 0 }
{
    let i = j + shift;
    if i < n { base[i] } else { base[i - n] }
}

impl Plan {
    // Entry (r, j), read from the base word by the row's shift; 0, as in the definition, for a row or a node that the plan does not have.
    pub fn entry(&self, r: u32, j: u32) -> u16
        ensures { result ≡ entry_in self.now r j }
    {
        let n = self.n as u32;
        if r >= self.k as u32 || j >= n {
            return 0;
        }
        let shift = self.shifts[r as usize] as u32;
        entry_at(n as usize, (shift % n) as usize, &self.base, j as usize)
    }
}
