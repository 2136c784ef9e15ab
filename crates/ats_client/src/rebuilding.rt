//! What a section of a tree rebuilds to.

ghost use Rattle.std.specs.Prelude.{◌≡◌, ◌≤◌, ◌+◌, ◌*◌, ◌^◌, length};
ghost use Rattle.ats_tree.specs.Rebuild.{rebuilt};

use ats_hash::{Hash32, Steps};
use ats_tree::{Revealed, rebuild};

/// The digest that a section of a tree of `n` leaves rebuilds to, `None` if it is no part of such a tree.
pub(crate) fn rebuilt<'a, H: Hash32, R: Revealed<'a>>(
    n: u32,
    revealed: &mut R,
    steps: &mut Steps,
) -> Option<[u8; 32]>
    requires space { steps.old ≤ 2 ^ 63 }
    ensures digest { result ≡ rebuilt H.hash n (R.shown revealed.old) (R.digests revealed.old) }
    ensures cost { steps.new ≤ steps.old + 3 * n }
    ensures most { steps.new ≤ steps.old + 3 * length (R.shown revealed.old) + 2 * length (R.digests revealed.old) + 1 }
{
    if n == 0 {
        return None;
    }
    rebuild::<H, R>(n, revealed, steps).ok()
}
