//! What came of tasks, by session and number.
ghost use Rattle.std.specs.Prelude.{◌≡◌, ◌+◌, ◌*◌, ◌^◌, List, map, All, IsPermutation};
ghost use Rattle.pool.specs.Sendings.{IsEnded, IsRising, order, sending_of};

use outer::{Matcher, Sink};
use workers::Done;

// Puts what came of tasks in the order of their sessions and numbers. So it is in the order of what was sent, where that
// rises and each was done once.
pub(crate) fn in_order<M: Matcher, K: Sink>(mut dones: Vec<Done<M, K>>) -> Vec<Done<M, K>>
    requires ended { All (IsEnded M.tells K.taken K.faults) dones.items }
    ensures ended { All (IsEnded M.tells K.taken K.faults) result.items }
    ensures order { (sent : List _) → IsRising order sent → IsPermutation (map sending_of dones.items) sent → map sending_of result.items ≡ sent }
{
    dones.sort_unstable_by_key(
        |done: &Done<M, K>| -> u64
            ensures { result ≡ done.now.session * 2 ^ 32 + done.now.number }
        { (done.session as u64) * 4_294_967_296 + (done.number as u64) },
    );
    dones
}
