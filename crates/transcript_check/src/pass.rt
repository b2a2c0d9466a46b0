//! One pass over the calls of a transcript: each is made again on the plain machine, and the answers through the takes are judged
//! where the machine has the text of their version.
ghost use Rattle.std.specs.Prelude.{◌≡◌, ◌+◌, ◌-◌, ◌<◌, ◌≤◌, ◌^◌, ◌++◌, [], ◌∷◌, length, map, MatchOption, IfOk, OnOk};
ghost use Rattle.machine.specs.Lawful.{CallsAgree, state_after};
ghost use Rattle.machine.specs.FirstFault.{IsFirstCall};
ghost use Rattle.transcript_check.specs.Order.{IsOrder};
ghost use Rattle.snapshot_check.specs.Takes.{AreLinked};
ghost use Rattle.snapshot_check.specs.Judged.{AreJudged};
ghost use Rattle.transcript_check.specs.Found.{IsPassed};

use crate::calls::Called;
use crate::replay::agrees;
use outer::Matcher;
use plain_replay::Plain;
use points::NoMemory;
use snapshot_check::{Linked, judge_all};
use std::alloc::Global;

/// What the pass finds beside the calls: the version behind each of them and before the first, and for each take whether its
/// answers are right.
#[derive(Drop)]
pub(crate) struct Seen {
    pub(crate) versions: Vec<u64>,
    pub(crate) right: Vec<bool>,
}

/// The first call whose reply isn't that of the machine; none where all agree, and the machine then stands behind them.
pub(crate) fn pass<M: Matcher>(
    alloc: Global,
    version: u32,
    plain: &mut Plain,
    calls: &[Called<'_>],
    order: &[usize],
    linked: &Linked<'_>,
    matchers: &mut Vec<M>,
    seen: &mut Seen,
) -> Result<Option<u64>, NoMemory>
    requires order { IsOrder calls.now order.now }
    requires few { length calls.now < 2 ^ 57 - 1 }
    requires fresh { plain.old.count ≡ 0 }
    requires linked { AreLinked linked.now.takes.items (length calls.now) (length linked.now.takes.items) linked.now.lasts.items linked.now.nexts.items }
    requires none { seen.old.versions.items ≡ [] }
    requires right { length seen.old.right.items ≡ length linked.now.takes.items }
    ensures same { map M.tells matchers.new.items ≡ map M.tells matchers.old.items }
    ensures calls { IfOk result (λ o. MatchOption o (CallsAgree version plain.old calls.now) (λ n. IsFirstCall version plain.old calls.now n)) }
    ensures state { IfOk result (λ o. MatchOption o (plain.new ≡ state_after plain.old calls.now (length calls.now)) (λ n. Unit {0})) }
    ensures seen { IfOk result (λ o. MatchOption o
        (IsPassed plain.old calls.now (map M.tells matchers.old.items) linked.now.takes.items (length calls.now + 1) seen.new.versions.items seen.new.right.items) (λ n. Unit {0})) }
{
    for i in 0..order.len() {
        look(alloc, plain, i, linked, matchers, seen)?;
        if !agrees(version, plain, &calls[order[i]])? {
            return Ok(Some(i as u64 + 1));
        }
    }
    look(alloc, plain, order.len(), linked, matchers, seen)?;
    Ok(None)
}

// Writes the version of the machine down, and judges the takes that show the number of its last call.
fn look<M: Matcher>(
    alloc: Global,
    plain: &Plain,
    number: usize,
    linked: &Linked<'_>,
    matchers: &mut Vec<M>,
    seen: &mut Seen,
) -> Result<(), NoMemory>
    requires number { number < length linked.now.lasts.items }
    requires linked { AreLinked linked.now.takes.items (length linked.now.lasts.items - 1) (length linked.now.takes.items) linked.now.lasts.items linked.now.nexts.items }
    requires right { length seen.old.right.items ≡ length linked.now.takes.items }
    ensures same { map M.tells matchers.new.items ≡ map M.tells matchers.old.items }
    ensures versions { OnOk result (seen.new.versions.items ≡ seen.old.versions.items ++ plain.now.version ∷ []) }
    ensures judged { OnOk result (AreJudged (map M.tells matchers.old.items) linked.now.takes.items plain.now.text number 0 seen.old.right.items seen.new.right.items) }
{
    seen.versions.push(plain.version())?;
    judge_all(
        alloc,
        plain.text(),
        matchers,
        linked,
        number,
        &mut seen.right,
    )
}
