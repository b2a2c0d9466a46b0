//! The takes that show a version, judged by its text.
ghost use Rattle.std.specs.Prelude.{◌≡◌, ◌-◌, ◌<◌, ◌≤◌, length, map, get_or, IfOk, OnOk};
ghost use Rattle.points.specs.declared.limits.TheConstants.{MAX_UNITS};
ghost use Rattle.snapshot_check.specs.Takes.{AreLinked};
ghost use Rattle.snapshot_check.specs.Judged.{AreJudged, IsMarked};

use crate::judge::judge_take;
use crate::linked::Linked;
use line_text::{LineText, TextRefusal};
use outer::Matcher;
use points::{NoMemory, Units};
use std::alloc::Global;

/// Judges the takes that show this version by its text.
pub fn judge_all<M: Matcher>(
    alloc: Global,
    units: &[u16],
    matchers: &mut Vec<M>,
    linked: &Linked<'_>,
    version: usize,
    right: &mut Vec<bool>,
) -> Result<(), NoMemory>
    requires short { length units.now ≤ MAX_UNITS }
    requires version { version < length linked.now.lasts.items }
    requires linked { AreLinked linked.now.takes.items (length linked.now.lasts.items - 1) (length linked.now.takes.items) linked.now.lasts.items linked.now.nexts.items }
    requires right { length right.old.items ≡ length linked.now.takes.items }
    ensures same { map M.tells matchers.new.items ≡ map M.tells matchers.old.items }
    ensures judged { OnOk result (AreJudged (map M.tells matchers.old.items) linked.now.takes.items units.now version 0 right.old.items right.new.items) }
{
    let first = linked.lasts[version];
    if first == 0 {
        return Ok(());
    }
    let text = text_of(alloc, units)?;
    judge_from(alloc, &text, matchers, linked, version, first, right)
}

// The text of these units.
fn text_of(alloc: Global, units: &[u16]) -> Result<LineText, NoMemory>
    requires { length units.now ≤ MAX_UNITS }
    ensures { IfOk result (λ text. text ≡ units.now) }
{
    let mut copy = Units::new(alloc);
    copy.append(units)?;
    match LineText::from_units(copy) {
        Ok(text) => Ok(text),
        Err(TextRefusal::TooLong) => unreachable!(),
        Err(TextRefusal::NoMemory) => Err(NoMemory),
    }
}

// Judges the takes that show this version, from the last of them on.
fn judge_from<M: Matcher>(
    alloc: Global,
    text: &LineText,
    matchers: &mut Vec<M>,
    linked: &Linked<'_>,
    version: usize,
    first: usize,
    right: &mut Vec<bool>,
) -> Result<(), NoMemory>
    requires version { version < length linked.now.lasts.items }
    requires first { first ≡ get_or linked.now.lasts.items version 0 }
    requires linked { AreLinked linked.now.takes.items (length linked.now.lasts.items - 1) (length linked.now.takes.items) linked.now.lasts.items linked.now.nexts.items }
    requires right { length right.old.items ≡ length linked.now.takes.items }
    ensures same { map M.tells matchers.new.items ≡ map M.tells matchers.old.items }
    ensures judged { OnOk result (AreJudged (map M.tells matchers.old.items) linked.now.takes.items text.now version 0 right.old.items right.new.items) }
{
    let mut at = first;
    while at > 0 {
        at = judge_one(alloc, text, matchers, linked, at - 1, right)?;
    }
    Ok(())
}

// Judges the take at this place, and answers the one before it with the same version.
fn judge_one<M: Matcher>(
    alloc: Global,
    text: &LineText,
    matchers: &mut Vec<M>,
    linked: &Linked<'_>,
    place: usize,
    right: &mut Vec<bool>,
) -> Result<usize, NoMemory>
    requires place { place < length linked.now.takes.items }
    requires nexts { length linked.now.nexts.items ≡ length linked.now.takes.items }
    requires right { length right.old.items ≡ length linked.now.takes.items }
    ensures same { map M.tells matchers.new.items ≡ map M.tells matchers.old.items }
    ensures next { IfOk result (λ n. n ≡ get_or linked.now.nexts.items place 0) }
    ensures marked { OnOk result (IsMarked (map M.tells matchers.old.items) linked.now.takes.items text.now place right.old.items right.new.items) }
{
    right[place] = judge_take(alloc, text, matchers, &linked.takes[place])?;
    Ok(linked.nexts[place])
}
