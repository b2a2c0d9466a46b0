//! The check of a transcript: whether it is lawful, and where it first fails.
ghost use Rattle.std.specs.Prelude.{◌≡◌, ◌<◌, ◌≤◌, ◌&&◌, ◌^◌, false, nat_lt, length, map, replicate, sum, IfOk};
ghost use Rattle.points.specs.Text.{utf16_of};
ghost use Rattle.points.specs.declared.limits.TheConstants.{MAX_UNITS};
ghost use Rattle.machine.specs.FirstFault.{IsVerdict};
ghost use Rattle.machine.specs.Lawful.{HasForm};
ghost use Rattle.transcript_check.specs.Order.{IsFormed};
ghost use Rattle.transcript_check.specs.Found.{IsFound, AreAllTold};

use crate::form::{Numbered, formed};
use crate::pass::{Seen, pass};
use crate::replay::ends_as;
use machine::{Place, Script, Transcript, Verdict};
use outer::Matcher;
use plain_replay::Plain;
use points::NoMemory;
use snapshot_check::{Linked, all_takes, first_doubt, linked_takes};
use std::alloc::Global;

/// Tells whether a transcript is lawful for a script, and else where it first fails: in its form, at a call, at a take or at its
/// end, in this order; among the calls at the least number, among the takes at the first in script order.
///
/// The opening text is the one that the script opens with. There is one matcher for each pattern of the script, in script order.
/// Where a matcher doesn't tell its hits, a take through which its pattern is read may be named instead of a later place, or of
/// none.
pub fn lawful<M: Matcher>(
    alloc: Global,
    script: &Script,
    opening: &str,
    transcript: &Transcript,
    matchers: &mut Vec<M>,
) -> Result<Verdict, NoMemory>
    requires short { length (utf16_of opening.now) ≤ MAX_UNITS }
    requires sessions { length script.now.sessions < 2 ^ 32 }
    requires commands { sum (map length script.now.sessions) < 2 ^ 32 }
    ensures same { map M.tells matchers.new.items ≡ map M.tells matchers.old.items }
    ensures found { IfOk result (IsFound script.now (utf16_of opening.now) (map M.tells matchers.old.items) transcript.now) }
    ensures told { IfOk result (λ v. AreAllTold script.now (map M.tells matchers.old.items)
        → IsVerdict script.now (utf16_of opening.now) (map M.tells matchers.old.items) transcript.now v) }
{
    match formed(alloc, script, transcript)? {
        None => Ok(Verdict::Unlawful(Place::Form)),
        Some(numbered) => judged(alloc, script, opening, transcript, &numbered, matchers),
    }
}

// The same for a transcript that has the form.
fn judged<M: Matcher>(
    alloc: Global,
    script: &Script,
    opening: &str,
    transcript: &Transcript,
    numbered: &Numbered<'_>,
    matchers: &mut Vec<M>,
) -> Result<Verdict, NoMemory>
    requires short { length (utf16_of opening.now) ≤ MAX_UNITS }
    requires sessions { length script.now.sessions < 2 ^ 32 }
    requires commands { sum (map length script.now.sessions) < 2 ^ 32 }
    requires form { HasForm script.now transcript.now }
    requires calls { IsFormed script.now transcript.now numbered.now.calls.items numbered.now.order.items }
    ensures same { map M.tells matchers.new.items ≡ map M.tells matchers.old.items }
    ensures found { IfOk result (IsFound script.now (utf16_of opening.now) (map M.tells matchers.old.items) transcript.now) }
{
    let calls = numbered.calls.as_slice();
    let replies = transcript.sessions.as_slice();
    let patterns = matchers.as_slice().len();
    let takes = all_takes(alloc, script.sessions.as_slice(), replies, patterns)?;
    let right = unjudged(alloc, takes.as_slice().len())?;
    let linked = linked_takes(alloc, takes, calls.len())?;
    let mut seen = Seen {
        versions: Vec::new(alloc),
        right,
    };
    let mut plain = Plain::start(alloc, opening)?;
    let order = numbered.order.as_slice();
    match pass(
        alloc,
        script.version,
        &mut plain,
        calls,
        order,
        &linked,
        matchers,
        &mut seen,
    )? {
        Some(number) => return Ok(Verdict::Unlawful(Place::Call(number))),
        None => {}
    }
    let versions = seen.versions.as_slice();
    match first_doubt(linked.takes.as_slice(), versions, seen.right.as_slice()) {
        Some(place) => return Ok(Verdict::Unlawful(place)),
        None => {}
    }
    if ends_as(alloc, &transcript.end, calls.len(), plain.text())? {
        Ok(Verdict::Lawful)
    } else {
        Ok(Verdict::Unlawful(Place::End))
    }
}

// So many takes that weren't judged.
fn unjudged(alloc: Global, count: usize) -> Result<Vec<bool>, NoMemory>
    ensures { IfOk result (λ v. v.items ≡ replicate count false) }
{
    let mut right = Vec::new(alloc);
    for _i in 0..count {
        right.push(false)?;
    }
    Ok(right)
}

/// A script has few enough sessions and commands for `lawful`.
pub fn is_small(script: &Script) -> bool
    ensures { result ≡ (nat_lt (length script.now.sessions) (2 ^ 32) && nat_lt (sum (map length script.now.sessions)) (2 ^ 32)) }
{
    let sessions = script.sessions.as_slice();
    let mut total = 0u64;
    for i in 0..sessions.len() {
        total = total.saturating_add(sessions[i].as_slice().len() as u64);
    }
    sessions.len() < 1 << 32 && total < 1 << 32
}
