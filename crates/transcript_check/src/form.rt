//! Whether a transcript has the form of its script, and its numbered calls in their order.
ghost use Rattle.std.specs.Prelude.{MatchOption, IfOk};
ghost use Rattle.machine.specs.Lawful.{HasForm};
ghost use Rattle.transcript_check.specs.Order.{IsFormed};

use crate::calls::{Called, entries};
use crate::forms::sessions_have_forms;
use crate::order::in_order;
use crate::rising::all_rise;
use machine::{Script, Transcript};
use points::NoMemory;
use std::alloc::Global;

/// The numbered calls of a transcript in script order, and where each number stands among them.
#[derive(Drop)]
pub(crate) struct Numbered<'a> {
    pub(crate) calls: Vec<Called<'a>>,
    pub(crate) order: Vec<usize>,
}

/// The calls of a transcript that has the form; none where it doesn't.
pub(crate) fn formed<'a>(
    alloc: Global,
    script: &'a Script,
    transcript: &'a Transcript,
) -> Result<Option<Numbered<'a>>, NoMemory>
    ensures form { IfOk result (λ o. MatchOption o (HasForm script.now transcript.now → ⊥) (λ f. HasForm script.now transcript.now)) }
    ensures calls { IfOk result (λ o. MatchOption o (Unit {0}) (λ f. IsFormed script.now transcript.now f.calls.items f.order.items)) }
{
    if transcript.version != script.version {
        return Ok(None);
    }
    let sessions = script.sessions.as_slice();
    let replies = transcript.sessions.as_slice();
    if !sessions_have_forms(script.version, sessions, replies) {
        return Ok(None);
    }
    if !all_rise(replies) {
        return Ok(None);
    }
    let calls = entries(alloc, sessions, replies)?;
    match in_order(alloc, calls.as_slice())? {
        None => Ok(None),
        Some(order) => Ok(Some(Numbered { calls, order })),
    }
}
