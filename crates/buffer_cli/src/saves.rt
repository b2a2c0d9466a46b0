//! The saves of a session: the names of their files, and a text that is put to the next sink.
ghost use Rattle.std.specs.Prelude.{◌≡◌, ◌<◌, ◌++◌, [], ◌∷◌, length, map, true, IfOk, OnOk, IsErrOf};
ghost use Rattle.points.specs.Text.{IsWellFormed};
ghost use Rattle.drafts.specs.Drafts.{has_faulty};
ghost use Rattle.machine.specs.Encodings.{encode};
ghost use Rattle.machine.specs.declared.reads.ReadAnswer.TheVariants as answer;
ghost use Rattle.script.specs.Limits.{names_among, saved_names};
ghost use Rattle.buffer_cli.specs.Saved.{TakeInTurn};

use crate::matchers::reads_of;
use crate::stop::Stop;
use buffer::Snapshot;
use codecs::save;
use machine::{Command, Encoding, Read, ReadAnswer};
use outer::Sink;
use points::NoMemory;
use std::alloc::Global;

/// Puts the text of a snapshot to the first of the sinks, which then stands last.
pub(crate) fn save_next<K: Sink + Drop>(
    snapshot: &Snapshot,
    encoding: Encoding,
    sinks: &mut Vec<K>,
) -> Result<ReadAnswer, Stop>
    requires whole { IsWellFormed snapshot.now.text }
    requires some { 0 < length sinks.old.items }
    ensures answer { IfOk result (λ a. a ≡ answer.Saved (length (encode encoding snapshot.now.text))) }
    ensures saved { OnOk result (TakeInTurn (encode encoding snapshot.now.text ∷ []) (map K.taken sinks.old.items) (map K.taken sinks.new.items)) }
    ensures many { length sinks.new.items ≡ length sinks.old.items }
    ensures failed { IsErrOf result Stop.SaveFault → has_faulty K.faults sinks.new.items ≡ true }
{
    let mut sink = sinks.remove(0);
    let saved = save(snapshot.reader(), encoding, &mut sink);
    sinks.push_reserved(sink);
    match saved {
        Ok(bytes) => Ok(ReadAnswer::Saved { bytes }),
        Err(_) => Err(Stop::SaveFault),
    }
}

/// The names under which these commands save, in their order.
pub(crate) fn names_of<'s>(alloc: Global, commands: &'s [Command]) -> Result<Vec<&'s str>, NoMemory>
    ensures { IfOk result (λ names. map (λ n. n.now) names.items ≡ saved_names commands.now) }
{
    let mut names = Vec::new(alloc);
    for command in commands {
        add_names(reads_of(command), &mut names)?;
    }
    Ok(names)
}

// Puts the names under which these reads save behind those that are there.
fn add_names<'s>(reads: &'s [Read], names: &mut Vec<&'s str>) -> Result<(), NoMemory>
    ensures { OnOk result (map (λ n. n.now) names.new.items ≡ map (λ n. n.now) names.old.items ++ names_among reads.now) }
{
    for read in reads {
        if let Read::Save { name, .. } = read {
            names.push(name.as_str())?;
        }
    }
    Ok(())
}
