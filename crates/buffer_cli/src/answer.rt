//! From the bytes of a script to those of its transcript: they are read, the file that it opens is loaded, the matchers of its
//! patterns and the sinks of its saves are made, the commands of the one session are answered in turn, what was saved is put in its
//! place, and the replies are written.
ghost use Rattle.std.specs.Prelude.{◌≡◌, ◌≤◌, ◌<◌, ◌∷◌, [], length, map, true, IfOk, IfErr, OnOk, IsErrOf};
ghost use Rattle.std.specs.List.{AllByRecursion};
ghost use Rattle.points.specs.Text.{utf16_of};
ghost use Rattle.points.specs.declared.limits.TheConstants.{MAX_UNITS};
ghost use Rattle.drafts.specs.Drafts.{KeepsBut, has_faulty};
ghost use Rattle.machine.specs.Lawful.{IsLawful};
ghost use Rattle.machine.specs.Machine.{opened};
ghost use Rattle.outer.specs.Count.{Rose};
ghost use Rattle.watch.specs.Listed.{heard_count};
ghost use Rattle.script.specs.Limits.{IsWithinLimits};
ghost use Rattle.buffer_cli.specs.Patterns.{script_patterns, told_hits};
ghost use Rattle.script.specs.ScriptDocument.{script_in};
ghost use Rattle.buffer_cli.specs.Run.{AreSaved, IsAnswer, IsWritten, IsCause, IsRunCause, is_of_pattern, of_script};
ghost use Rattle.buffer_cli.specs.Saved.{TakeInTurn, names_of, names_saved, saved_files};

use crate::load::{Unloaded, load};
use crate::matchers::{MakeFault, make_all};
use crate::saves::names_of;
use crate::session::{Session, answer_all};
use crate::stop::Stop;
use buffer::{Buffer, Snapshots};
use drafts::{discard_all, keep_all};
use machine::{Command, Opening, Script, Sequence, Transcript, TranscriptEnd};
use outer::{Folder, FolderRefusal, Matcher, PatternMaker, Sink, SureSink};
use points::NoMemory;
use script::{ScriptRefusal, ScriptRule, read_script, transcript_bytes};
use std::alloc::Global;
use watch::ListWatcher;

/// Why a script has no answer.
#[derive(Drop)]
pub(crate) enum Unanswered {
    /// It breaks this rule, first at this place.
    ScriptRefused {
        session: u32,
        command: u32,
        why: ScriptRule,
    },
    /// The maker refused a pattern that this place reads.
    PatternRefused {
        session: u32,
        command: u32,
    },
    /// A file that it saves couldn't be made, written or put in its place.
    SaveFault,
    /// The file that it opens couldn't be read.
    LoadFault,
    /// That file has more than 2^26 bytes.
    InputTooLong,
    /// Its text has more than 2^24 units.
    TextTooLong,
    NoMemory,
}

impl From<ScriptRefusal> for Unanswered {
    ghost from_gives = { λ refusal unanswered. unanswered ≡ of_script refusal };

    fn from(refusal: ScriptRefusal) -> Self {
        match refusal {
            ScriptRefusal::Refused {
                session,
                command,
                why,
            } => Unanswered::ScriptRefused {
                session,
                command,
                why,
            },
            ScriptRefusal::NoMemory => Unanswered::NoMemory,
        }
    }
}

impl From<Unloaded> for Unanswered {
    ghost use Rattle.std.specs.Prelude.{◌≡◌};
    ghost use Rattle.buffer_cli.specs.Run.{of_file};

    ghost from_gives = { λ fault unanswered. unanswered ≡ of_file fault };

    fn from(fault: Unloaded) -> Self {
        match fault {
            Unloaded::Failed => Unanswered::LoadFault,
            Unloaded::TooLong => Unanswered::InputTooLong,
            Unloaded::TextTooLong => Unanswered::TextTooLong,
            Unloaded::NoMemory => Unanswered::NoMemory,
        }
    }
}

impl From<NoMemory> for Unanswered {
    ghost use Rattle.std.specs.Prelude.{◌≡◌};
    ghost use Rattle.buffer_cli.specs.declared.answer.Unanswered.TheVariants as unanswered;

    ghost from_gives = { λ _ fault. fault ≡ unanswered.NoMemory };

    fn from(_refusal: NoMemory) -> Self {
        Unanswered::NoMemory
    }
}

/// The text of a lawful transcript of the script with these bytes. What the script saves stands in the folder then.
pub(crate) fn answer<F: Folder, P: PatternMaker>(
    alloc: Global,
    bytes: Vec<u8>,
    folder: &mut F,
    patterns: &mut P,
    watchers: Vec<Box<ListWatcher>>,
) -> Result<Vec<u8>, Unanswered>
    requires watchers { length watchers.items ≡ 64 }
    requires unheard { AllByRecursion (λ w. heard_count w.value ≡ 0) watchers.items }
    ensures ok { IfOk result (λ text. IsAnswer (P.hits patterns.old) (F.files folder.old) (F.files folder.new) bytes.items text.items) }
    ensures beside { OnOk result (KeepsBut (names_of (script_in bytes.items)) (F.files folder.old) (F.files folder.new)) }
    ensures refused { IfErr result (IsCause bytes.items (P.refused patterns.new) (F.files folder.old) (F.files folder.new)) }
    ensures count { P.refusals patterns.old ≤ P.refusals patterns.new }
    ensures load_count { F.loads folder.old ≤ F.loads folder.new }
    ensures save_count { F.saves folder.old ≤ F.saves folder.new }
    ensures cause { IfErr result (λ why. is_of_pattern why ≡ true → Rose (P.refusals patterns.old) (P.refusals patterns.new)) }
    ensures unloaded { IfErr result (λ why. why ≡ Unanswered.LoadFault → Rose (F.loads folder.old) (F.loads folder.new)) }
    ensures unsaved { IfErr result (λ why. why ≡ Unanswered.SaveFault → Rose (F.saves folder.old) (F.saves folder.new)) }
{
    let script = read_script(alloc, bytes.as_slice())?;
    drop(bytes);
    match &script.opening {
        Opening::Text { text } => {
            answer_over(alloc, &script, text.as_str(), folder, patterns, watchers)
        }
        Opening::File { name, encoding } => {
            let text = load(alloc, folder, name.as_str(), *encoding)?;
            answer_over(alloc, &script, text.as_str(), folder, patterns, watchers)
        }
    }
}

// The text of a lawful transcript of a script that opens with this text. What the script saves stands in the folder then.
fn answer_over<F: Folder, P: PatternMaker>(
    alloc: Global,
    script: &Script,
    text: &str,
    folder: &mut F,
    patterns: &mut P,
    watchers: Vec<Box<ListWatcher>>,
) -> Result<Vec<u8>, Unanswered>
    requires limits { IsWithinLimits script.now }
    requires short { length (utf16_of text.now) ≤ MAX_UNITS }
    requires watchers { length watchers.items ≡ 64 }
    requires unheard { AllByRecursion (λ w. heard_count w.value ≡ 0) watchers.items }
    ensures ok { IfOk result (λ bytes. IsWritten script.now (utf16_of text.now) (told_hits (P.hits patterns.old) script.now) bytes.items) }
    ensures saved { OnOk result (AreSaved script.now (utf16_of text.now) (F.files folder.new)) }
    ensures beside { OnOk result (KeepsBut (names_saved script.now.sessions) (F.files folder.old) (F.files folder.new)) }
    ensures refused { IfErr result (IsRunCause script.now (P.refused patterns.new) (F.files folder.old) (F.files folder.new)) }
    ensures count { P.refusals patterns.old ≤ P.refusals patterns.new }
    ensures loads { F.loads folder.new ≡ F.loads folder.old }
    ensures save_count { F.saves folder.old ≤ F.saves folder.new }
    ensures cause { IfErr result (λ why. is_of_pattern why ≡ true → Rose (P.refusals patterns.old) (P.refusals patterns.new)) }
    ensures unsaved { IfErr result (λ why. why ≡ Unanswered.SaveFault → Rose (F.saves folder.old) (F.saves folder.new)) }
{
    let matchers = match make_all(alloc, patterns, commands_of(script)) {
        Ok(matchers) => matchers,
        Err(MakeFault::Refused { command }) => return Err(Unanswered::PatternRefused {
            session: 1,
            command,
        }),
        Err(MakeFault::NoMemory) => return Err(Unanswered::NoMemory),
    };
    let names = match names_of(alloc, commands_of(script)) {
        Ok(names) => names,
        Err(NoMemory) => return Err(Unanswered::NoMemory),
    };
    if names.is_empty() {
        return match write_unsaved(alloc, script, text, matchers, watchers) {
            Ok(bytes) => Ok(bytes),
            Err(NoMemory) => Err(Unanswered::NoMemory),
        };
    }
    match write_saving(
        alloc,
        script,
        text,
        names.as_slice(),
        folder,
        matchers,
        watchers,
    ) {
        Ok(bytes) => Ok(bytes),
        Err(Stop::SaveFault) => Err(Unanswered::SaveFault),
        Err(Stop::NoMemory) => Err(Unanswered::NoMemory),
    }
}

// The text of a lawful transcript of a script without saves.
fn write_unsaved<M: Matcher>(
    alloc: Global,
    script: &Script,
    text: &str,
    matchers: Vec<M>,
    watchers: Vec<Box<ListWatcher>>,
) -> Result<Vec<u8>, NoMemory>
    requires limits { IsWithinLimits script.now }
    requires short { length (utf16_of text.now) ≤ MAX_UNITS }
    requires matchers { length matchers.items ≡ length (script_patterns script.now.sessions) }
    requires none { length (names_saved script.now.sessions) ≡ 0 }
    requires watchers { length watchers.items ≡ 64 }
    requires unheard { AllByRecursion (λ w. heard_count w.value ≡ 0) watchers.items }
    ensures { IfOk result (λ bytes. IsWritten script.now (utf16_of text.now) (map M.tells matchers.items) bytes.items) }
{
    let transcript = perform_unsaved(alloc, script, text, matchers, watchers)?;
    let bytes = transcript_bytes(alloc, &transcript)?;
    Ok(bytes)
}

// The text of a lawful transcript of a script that saves under these names. Its sinks are made before it runs, and they are kept or
// given up behind it, whatever came of it.
fn write_saving<F: Folder, M: Matcher>(
    alloc: Global,
    script: &Script,
    text: &str,
    names: &[&str],
    folder: &mut F,
    matchers: Vec<M>,
    watchers: Vec<Box<ListWatcher>>,
) -> Result<Vec<u8>, Stop>
    requires limits { IsWithinLimits script.now }
    requires short { length (utf16_of text.now) ≤ MAX_UNITS }
    requires matchers { length matchers.items ≡ length (script_patterns script.now.sessions) }
    requires names { map (λ n. n.now) names.now ≡ names_saved script.now.sessions }
    requires watchers { length watchers.items ≡ 64 }
    requires unheard { AllByRecursion (λ w. heard_count w.value ≡ 0) watchers.items }
    ensures ok { IfOk result (λ bytes. IsWritten script.now (utf16_of text.now) (map M.tells matchers.items) bytes.items) }
    ensures saved { OnOk result (AreSaved script.now (utf16_of text.now) (F.files folder.new)) }
    ensures beside { KeepsBut (names_saved script.now.sessions) (F.files folder.old) (F.files folder.new) }
    ensures loads { F.loads folder.new ≡ F.loads folder.old }
    ensures save_count { F.saves folder.old ≤ F.saves folder.new }
    ensures unsaved { IsErrOf result Stop.SaveFault → Rose (F.saves folder.old) (F.saves folder.new) }
{
    let mut sinks = match drafts::make_all(alloc, folder, names) {
        Ok(sinks) => sinks,
        Err(FolderRefusal::Failed) => return Err(Stop::SaveFault),
        Err(FolderRefusal::NoMemory) => return Err(Stop::NoMemory),
    };
    match write_with(alloc, script, text, matchers, &mut sinks, watchers) {
        Ok(bytes) => match keep_all(folder, names, sinks) {
            Ok(()) => Ok(bytes),
            Err(_) => Err(Stop::SaveFault),
        },
        Err(why) => {
            discard_all(folder, sinks);
            Err(why)
        }
    }
}

// The text of a lawful transcript of a script whose saves are put to these sinks.
fn write_with<M: Matcher, K: Sink + Drop>(
    alloc: Global,
    script: &Script,
    text: &str,
    matchers: Vec<M>,
    sinks: &mut Vec<K>,
    watchers: Vec<Box<ListWatcher>>,
) -> Result<Vec<u8>, Stop>
    requires limits { IsWithinLimits script.now }
    requires short { length (utf16_of text.now) ≤ MAX_UNITS }
    requires matchers { length matchers.items ≡ length (script_patterns script.now.sessions) }
    requires sinks { length sinks.old.items ≡ length (names_saved script.now.sessions) }
    requires watchers { length watchers.items ≡ 64 }
    requires unheard { AllByRecursion (λ w. heard_count w.value ≡ 0) watchers.items }
    ensures ok { IfOk result (λ bytes. IsWritten script.now (utf16_of text.now) (map M.tells matchers.items) bytes.items) }
    ensures saved { OnOk result (AllByRecursion (λ cs. TakeInTurn (saved_files (opened (utf16_of text.now)) [] cs) (map K.taken sinks.old.items) (map K.taken sinks.new.items)) script.now.sessions) }
    ensures many { length sinks.new.items ≡ length sinks.old.items }
    ensures failed { IsErrOf result Stop.SaveFault → has_faulty K.faults sinks.new.items ≡ true }
{
    let transcript = perform(alloc, script, text, matchers, sinks, watchers)?;
    let bytes = transcript_bytes(alloc, &transcript)?;
    Ok(bytes)
}

/// A lawful transcript of a script without saves that opens with this text. There is one matcher for each pattern.
pub(crate) fn perform_unsaved<M: Matcher>(
    alloc: Global,
    script: &Script,
    text: &str,
    matchers: Vec<M>,
    watchers: Vec<Box<ListWatcher>>,
) -> Result<Transcript, NoMemory>
    requires limits { IsWithinLimits script.now }
    requires short { length (utf16_of text.now) ≤ MAX_UNITS }
    requires matchers { length matchers.items ≡ length (script_patterns script.now.sessions) }
    requires none { length (names_saved script.now.sessions) ≡ 0 }
    requires watchers { length watchers.items ≡ 64 }
    requires unheard { AllByRecursion (λ w. heard_count w.value ≡ 0) watchers.items }
    ensures { IfOk result (IsLawful script.now (utf16_of text.now) (map M.tells matchers.items)) }
{
    let mut sinks: Vec<SureSink> = Vec::new(alloc);
    match perform(alloc, script, text, matchers, &mut sinks, watchers) {
        Ok(transcript) => Ok(transcript),
        Err(_) => Err(NoMemory),
    }
}

/// A lawful transcript of a script that opens with this text: what its one session is answered, call by call. There is one matcher
/// for each pattern, and one sink for each save.
fn perform<M: Matcher, K: Sink + Drop>(
    alloc: Global,
    script: &Script,
    text: &str,
    mut matchers: Vec<M>,
    sinks: &mut Vec<K>,
    watchers: Vec<Box<ListWatcher>>,
) -> Result<Transcript, Stop>
    requires limits { IsWithinLimits script.now }
    requires short { length (utf16_of text.now) ≤ MAX_UNITS }
    requires matchers { length matchers.items ≡ length (script_patterns script.now.sessions) }
    requires sinks { length sinks.old.items ≡ length (names_saved script.now.sessions) }
    requires watchers { length watchers.items ≡ 64 }
    requires unheard { AllByRecursion (λ w. heard_count w.value ≡ 0) watchers.items }
    ensures lawful { IfOk result (IsLawful script.now (utf16_of text.now) (map M.tells matchers.items)) }
    ensures saved { OnOk result (AllByRecursion (λ cs. TakeInTurn (saved_files (opened (utf16_of text.now)) [] cs) (map K.taken sinks.old.items) (map K.taken sinks.new.items)) script.now.sessions) }
    ensures many { length sinks.new.items ≡ length sinks.old.items }
    ensures failed { IsErrOf result Stop.SaveFault → has_faulty K.faults sinks.new.items ≡ true }
{
    let mut session = Session {
        buffer: Buffer::open(alloc, text)?,
        snapshots: Snapshots::new(alloc),
        watchers,
    };
    let replies = answer_all(
        alloc,
        &mut session,
        &mut matchers,
        sinks,
        commands_of(script),
    )?;
    let mut sessions = Vec::new(alloc);
    sessions.push(Sequence::new(replies))?;
    Ok(Transcript {
        end: TranscriptEnd {
            count: session.buffer.count,
            text: session.buffer.to_text()?,
        },
        sessions: Sequence::new(sessions),
        version: script.version,
    })
}

/// The commands of the one session.
pub(crate) fn commands_of(script: &Script) -> &[Command]
    requires { IsWithinLimits script.now }
    ensures { script.now.sessions ≡ result.now ∷ [] }
{
    script.sessions.as_slice()[0].as_slice()
}
