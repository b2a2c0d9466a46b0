//! The call `check`: it reads a script and a transcript from files, and says whether the transcript is lawful for the script, or
//! where it first isn't.
ghost use Rattle.std.specs.Prelude.{◌≡◌, ◌≤◌, ◌⊎◌, None, length, true, false, IsOk, IfOk, IfErr, IfSome, string_bytes};
ghost use Rattle.points.specs.Text.{utf16_of};
ghost use Rattle.points.specs.declared.limits.TheConstants.{MAX_UNITS};
ghost use Rattle.outer.specs.Count.{Rose};
ghost use Rattle.outer.specs.Folder.{KeepsAll};
ghost use Rattle.script.specs.Limits.{IsWithinLimits};
ghost use Rattle.buffer_cli.specs.Patterns.{told_hits};
ghost use Rattle.buffer_cli.specs.Run.{refuses_pattern};
ghost use Rattle.buffer_cli.specs.Words.{check_names};
ghost use Rattle.buffer_cli.specs.Check.{Checks, IsFit, is_verdict, verdict_text, place_words, status_of_verdict, Judges, IsVerdictOf, IsVerdictOn, IsRefusal, IsStop, IsRunStop, AreRead, Writes};

use crate::answer::commands_of;
use crate::input::InputFault;
use crate::load::{Unloaded, fetch, load};
use crate::matchers::{MakeFault, make_all};
use crate::output::write_all;
use crate::status::Status;
use crate::words::check_words;
use command_words::WordsRefusal;
use machine::{Opening, Place, Script, Transcript, Verdict};
use outer::{Folder, PatternMaker, Sink};
use points::NoMemory;
use script::{ScriptRefusal, read_script};
use std::alloc::{AllocError, Global};
use transcript_check::lawful;
use transcripts::read_transcript;

impl From<ScriptRefusal> for Status {
    ghost use Rattle.std.specs.Prelude.{◌≡◌};
    ghost use Rattle.buffer_cli.specs.Check.{of_script};

    ghost from_gives = { λ refusal status. status ≡ of_script refusal };

    fn from(refusal: ScriptRefusal) -> Self {
        match refusal {
            ScriptRefusal::Refused {
                session,
                command,
                why,
            } => Status::ScriptRefused {
                session,
                command,
                why,
            },
            ScriptRefusal::NoMemory => Status::NoMemory,
        }
    }
}

impl From<InputFault> for Status {
    ghost use Rattle.std.specs.Prelude.{◌≡◌};
    ghost use Rattle.buffer_cli.specs.Check.{of_input};

    ghost from_gives = { λ fault status. status ≡ of_input fault };

    fn from(fault: InputFault) -> Self {
        match fault {
            InputFault::Failed => Status::LoadFault,
            InputFault::TooLong => Status::InputTooLong,
            InputFault::NoMemory => Status::NoMemory,
        }
    }
}

impl From<Unloaded> for Status {
    ghost use Rattle.std.specs.Prelude.{◌≡◌};
    ghost use Rattle.buffer_cli.specs.Check.{of_file};

    ghost from_gives = { λ fault status. status ≡ of_file fault };

    fn from(fault: Unloaded) -> Self {
        match fault {
            Unloaded::Failed => Status::LoadFault,
            Unloaded::TooLong => Status::InputTooLong,
            Unloaded::TextTooLong => Status::TextTooLong,
            Unloaded::NoMemory => Status::NoMemory,
        }
    }
}

impl From<NoMemory> for Status {
    ghost use Rattle.std.specs.Prelude.{◌≡◌};
    ghost use Rattle.buffer_cli.specs.declared.status.Status.TheVariants as status;

    ghost from_gives = { λ _ s. s ≡ status.NoMemory };

    fn from(_refusal: NoMemory) -> Self {
        Status::NoMemory
    }
}

/// Checks a transcript, and writes what was found and a line feed: `lawful`, or `unlawful` and the first place where it isn't.
/// The words are those behind the program's name. They name the file of the script and that of the transcript, which are fetched
/// from `folder`, as is the file that the script opens, if it opens one. `patterns` makes the matchers of the script's patterns.
pub fn run_check<O: Sink, F: Folder, P: PatternMaker>(
    alloc: Global,
    words: &[String],
    folder: &mut F,
    patterns: &mut P,
    output: &mut O,
) -> Status
    // Each status but Usage has its cause in the files that the words name and in what the output took. Done comes where the bytes of
    // the one are a script's and those of the other a transcript that is lawful for it, Unlawful where they aren't such a transcript, at
    // the first place that fails. That is said of patterns whose hits the maker tells; where it doesn't tell the hits of one, a take
    // through which it is read may be named in place of a later one, or of none.
    ensures outcome { IfSome (check_names words.now) (λ names. Checks result (record {
      script = names.0;
      transcript = names.1;
      tells = P.hits patterns.old;
      last = P.refused patterns.new;
      files = F.files folder.old;
      files_after = F.files folder.new;
      before = O.taken output.old;
      after = O.taken output.new;
    })) }

    // Usage comes exactly where the words are no command line of `check`, unless memory ran out. Then nothing is read or written.
    ensures usage { result ≡ Status.Usage → check_names words.now ≡ None }
    ensures no_line { check_names words.now ≡ None → ((result ≡ Status.Usage) ⊎ (result ≡ Status.NoMemory))
        × (O.taken output.new ≡ O.taken output.old) × KeepsAll (F.files folder.old) (F.files folder.new) }

    // A fault is one of the outside.
    ensures output_count { O.faults output.old ≤ O.faults output.new }
    ensures pattern_count { P.refusals patterns.old ≤ P.refusals patterns.new }
    ensures load_count { F.loads folder.old ≤ F.loads folder.new }
    ensures save_count { F.saves folder.new ≡ F.saves folder.old }
    ensures write_fault { result ≡ Status.WriteFault → Rose (O.faults output.old) (O.faults output.new) }
    ensures load_fault { result ≡ Status.LoadFault → Rose (F.loads folder.old) (F.loads folder.new) }
    ensures pattern_refused { refuses_pattern result ≡ true → Rose (P.refusals patterns.old) (P.refusals patterns.new) }

    // Where nothing fails, and the files that the folder still tells are within their limits and the one is a script's, there is a verdict, unless memory ran out.
    ensures complete { IfSome (check_names words.now) (λ names. IfSome (F.files folder.new) (λ files. IsFit files names.0 names.1
        → ¬ Rose (O.faults output.old) (O.faults output.new) → ¬ Rose (F.loads folder.old) (F.loads folder.new)
        → ¬ Rose (P.refusals patterns.old) (P.refusals patterns.new)
        → (is_verdict result ≡ true) ⊎ (result ≡ Status.NoMemory))) }
{
    match check_words(alloc, words) {
        Ok(names) => check_files(
            alloc,
            names.script.as_str(),
            names.transcript.as_str(),
            folder,
            patterns,
            output,
        ),
        Err(WordsRefusal::Usage) => Status::Usage,
        Err(WordsRefusal::NoMemory) => Status::NoMemory,
    }
}

// Checks the transcript in the file with the one name for the script in that with the other.
fn check_files<O: Sink, F: Folder, P: PatternMaker>(
    alloc: Global,
    script: &str,
    transcript: &str,
    folder: &mut F,
    patterns: &mut P,
    output: &mut O,
) -> Status
    ensures outcome { Checks result (record {
      script = script.now;
      transcript = transcript.now;
      tells = P.hits patterns.old;
      last = P.refused patterns.new;
      files = F.files folder.old;
      files_after = F.files folder.new;
      before = O.taken output.old;
      after = O.taken output.new;
    }) }
    ensures output_count { O.faults output.old ≤ O.faults output.new }
    ensures pattern_count { P.refusals patterns.old ≤ P.refusals patterns.new }
    ensures load_count { F.loads folder.old ≤ F.loads folder.new }
    ensures save_count { F.saves folder.new ≡ F.saves folder.old }
    ensures write_fault { result ≡ Status.WriteFault → Rose (O.faults output.old) (O.faults output.new) }
    ensures load_fault { result ≡ Status.LoadFault → Rose (F.loads folder.old) (F.loads folder.new) }
    ensures pattern_refused { refuses_pattern result ≡ true → Rose (P.refusals patterns.old) (P.refusals patterns.new) }
{
    match verdict_on(alloc, script, transcript, folder, patterns) {
        Ok(verdict) => write_verdict(alloc, verdict, output),
        Err(status) => status,
    }
}

// Writes a verdict, and answers its status.
fn write_verdict<O: Sink>(alloc: Global, verdict: Verdict, output: &mut O) -> Status
    ensures writes { Writes result verdict (O.taken output.old) (O.taken output.new) }
    ensures count { O.faults output.old ≤ O.faults output.new }
    ensures cause { result ≡ Status.WriteFault → Rose (O.faults output.old) (O.faults output.new) }
{
    let Ok(line) = verdict_line(alloc, verdict) else {
        return Status::NoMemory;
    };
    match write_all(output, line.as_str().as_bytes()) {
        Ok(()) => status_of_verdict(verdict),
        Err(_) => Status::WriteFault,
    }
}

fn status_of_verdict(verdict: Verdict) -> Status
    ensures { result ≡ status_of_verdict verdict }
{
    match verdict {
        Verdict::Lawful => Status::Done,
        Verdict::Unlawful(place) => Status::Unlawful { place },
    }
}

// The line of a verdict.
fn verdict_line(alloc: Global, verdict: Verdict) -> Result<String, AllocError>
    ensures { IfOk result (λ line. string_bytes line ≡ verdict_text verdict) }
{
    match verdict {
        Verdict::Lawful => format!(in alloc; "lawful\n"),
        Verdict::Unlawful(place) => {
            let words = place_words(alloc, place)?;
            format!(in alloc; "unlawful {words}\n")
        }
    }
}

fn place_words(alloc: Global, place: Place) -> Result<String, AllocError>
    ensures { IfOk result (λ words. string_bytes words ≡ place_words place) }
{
    match place {
        Place::Form => format!(in alloc; "form"),
        Place::Call(number) => format!(in alloc; "call {number}"),
        Place::Snapshot { session, command } => {
            format!(in alloc; "snapshot {session} {command}")
        }
        Place::End => format!(in alloc; "end"),
    }
}

/// The bytes of both files.
#[derive(Drop)]
struct Documents {
    script: Vec<u8>,
    transcript: Vec<u8>,
}

// The verdict on the files with these names, or the status of what stands in its way.
fn verdict_on<F: Folder, P: PatternMaker>(
    alloc: Global,
    script: &str,
    transcript: &str,
    folder: &mut F,
    patterns: &mut P,
) -> Result<Verdict, Status>
    ensures ok { IfOk result (IsVerdictOn (P.hits patterns.old) script.now transcript.now (F.files folder.new)) }
    ensures kept { IsOk result → KeepsAll (F.files folder.old) (F.files folder.new) }
    ensures refused { IfErr result (IsStop script.now transcript.now (P.refused patterns.new) (F.files folder.old) (F.files folder.new)) }
    ensures pattern_count { P.refusals patterns.old ≤ P.refusals patterns.new }
    ensures load_count { F.loads folder.old ≤ F.loads folder.new }
    ensures save_count { F.saves folder.new ≡ F.saves folder.old }
    ensures unloaded { result ≡ Err Status.LoadFault → Rose (F.loads folder.old) (F.loads folder.new) }
    ensures unmade { IfErr result (λ s. refuses_pattern s ≡ true → Rose (P.refusals patterns.old) (P.refusals patterns.new)) }
{
    let documents = fetch_both(alloc, script, transcript, folder)?;
    judge(alloc, &documents, folder, patterns)
}

// Both files, the script's first.
fn fetch_both<F: Folder>(
    alloc: Global,
    script: &str,
    transcript: &str,
    folder: &mut F,
) -> Result<Documents, Status>
    ensures read { AreRead script.now transcript.now (F.files folder.old) (F.files folder.new) result }
    ensures load_count { F.loads folder.old ≤ F.loads folder.new }
    ensures save_count { F.saves folder.new ≡ F.saves folder.old }
    ensures unloaded { result ≡ Err Status.LoadFault → Rose (F.loads folder.old) (F.loads folder.new) }
    ensures unmade { IfErr result (λ s. refuses_pattern s ≡ false) }
{
    let script = fetch(alloc, folder, script)?;
    let transcript = fetch(alloc, folder, transcript)?;
    Ok(Documents { script, transcript })
}

// The verdict on both documents.
fn judge<F: Folder, P: PatternMaker>(
    alloc: Global,
    documents: &Documents,
    folder: &mut F,
    patterns: &mut P,
) -> Result<Verdict, Status>
    ensures ok { IfOk result (IsVerdictOf (P.hits patterns.old) (F.files folder.old) documents.now.script.items documents.now.transcript.items) }
    ensures kept { IsOk result → KeepsAll (F.files folder.old) (F.files folder.new) }
    ensures refused { IfErr result (IsRefusal documents.now.script.items (P.refused patterns.new) (F.files folder.old) (F.files folder.new)) }
    ensures pattern_count { P.refusals patterns.old ≤ P.refusals patterns.new }
    ensures load_count { F.loads folder.old ≤ F.loads folder.new }
    ensures save_count { F.saves folder.new ≡ F.saves folder.old }
    ensures unloaded { result ≡ Err Status.LoadFault → Rose (F.loads folder.old) (F.loads folder.new) }
    ensures unmade { IfErr result (λ s. refuses_pattern s ≡ true → Rose (P.refusals patterns.old) (P.refusals patterns.new)) }
{
    let script = read_script(alloc, documents.script.as_slice())?;
    let Some(transcript) = read_transcript(alloc, documents.transcript.as_slice())? else {
        return Ok(Verdict::Unlawful(Place::Form));
    };
    match &script.opening {
        Opening::Text { text } => judge_over(alloc, &script, text.as_str(), &transcript, patterns),
        Opening::File { name, encoding } => {
            let text = load(alloc, folder, name.as_str(), *encoding)?;
            judge_over(alloc, &script, text.as_str(), &transcript, patterns)
        }
    }
}

// The verdict on a transcript of a script that opens with this text.
fn judge_over<P: PatternMaker>(
    alloc: Global,
    script: &Script,
    text: &str,
    transcript: &Transcript,
    patterns: &mut P,
) -> Result<Verdict, Status>
    requires limits { IsWithinLimits script.now }
    requires short { length (utf16_of text.now) ≤ MAX_UNITS }
    ensures ok { IfOk result (Judges (told_hits (P.hits patterns.old) script.now) (utf16_of text.now) script.now transcript.now) }
    ensures refused { IfErr result (IsRunStop script.now (P.refused patterns.new)) }
    ensures count { P.refusals patterns.old ≤ P.refusals patterns.new }
    ensures unmade { IfErr result (λ s. refuses_pattern s ≡ true → Rose (P.refusals patterns.old) (P.refusals patterns.new)) }
{
    let mut matchers = match make_all(alloc, patterns, commands_of(script)) {
        Ok(matchers) => matchers,
        Err(MakeFault::Refused { command }) => return Err(Status::PatternRefused {
            session: 1,
            command,
        }),
        Err(MakeFault::NoMemory) => return Err(Status::NoMemory),
    };
    let verdict = lawful(alloc, script, text, transcript, &mut matchers)?;
    Ok(verdict)
}
