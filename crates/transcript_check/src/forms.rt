//! Whether each reply has a form that its command can have.
ghost use Rattle.std.specs.Prelude.{◌≡◌, ℕ, List};
ghost use Rattle.points.specs.declared.range.Range.{Range};
ghost use Rattle.machine.specs.declared.reads.Encoding.{Encoding};
ghost use Rattle.machine.specs.Lawful as lawful;
ghost use Rattle.machine.specs.Lawful.{refuses};

use machine::{CallRefusal, Command, Read, ReadAnswer, Reply, Sequence};

/// One list of replies per session, and in it one reply per command, of that command's form.
pub(crate) fn sessions_have_forms(
    version: u32,
    sessions: &[Sequence<Command>],
    replies: &[Sequence<Reply>],
) -> bool
    ensures { result ≡ lawful.sessions_have_forms version sessions.now replies.now }
{
    if sessions.len() != replies.len() {
        return false;
    }
    for i in 0..sessions.len() {
        if !have_forms(version, sessions[i].as_slice(), replies[i].as_slice()) {
            return false;
        }
    }
    true
}

// One reply per command, of that command's form.
fn have_forms(version: u32, commands: &[Command], replies: &[Reply]) -> bool
    ensures { result ≡ lawful.have_forms version commands.now replies.now }
{
    if commands.len() != replies.len() {
        return false;
    }
    for i in 0..commands.len() {
        if !has_form(version, &commands[i], &replies[i]) {
            return false;
        }
    }
    true
}

// The reply has one of the forms that the command's can have.
fn has_form(version: u32, command: &Command, reply: &Reply) -> bool
    ensures { result ≡ lawful.has_form version command.now reply.now }
{
    match command {
        Command::Edit { .. } => is_edited(reply) || refuses_too_long(reply),
        Command::Batch { edits } => {
            is_batch(version, edits.as_slice().len(), reply) || refuses_too_long(reply)
        }
        Command::Undo | Command::Redo => is_change(version, reply) || refuses_nothing(reply),
        Command::Text { .. } => is_text(reply),
        Command::Mark { .. } => is_numbered(reply) || refuses_mark(reply),
        Command::Unmark { .. } | Command::Exclusive { .. } => {
            is_numbered(reply) || refuses_unknown_mark(reply)
        }
        Command::Range { .. } => is_range(reply) || refuses_unknown_mark(reply),
        Command::Marks { .. } => is_marks(reply),
        Command::Compare { .. } => is_order(reply) || refuses_unknown_mark(reply),
        Command::Watch { .. } => is_numbered(reply) || refuses_watch(reply),
        Command::Unwatch { .. } => is_heard(reply) || refuses_unknown_watch(reply),
        Command::Take { .. } => is_taken(reply),
        Command::Read { reads, .. } => is_answer_to(reads.as_slice(), reply),
        Command::Send { reads, .. } => is_answer_to(reads.as_slice(), reply),
        Command::Release { .. } | Command::Squash => is_nothing(reply),
    }
}

fn is_change(version: u32, reply: &Reply) -> bool
    ensures { result ≡ lawful.is_change version reply.now }
{
    if version == 1 {
        is_edited(reply)
    } else {
        is_batched(reply)
    }
}

fn is_batch(version: u32, members: usize, reply: &Reply) -> bool
    ensures { result ≡ lawful.is_batch version members reply.now }
{
    if version == 1 {
        is_edited(reply)
    } else {
        is_batch_of(members, reply)
    }
}

fn is_edited(reply: &Reply) -> bool
    ensures { result ≡ lawful.is_edited reply.now }
{
    match reply {
        Reply::Edited { .. } => true,
        _ => false,
    }
}

fn is_batched(reply: &Reply) -> bool
    ensures { result ≡ lawful.is_batched reply.now }
{
    match reply {
        Reply::Batched { .. } => true,
        _ => false,
    }
}

fn is_batch_of(members: usize, reply: &Reply) -> bool
    ensures { result ≡ lawful.is_batch_of members reply.now }
{
    match reply {
        Reply::Batched { edits, .. } => edits.as_slice().len() == members,
        _ => false,
    }
}

fn is_text(reply: &Reply) -> bool
    ensures { result ≡ lawful.is_text reply.now }
{
    match reply {
        Reply::Text { .. } => true,
        _ => false,
    }
}

fn is_numbered(reply: &Reply) -> bool
    ensures { result ≡ lawful.is_numbered reply.now }
{
    match reply {
        Reply::Numbered { .. } => true,
        _ => false,
    }
}

fn is_range(reply: &Reply) -> bool
    ensures { result ≡ lawful.is_range reply.now }
{
    match reply {
        Reply::Range { .. } => true,
        _ => false,
    }
}

fn is_marks(reply: &Reply) -> bool
    ensures { result ≡ lawful.is_marks reply.now }
{
    match reply {
        Reply::Marks { .. } => true,
        _ => false,
    }
}

fn is_order(reply: &Reply) -> bool
    ensures { result ≡ lawful.is_order reply.now }
{
    match reply {
        Reply::Order { .. } => true,
        _ => false,
    }
}

fn is_heard(reply: &Reply) -> bool
    ensures { result ≡ lawful.is_heard reply.now }
{
    match reply {
        Reply::Heard { .. } => true,
        _ => false,
    }
}

fn is_taken(reply: &Reply) -> bool
    ensures { result ≡ lawful.is_taken reply.now }
{
    match reply {
        Reply::Taken { .. } => true,
        _ => false,
    }
}

fn is_nothing(reply: &Reply) -> bool
    ensures { result ≡ lawful.is_nothing reply.now }
{
    match reply {
        Reply::Nothing => true,
        _ => false,
    }
}

fn refuses_too_long(reply: &Reply) -> bool
    ensures { result ≡ refuses lawful.is_too_long reply.now }
{
    match reply {
        Reply::Refused { no, .. } => is_too_long(*no),
        _ => false,
    }
}

fn is_too_long(no: CallRefusal) -> bool
    ensures { result ≡ lawful.is_too_long no }
{
    match no {
        CallRefusal::TooLong => true,
        _ => false,
    }
}

fn refuses_nothing(reply: &Reply) -> bool
    ensures { result ≡ refuses lawful.is_nothing_there reply.now }
{
    match reply {
        Reply::Refused { no, .. } => is_nothing_there(*no),
        _ => false,
    }
}

fn is_nothing_there(no: CallRefusal) -> bool
    ensures { result ≡ lawful.is_nothing_there no }
{
    match no {
        CallRefusal::Nothing => true,
        _ => false,
    }
}

fn refuses_mark(reply: &Reply) -> bool
    ensures { result ≡ refuses lawful.is_mark_refused reply.now }
{
    match reply {
        Reply::Refused { no, .. } => is_mark_refused(*no),
        _ => false,
    }
}

fn is_mark_refused(no: CallRefusal) -> bool
    ensures { result ≡ lawful.is_mark_refused no }
{
    match no {
        CallRefusal::MarkTaken | CallRefusal::MarksFull => true,
        _ => false,
    }
}

fn refuses_unknown_mark(reply: &Reply) -> bool
    ensures { result ≡ refuses lawful.is_mark_unknown reply.now }
{
    match reply {
        Reply::Refused { no, .. } => is_mark_unknown(*no),
        _ => false,
    }
}

fn is_mark_unknown(no: CallRefusal) -> bool
    ensures { result ≡ lawful.is_mark_unknown no }
{
    match no {
        CallRefusal::MarkUnknown => true,
        _ => false,
    }
}

fn refuses_watch(reply: &Reply) -> bool
    ensures { result ≡ refuses lawful.is_watch_refused reply.now }
{
    match reply {
        Reply::Refused { no, .. } => is_watch_refused(*no),
        _ => false,
    }
}

fn is_watch_refused(no: CallRefusal) -> bool
    ensures { result ≡ lawful.is_watch_refused no }
{
    match no {
        CallRefusal::WatchTaken | CallRefusal::WatchFull => true,
        _ => false,
    }
}

fn refuses_unknown_watch(reply: &Reply) -> bool
    ensures { result ≡ refuses lawful.is_watch_unknown reply.now }
{
    match reply {
        Reply::Refused { no, .. } => is_watch_unknown(*no),
        _ => false,
    }
}

fn is_watch_unknown(no: CallRefusal) -> bool
    ensures { result ≡ lawful.is_watch_unknown no }
{
    match no {
        CallRefusal::WatchUnknown => true,
        _ => false,
    }
}

// One answer per read, of that read's form.
fn is_answer_to(reads: &[Read], reply: &Reply) -> bool
    ensures { result ≡ lawful.is_answer_to reads.now reply.now }
{
    match reply {
        Reply::Answered { answers } => answers_have_forms(reads, answers.as_slice()),
        _ => false,
    }
}

fn answers_have_forms(reads: &[Read], answers: &[ReadAnswer]) -> bool
    ensures { result ≡ lawful.answers_have_forms reads.now answers.now }
{
    if reads.len() != answers.len() {
        return false;
    }
    for i in 0..reads.len() {
        if !answer_has_form(&reads[i], &answers[i]) {
            return false;
        }
    }
    true
}

fn answer_has_form(read: &Read, answer: &ReadAnswer) -> bool
    ensures { result ≡ lawful.answer_has_form read.now answer.now }
{
    match read {
        Read::Size => is_size(answer),
        Read::Text { .. } => is_shown(answer),
        Read::Find { .. } => is_found(answer),
        Read::Pattern { .. } => is_found(answer),
        Read::Save { .. } => is_saved(answer),
    }
}

fn is_size(answer: &ReadAnswer) -> bool
    ensures { result ≡ lawful.answer_has_form Read.Size answer.now }
{
    match answer {
        ReadAnswer::Size { .. } => true,
        _ => false,
    }
}

fn is_shown(answer: &ReadAnswer) -> bool
    ensures { (range : Range) (limit : ℕ) → result ≡ lawful.answer_has_form (Read.Text range limit) answer.now }
{
    match answer {
        ReadAnswer::Text { .. } => true,
        _ => false,
    }
}

fn is_found(answer: &ReadAnswer) -> bool
    ensures find { (needle : List ℕ) (limit : ℕ) → result ≡ lawful.answer_has_form (Read.Find needle limit) answer.now }
    ensures pattern { (pattern : List ℕ) (limit : ℕ) → result ≡ lawful.answer_has_form (Read.Pattern pattern limit) answer.now }
{
    match answer {
        ReadAnswer::Found { .. } => true,
        _ => false,
    }
}

fn is_saved(answer: &ReadAnswer) -> bool
    ensures { (name : List ℕ) (to : Encoding) → result ≡ lawful.answer_has_form (Read.Save name to) answer.now }
{
    match answer {
        ReadAnswer::Saved { .. } => true,
        _ => false,
    }
}
