//! The check of transcripts: two sessions by hand, their wrong twins, and wants of form. The opening text is `ab`.
use machine::{
    CallRefusal, Command, Encoding, HitNumbers, Opening, Place, Read, ReadAnswer, Reply, ReplyPart,
    Script, Sequence, Span, Text, Transcript, TranscriptEnd, Verdict,
};
use outer::LiteralMatcher;
use points::{MAX_UNITS, Point, Range, Units};
use std::alloc::Global;
use transcript_check::{is_small, lawful};

// What the check finds, where each pattern is the letter b.
fn judged(alloc: Global, script: &Script, transcript: &Transcript) -> Option<Verdict> {
    let units = Units::from_str(alloc, "ab").ok()?;
    let mut matchers = Vec::new(alloc);
    matchers
        .push(LiteralMatcher::new(String::from_str(alloc, "b").ok()?))
        .ok()?;
    if units.len() > MAX_UNITS || !is_small(script) {
        return None;
    }
    lawful(alloc, script, "ab", transcript, &mut matchers).ok()
}

fn judged_of(
    alloc: Global,
    script: Option<Script>,
    transcript: Option<Transcript>,
) -> Option<Verdict> {
    match (script, transcript) {
        (Some(script), Some(transcript)) => judged(alloc, &script, &transcript),
        _ => None,
    }
}

fn none<T>(alloc: Global) -> Sequence<T> {
    Sequence::new(Vec::new(alloc))
}

fn one<T: Drop>(alloc: Global, member: T) -> Option<Sequence<T>> {
    let mut members = Vec::new(alloc);
    members.push(member).ok()?;
    Some(Sequence::new(members))
}

// A list with one member more.
fn and<T: Drop>(list: Sequence<T>, member: T) -> Option<Sequence<T>> {
    let mut members = list.into_vec();
    members.push(member).ok()?;
    Some(Sequence::new(members))
}

// The same of a list and a member that may not be there for want of memory.
fn and_some<T: Drop>(list: Option<Sequence<T>>, member: Option<T>) -> Option<Sequence<T>> {
    and(list?, member?)
}

fn one_some<T: Drop>(alloc: Global, member: Option<T>) -> Option<Sequence<T>> {
    one(alloc, member?)
}

fn text(alloc: Global, characters: &str) -> Option<Text> {
    Text::from_str(alloc, characters).ok()
}

fn at(column: u32) -> Point {
    Point { row: 0, column }
}

const START: Point = Point { row: 0, column: 0 };

// Inserts a letter at the start.
fn insert(alloc: Global, letter: &str) -> Option<Command> {
    Some(Command::Edit {
        range: Range::new(START, START),
        text: text(alloc, letter)?,
    })
}

const NONE: HitNumbers = HitNumbers {
    touch: 0,
    inside: 0,
    overlap: 0,
    surround: 0,
};

// What was answered to an insertion at the start.
fn inserted(number: u64, column: u32) -> Reply {
    Reply::Edited {
        at: number,
        end: at(1),
        from: at(0),
        hits: NONE,
        to: at(column),
    }
}

// What was answered to its undo: as an edit, and as a list.
fn taken_back(number: u64) -> Reply {
    Reply::Edited {
        at: number,
        end: at(0),
        from: at(0),
        hits: NONE,
        to: at(1),
    }
}

fn taken_back_listed(alloc: Global, number: u64) -> Option<Reply> {
    let part = ReplyPart {
        end: at(0),
        from: at(0),
        hits: NONE,
        to: at(1),
    };
    Some(Reply::Batched {
        at: number,
        edits: one(alloc, part)?,
    })
}

fn script(
    alloc: Global,
    version: u32,
    sessions: Option<Sequence<Sequence<Command>>>,
) -> Option<Script> {
    let sessions = sessions?;
    Some(Script {
        version,
        opening: Opening::Text {
            text: text(alloc, "ab")?,
        },
        sessions,
    })
}

fn transcript(
    alloc: Global,
    version: u32,
    end: (u64, &str),
    sessions: Option<Sequence<Sequence<Reply>>>,
) -> Option<Transcript> {
    let (count, last) = end;
    let sessions = sessions?;
    Some(Transcript {
        end: TranscriptEnd {
            count,
            text: text(alloc, last)?,
        },
        sessions,
        version,
    })
}

// Session 1 inserts x; session 2 takes the text, reads its size and inserts y.
fn reader(alloc: Global) -> Option<Sequence<Command>> {
    let taken = one(alloc, Command::Take { snapshot: 1 });
    and_some(and_some(taken, size_read(alloc)), insert(alloc, "y"))
}

fn size_read(alloc: Global) -> Option<Command> {
    Some(Command::Read {
        snapshot: 1,
        reads: one(alloc, Read::Size)?,
    })
}

fn two_sessions(alloc: Global) -> Option<Script> {
    let first = one_some(alloc, insert(alloc, "x"));
    script(alloc, 1, and_some(one_some(alloc, first), reader(alloc)))
}

fn size(alloc: Global) -> Option<Reply> {
    let size = ReadAnswer::Size {
        extent: at(3),
        units: 3,
    };
    Some(Reply::Answered {
        answers: one(alloc, size)?,
    })
}

fn reader_replies(alloc: Global, version: u64, last: Reply) -> Option<Sequence<Reply>> {
    let taken = one(alloc, Reply::Taken { version });
    and_some(and_some(taken, size(alloc)), Some(last))
}

// What is found where the two insertions are answered so, the take shows this version, and the run ends so.
fn two_sessions_end(
    alloc: Global,
    first: Reply,
    version: u64,
    last: Reply,
    end: (u64, &str),
) -> Option<Verdict> {
    let replies = and_some(
        one_some(alloc, one(alloc, first)),
        reader_replies(alloc, version, last),
    );
    judged_of(
        alloc,
        two_sessions(alloc),
        transcript(alloc, 1, end, replies),
    )
}

// Whether that is found where the insertions have these numbers and columns, and the take shows this version.
fn ends_so(
    alloc: Global,
    numbers: (u64, u32, u64, u64, u32),
    end: (u64, &str),
    wanted: Verdict,
) -> bool {
    let (first, to, version, last, also) = numbers;
    let found = two_sessions_end(
        alloc,
        inserted(first, to),
        version,
        inserted(last, also),
        end,
    );
    found == Some(wanted)
}

const LAWFUL: Verdict = Verdict::Lawful;

const END: Verdict = Verdict::Unlawful(Place::End);

const FORM: Verdict = Verdict::Unlawful(Place::Form);

const TAKE: Verdict = Verdict::Unlawful(Place::Snapshot {
    session: 2,
    command: 1,
});

fn call_of(number: u64) -> Verdict {
    Verdict::Unlawful(Place::Call(number))
}

#[test]
fn two_sessions_and_their_twins(rt: HostRuntime) {
    let rows = [
        ((1, 0, 1, 2, 0), (2, "yxab"), LAWFUL),
        ((1, 0, 0, 2, 0), (2, "yxab"), TAKE),
        ((1, 1, 1, 2, 0), (2, "yxab"), call_of(1)),
        ((1, 0, 1, 2, 0), (2, "xab"), END),
        ((1, 0, 1, 2, 0), (3, "yxab"), END),
        ((1, 0, 2, 2, 0), (2, "yxab"), TAKE),
        ((1, 0, 9, 2, 0), (2, "yxab"), TAKE),
        ((2, 0, 1, 1, 0), (2, "xyab"), TAKE),
        ((1, 0, 0, 2, 0), (3, "ab"), TAKE),
        ((1, 0, 0, 2, 1), (2, "yxab"), call_of(2)),
        ((2, 0, 0, 1, 1), (2, "xyab"), call_of(1)),
        ((1, 0, 1, 1, 0), (2, "yxab"), FORM),
        ((0, 0, 1, 1, 0), (2, "yxab"), FORM),
        ((1, 0, 1, 3, 0), (2, "yxab"), FORM),
    ];
    for (numbers, end, wanted) in rows {
        assert!(rt; ends_so(rt.alloc(), numbers, end, wanted));
    }
}

// What is found where one session inserts x and takes it back, in this version.
fn undone_end(alloc: Global, version: u32, first: Reply, second: Reply) -> Option<Verdict> {
    let commands = and_some(one_some(alloc, insert(alloc, "x")), Some(Command::Undo));
    let replies = and_some(one(alloc, first), Some(second));
    judged_of(
        alloc,
        script(alloc, version, one_some(alloc, commands)),
        transcript(alloc, version, (2, "ab"), one_some(alloc, replies)),
    )
}

// Whether that is found where x is inserted first, and this reply comes second.
fn undone_ends(alloc: Global, version: u32, second: Option<Reply>, wanted: Verdict) -> bool {
    match second {
        Some(second) => undone_end(alloc, version, inserted(1, 0), second) == Some(wanted),
        None => false,
    }
}

#[test]
fn an_undo_has_the_form_of_its_version(rt: HostRuntime) {
    let alloc = rt.alloc();
    assert!(rt; undone_ends(alloc, 1, Some(taken_back(2)), LAWFUL));
    assert!(rt; undone_ends(alloc, 2, taken_back_listed(alloc, 2), LAWFUL));
    assert!(rt; undone_ends(alloc, 1, taken_back_listed(alloc, 2), FORM));
    assert!(rt; undone_ends(alloc, 2, Some(taken_back(2)), FORM));
}

#[test]
fn numbers_rise_in_a_session(rt: HostRuntime) {
    let found = undone_end(rt.alloc(), 1, inserted(2, 0), taken_back(1));
    assert!(rt; found == Some(FORM));
}

// Replies that no undo has.
fn wrong_reply(which: u32) -> Reply {
    match which {
        0 => Reply::Numbered { at: 2 },
        1 => Reply::Nothing,
        2 => Reply::Taken { version: 1 },
        3 => Reply::Heard { at: 2, heard: 0 },
        4 => refused_by(CallRefusal::TooLong),
        _ => refused_by(CallRefusal::MarkTaken),
    }
}

fn refused_by(no: CallRefusal) -> Reply {
    Reply::Refused { at: 2, no }
}

#[test]
fn each_reply_has_a_form_of_its_command(rt: HostRuntime) {
    for which in 0..6 {
        assert!(rt;
            undone_ends(rt.alloc(), 1, Some(wrong_reply(which)), FORM),
            "{which}"
        );
    }
    let refused = Some(refused_by(CallRefusal::Nothing));
    assert!(rt; undone_ends(rt.alloc(), 1, refused, call_of(2)));
}

// Whether this is found where one insertion is answered by these lists of replies, in this version.
fn lists_end(
    alloc: Global,
    version: u32,
    replies: Option<Sequence<Sequence<Reply>>>,
    wanted: Verdict,
) -> bool {
    let commands = one_some(alloc, insert(alloc, "x"));
    let found = judged_of(
        alloc,
        script(alloc, 1, one_some(alloc, commands)),
        transcript(alloc, version, (1, "xab"), replies),
    );
    found == Some(wanted)
}

fn single(alloc: Global) -> Option<Sequence<Reply>> {
    one(alloc, inserted(1, 0))
}

fn with_one_list_more(alloc: Global) -> Option<Sequence<Sequence<Reply>>> {
    and_some(one_some(alloc, single(alloc)), Some(none(alloc)))
}

fn with_one_reply_more(alloc: Global) -> Option<Sequence<Sequence<Reply>>> {
    one_some(alloc, and_some(single(alloc), Some(Reply::Nothing)))
}

#[test]
fn each_command_has_one_reply(rt: HostRuntime) {
    let alloc = rt.alloc();
    assert!(rt; lists_end(alloc, 2, Some(none(alloc)), FORM));
    assert!(rt; lists_end(alloc, 1, one(alloc, none(alloc)), FORM));
    assert!(rt; lists_end(alloc, 1, with_one_list_more(alloc), FORM));
    assert!(rt; lists_end(alloc, 1, with_one_reply_more(alloc), FORM));
    assert!(rt; lists_end(alloc, 1, one_some(alloc, single(alloc)), LAWFUL));
}

// The reads of a session that takes ab, reads it and ends the number.
fn five_reads(alloc: Global) -> Option<Sequence<Read>> {
    let reads = and_some(one(alloc, Read::Size), Some(text_read()));
    let reads = and_some(and_some(reads, find_read(alloc)), pattern_read(alloc));
    and_some(reads, save_read(alloc))
}

fn text_read() -> Read {
    Read::Text {
        range: Range::new(START, Point { row: 0, column: 9 }),
        limit: 1,
    }
}

fn find_read(alloc: Global) -> Option<Read> {
    Some(Read::Find {
        needle: text(alloc, "a")?,
        limit: 4,
    })
}

fn pattern_read(alloc: Global) -> Option<Read> {
    Some(Read::Pattern {
        pattern: text(alloc, "b")?,
        limit: 0,
    })
}

fn save_read(alloc: Global) -> Option<Read> {
    Some(Read::Save {
        name: text(alloc, "f")?,
        encoding: Encoding::Utf16Le,
    })
}

fn sent(alloc: Global) -> Option<Command> {
    Some(Command::Send {
        snapshot: 3,
        reads: five_reads(alloc)?,
    })
}

fn taken_and_read(alloc: Global) -> Option<Script> {
    let commands = and_some(one(alloc, Command::Take { snapshot: 3 }), sent(alloc));
    script(alloc, 1, one_some(alloc, commands))
}

// A number, or another one where it is the wrong one.
fn changed(wrong: u64, this: u64, right: u64) -> u64 {
    if wrong == this { right ^ 1 } else { right }
}

// The right answers, but for that of this number, which has a wrong number in it.
fn five_answers(alloc: Global, wrong: u64) -> Option<Sequence<ReadAnswer>> {
    let answers = one(alloc, size_answer(changed(wrong, 1, 2)));
    let answers = and_some(answers, text_answer(alloc, changed(wrong, 2, 2)));
    let answers = and_some(answers, found_answer(alloc, changed(wrong, 3, 1)));
    let answers = and_some(answers, Some(hidden_answer(alloc, changed(wrong, 4, 1))));
    let bytes = changed(wrong, 5, 4);
    and_some(answers, Some(ReadAnswer::Saved { bytes }))
}

fn size_answer(units: u64) -> ReadAnswer {
    ReadAnswer::Size {
        extent: at(2),
        units,
    }
}

fn text_answer(alloc: Global, units: u64) -> Option<ReadAnswer> {
    Some(ReadAnswer::Text {
        text: text(alloc, "a")?,
        units,
    })
}

fn found_answer(alloc: Global, count: u64) -> Option<ReadAnswer> {
    let hit = Span {
        start: at(0),
        end: at(1),
    };
    Some(ReadAnswer::Found {
        count,
        hits: one(alloc, hit)?,
    })
}

fn hidden_answer(alloc: Global, count: u64) -> ReadAnswer {
    ReadAnswer::Found {
        count,
        hits: none(alloc),
    }
}

fn answered(alloc: Global, wrong: u64) -> Option<Reply> {
    Some(Reply::Answered {
        answers: five_answers(alloc, wrong)?,
    })
}

// Whether this is found where the answer of this number is wrong.
fn five_end(alloc: Global, wrong: u64, wanted: Verdict) -> bool {
    let replies = and_some(
        one(alloc, Reply::Taken { version: 0 }),
        answered(alloc, wrong),
    );
    let found = judged_of(
        alloc,
        taken_and_read(alloc),
        transcript(alloc, 1, (0, "ab"), one_some(alloc, replies)),
    );
    found == Some(wanted)
}

#[test]
fn each_answer_through_a_take_is_judged(rt: HostRuntime) {
    assert!(rt; five_end(rt.alloc(), 0, LAWFUL));
    for wrong in 1..6 {
        let first = Verdict::Unlawful(Place::Snapshot {
            session: 1,
            command: 1,
        });
        assert!(rt; five_end(rt.alloc(), wrong, first), "{wrong}");
    }
}
