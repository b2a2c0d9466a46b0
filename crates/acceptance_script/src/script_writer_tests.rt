//! Scripts written as JSON.
use machine::{BatchEdit, Command, Encoding, How, Opening, Read, Script, Sequence, Text};
use points::{Point, Range};
use script_writer::script_bytes;
use std::alloc::Global;

fn one<T: Drop>(alloc: Global, member: T) -> Option<Sequence<T>> {
    let mut members = Vec::new(alloc);
    members.push(member).ok()?;
    Some(Sequence::new(members))
}

fn text(alloc: Global, characters: &str) -> Option<Text> {
    Text::from_str(alloc, characters).ok()
}

fn range() -> Range {
    Range::new(Point { row: 0, column: 1 }, Point { row: 2, column: 3 })
}

// A script of one command over the text `ab`.
fn script_of(alloc: Global, command: Command) -> Option<Script> {
    Some(Script {
        version: 1,
        opening: Opening::Text {
            text: text(alloc, "ab")?,
        },
        sessions: one(alloc, one(alloc, command)?)?,
    })
}

// The command stands so in the text of its script.
fn is_written(alloc: Global, command: Option<Command>, json: &str) -> bool {
    match written(alloc, command) {
        Some(bytes) => is_text_of(alloc, bytes.as_slice(), json),
        None => false,
    }
}

fn written(alloc: Global, command: Option<Command>) -> Option<Vec<u8>> {
    script_bytes(alloc, &script_of(alloc, command?)?).ok()
}

fn is_text_of(alloc: Global, bytes: &[u8], json: &str) -> bool {
    match format!(in alloc;
        "{{\"open\":{{\"text\":\"ab\"}},\"sessions\":[[{json}]],\"version\":1}}\n"
    ) {
        Ok(wanted) => bytes == wanted.as_bytes(),
        Err(_) => false,
    }
}

fn edit(alloc: Global) -> Option<Command> {
    Some(Command::Edit {
        range: range(),
        text: text(alloc, "a\"\n")?,
    })
}

fn batch(alloc: Global) -> Option<Command> {
    let edit = BatchEdit {
        range: range(),
        text: text(alloc, "")?,
    };
    Some(Command::Batch {
        edits: one(alloc, edit)?,
    })
}

fn send(alloc: Global, read: Option<Read>) -> Option<Command> {
    Some(Command::Send {
        snapshot: 3,
        reads: one(alloc, read?)?,
    })
}

fn find(alloc: Global) -> Option<Read> {
    Some(Read::Find {
        needle: text(alloc, "é")?,
        limit: 2,
    })
}

fn pattern(alloc: Global) -> Option<Read> {
    Some(Read::Pattern {
        pattern: text(alloc, "a+")?,
        limit: 2,
    })
}

fn save(alloc: Global, encoding: Encoding) -> Option<Read> {
    Some(Read::Save {
        name: text(alloc, "f.txt")?,
        encoding,
    })
}

#[test]
fn edits_are_written(rt: HostRuntime) {
    let alloc = rt.alloc();
    assert!(rt;
        is_written(
            alloc,
            edit(alloc),
            "{\"do\":\"edit\",\"range\":[0,1,2,3],\"text\":\"a\\\"\\n\"}"
        )
    );
    assert!(rt;
        is_written(
            alloc,
            batch(alloc),
            "{\"do\":\"batch\",\"edits\":[{\"range\":[0,1,2,3],\"text\":\"\"}]}"
        )
    );
}

#[test]
fn calls_are_written(rt: HostRuntime) {
    let rows = [
        (Command::Undo, "{\"do\":\"undo\"}"),
        (Command::Redo, "{\"do\":\"redo\"}"),
        (
            Command::Text {
                range: range(),
                limit: 7,
            },
            "{\"do\":\"text\",\"limit\":7,\"range\":[0,1,2,3]}",
        ),
        (
            Command::Mark {
                id: 1,
                range: range(),
                exclusive: true,
            },
            "{\"do\":\"mark\",\"exclusive\":true,\"id\":1,\"range\":[0,1,2,3]}",
        ),
        (Command::Unmark { id: 1 }, "{\"do\":\"unmark\",\"id\":1}"),
        (
            Command::Exclusive {
                id: 1,
                value: false,
            },
            "{\"do\":\"exclusive\",\"id\":1,\"value\":false}",
        ),
        (Command::Range { id: 1 }, "{\"do\":\"range\",\"id\":1}"),
        (
            Command::Marks {
                how: How::ContainedIn,
                range: range(),
            },
            "{\"do\":\"marks\",\"how\":\"contained_in\",\"range\":[0,1,2,3]}",
        ),
        (
            Command::Compare { a: 2, b: 1 },
            "{\"a\":2,\"b\":1,\"do\":\"compare\"}",
        ),
        (Command::Watch { id: 1 }, "{\"do\":\"watch\",\"id\":1}"),
        (Command::Unwatch { id: 1 }, "{\"do\":\"unwatch\",\"id\":1}"),
        (
            Command::Take {
                snapshot: 4294967295,
            },
            "{\"do\":\"take\",\"snapshot\":4294967295}",
        ),
        (
            Command::Release { snapshot: 3 },
            "{\"do\":\"release\",\"snapshot\":3}",
        ),
        (Command::Squash, "{\"do\":\"squash\"}"),
    ];
    for (command, json) in rows {
        assert!(rt; is_written(rt.alloc(), Some(command), json), "{json}");
    }
}

// A read that is sent stands so in the text of its script.
fn is_sent(alloc: Global, read: Option<Read>, json: &str) -> bool {
    match format!(in alloc; "{{\"do\":\"send\",\"reads\":[{json}],\"snapshot\":3}}") {
        Ok(command) => is_written(alloc, send(alloc, read), command.as_str()),
        Err(_) => false,
    }
}

#[test]
fn reads_are_written(rt: HostRuntime) {
    let alloc = rt.alloc();
    let look = Read::Text {
        range: range(),
        limit: 0,
    };
    assert!(rt; is_sent(alloc, Some(Read::Size), "{\"get\":\"size\"}"));
    assert!(rt;
        is_sent(
            alloc,
            Some(look),
            "{\"get\":\"text\",\"limit\":0,\"range\":[0,1,2,3]}"
        )
    );
    assert!(rt;
        is_sent(
            alloc,
            find(alloc),
            "{\"get\":\"find\",\"limit\":2,\"needle\":\"é\"}"
        )
    );
    assert!(rt;
        is_sent(
            alloc,
            pattern(alloc),
            "{\"get\":\"pattern\",\"limit\":2,\"pattern\":\"a+\"}"
        )
    );
}

#[test]
fn saves_are_written(rt: HostRuntime) {
    let rows = [
        (
            Encoding::Utf8,
            "{\"encoding\":\"utf8\",\"get\":\"save\",\"name\":\"f.txt\"}",
        ),
        (
            Encoding::Utf16Le,
            "{\"encoding\":\"utf16le\",\"get\":\"save\",\"name\":\"f.txt\"}",
        ),
        (
            Encoding::Utf16Be,
            "{\"encoding\":\"utf16be\",\"get\":\"save\",\"name\":\"f.txt\"}",
        ),
        (
            Encoding::Latin1,
            "{\"encoding\":\"latin1\",\"get\":\"save\",\"name\":\"f.txt\"}",
        ),
    ];
    for (encoding, json) in rows {
        assert!(rt;
            is_sent(rt.alloc(), save(rt.alloc(), encoding), json),
            "{json}"
        );
    }
}

// A script that opens a file, of two sessions without commands.
fn file_script(alloc: Global) -> Option<Script> {
    let first = one(alloc, Sequence::new(Vec::new(alloc)))?;
    let mut sessions = first.into_vec();
    sessions.push(Sequence::new(Vec::new(alloc))).ok()?;
    Some(Script {
        version: 2,
        opening: Opening::File {
            name: text(alloc, "f.txt")?,
            encoding: Encoding::Latin1,
        },
        sessions: Sequence::new(sessions),
    })
}

fn file_bytes(alloc: Global) -> Option<Vec<u8>> {
    script_bytes(alloc, &file_script(alloc)?).ok()
}

#[test]
fn openings_of_files_are_written(rt: HostRuntime) {
    let wanted =
        "{\"open\":{\"encoding\":\"latin1\",\"file\":\"f.txt\"},\"sessions\":[[],[]],\"version\":2}\n";
    match file_bytes(rt.alloc()) {
        Some(bytes) => assert!(rt; bytes.as_slice() == wanted.as_bytes()),
        None => assert!(rt; false),
    }
}
