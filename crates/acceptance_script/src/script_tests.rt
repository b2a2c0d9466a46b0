//! Scripts and transcripts as documents: which bytes are a script, and what a transcript's text is.
use points::{MarkOrder, NoMemory, Point};
use script::{
    CallRefusal, Command, Encoding, HitNumbers, How, Opening, Read, ReadAnswer, Reply, ReplyPart,
    ScriptRefusal, ScriptRule, Sequence, Span, Text, Transcript, TranscriptEnd, read_script,
    transcript_bytes,
};
use std::alloc::{AllocError, Global};
use std::test::Fail;

// The place and the rule of a document's fault, as `0 0 NotJson`; `read` where it has none.
fn outcome(alloc: Global, document: &[u8]) -> Result<String, AllocError> {
    match read_script(alloc, document) {
        Ok(_) => format!(in alloc; "read"),
        Err(
            ScriptRefusal::Refused {
                session,
                command,
                why,
            },
        ) => format!(in alloc; "{session} {command} {why}"),
        Err(ScriptRefusal::NoMemory) => format!(in alloc; "no memory"),
    }
}

fn ends(alloc: Global, document: &[u8], wanted: &str) -> bool {
    match outcome(alloc, document) {
        Ok(found) => found.as_str() == wanted,
        Err(_) => false,
    }
}

// A row of a table: what is wanted, a bar and a document.
fn holds(alloc: Global, row: &str) -> bool {
    match row.split_once('|') {
        Some((wanted, document)) => ends(alloc, document.as_bytes(), wanted),
        None => false,
    }
}

// Nothing; a truncated script; a value after the value; a lone surrogate; a pair of surrogates; an unknown key;
// another key; each key missing; a key twice, the last one right; a key twice, the first one right; other versions;
// opening files, their encodings and names; openings of other shapes; no session; two and nine sessions; sessions and a session that are no
// list; a command that is no object, a string, and a list. A fault of the document comes before those of commands.
const DOCUMENTS: &str = "\
0 0 NotJson|\n\
0 0 NotJson|{\"version\":1,\n\
0 0 NotJson|{} {}\n\
0 0 NotJson|{\"version\":1,\"open\":{\"text\":\"\\ud800\"},\"sessions\":[[]]}\n\
read|{\"version\":1,\"open\":{\"text\":\"\\ud83d\\ude00\"},\"sessions\":[[]]}\n\
0 0 BadShape|{\"version\":1,\"open\":{\"text\":\"\"},\"sessions\":[[]],\"more\":0}\n\
0 0 BadShape|{\"version\":1,\"open\":{\"text\":\"\"},\"session\":[[]]}\n\
0 0 BadShape|{\"version\":1,\"open\":{\"text\":\"\"}}\n\
0 0 BadShape|{\"version\":1,\"sessions\":[[]]}\n\
0 0 BadShape|{\"open\":{\"text\":\"\"},\"sessions\":[[]]}\n\
read|{\"version\":2,\"version\":1,\"open\":{\"text\":\"\"},\"sessions\":[[]]}\n\
0 0 BadShape|{\"version\":1,\"version\":2,\"open\":{\"text\":\"\"},\"sessions\":[[]]}\n\
0 0 BadShape|{\"version\":1.0,\"open\":{\"text\":\"\"},\"sessions\":[[]]}\n\
0 0 BadShape|{\"version\":1e0,\"open\":{\"text\":\"\"},\"sessions\":[[]]}\n\
0 0 BadShape|{\"version\":-1,\"open\":{\"text\":\"\"},\"sessions\":[[]]}\n\
0 0 BadShape|{\"version\":0,\"open\":{\"text\":\"\"},\"sessions\":[[]]}\n\
0 0 BadShape|{\"version\":2,\"open\":{\"text\":\"\"},\"sessions\":[[]]}\n\
0 0 BadShape|{\"version\":3,\"open\":{\"text\":\"\"},\"sessions\":[[]]}\n\
0 0 BadShape|{\"version\":\"1\",\"open\":{\"text\":\"\"},\"sessions\":[[]]}\n\
0 0 BadShape|{\"version\":null,\"open\":{\"text\":\"\"},\"sessions\":[[]]}\n\
0 0 BadShape|{\"version\":1.5,\"open\":{\"text\":\"\"},\"sessions\":[[]]}\n\
read|{\"version\":1,\"open\":{\"file\":\"a\",\"encoding\":\"utf8\"},\"sessions\":[[]]}\n\
read|{\"version\":1,\"open\":{\"encoding\":\"utf16le\",\"file\":\"a.b\"},\"sessions\":[[]]}\n\
read|{\"version\":1,\"open\":{\"file\":\"-\",\"encoding\":\"utf16be\"},\"sessions\":[[]]}\n\
read|{\"version\":1,\"open\":{\"file\":\"A-z_0.9xxxxxxxxxxxxxxxxxxxxxxxxxxxxxxxxxxxxxxxxxxxxxxxxxxxxxxxxx\",\"encoding\":\"latin1\"},\"sessions\":[[]]}\n\
0 0 BadName|{\"version\":1,\"open\":{\"file\":\"A-z_0.9xxxxxxxxxxxxxxxxxxxxxxxxxxxxxxxxxxxxxxxxxxxxxxxxxxxxxxxxxx\",\"encoding\":\"latin1\"},\"sessions\":[[]]}\n\
0 0 BadName|{\"version\":1,\"open\":{\"file\":\"\",\"encoding\":\"utf8\"},\"sessions\":[[]]}\n\
0 0 BadName|{\"version\":1,\"open\":{\"file\":\"a/b\",\"encoding\":\"utf8\"},\"sessions\":[[null]]}\n\
0 0 BadName|{\"version\":1,\"open\":{\"file\":\"a\\u00e9\",\"encoding\":\"utf8\"},\"sessions\":[[]]}\n\
0 0 BadName|{\"version\":1,\"open\":{\"file\":\".a\",\"encoding\":\"utf8\"},\"sessions\":[[]]}\n\
0 0 BadEncoding|{\"version\":1,\"open\":{\"file\":\".a\",\"encoding\":\"ascii\"},\"sessions\":[[null]]}\n\
0 0 BadEncoding|{\"version\":1,\"open\":{\"file\":\"a\",\"encoding\":\"UTF8\"},\"sessions\":[[]]}\n\
0 0 BadShape|{\"version\":1,\"open\":{\"file\":\"a\"},\"sessions\":[[]]}\n\
0 0 BadShape|{\"version\":1,\"open\":{\"encoding\":\"utf8\"},\"sessions\":[[]]}\n\
0 0 BadShape|{\"version\":1,\"open\":{\"file\":\"a\",\"encoding\":1},\"sessions\":[[]]}\n\
0 0 BadShape|{\"version\":1,\"open\":{\"file\":null,\"encoding\":\"ascii\"},\"sessions\":[[]]}\n\
0 0 BadShape|{\"version\":1,\"open\":{\"file\":\"a\",\"encoding\":\"utf8\",\"more\":0},\"sessions\":[[]]}\n\
0 0 BadShape|{\"version\":1,\"open\":{\"text\":0},\"sessions\":[[]]}\n\
0 0 BadShape|{\"version\":1,\"open\":{\"text\":null},\"sessions\":[[]]}\n\
0 0 BadShape|{\"version\":1,\"open\":{},\"sessions\":[[]]}\n\
0 0 BadShape|{\"version\":1,\"open\":\"text\",\"sessions\":[[]]}\n\
0 0 BadShape|{\"version\":1,\"open\":{\"text\":\"\",\"encoding\":\"utf8\"},\"sessions\":[[]]}\n\
0 0 BadShape|{\"version\":1,\"open\":{\"text\":\"\",\"file\":\"a\"},\"sessions\":[[]]}\n\
0 0 BadShape|{\"version\":1,\"open\":[\"\"],\"sessions\":[[]]}\n\
0 0 BadShape|{\"version\":1,\"open\":{\"text\":\"\"},\"sessions\":[]}\n\
0 0 BadShape|{\"version\":1,\"open\":{\"text\":\"\"},\"sessions\":[[],[]]}\n\
0 0 BadShape|{\"version\":1,\"open\":{\"text\":\"\"},\"sessions\":[[],[],[],[],[],[],[],[],[]]}\n\
0 0 BadShape|{\"version\":1,\"open\":{\"text\":\"\"},\"sessions\":{}}\n\
0 0 BadShape|{\"version\":1,\"open\":{\"text\":\"\"},\"sessions\":null}\n\
0 0 BadShape|{\"version\":1,\"open\":{\"text\":\"\"},\"sessions\":[{}]}\n\
0 0 BadShape|{\"version\":1,\"open\":{\"text\":\"\"},\"sessions\":[null]}\n\
0 0 BadShape|{\"version\":1,\"open\":{\"text\":\"\"},\"sessions\":[[],0]}\n\
0 0 BadShape|{\"version\":1,\"open\":{\"text\":\"\"},\"sessions\":\"[]\"}\n\
1 1 BadShape|{\"version\":1,\"open\":{\"text\":\"\"},\"sessions\":[[0]]}\n\
0 0 BadShape|\"edit\"\n\
0 0 BadShape|[]\n\
0 0 BadShape|null\n\
0 0 BadShape|{}\n\
0 0 BadShape|{\"version\":2,\"open\":{\"text\":\"\"},\"sessions\":[[{\"do\":\"text\",\"range\":[0,0,0,0],\"limit\":-1}]]}\n\
0 0 BadShape|{\"version\":1,\"open\":{\"text\":0},\"sessions\":[[null]]}\n\
0 0 BadShape|{\"version\":1,\"open\":{\"text\":\"\"},\"sessions\":[[null],[]]}";

#[test]
fn places_faults_of_documents(rt: HostRuntime) {
    for row in DOCUMENTS.split('\n') {
        assert!(rt; holds(rt.alloc(), row), "{row}");
    }
}

// Bytes that aren't UTF-8, and a script in another order with blanks around.
const NOT_UTF8: &[u8] = &[0x7B, 0x22, 0xFF, 0x22, 0x3A, 0x31, 0x7D];

const WITH_BLANKS: &[u8] =
    b" {\"sessions\" : [ [ ] ], \"open\" : { \"text\" : \"\" }, \"version\" : 1 }\r\n";

#[test]
fn refuses_bytes_that_are_no_text(rt: HostRuntime) {
    assert!(rt; ends(rt.alloc(), NOT_UTF8, "0 0 NotJson"));
}

#[test]
fn reads_blanks_and_other_orders(rt: HostRuntime) {
    assert!(rt; ends(rt.alloc(), WITH_BLANKS, "read"));
}

// A script of one session with these commands.
fn with_commands(alloc: Global, commands: &str) -> Result<String, AllocError> {
    format!(in alloc; "{{\"version\":1,\"open\":{{\"text\":\"\"}},\"sessions\":[[{commands}]]}}")
}

fn commands_end(alloc: Global, commands: &str, wanted: &str) -> bool {
    match with_commands(alloc, commands) {
        Ok(document) => ends(alloc, document.as_bytes(), wanted),
        Err(_) => false,
    }
}

// A row of a table: what is wanted, a bar and the commands of a session.
fn commands_hold(alloc: Global, row: &str) -> bool {
    match row.split_once('|') {
        Some((wanted, commands)) => commands_end(alloc, commands, wanted),
        None => false,
    }
}

// Edits; looks and their limits; numbers that aren't whole; ranges; words that aren't built or that no command has;
// a command that is no object. Then two rules at one place, where the lower one is told; and faults at several
// places, where the first place is told, whatever its rule.
const COMMANDS: &str = "\
read|\n\
read|{\"do\":\"edit\",\"range\":[0,0,0,0],\"text\":\"\"}\n\
1 1 BadShape|{\"do\":\"edit\",\"range\":[0,0,0,0],\"text\":0}\n\
1 1 BadShape|{\"do\":\"edit\",\"range\":[0,0,0,0],\"text\":null}\n\
1 1 BadShape|{\"do\":\"edit\",\"range\":[0,0,0,0],\"text\":[]}\n\
1 1 BadShape|{\"do\":\"edit\",\"range\":[0,0,0,0]}\n\
1 1 BadShape|{\"do\":\"edit\",\"text\":\"\"}\n\
1 1 BadShape|{\"range\":[0,0,0,0],\"text\":\"\"}\n\
1 1 BadShape|{\"do\":\"edit\",\"range\":[0,0,0,0],\"limit\":0}\n\
1 1 BadShape|{\"do\":\"edit\",\"range\":[0,0,0,0],\"text\":\"\",\"limit\":0}\n\
1 1 BadShape|{\"do\":\"text\",\"range\":[0,0,0,0],\"text\":\"\"}\n\
1 1 BadShape|{\"do\":\"undo\",\"range\":[0,0,0,0],\"text\":\"\"}\n\
1 1 BadShape|{\"do\":\"Edit\",\"range\":[0,0,0,0],\"text\":\"\"}\n\
1 1 BadShape|{\"do\":0,\"range\":[0,0,0,0],\"text\":\"\"}\n\
1 1 BadShape|{\"do\":\"\",\"range\":[0,0,0,0],\"text\":\"\"}\n\
1 1 BadShape|{}\n\
1 1 BadShape|0\n\
1 1 BadShape|null\n\
1 1 BadShape|[]\n\
1 1 BadShape|\"edit\"\n\
1 1 BadShape|true\n\
read|{\"do\":\"text\",\"range\":[0,0,0,0],\"limit\":0}\n\
read|{\"do\":\"text\",\"range\":[0,0,0,0],\"limit\":65536}\n\
1 1 BadNumber|{\"do\":\"text\",\"range\":[0,0,0,0],\"limit\":65537}\n\
1 1 BadNumber|{\"do\":\"text\",\"range\":[0,0,0,0],\"limit\":-1}\n\
1 1 BadNumber|{\"do\":\"text\",\"range\":[0,0,0,0],\"limit\":1.0}\n\
1 1 BadNumber|{\"do\":\"text\",\"range\":[0,0,0,0],\"limit\":1e0}\n\
1 1 BadNumber|{\"do\":\"text\",\"range\":[0,0,0,0],\"limit\":0.5}\n\
1 1 BadNumber|{\"do\":\"text\",\"range\":[0,0,0,0],\"limit\":-0}\n\
1 1 BadNumber|{\"do\":\"text\",\"range\":[0,0,0,0],\"limit\":0e400}\n\
1 1 BadNumber|{\"do\":\"text\",\"range\":[0,0,0,0],\"limit\":1e-400}\n\
1 1 BadNumber|{\"do\":\"text\",\"range\":[0,0,0,0],\"limit\":4294967296}\n\
1 1 BadNumber|{\"do\":\"text\",\"range\":[0,0,0,0],\"limit\":18446744073709551615}\n\
1 1 BadNumber|{\"do\":\"text\",\"range\":[0,0,0,0],\"limit\":18446744073709551616}\n\
1 1 BadNumber|{\"do\":\"text\",\"range\":[0,0,0,0],\"limit\":-9223372036854775809}\n\
0 0 NotJson|{\"do\":\"text\",\"range\":[0,0,0,0],\"limit\":1e400}\n\
1 1 BadShape|{\"do\":\"text\",\"range\":[0,0,0,0],\"limit\":\"0\"}\n\
1 1 BadShape|{\"do\":\"text\",\"range\":[0,0,0,0],\"limit\":null}\n\
1 1 BadShape|{\"do\":\"text\",\"range\":[0,0,0,0],\"limit\":[0]}\n\
1 1 BadShape|{\"do\":\"text\",\"range\":[0,0,0,0],\"limit\":true}\n\
1 1 BadShape|{\"do\":\"text\",\"range\":[0,0,0,0]}\n\
1 1 BadShape|{\"do\":\"text\",\"range\":[0,0,0,0],\"limit\":0,\"snapshot\":0}\n\
read|{\"do\":\"text\",\"range\":[0,0,1073741824,1073741824],\"limit\":0}\n\
read|{\"do\":\"text\",\"range\":[3,4,3,4],\"limit\":0}\n\
1 1 BadNumber|{\"do\":\"text\",\"range\":[0,0,1073741825,0],\"limit\":0}\n\
1 2 BadNumber|{\"do\":\"edit\",\"range\":[0,0,0,0],\"text\":\"\"},{\"do\":\"edit\",\"range\":[0,0,1073741825,0],\"text\":\"\"}\n\
1 1 BadNumber|{\"do\":\"text\",\"range\":[0,0,0,1073741825],\"limit\":0}\n\
1 2 BadNumber|{\"do\":\"edit\",\"range\":[0,0,0,0],\"text\":\"\"},{\"do\":\"edit\",\"range\":[0,0,0,1073741825],\"text\":\"\"}\n\
1 1 BadNumber|{\"do\":\"text\",\"range\":[1073741825,0,1073741825,0],\"limit\":0}\n\
1 2 BadNumber|{\"do\":\"edit\",\"range\":[0,0,0,0],\"text\":\"\"},{\"do\":\"edit\",\"range\":[1073741825,0,1073741825,0],\"text\":\"\"}\n\
1 1 BadNumber|{\"do\":\"text\",\"range\":[0,-0,0,0],\"limit\":0}\n\
1 2 BadNumber|{\"do\":\"edit\",\"range\":[0,0,0,0],\"text\":\"\"},{\"do\":\"edit\",\"range\":[0,-0,0,0],\"text\":\"\"}\n\
1 1 BadNumber|{\"do\":\"text\",\"range\":[0,0,0,1.0],\"limit\":0}\n\
1 2 BadNumber|{\"do\":\"edit\",\"range\":[0,0,0,0],\"text\":\"\"},{\"do\":\"edit\",\"range\":[0,0,0,1.0],\"text\":\"\"}\n\
1 1 BadNumber|{\"do\":\"text\",\"range\":[0,0,0,1e0],\"limit\":0}\n\
1 2 BadNumber|{\"do\":\"edit\",\"range\":[0,0,0,0],\"text\":\"\"},{\"do\":\"edit\",\"range\":[0,0,0,1e0],\"text\":\"\"}\n\
1 1 BadNumber|{\"do\":\"text\",\"range\":[-1,0,0,0],\"limit\":0}\n\
1 2 BadNumber|{\"do\":\"edit\",\"range\":[0,0,0,0],\"text\":\"\"},{\"do\":\"edit\",\"range\":[-1,0,0,0],\"text\":\"\"}\n\
1 1 BadNumber|{\"do\":\"text\",\"range\":[0,0.5,1,0],\"limit\":0}\n\
1 2 BadNumber|{\"do\":\"edit\",\"range\":[0,0,0,0],\"text\":\"\"},{\"do\":\"edit\",\"range\":[0,0.5,1,0],\"text\":\"\"}\n\
1 1 BadNumber|{\"do\":\"text\",\"range\":[1,0,0,9],\"limit\":0}\n\
1 2 BadNumber|{\"do\":\"edit\",\"range\":[0,0,0,0],\"text\":\"\"},{\"do\":\"edit\",\"range\":[1,0,0,9],\"text\":\"\"}\n\
1 1 BadNumber|{\"do\":\"text\",\"range\":[0,2,0,1],\"limit\":0}\n\
1 2 BadNumber|{\"do\":\"edit\",\"range\":[0,0,0,0],\"text\":\"\"},{\"do\":\"edit\",\"range\":[0,2,0,1],\"text\":\"\"}\n\
1 1 BadNumber|{\"do\":\"text\",\"range\":[0,0,18446744073709551616,0],\"limit\":0}\n\
1 2 BadNumber|{\"do\":\"edit\",\"range\":[0,0,0,0],\"text\":\"\"},{\"do\":\"edit\",\"range\":[0,0,18446744073709551616,0],\"text\":\"\"}\n\
1 1 BadShape|{\"do\":\"text\",\"range\":[0,0,0],\"limit\":0}\n\
1 1 BadShape|{\"do\":\"text\",\"range\":[0,0,0,0,0],\"limit\":0}\n\
1 1 BadShape|{\"do\":\"text\",\"range\":[],\"limit\":0}\n\
1 1 BadShape|{\"do\":\"text\",\"range\":[0,0,0,\"0\"],\"limit\":0}\n\
1 1 BadShape|{\"do\":\"text\",\"range\":[0,0,null,0],\"limit\":0}\n\
1 1 BadShape|{\"do\":\"text\",\"range\":{\"start\":[0,0],\"end\":[0,0]},\"limit\":0}\n\
1 1 BadShape|{\"do\":\"text\",\"range\":0,\"limit\":0}\n\
1 1 BadShape|{\"do\":\"text\",\"range\":null,\"limit\":0}\n\
1 1 BadShape|{\"do\":\"text\",\"range\":[[0,0],[0,0]],\"limit\":0}\n\
1 2 BadShape|{\"do\":\"edit\",\"range\":[0,0,0,0],\"text\":\"\"},{\"do\":\"edit\",\"range\":[0,0,0],\"text\":\"\"}\n\
read|{\"do\":\"edit\",\"range\":[0,0,0,0],\"text\":\"\"},{\"do\":\"undo\"}\n\
1 1 BadShape|{\"do\":\"undo\",\"id\":0}\n\
read|{\"do\":\"edit\",\"range\":[0,0,0,0],\"text\":\"\"},{\"do\":\"redo\"}\n\
1 1 BadShape|{\"do\":\"redo\",\"id\":0}\n\
read|{\"do\":\"edit\",\"range\":[0,0,0,0],\"text\":\"\"},{\"do\":\"squash\"}\n\
1 1 BadShape|{\"do\":\"squash\",\"id\":0}\n\
read|{\"do\":\"edit\",\"range\":[0,0,0,0],\"text\":\"\"},{\"do\":\"take\",\"snapshot\":0}\n\
1 2 UnknownSnapshot|{\"do\":\"edit\",\"range\":[0,0,0,0],\"text\":\"\"},{\"do\":\"release\",\"snapshot\":0}\n\
1 2 UnknownSnapshot|{\"do\":\"edit\",\"range\":[0,0,0,0],\"text\":\"\"},{\"do\":\"read\",\"snapshot\":0,\"reads\":[]}\n\
1 2 UnknownSnapshot|{\"do\":\"edit\",\"range\":[0,0,0,0],\"text\":\"\"},{\"do\":\"send\",\"snapshot\":-1,\"reads\":[]}\n\
1 2 BadNumber|{\"do\":\"edit\",\"range\":[0,0,0,0],\"text\":\"\"},{\"do\":\"mark\",\"id\":-1,\"range\":[1,0,0,0],\"exclusive\":true}\n\
read|{\"do\":\"edit\",\"range\":[0,0,0,0],\"text\":\"\"},{\"do\":\"mark\",\"id\":4294967295,\"range\":[0,0,0,0],\"exclusive\":true}\n\
1 1 BadNumber|{\"do\":\"mark\",\"id\":0,\"range\":[1,0,0,0],\"exclusive\":false}\n\
1 1 BadShape|{\"do\":\"mark\",\"id\":-1,\"range\":[1,0,0,0],\"exclusive\":0}\n\
1 1 BadShape|{\"do\":\"mark\",\"id\":0,\"range\":[0,0,0],\"exclusive\":true}\n\
1 1 BadShape|{\"do\":\"mark\",\"id\":0,\"range\":[0,0,0,0]}\n\
read|{\"do\":\"edit\",\"range\":[0,0,0,0],\"text\":\"\"},{\"do\":\"unmark\",\"id\":0}\n\
1 1 BadNumber|{\"do\":\"unmark\",\"id\":4294967296}\n\
1 1 BadShape|{\"do\":\"unmark\",\"id\":\"0\"}\n\
1 1 BadShape|{\"do\":\"unmark\"}\n\
read|{\"do\":\"edit\",\"range\":[0,0,0,0],\"text\":\"\"},{\"do\":\"exclusive\",\"id\":0,\"value\":true}\n\
1 1 BadNumber|{\"do\":\"exclusive\",\"id\":0.5,\"value\":true}\n\
1 1 BadShape|{\"do\":\"exclusive\",\"id\":-1,\"value\":null}\n\
1 1 BadShape|{\"do\":\"exclusive\",\"id\":0,\"exclusive\":true}\n\
read|{\"do\":\"edit\",\"range\":[0,0,0,0],\"text\":\"\"},{\"do\":\"range\",\"id\":0}\n\
1 1 BadNumber|{\"do\":\"range\",\"id\":-0}\n\
1 1 BadShape|{\"do\":\"range\",\"id\":-1,\"exclusive\":true}\n\
read|{\"do\":\"edit\",\"range\":[0,0,0,0],\"text\":\"\"},{\"do\":\"marks\",\"how\":\"containing\",\"range\":[0,0,0,0]}\n\
read|{\"do\":\"edit\",\"range\":[0,0,0,0],\"text\":\"\"},{\"do\":\"compare\",\"a\":0,\"b\":0}\n\
1 1 BadNumber|{\"do\":\"compare\",\"a\":0,\"b\":-1}\n\
1 1 BadNumber|{\"do\":\"compare\",\"a\":1e0,\"b\":0}\n\
1 1 BadShape|{\"do\":\"compare\",\"a\":-1,\"b\":null}\n\
1 1 BadShape|{\"do\":\"compare\",\"a\":0,\"id\":0}\n\
read|{\"do\":\"edit\",\"range\":[0,0,0,0],\"text\":\"\"},{\"do\":\"watch\",\"id\":0}\n\
read|{\"do\":\"edit\",\"range\":[0,0,0,0],\"text\":\"\"},{\"do\":\"unwatch\",\"id\":0}\n\
1 2 BadShape|{\"do\":\"edit\",\"range\":[0,0,0,0],\"text\":\"\"},{\"do\":\"batch\",\"edits\":[]}\n\
1 1 BadShape|{\"do\":\"text\",\"range\":[1,0,0,0],\"limit\":\"x\"}\n\
1 1 BadShape|{\"do\":\"text\",\"range\":[0,0,0],\"limit\":65537}\n\
1 1 BadShape|{\"do\":\"edit\",\"range\":[1,0,0,0],\"text\":0}\n\
1 1 BadShape|{\"do\":\"text\",\"range\":[1,0,0,9]}\n\
1 1 BadShape|{\"do\":\"text\",\"range\":[0,0,0,0],\"limit\":-1,\"more\":0}\n\
1 1 BadNumber|{\"do\":\"text\",\"range\":[1,0,0,0],\"limit\":65537}\n\
1 1 BadNumber|{\"do\":\"text\",\"range\":[0,0,0,0],\"limit\":-1},null\n\
1 1 BadNumber|{\"do\":\"edit\",\"range\":[1,0,0,0],\"text\":\"\"},{\"do\":\"undo\"}\n\
1 2 BadShape|{\"do\":\"edit\",\"range\":[0,0,0,0],\"text\":\"\"},null,{\"do\":\"text\",\"range\":[0,0,0,0],\"limit\":-1}\n\
1 3 BadNumber|{\"do\":\"edit\",\"range\":[0,0,0,0],\"text\":\"\"},{\"do\":\"edit\",\"range\":[0,0,0,0],\"text\":\"\"},{\"do\":\"text\",\"range\":[0,0,0,0],\"limit\":-1},0\n\
1 3 BadNumber|{\"do\":\"text\",\"range\":[0,0,0,0],\"limit\":0},{\"do\":\"undo\"},{\"do\":\"text\",\"range\":[0,0,0,0],\"limit\":-1}\n\
1 2 BadShape|{\"do\":\"text\",\"range\":[0,0,0,0],\"limit\":0},{\"do\":\"unwatch\"},{\"do\":\"text\",\"range\":[0,0,0,0],\"limit\":-1}\n\
0 0 NotJson|{\"do\":\"text\",\"range\":[0,0,0,0],\"limit\":-1},";

#[test]
fn places_faults_of_commands(rt: HostRuntime) {
    for row in COMMANDS.split('\n') {
        assert!(rt; commands_hold(rt.alloc(), row), "{row}");
    }
}

// Finds of marks and watchers; a snapshot that is read, ended and taken again; numbers that aren't live, are live already
// or aren't whole; and two rules at one place, where the lower one is told.
const SNAPSHOTS: &str = "\
1 1 BadShape|{\"do\":\"marks\",\"how\":\"inside\",\"range\":[0,0,0,0]}\n\
1 1 BadNumber|{\"do\":\"marks\",\"how\":\"ending_at\",\"range\":[1,0,0,0]}\n\
1 1 BadNumber|{\"do\":\"watch\",\"id\":4294967296}\n\
1 1 BadShape|{\"do\":\"unwatch\",\"id\":null}\n\
read|{\"do\":\"take\",\"snapshot\":7},{\"do\":\"read\",\"snapshot\":7,\"reads\":[{\"get\":\"size\"},{\"get\":\"text\",\"range\":[0,0,9,9],\"limit\":65536}]},{\"do\":\"release\",\"snapshot\":7},{\"do\":\"take\",\"snapshot\":7}\n\
1 3 UnknownSnapshot|{\"do\":\"take\",\"snapshot\":7},{\"do\":\"release\",\"snapshot\":7},{\"do\":\"read\",\"snapshot\":7,\"reads\":[]}\n\
1 2 SnapshotTaken|{\"do\":\"take\",\"snapshot\":7},{\"do\":\"take\",\"snapshot\":7}\n\
1 2 BadNumber|{\"do\":\"take\",\"snapshot\":7},{\"do\":\"take\",\"snapshot\":7.0}\n\
1 2 BadNumber|{\"do\":\"take\",\"snapshot\":7},{\"do\":\"take\",\"snapshot\":-0}\n\
1 2 UnknownSnapshot|{\"do\":\"take\",\"snapshot\":7},{\"do\":\"release\",\"snapshot\":7e0}\n\
1 2 UnknownSnapshot|{\"do\":\"take\",\"snapshot\":7},{\"do\":\"read\",\"snapshot\":7.0,\"reads\":[]}\n\
1 2 UnknownSnapshot|{\"do\":\"take\",\"snapshot\":7},{\"do\":\"read\",\"snapshot\":8,\"reads\":[{\"get\":\"text\",\"range\":[0,0,0,0],\"limit\":65537}]}\n\
1 2 BadShape|{\"do\":\"take\",\"snapshot\":7},{\"do\":\"read\",\"snapshot\":8,\"reads\":[{\"get\":\"text\",\"range\":[0,0,0,0],\"limit\":65537},null]}\n\
1 2 BadNumber|{\"do\":\"take\",\"snapshot\":7},{\"do\":\"read\",\"snapshot\":7,\"reads\":[{\"get\":\"text\",\"range\":[0,0,0,0],\"limit\":65537}]}\n\
1 2 BadShape|{\"do\":\"take\",\"snapshot\":7},{\"do\":\"read\",\"snapshot\":7,\"reads\":{}}";

#[test]
fn places_faults_of_snapshots(rt: HostRuntime) {
    for row in SNAPSHOTS.split('\n') {
        assert!(rt; commands_hold(rt.alloc(), row), "{row}");
    }
}

// Saves: names and encodings that are right; each rule that they break, the lower one first, whichever read breaks it; a name that
// comes again, in one command or in another.
const SAVES: &str = "\
read|{\"do\":\"take\",\"snapshot\":7},{\"do\":\"read\",\"snapshot\":7,\"reads\":[{\"get\":\"save\",\"name\":\"a\",\"encoding\":\"utf8\"},{\"get\":\"save\",\"name\":\"B-2_x.txt\",\"encoding\":\"latin1\"}]},{\"do\":\"send\",\"snapshot\":7,\"reads\":[{\"get\":\"save\",\"name\":\"c\",\"encoding\":\"utf16be\"}]}\n\
1 2 BadName|{\"do\":\"take\",\"snapshot\":7},{\"do\":\"read\",\"snapshot\":7,\"reads\":[{\"get\":\"save\",\"name\":\".x\",\"encoding\":\"utf8\"}]}\n\
1 2 BadEncoding|{\"do\":\"take\",\"snapshot\":7},{\"do\":\"read\",\"snapshot\":7,\"reads\":[{\"get\":\"save\",\"name\":\"a\",\"encoding\":\"utf-8\"}]}\n\
1 2 BadEncoding|{\"do\":\"take\",\"snapshot\":7},{\"do\":\"read\",\"snapshot\":7,\"reads\":[{\"get\":\"find\",\"needle\":\"\",\"limit\":1},{\"get\":\"save\",\"name\":\".x\",\"encoding\":\"utf-8\"}]}\n\
1 2 BadNumber|{\"do\":\"take\",\"snapshot\":7},{\"do\":\"read\",\"snapshot\":7,\"reads\":[{\"get\":\"save\",\"name\":\"a\",\"encoding\":\"utf-8\"},{\"get\":\"find\",\"needle\":\"\",\"limit\":1001}]}\n\
1 2 EmptyNeedle|{\"do\":\"take\",\"snapshot\":7},{\"do\":\"read\",\"snapshot\":7,\"reads\":[{\"get\":\"save\",\"name\":\".x\",\"encoding\":\"utf8\"},{\"get\":\"find\",\"needle\":\"\",\"limit\":1}]}\n\
1 2 BadName|{\"do\":\"take\",\"snapshot\":7},{\"do\":\"read\",\"snapshot\":7,\"reads\":[{\"get\":\"save\",\"name\":\"a\",\"encoding\":\"utf8\"},{\"get\":\"save\",\"name\":\"a\",\"encoding\":\"latin1\"}]}\n\
1 3 BadName|{\"do\":\"take\",\"snapshot\":7},{\"do\":\"read\",\"snapshot\":7,\"reads\":[{\"get\":\"save\",\"name\":\"a\",\"encoding\":\"utf8\"}]},{\"do\":\"send\",\"snapshot\":7,\"reads\":[{\"get\":\"save\",\"name\":\"a\",\"encoding\":\"utf8\"}]}\n\
1 2 BadShape|{\"do\":\"take\",\"snapshot\":7},{\"do\":\"read\",\"snapshot\":7,\"reads\":[{\"get\":\"save\",\"name\":\"a\"}]}\n\
1 2 BadShape|{\"do\":\"take\",\"snapshot\":7},{\"do\":\"read\",\"snapshot\":7,\"reads\":[{\"get\":\"save\",\"name\":0,\"encoding\":\"utf8\"}]}";

#[test]
fn places_faults_of_saves(rt: HostRuntime) {
    for row in SAVES.split('\n') {
        assert!(rt; commands_hold(rt.alloc(), row), "{row}");
    }
}

// Searches with the least and the greatest limit, and for an empty pattern; an empty needle; limits out of their bounds
// and broken, before the needle; a number that isn't live before these; members that are missing, more or others.
const SEARCHES: &str = "\
read|{\"do\":\"take\",\"snapshot\":7},{\"do\":\"read\",\"snapshot\":7,\"reads\":[{\"get\":\"find\",\"needle\":\"a\",\"limit\":0},{\"get\":\"pattern\",\"pattern\":\"\",\"limit\":1000}]}\n\
1 2 EmptyNeedle|{\"do\":\"take\",\"snapshot\":7},{\"do\":\"read\",\"snapshot\":7,\"reads\":[{\"get\":\"find\",\"needle\":\"\",\"limit\":1}]}\n\
1 2 EmptyNeedle|{\"do\":\"take\",\"snapshot\":7},{\"do\":\"read\",\"snapshot\":7,\"reads\":[{\"get\":\"size\"},{\"get\":\"find\",\"needle\":\"a\",\"limit\":1},{\"get\":\"find\",\"needle\":\"\",\"limit\":1000}]}\n\
1 2 BadNumber|{\"do\":\"take\",\"snapshot\":7},{\"do\":\"read\",\"snapshot\":7,\"reads\":[{\"get\":\"find\",\"needle\":\"\",\"limit\":1001}]}\n\
1 2 BadNumber|{\"do\":\"take\",\"snapshot\":7},{\"do\":\"read\",\"snapshot\":7,\"reads\":[{\"get\":\"find\",\"needle\":\"\",\"limit\":1},{\"get\":\"pattern\",\"pattern\":\"a\",\"limit\":-1}]}\n\
1 2 BadNumber|{\"do\":\"take\",\"snapshot\":7},{\"do\":\"read\",\"snapshot\":7,\"reads\":[{\"get\":\"pattern\",\"pattern\":\"a\",\"limit\":1.0}]}\n\
1 2 UnknownSnapshot|{\"do\":\"take\",\"snapshot\":7},{\"do\":\"read\",\"snapshot\":8,\"reads\":[{\"get\":\"find\",\"needle\":\"\",\"limit\":1001}]}\n\
1 2 BadShape|{\"do\":\"take\",\"snapshot\":7},{\"do\":\"read\",\"snapshot\":8,\"reads\":[{\"get\":\"find\",\"needle\":\"\",\"limit\":1001},null]}\n\
1 2 BadShape|{\"do\":\"take\",\"snapshot\":7},{\"do\":\"read\",\"snapshot\":7,\"reads\":[{\"get\":\"find\",\"needle\":0,\"limit\":1}]}\n\
1 2 BadShape|{\"do\":\"take\",\"snapshot\":7},{\"do\":\"read\",\"snapshot\":7,\"reads\":[{\"get\":\"find\",\"needle\":\"a\",\"limit\":\"1\"}]}\n\
1 2 BadShape|{\"do\":\"take\",\"snapshot\":7},{\"do\":\"read\",\"snapshot\":7,\"reads\":[{\"get\":\"find\",\"needle\":\"a\"}]}\n\
1 2 BadShape|{\"do\":\"take\",\"snapshot\":7},{\"do\":\"read\",\"snapshot\":7,\"reads\":[{\"get\":\"find\",\"needle\":\"a\",\"limit\":1,\"range\":[0,0,0,0]}]}\n\
1 2 BadShape|{\"do\":\"take\",\"snapshot\":7},{\"do\":\"read\",\"snapshot\":7,\"reads\":[{\"get\":\"pattern\",\"pattern\":null,\"limit\":1}]}\n\
1 2 BadShape|{\"do\":\"take\",\"snapshot\":7},{\"do\":\"read\",\"snapshot\":7,\"reads\":[{\"get\":\"pattern\",\"needle\":\"a\",\"limit\":0}]}";

#[test]
fn places_faults_of_searches(rt: HostRuntime) {
    for row in SEARCHES.split('\n') {
        assert!(rt; commands_hold(rt.alloc(), row), "{row}");
    }
}

// Lists in lists, this deep.
fn nested(alloc: Global, depth: usize) -> Result<Vec<u8>, AllocError> {
    let mut document = Vec::new(alloc);
    for _ in 0..depth {
        document.push(b'[')?;
    }
    for _ in 0..depth {
        document.push(b']')?;
    }
    Ok(document)
}

fn nested_ends(alloc: Global, depth: usize, wanted: &str) -> bool {
    match nested(alloc, depth) {
        Ok(document) => ends(alloc, document.as_slice(), wanted),
        Err(_) => false,
    }
}

#[test]
fn nests_at_most_127_deep(rt: HostRuntime) {
    assert!(rt; nested_ends(rt.alloc(), 127, "0 0 BadShape"));
    assert!(rt; nested_ends(rt.alloc(), 128, "0 0 NotJson"));
}

const EDIT: &str = "{\"do\":\"edit\",\"range\":[0,0,0,0],\"text\":\"\"}";

const LOOK: &str = "{\"do\":\"text\",\"range\":[0,0,0,0],\"limit\":0}";

const BAD_LOOK: &str = "{\"do\":\"text\",\"range\":[0,0,0,0],\"limit\":65537}";

const UNDO: &str = "{\"do\":\"undo\"}";

const BAD_UNDO: &str = "{\"do\":\"undo\",\"id\":0}";

// This many times one command, and another behind them.
fn repeated(alloc: Global, command: &str, count: usize, last: &str) -> Result<String, AllocError> {
    let mut commands = String::new(alloc);
    for _ in 0..count {
        commands.push_str(command)?;
        commands.push_str(",")?;
    }
    commands.push_str(last)?;
    Ok(commands)
}

fn repeated_end(alloc: Global, command: &str, count: usize, last: &str, wanted: &str) -> bool {
    match repeated(alloc, command, count, last) {
        Ok(commands) => commands_end(alloc, commands.as_str(), wanted),
        Err(_) => false,
    }
}

// There is too much with one more; a shape is broken before that, and a number after it.
#[test]
fn counts_the_texts_that_a_script_asks_for(rt: HostRuntime) {
    let rows = [
        (4_095, LOOK, "read"),
        (4_096, LOOK, "1 4097 TooMany"),
        (4_096, BAD_LOOK, "1 4097 TooMany"),
        (4_095, BAD_LOOK, "1 4096 BadNumber"),
        (4_096, BAD_UNDO, "1 4097 BadShape"),
        (4_096, UNDO, "read"),
        (4_096, EDIT, "read"),
    ];
    for (count, last, wanted) in rows {
        assert!(rt;
            repeated_end(rt.alloc(), LOOK, count, last, wanted),
            "{wanted}"
        );
    }
}

#[test]
fn counts_the_commands_of_a_script(rt: HostRuntime) {
    let rows = [
        (65_535, EDIT, "read"),
        (65_536, BAD_LOOK, "1 65537 TooMany"),
        (65_536, UNDO, "1 65537 TooMany"),
    ];
    for (count, last, wanted) in rows {
        assert!(rt;
            repeated_end(rt.alloc(), EDIT, count, last, wanted),
            "{wanted}"
        );
    }
}

const TWO_READS: &str =
    "{\"do\":\"take\",\"snapshot\":0},{\"do\":\"read\",\"snapshot\":0,\"reads\":[{\"get\":\"size\"},{\"get\":\"size\"}]}";

const WATCH: &str = "{\"do\":\"watch\",\"id\":0}";

const FIND: &str = "{\"do\":\"marks\",\"how\":\"starting_at\",\"range\":[0,0,0,0]}";

// Each read of a snapshot counts as a text does; watchers and finds of marks have limits of their own.
#[test]
fn counts_reads_and_watchers(rt: HostRuntime) {
    let rows = [
        (LOOK, 4_094, TWO_READS, "read"),
        (LOOK, 4_095, TWO_READS, "1 4097 TooMany"),
        (WATCH, 63, WATCH, "read"),
        (WATCH, 64, WATCH, "1 65 TooMany"),
        (FIND, 255, FIND, "read"),
        (FIND, 256, FIND, "1 257 TooMany"),
    ];
    for (command, count, last, wanted) in rows {
        assert!(rt;
            repeated_end(rt.alloc(), command, count, last, wanted),
            "{wanted}"
        );
    }
}

// This many snapshots, with numbers from 0 on, and a command behind them.
fn takes(alloc: Global, count: u32, last: &str) -> Result<String, AllocError> {
    let mut commands = String::new(alloc);
    for number in 0..count {
        let take = format!(in alloc; "{{\"do\":\"take\",\"snapshot\":{number}}},")?;
        commands.push_str(take.as_str())?;
    }
    commands.push_str(last)?;
    Ok(commands)
}

fn takes_end(alloc: Global, count: u32, last: &str, wanted: &str) -> bool {
    match takes(alloc, count, last) {
        Ok(commands) => commands_end(alloc, commands.as_str(), wanted),
        Err(_) => false,
    }
}

// There are 32 hands: one snapshot more is too much, whatever its number is.
#[test]
fn counts_the_snapshots_that_are_live(rt: HostRuntime) {
    let rows = [
        (31, "{\"do\":\"take\",\"snapshot\":31}", "read"),
        (32, "{\"do\":\"take\",\"snapshot\":32}", "1 33 TooMany"),
        (32, "{\"do\":\"take\",\"snapshot\":0}", "1 33 TooMany"),
        (32, "{\"do\":\"take\",\"snapshot\":-1}", "1 33 TooMany"),
        (
            32,
            "{\"do\":\"release\",\"snapshot\":0},{\"do\":\"take\",\"snapshot\":0}",
            "read",
        ),
    ];
    for (count, last, wanted) in rows {
        assert!(rt; takes_end(rt.alloc(), count, last, wanted), "{wanted}");
    }
}

// A script that opens with this many units, and whose one command has a fault.
fn opening_with(alloc: Global, units: usize, command: &str) -> Result<String, AllocError> {
    let mut document = String::new(alloc);
    document.push_str("{\"version\":1,\"open\":{\"text\":\"")?;
    for _ in 0..units {
        document.push_str("a")?;
    }
    document.push_str("\"},\"sessions\":[[")?;
    document.push_str(command)?;
    document.push_str("]]}")?;
    Ok(document)
}

fn opening_ends(alloc: Global, units: usize, command: &str, wanted: &str) -> bool {
    match opening_with(alloc, units, command) {
        Ok(document) => ends(alloc, document.as_bytes(), wanted),
        Err(_) => false,
    }
}

#[test]
fn measures_the_opening_text(rt: HostRuntime) {
    assert!(rt; opening_ends(rt.alloc(), 16_777_216, BAD_LOOK, "1 1 BadNumber"));
    assert!(rt; opening_ends(rt.alloc(), 16_777_217, BAD_LOOK, "0 0 TooMany"));
}

// An edit that inserts `hi` into an empty text, and a look at it.
const HELLO: &[u8] =
    b"{\"version\":1,\"open\":{\"text\":\"\"},\"sessions\":[[{\"do\":\"edit\",\"range\":[0,0,0,0],\"text\":\"hi\"},{\"do\":\"text\",\"range\":[0,0,9,9],\"limit\":100}]]}";

fn point(row: u32, column: u32) -> Point {
    Point { row, column }
}

fn opens_with(opening: &Opening, expected: &str) -> bool {
    match opening {
        Opening::Text { text } => text.as_str() == expected,
        Opening::File { .. } => false,
    }
}

// The file that a script opens, and its encoding.
const OPENS_FILE: &[u8] =
    b"{\"version\":1,\"open\":{\"file\":\"a.txt\",\"encoding\":\"utf16be\"},\"sessions\":[[]]}";

fn opens_file(opening: &Opening, expected: &str, code: Encoding) -> bool {
    match opening {
        Opening::Text { .. } => false,
        Opening::File { name, encoding } => name.as_str() == expected && *encoding == code,
    }
}

#[test]
fn reads_the_file_that_a_script_opens(rt: HostRuntime) {
    match read_script(rt.alloc(), OPENS_FILE) {
        Ok(script) => assert!(rt; opens_file(&script.opening, "a.txt", Encoding::Utf16Be)),
        Err(_) => assert!(rt; false),
    }
}

fn is_edit(command: &Command, start: Point, end: Point, expected: &str) -> bool {
    match command {
        Command::Edit { range, text } => range.start == start
            && range.end == end
            && text.as_str() == expected,
        _ => false,
    }
}

fn is_look(command: &Command, start: Point, end: Point, expected: u32) -> bool {
    match command {
        Command::Text { range, limit } => range.start == start
            && range.end == end
            && *limit == expected,
        _ => false,
    }
}

fn is_hello(commands: &[Command]) -> bool {
    commands.len() == 2
        && is_edit(&commands[0], point(0, 0), point(0, 0), "hi")
        && is_look(&commands[1], point(0, 0), point(9, 9), 100)
}

fn reads_hello(alloc: Global) -> bool {
    match read_script(alloc, HELLO) {
        Ok(script) => {
            let sessions = script.sessions.as_slice();
            script.version == 1
                && opens_with(&script.opening, "")
                && sessions.len() == 1
                && is_hello(sessions[0].as_slice())
        }
        Err(_) => false,
    }
}

#[test]
fn reads_each_field_of_a_script(rt: HostRuntime) {
    assert!(rt; reads_hello(rt.alloc()));
}

// A find of marks, a watch, and a snapshot that is taken, read in each way and searched, and ended.
const EACH: &[u8] =
    b"{\"version\":1,\"open\":{\"text\":\"\"},\"sessions\":[[{\"do\":\"marks\",\"how\":\"contained_in\",\"range\":[1,2,3,4]},{\"do\":\"watch\",\"id\":5},{\"do\":\"unwatch\",\"id\":6},{\"do\":\"take\",\"snapshot\":7},{\"do\":\"read\",\"snapshot\":7,\"reads\":[{\"get\":\"size\"},{\"get\":\"text\",\"range\":[1,2,3,4],\"limit\":8},{\"get\":\"find\",\"needle\":\"ab\",\"limit\":9},{\"get\":\"pattern\",\"pattern\":\"a+\",\"limit\":10}]},{\"do\":\"release\",\"snapshot\":7}]]}";

fn is_marks(command: &Command) -> bool {
    match command {
        Command::Marks { how, range } => *how == How::ContainedIn
            && range.start == point(1, 2)
            && range.end == point(3, 4),
        _ => false,
    }
}

// The word of a command with one number, and the number.
fn numbered(command: &Command) -> (&'static str, u32) {
    match command {
        Command::Watch { id } => ("watch", *id),
        Command::Unwatch { id } => ("unwatch", *id),
        Command::Take { snapshot } => ("take", *snapshot),
        Command::Read { snapshot, .. } => ("read", *snapshot),
        Command::Release { snapshot } => ("release", *snapshot),
        _ => ("", 0),
    }
}

fn is_numbered(command: &Command, word: &str, number: u32) -> bool {
    let found = numbered(command);
    found.0 == word && found.1 == number
}

// The text that a read has, and its limit.
fn is_read(read: &Read, expected: &str, wanted: u32) -> bool {
    match read {
        Read::Size => expected == "size" && wanted == 0,
        Read::Text { range, limit } => expected == "text"
            && range.start == point(1, 2)
            && range.end == point(3, 4)
            && *limit == wanted,
        Read::Find { needle, limit } => needle.as_str() == expected && *limit == wanted,
        Read::Pattern { pattern, limit } => pattern.as_str() == expected && *limit == wanted,
        _ => false,
    }
}

fn are_reads(command: &Command) -> bool {
    match command {
        Command::Read { reads, .. } => {
            let reads = reads.as_slice();
            reads.len() == 4
                && is_read(&reads[0], "size", 0)
                && is_read(&reads[1], "text", 8)
                && is_read(&reads[2], "ab", 9)
                && is_read(&reads[3], "a+", 10)
        }
        _ => false,
    }
}

fn is_each(commands: &[Command]) -> bool {
    commands.len() == 6
        && is_marks(&commands[0])
        && is_numbered(&commands[1], "watch", 5)
        && is_numbered(&commands[2], "unwatch", 6)
        && is_numbered(&commands[3], "take", 7)
        && is_numbered(&commands[4], "read", 7)
        && are_reads(&commands[4])
        && is_numbered(&commands[5], "release", 7)
}

fn reads_each(alloc: Global) -> bool {
    match read_script(alloc, EACH) {
        Ok(script) => is_each(script.sessions.as_slice()[0].as_slice()),
        Err(_) => false,
    }
}

#[test]
fn reads_each_field_of_marks_and_snapshots(rt: HostRuntime) {
    assert!(rt; reads_each(rt.alloc()));
}

// ---- transcripts

fn hits(touch: u64, inside: u64, overlap: u64, surround: u64) -> HitNumbers {
    HitNumbers {
        touch,
        inside,
        overlap,
        surround,
    }
}

fn span(start: Point, end: Point) -> Span {
    Span { start, end }
}

fn one<T: Drop>(alloc: Global, member: T) -> Result<Sequence<T>, NoMemory> {
    let mut members = Vec::new(alloc);
    members.push(member)?;
    Ok(Sequence::new(members))
}

fn none<T>(alloc: Global) -> Sequence<T> {
    Sequence::new(Vec::new(alloc))
}

fn two<T: Drop>(alloc: Global, first: T, second: T) -> Result<Sequence<T>, NoMemory> {
    let mut members = Vec::new(alloc);
    members.push(first)?;
    members.push(second)?;
    Ok(Sequence::new(members))
}

fn text(alloc: Global, characters: &str) -> Result<Text, NoMemory> {
    Ok(Text::from_str(alloc, characters)?)
}

// The transcript with this end and these replies.
fn transcript(
    alloc: Global,
    count: u64,
    last: &str,
    sessions: Sequence<Sequence<Reply>>,
) -> Result<Transcript, NoMemory> {
    Ok(Transcript {
        end: TranscriptEnd {
            count,
            text: text(alloc, last)?,
        },
        sessions,
        version: 1,
    })
}

// Whether the text of the transcript is this one.
fn is_written(alloc: Global, transcript: Result<Transcript, NoMemory>, expected: &str) -> bool {
    match transcript {
        Ok(transcript) => has_text(alloc, &transcript, expected),
        Err(NoMemory) => false,
    }
}

fn has_text(alloc: Global, transcript: &Transcript, expected: &str) -> bool {
    match transcript_bytes(alloc, transcript) {
        Ok(bytes) => bytes.as_slice() == expected.as_bytes(),
        Err(NoMemory) => false,
    }
}

fn edited(at: u64, end: Point, from: Point, numbers: HitNumbers, to: Point) -> Reply {
    Reply::Edited {
        at,
        end,
        from,
        hits: numbers,
        to,
    }
}

fn shown(alloc: Global, at: u64, characters: &str, units: u64) -> Result<Reply, NoMemory> {
    Ok(Reply::Text {
        at,
        text: text(alloc, characters)?,
        units,
    })
}

// The transcript of `HELLO`.
fn hello(alloc: Global) -> Result<Transcript, NoMemory> {
    let first = edited(1, point(0, 2), point(0, 0), hits(0, 0, 0, 0), point(0, 0));
    let second = shown(alloc, 2, "hi", 2)?;
    let replies = two(alloc, first, second)?;
    transcript(alloc, 2, "hi", one(alloc, replies)?)
}

#[test]
fn writes_the_transcript_of_an_edit_and_a_text(rt: HostRuntime) {
    let alloc = rt.alloc();
    assert!(rt;
        is_written(
            alloc,
            hello(alloc),
            "{\"end\":{\"count\":2,\"text\":\"hi\"},\"sessions\":[[{\"at\":1,\"end\":[0,2],\"from\":[0,0],\"hits\":[0,0,0,0],\"to\":[0,0]},{\"at\":2,\"text\":\"hi\",\"units\":2}]],\"version\":1}\n"
        )
    );
}

// Two sessions, a refusal with the greatest number, the greatest column, and characters that are escaped.
fn odd(alloc: Global) -> Result<Transcript, NoMemory> {
    let first = Reply::Refused {
        at: u64::MAX,
        no: CallRefusal::TooLong,
    };
    let second = edited(
        2,
        point(3, 4),
        point(5, 6),
        hits(7, 8, 9, 10),
        point(u32::MAX, 11),
    );
    let replies = two(alloc, first, second)?;
    transcript(
        alloc,
        2,
        "\"\\\n\u{1}\u{1F600}",
        two(alloc, replies, none(alloc))?,
    )
}

#[test]
fn writes_refusals_sessions_and_escapes(rt: HostRuntime) {
    let alloc = rt.alloc();
    assert!(rt;
        is_written(
            alloc,
            odd(alloc),
            "{\"end\":{\"count\":2,\"text\":\"\\\"\\\\\\n\\u0001\u{1F600}\"},\"sessions\":[[{\"at\":18446744073709551615,\"no\":\"TooLong\"},{\"at\":2,\"end\":[3,4],\"from\":[5,6],\"hits\":[7,8,9,10],\"to\":[4294967295,11]}],[]],\"version\":1}\n"
        )
    );
}

// Whether a transcript with this one reply is written with this text in its place.
fn replies_with(alloc: Global, reply: Result<Reply, NoMemory>, expected: &str) -> bool {
    match alone(alloc, reply) {
        Ok(transcript) => has_reply(alloc, &transcript, expected),
        Err(NoMemory) => false,
    }
}

fn alone(alloc: Global, reply: Result<Reply, NoMemory>) -> Result<Transcript, NoMemory> {
    let replies = one(alloc, reply?)?;
    transcript(alloc, 1, "", one(alloc, replies)?)
}

fn has_reply(alloc: Global, transcript: &Transcript, expected: &str) -> bool {
    match format!(in alloc;
        "{{\"end\":{{\"count\":1,\"text\":\"\"}},\"sessions\":[[{expected}]],\"version\":1}}\n"
    ) {
        Ok(whole) => has_text(alloc, transcript, whole.as_str()),
        Err(_) => false,
    }
}

fn batched(alloc: Global) -> Result<Reply, NoMemory> {
    let part = ReplyPart {
        end: point(0, 1),
        from: point(0, 0),
        hits: hits(1, 2, 3, 4),
        to: point(0, 2),
    };
    Ok(Reply::Batched {
        at: 7,
        edits: one(alloc, part)?,
    })
}

#[test]
fn writes_batches(rt: HostRuntime) {
    let alloc = rt.alloc();
    assert!(rt;
        replies_with(
            alloc,
            batched(alloc),
            "{\"at\":7,\"edits\":[{\"end\":[0,1],\"from\":[0,0],\"hits\":[1,2,3,4],\"to\":[0,2]}]}"
        )
    );
}

// The end of a range stands before its start here, and is written so.
#[test]
fn writes_numbers_and_ranges(rt: HostRuntime) {
    let alloc = rt.alloc();
    let range = Reply::Range {
        at: 4,
        exclusive: true,
        range: span(point(3, 2), point(1, 0)),
    };
    assert!(rt; replies_with(alloc, Ok(Reply::Numbered { at: 3 }), "{\"at\":3}"));
    assert!(rt;
        replies_with(
            alloc,
            Ok(range),
            "{\"at\":4,\"exclusive\":true,\"range\":[3,2,1,0]}"
        )
    );
}

fn marks(alloc: Global) -> Result<Reply, NoMemory> {
    Ok(Reply::Marks {
        at: 5,
        ids: two(alloc, 0u32, u32::MAX)?,
    })
}

#[test]
fn writes_ids(rt: HostRuntime) {
    let alloc = rt.alloc();
    assert!(rt; replies_with(alloc, marks(alloc), "{\"at\":5,\"ids\":[0,4294967295]}"));
}

fn order_is(alloc: Global, order: MarkOrder, word: &str) -> bool {
    match format!(in alloc; "{{\"at\":6,\"order\":\"{word}\"}}") {
        Ok(expected) => replies_with(alloc, Ok(Reply::Order { at: 6, order }), expected.as_str()),
        Err(_) => false,
    }
}

#[test]
fn writes_orders_and_counts(rt: HostRuntime) {
    let alloc = rt.alloc();
    assert!(rt; order_is(alloc, MarkOrder::Before, "before"));
    assert!(rt; order_is(alloc, MarkOrder::Same, "same"));
    assert!(rt; order_is(alloc, MarkOrder::After, "after"));
    assert!(rt;
        replies_with(
            alloc,
            Ok(Reply::Heard { at: 8, heard: 9 }),
            "{\"at\":8,\"heard\":9}"
        )
    );
}

fn refusal_is(alloc: Global, no: CallRefusal, word: &str) -> bool {
    match format!(in alloc; "{{\"at\":1,\"no\":\"{word}\"}}") {
        Ok(expected) => replies_with(alloc, Ok(Reply::Refused { at: 1, no }), expected.as_str()),
        Err(_) => false,
    }
}

#[test]
fn writes_the_words_of_refusals(rt: HostRuntime) {
    let rows = [
        (CallRefusal::TooLong, "TooLong"),
        (CallRefusal::Nothing, "Nothing"),
        (CallRefusal::MarkTaken, "MarkTaken"),
        (CallRefusal::MarkUnknown, "MarkUnknown"),
        (CallRefusal::MarksFull, "MarksFull"),
        (CallRefusal::WatchTaken, "WatchTaken"),
        (CallRefusal::WatchFull, "WatchFull"),
        (CallRefusal::WatchUnknown, "WatchUnknown"),
    ];
    for (no, word) in rows {
        assert!(rt; refusal_is(rt.alloc(), no, word), "{word}");
    }
}

#[test]
fn writes_takes_and_nothing(rt: HostRuntime) {
    let alloc = rt.alloc();
    assert!(rt; replies_with(alloc, Ok(Reply::Taken { version: 2 }), "{\"version\":2}"));
    assert!(rt; replies_with(alloc, Ok(Reply::Nothing), "null"));
}

fn answered(alloc: Global, answer: Result<ReadAnswer, NoMemory>) -> Result<Reply, NoMemory> {
    Ok(Reply::Answered {
        answers: one(alloc, answer?)?,
    })
}

fn text_answer(alloc: Global) -> Result<ReadAnswer, NoMemory> {
    Ok(ReadAnswer::Text {
        text: text(alloc, "a")?,
        units: 1,
    })
}

fn found_answer(alloc: Global) -> Result<ReadAnswer, NoMemory> {
    Ok(ReadAnswer::Found {
        count: u64::MAX,
        hits: one(alloc, span(point(0, 1), point(0, 2)))?,
    })
}

#[test]
fn writes_answers(rt: HostRuntime) {
    let alloc = rt.alloc();
    let size = ReadAnswer::Size {
        extent: point(1, 2),
        units: 3,
    };
    assert!(rt;
        replies_with(
            alloc,
            answered(alloc, Ok(size)),
            "{\"answers\":[{\"extent\":[1,2],\"units\":3}]}"
        )
    );
    assert!(rt;
        replies_with(
            alloc,
            answered(alloc, text_answer(alloc)),
            "{\"answers\":[{\"text\":\"a\",\"units\":1}]}"
        )
    );
}

#[test]
fn writes_hits_and_saves(rt: HostRuntime) {
    let alloc = rt.alloc();
    let saved = Ok(ReadAnswer::Saved { bytes: 4 });
    assert!(rt;
        replies_with(
            alloc,
            answered(alloc, found_answer(alloc)),
            "{\"answers\":[{\"count\":18446744073709551615,\"hits\":[[0,1,0,2]]}]}"
        )
    );
    assert!(rt;
        replies_with(
            alloc,
            answered(alloc, saved),
            "{\"answers\":[{\"bytes\":4}]}"
        )
    );
}

fn shows(alloc: Global, rule: ScriptRule, name: &str) -> bool {
    match format!(in alloc; "{rule}") {
        Ok(shown) => shown.as_str() == name && rule.name() == name,
        Err(_) => false,
    }
}

#[test]
fn rules_have_names(rt: HostRuntime) {
    let rows = [
        (ScriptRule::NotJson, "NotJson"),
        (ScriptRule::BadShape, "BadShape"),
        (ScriptRule::TooMany, "TooMany"),
        (ScriptRule::UnknownSnapshot, "UnknownSnapshot"),
        (ScriptRule::SnapshotTaken, "SnapshotTaken"),
        (ScriptRule::BadNumber, "BadNumber"),
        (ScriptRule::BadEncoding, "BadEncoding"),
        (ScriptRule::EmptyNeedle, "EmptyNeedle"),
        (ScriptRule::BadName, "BadName"),
    ];
    for (rule, name) in rows {
        assert!(rt; shows(rt.alloc(), rule, name), "{name}");
    }
}
