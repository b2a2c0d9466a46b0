//! Transcripts read from JSON: which bytes are a transcript. What is read and written again is compared with the text.
use script::transcript_bytes;
use std::alloc::{AllocError, Global};
use transcripts::read_transcript;

// The transcript of these replies.
fn with_replies(alloc: Global, replies: &str) -> Result<String, AllocError> {
    format!(in alloc;
        "{{\"end\":{{\"count\":1,\"text\":\"é\"}},\"sessions\":[[{replies}],[]],\"version\":1}}"
    )
}

// Whether the text is read, and what is read is written as it.
fn is_kept(alloc: Global, text: &str) -> bool {
    match read_transcript(alloc, text.as_bytes()) {
        Ok(Some(transcript)) => match transcript_bytes(alloc, &transcript) {
            Ok(bytes) => bytes.as_slice().strip_suffix(b"\n") == Some(text.as_bytes()),
            Err(_) => false,
        },
        _ => false,
    }
}

fn is_none(alloc: Global, text: &str) -> bool {
    match read_transcript(alloc, text.as_bytes()) {
        Ok(None) => true,
        _ => false,
    }
}

fn keeps(alloc: Global, replies: &str) -> bool {
    match with_replies(alloc, replies) {
        Ok(text) => is_kept(alloc, text.as_str()),
        Err(_) => false,
    }
}

fn has_no_form(alloc: Global, replies: &str) -> bool {
    match with_replies(alloc, replies) {
        Ok(text) => is_none(alloc, text.as_str()),
        Err(_) => false,
    }
}

// Each form of a reply and of an answer, numbers at the ends of 32 and 64 bits, and ranges that end before they start.
const REPLIES: &str = "\
{\"at\":1,\"end\":[0,1],\"from\":[2,3],\"hits\":[4,5,6,7],\"to\":[8,9]}\n\
{\"at\":1,\"edits\":[{\"end\":[0,1],\"from\":[2,3],\"hits\":[4,5,6,7],\"to\":[8,9]}]}\n\
{\"at\":1,\"text\":\"\\n\",\"units\":18446744073709551615}\n\
{\"at\":0}\n\
{\"at\":1,\"exclusive\":true,\"range\":[4294967295,4294967295,0,0]}\n\
{\"at\":1,\"ids\":[3,3,4294967295,0]}\n\
{\"at\":1,\"ids\":[]}\n\
{\"at\":1,\"order\":\"before\"}\n\
{\"at\":1,\"order\":\"same\"}\n\
{\"at\":1,\"order\":\"after\"}\n\
{\"at\":1,\"heard\":0}\n\
{\"at\":1,\"no\":\"TooLong\"}\n\
{\"at\":1,\"no\":\"WatchUnknown\"}\n\
{\"version\":0}\n\
{\"answers\":[{\"extent\":[1,2],\"units\":3},{\"text\":\"a\",\"units\":1},{\"count\":9,\"hits\":[[1,2,0,0]]},{\"bytes\":4}]}\n\
null,null";

#[test]
fn reads_each_form_of_reply(rt: HostRuntime) {
    for replies in REPLIES.split('\n') {
        assert!(rt; keeps(rt.alloc(), replies), "{replies}");
    }
}

// Keys missing, unknown or too many; words and kinds of no row; numbers that aren't whole or are out of their bounds;
// points of one number and of three.
const NO_REPLIES: &str = "\
{}\n\
[]\n\
0\n\
{\"at\":1,\"end\":[0,1],\"from\":[2,3],\"hits\":[4,5,6,7]}\n\
{\"at\":1,\"end\":[0,1],\"from\":[2,3],\"hits\":[4,5,6],\"to\":[8,9]}\n\
{\"at\":1,\"end\":[0],\"from\":[2,3],\"hits\":[4,5,6,7],\"to\":[8,9]}\n\
{\"at\":1,\"end\":[0,1,2],\"from\":[2,3],\"hits\":[4,5,6,7],\"to\":[8,9]}\n\
{\"at\":1,\"end\":[0,4294967296],\"from\":[2,3],\"hits\":[4,5,6,7],\"to\":[8,9]}\n\
{\"at\":1,\"text\":0,\"units\":1}\n\
{\"at\":1,\"text\":\"\",\"units\":18446744073709551616}\n\
{\"at\":1.0}\n\
{\"at\":1e0}\n\
{\"at\":-0}\n\
{\"at\":\"1\"}\n\
{\"at\":1,\"ids\":[4294967296]}\n\
{\"at\":1,\"order\":\"equal\"}\n\
{\"at\":1,\"no\":\"toolong\"}\n\
{\"at\":1,\"no\":\"Spent\"}\n\
{\"at\":1,\"version\":1}\n\
{\"answers\":[null]}\n\
{\"answers\":[{\"extent\":[1,2],\"text\":\"a\"}]}\n\
{\"answers\":[{\"count\":9,\"hits\":[[1,2,0]]}]}\n\
null,{\"at\":1,\"more\":null}";

#[test]
fn refuses_other_forms_of_reply(rt: HostRuntime) {
    for replies in NO_REPLIES.split('\n') {
        assert!(rt; has_no_form(rt.alloc(), replies), "{replies}");
    }
}

// Nothing; a value cut short; a value that nests too deep to be one; other versions, and none; a key too many; an end
// and sessions of other kinds.
const NO_DOCUMENTS: &str = "\
\n\
{\"end\":{\"count\":0,\"text\":\"\"},\"sessions\":[[]],\"version\":1\n\
{\"end\":{\"count\":0,\"text\":\"\"},\"sessions\":[[]],\"version\":2}\n\
{\"end\":{\"count\":0,\"text\":\"\"},\"sessions\":[[]],\"version\":\"1\"}\n\
{\"end\":{\"count\":0,\"text\":\"\"},\"sessions\":[[]]}\n\
{\"end\":{\"count\":0,\"text\":\"\"},\"more\":0,\"sessions\":[[]],\"version\":1}\n\
{\"end\":{\"count\":0},\"sessions\":[[]],\"version\":1}\n\
{\"end\":null,\"sessions\":[[]],\"version\":1}\n\
{\"end\":{\"count\":0,\"text\":\"\"},\"sessions\":{},\"version\":1}\n\
{\"end\":{\"count\":0,\"text\":\"\"},\"sessions\":[{}],\"version\":1}\n\
[]";

#[test]
fn refuses_other_documents(rt: HostRuntime) {
    for document in NO_DOCUMENTS.split('\n') {
        assert!(rt; is_none(rt.alloc(), document), "{document}");
    }
}

// Keys in another order with blanks around, and no line feed behind.
#[test]
fn reads_any_text_of_the_value(rt: HostRuntime) {
    let text =
        " {\"version\" : 1, \"sessions\" : [ ], \"end\" : {\"text\" : \"\", \"count\" : 0} } ";
    assert!(rt; !is_none(rt.alloc(), text));
}
