//! Laws of the two documents, each the contract of a function that does nothing.
ghost use Rattle.script.specs.DocumentLaws.{ValueIsRead, BytesAreTheirScript, ValuesTellTranscripts, TextsTellTranscripts};

/// A script that breaks no rule is read from its JSON value.
pub fn value_is_read()
    ensures { ValueIsRead }
{}

/// Bytes are a script exactly where they are UTF-8 whose JSON value is that of the script, and the script
/// breaks no rule.
pub fn bytes_are_their_script()
    ensures { BytesAreTheirScript }
{}

/// Different transcripts have different JSON values.
pub fn values_tell_transcripts()
    ensures { ValuesTellTranscripts }
{}

/// Different transcripts have different texts.
pub fn texts_tell_transcripts()
    ensures { TextsTellTranscripts }
{}
