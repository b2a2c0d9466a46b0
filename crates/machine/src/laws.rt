//! Laws of the plain machine and of lawful transcripts, each the contract of a function that does nothing.

ghost use Rattle.machine.specs.Laws.{StepNumbers, PlainIsLawful, OnlyPlainIsLawful, HistoryIsLawful, VerdictIsOne};

/// Each call raises the count by one; it leaves the text and the version, or its number becomes the version.
pub fn calls_are_numbered()
    ensures { StepNumbers }
{}

/// For a script of one session, what a plain string answers is a lawful transcript.
pub fn plain_transcript_is_lawful()
    ensures { PlainIsLawful }
{}

/// And no other transcript of that script is lawful, where each read is of a live snapshot and the hits of each
/// pattern are told.
pub fn only_plain_transcript_is_lawful()
    ensures { OnlyPlainIsLawful }
{}

/// A transcript of many sessions that writes a legal history down is lawful: each session's numbered calls are its
/// own of the history, and each take shows the text at a moment of the history.
pub fn written_history_is_lawful()
    ensures { HistoryIsLawful }
{}

/// No transcript has two verdicts: a lawful one has no first fault, and no other has two.
pub fn verdict_is_one()
    ensures { VerdictIsOne }
{}
