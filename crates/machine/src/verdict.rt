/// Where a transcript first fails to be lawful.
#[derive(Clone, Copy, Debug, PartialEq, Eq)]
pub enum Place {
    /// A reply is missing or of another form than its command's, or the numbers aren't 1 to N.
    Form,
    /// The reply with this number isn't that of the plain machine.
    Call(u64),
    /// A take shows a version that it can't show, or an answer through it isn't right. Sessions and commands are
    /// counted from 1.
    Snapshot { session: u32, command: u32 },
    /// The count or the last text is wrong.
    End,
}

/// What a check of a transcript finds.
#[derive(Clone, Copy, Debug, PartialEq, Eq)]
pub enum Verdict {
    /// The transcript is lawful.
    Lawful,
    /// It isn't, and this is the first place where it fails.
    Unlawful(Place),
}
