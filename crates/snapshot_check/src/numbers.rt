//! The numbers of replies, and of two lists that a loop goes over together.
ghost use Rattle.std.specs.Prelude.{◌≡◌, min};
ghost use Rattle.machine.specs.Answers as answers;

use machine::Reply;

/// The lesser of two numbers.
pub fn lesser(a: usize, b: usize) -> usize
    ensures { result ≡ min a b }
{
    if a < b { a } else { b }
}

/// The number of a reply, where it has one.
pub fn number_of(reply: &Reply) -> Option<u64>
    ensures { result ≡ answers.number_of reply.now }
{
    match reply {
        Reply::Edited { at, .. } => Some(*at),
        Reply::Batched { at, .. } => Some(*at),
        Reply::Text { at, .. } => Some(*at),
        Reply::Numbered { at } => Some(*at),
        Reply::Range { at, .. } => Some(*at),
        Reply::Marks { at, .. } => Some(*at),
        Reply::Order { at, .. } => Some(*at),
        Reply::Heard { at, .. } => Some(*at),
        Reply::Refused { at, .. } => Some(*at),
        Reply::Taken { .. } | Reply::Answered { .. } | Reply::Nothing => None,
    }
}
