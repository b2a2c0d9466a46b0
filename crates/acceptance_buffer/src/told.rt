//! What replies tell, as plain values that can be compared.
use machine::{CallRefusal, HitNumbers, Reply, ReplyPart};
use points::{MarkOrder, Point};

/// What a reply tells. An undo and a redo tell the same in transcripts of version 1, as an edit, and of version 2, as a
/// batch of one part.
#[derive(Clone, Copy, Debug, PartialEq)]
pub enum Told<'a> {
    Edited(u64, ReplyPart),
    Text(u64, &'a str, u64),
    Numbered(u64),
    Range(u64, bool, Point, Point),
    Marks(u64, &'a [u32]),
    Order(u64, MarkOrder),
    Heard(u64, u64),
    Refused(u64, CallRefusal),
    Nothing,
}

/// What is told of a change: three columns of the first row, from which and up to which the old units stood and where the
/// new ones end, and how many marks it hits.
pub fn part(columns: [u32; 3], hits: [u64; 4]) -> ReplyPart {
    let [from, to, end] = columns;
    let [touch, inside, overlap, surround] = hits;
    ReplyPart {
        end: at(end),
        from: at(from),
        hits: HitNumbers {
            touch,
            inside,
            overlap,
            surround,
        },
        to: at(to),
    }
}

/// A column of the first row.
pub fn at(column: u32) -> Point {
    Point { row: 0, column }
}

/// What a reply to a call or to a squash tells.
pub fn told_of(reply: &Reply) -> Option<Told<'_>> {
    match reply {
        Reply::Edited {
            at,
            end,
            from,
            hits,
            to,
        } => {
            let part = ReplyPart {
                end: *end,
                from: *from,
                hits: *hits,
                to: *to,
            };
            Some(Told::Edited(*at, part))
        }
        Reply::Batched { at, edits } => match edits.as_slice() {
            [part] => Some(Told::Edited(*at, *part)),
            _ => None,
        },
        Reply::Numbered { at } => Some(Told::Numbered(*at)),
        Reply::Heard { at, heard } => Some(Told::Heard(*at, *heard)),
        Reply::Refused { at, no } => Some(Told::Refused(*at, *no)),
        Reply::Nothing => Some(Told::Nothing),
        _ => seen(reply),
    }
}

// What a reply tells that shows the text or marks.
fn seen(reply: &Reply) -> Option<Told<'_>> {
    match reply {
        Reply::Text { at, text, units } => Some(Told::Text(*at, text.as_str(), *units)),
        Reply::Range {
            at,
            exclusive,
            range,
        } => Some(Told::Range(*at, *exclusive, range.start, range.end)),
        Reply::Marks { at, ids } => Some(Told::Marks(*at, ids.as_slice())),
        Reply::Order { at, order } => Some(Told::Order(*at, *order)),
        _ => None,
    }
}

/// Whether both tell the same.
pub fn tell_same(left: &Reply, right: &Reply) -> bool {
    match (told_of(left), told_of(right)) {
        (Some(left), Some(right)) => left == right,
        _ => false,
    }
}

/// The first place at which the replies differ, or the length of the shorter ones.
pub fn first_difference(left: &[Reply], right: &[Reply]) -> Option<usize> {
    let mut place = 0usize;
    for (left, right) in left.iter().zip(right) {
        if !tell_same(left, right) {
            return Some(place);
        }
        place = place.saturating_add(1);
    }
    if left.len() == right.len() {
        None
    } else {
        Some(place)
    }
}

/// Whether the replies tell this, in this order.
pub fn tell(replies: &[Reply], expected: &[Told<'_>]) -> bool {
    replies.len() == expected.len()
        && replies
            .iter()
            .zip(expected)
            .all(|(reply, expected)| told_of(reply) == Some(*expected))
}
