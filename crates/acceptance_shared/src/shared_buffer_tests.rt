//! Two desks that take turns, hands that come and go, and snapshots that keep their text.
ghost use Rattle.std.specs.Prelude.{◌≡◌, ◌≤◌, [], ◌∷◌, IfOk, IfSome, IsTrue};
ghost use Rattle.points.specs.Text.{IsWellFormed};
ghost use Rattle.layers.specs.Shelf.{top_layers};
ghost use Rattle.chains.specs.Layered.{on_base};
ghost use Rattle.shared_buffer.specs.Tokens.{IsDeskOf};
ghost use Rattle.acceptance_shared.specs.Sharing.{AreDesksOf};

use layers::{Reader, Shape, Shelf, places_are_sound};
use line_text::LineText;
use machine::{Command, Reply, Text};
use plain_replay::Plain;
use points::{MAX_UNITS, NoMemory, Point, Range, Units};
use shared_buffer::{Desk, Hand, HandRefusal, PlainBuffer, SharedBuffer, Snapshot, Started};
use std::alloc::Global;
use std::sync::Wait;
use std::test::Fail;

// The plain machine, as far as it counts.
#[derive(Drop)]
pub(crate) struct Counting {
    pub(crate) plain: Plain,
}

impl PlainBuffer for Counting {
    ghost use Rattle.std.specs.Prelude.{⊤};

    ghost state = { λ b. b.plain };

    ghost IsFit = { λ b. ⊤ };

    ghost version = { 2 };

    ghost sizes = { λ b. record { changes = 0; units = 0 } ∷ [] };

    fn count(&self) -> u64 {
        self.plain.count()
    }

    // It has no layers that a reader could share, so the reader has a base of its own. It doesn't know that its text is
    // well-formed, so it looks.
    fn reader(&self, alloc: Global) -> Result<(Reader, u64), NoMemory> {
        if !is_whole(alloc, self.plain.text()) {
            return Err(NoMemory);
        }
        let shelf = based(alloc, &self.plain)?;
        places_are_sound(&shelf);
        let reader = shelf.reader(shelf.top())?;
        Ok((reader, self.plain.version()))
    }

    fn units(&self, alloc: Global) -> Result<Units, NoMemory> {
        let mut units = Units::new(alloc);
        units.append(self.plain.text())?;
        Ok(units)
    }

    fn play(&mut self, alloc: Global, command: &Command) -> Result<Reply, NoMemory> {
        let _ = alloc;
        if self.plain.count() >= 1_000_000 {
            return Err(NoMemory);
        }
        self.plain.step(command)
    }

    fn hold(&mut self, hand: u32) {
        let _ = hand;
    }

    fn let_go(&mut self, hand: u32) {
        let _ = hand;
    }

    fn squash(&mut self, alloc: Global) -> Result<u32, NoMemory> {
        let _ = alloc;
        Ok(1)
    }

    fn shape(&self, alloc: Global) -> Result<Shape, NoMemory> {
        based(alloc, &self.plain)?.shape()
    }
}

// Whether no surrogate lacks its partner.
fn is_whole(alloc: Global, units: &[u16]) -> bool
    ensures { IsTrue result → IsWellFormed units.now }
{
    points::laws::well_formed(units);
    let read: Result<Result<_, _>, _> = String::from_utf16(alloc, units);
    matches!(read, Ok(Ok(_)))
}

// A shelf with the text as its base.
fn based(alloc: Global, plain: &Plain) -> Result<Shelf, NoMemory>
    ensures { IfOk result (λ shelf. top_layers shelf ≡ on_base plain.now.text []) }
{
    let mut units = Units::new(alloc);
    units.append(plain.text())?;
    match LineText::from_units(units) {
        Ok(text) => Shelf::new(alloc, text, 0),
        Err(_) => Err(NoMemory),
    }
}

type Buffer = SharedBuffer<Counting>;

// The plain machine over an empty text.
pub(crate) fn plain(alloc: Global) -> Option<Plain> {
    let units = Units::from_str(alloc, "").ok()?;
    if units.len() > MAX_UNITS {
        return None;
    }
    Plain::start(alloc, "").ok()
}

// A shared empty text with its desks.
fn started(alloc: Global, desks: u32) -> Option<(Buffer, Vec<Desk>)>
    requires { (1 ≤ desks) × (desks ≤ 64) }
    ensures { IfSome result (λ s. AreDesksOf s.0 s.1.items) }
{
    let plain = plain(alloc)?;
    let Ok(started) = SharedBuffer::start(alloc, Counting { plain }, desks) else {
        return None;
    };
    let Started { buffer, desks } = started;
    Some((buffer, desks))
}

// The last of a buffer's desks.
fn taken(buffer: &Buffer, desks: &mut Vec<Desk>) -> Option<Desk>
    requires { AreDesksOf buffer.now desks.old.items }
    ensures desk { IfSome result (λ d. IsDeskOf buffer.now d) }
    ensures others { AreDesksOf buffer.now desks.new.items }
{
    let _ = buffer;
    desks.pop()
}

// The number of an `x` at the text's start.
fn typed<R: Wait>(rt: &R, alloc: Global, buffer: &Buffer, desk: &mut Desk) -> Option<u64>
    requires { IsDeskOf buffer.now desk.old }
    ensures { IsDeskOf buffer.now desk.new }
{
    let text = Text::from_str(alloc, "x").ok()?;
    let start = Point { row: 0, column: 0 };
    let command = Command::Edit {
        range: Range::new(start, start),
        text,
    };
    match buffer.play(rt, desk, command) {
        Ok(Reply::Batched { at, .. } | Reply::Edited { at, .. }) => Some(at),
        _ => None,
    }
}

// Two desks in turn, three edits each, and what is there at the end.
fn in_turn<R: Wait>(rt: &R, alloc: Global) -> Option<([u64; 6], u64, usize)> {
    let (buffer, mut desks) = started(alloc, 2)?;
    let mut one = taken(&buffer, &mut desks)?;
    let mut other = taken(&buffer, &mut desks)?;
    let first = typed(rt, alloc, &buffer, &mut one)?;
    let second = typed(rt, alloc, &buffer, &mut other)?;
    let third = typed(rt, alloc, &buffer, &mut one)?;
    let fourth = typed(rt, alloc, &buffer, &mut other)?;
    let fifth = typed(rt, alloc, &buffer, &mut other)?;
    let sixth = typed(rt, alloc, &buffer, &mut one)?;
    let numbers = [first, second, third, fourth, fifth, sixth];
    buffer.end(other, &mut one);
    let finished = buffer.finish(rt, alloc, one).ok()?;
    Some((numbers, finished.count, finished.text.len()))
}

#[test]
fn two_desks_have_one_count(rt: HostRuntime) {
    assert_eq!(rt; in_turn(&rt, rt.alloc()), Some(([1, 2, 3, 4, 5, 6], 6, 6)));
}

// A new hand, kept for good, and its number.
fn kept<R: Wait>(rt: &R, buffer: &Buffer, desk: &mut Desk) -> Result<u32, HandRefusal>
    requires { IsDeskOf buffer.now desk.old }
    ensures { IsDeskOf buffer.now desk.new }
{
    let hand = buffer.hand(rt, desk)?;
    let number = hand.number;
    hand.retire();
    Ok(number)
}

// A new hand, given back at once, and its number.
fn passing<R: Wait>(rt: &R, buffer: &Buffer, desk: &mut Desk) -> Result<u32, HandRefusal>
    requires { IsDeskOf buffer.now desk.old }
    ensures { IsDeskOf buffer.now desk.new }
{
    let hand = buffer.hand(rt, desk)?;
    let number = hand.number;
    buffer.hand_back(rt, hand);
    Ok(number)
}

// The desk behind 31 new hands, which are kept for good.
fn keeping<R: Wait>(rt: &R, buffer: &Buffer, desk: Desk) -> Option<Desk>
    requires { IsDeskOf buffer.now desk }
    ensures { IfSome result (λ d. IsDeskOf buffer.now d) }
{
    let mut desk = desk;
    for _ in 0..31 {
        if kept(rt, buffer, &mut desk).is_err() {
            return None;
        }
    }
    Some(desk)
}

// 31 hands are out, one more comes and goes, it comes again, and then there is none.
fn most_hands<R: Wait>(rt: &R, alloc: Global) -> Option<(u32, u32, bool)> {
    let (buffer, mut desks) = started(alloc, 1)?;
    let desk = taken(&buffer, &mut desks)?;
    let mut desk = keeping(rt, &buffer, desk)?;
    let first = passing(rt, &buffer, &mut desk).ok()?;
    let second = kept(rt, &buffer, &mut desk).ok()?;
    let full = matches!(kept(rt, &buffer, &mut desk), Err(HandRefusal::HandsFull));
    Some((first, second, full))
}

#[test]
fn hands_are_made_up_to_32(rt: HostRuntime) {
    assert_eq!(rt; most_hands(&rt, rt.alloc()), Some((31, 31, true)));
}

// Whether a snapshot still shows this many units.
fn shows(buffer: &Buffer, snapshot: &Snapshot, units: usize) -> bool {
    match buffer.open_snapshot(snapshot) {
        Ok(reader) => reader.len() == units,
        Err(NoMemory) => false,
    }
}

// Whether a snapshot that one desk takes stays as it is beside another desk's edits and a squash.
fn snapshot_stays<R: Wait>(
    rt: &R,
    alloc: Global,
    buffer: &Buffer,
    one: &mut Desk,
    other: &mut Desk,
    hand: Hand,
) -> bool
    requires one { IsDeskOf buffer.now one.old }
    requires other { IsDeskOf buffer.now other.old }
    ensures one { IsDeskOf buffer.now one.new }
    ensures other { IsDeskOf buffer.now other.new }
{
    match buffer.take(rt, one, hand) {
        Ok(snapshot) => {
            let typed = typed(rt, alloc, buffer, other).is_some();
            let squashed = buffer.squash(rt, one).is_ok();
            let shown = snapshot.version == 1 && shows(buffer, &snapshot, 1);
            buffer.release(snapshot).retire();
            typed && squashed && shown
        }
        Err(hand) => {
            hand.retire();
            false
        }
    }
}

// A text of one unit, seen by a snapshot while another desk edits it.
fn snapshots<R: Wait>(rt: &R, alloc: Global) -> Option<bool> {
    let (buffer, mut desks) = started(alloc, 2)?;
    let mut one = taken(&buffer, &mut desks)?;
    let mut other = taken(&buffer, &mut desks)?;
    typed(rt, alloc, &buffer, &mut other)?;
    let hand = buffer.hand(rt, &mut one).ok()?;
    let stays = snapshot_stays(rt, alloc, &buffer, &mut one, &mut other, hand);
    let layers = buffer.shape(rt, &mut one).ok()?.as_slice().len();
    Some(stays && layers == 1)
}

#[test]
fn a_snapshot_shows_the_text_of_its_take(rt: HostRuntime) {
    assert_eq!(rt; snapshots(&rt, rt.alloc()), Some(true));
}

// The numbers of the hands that a buffer starts with, and of the next one.
fn first_hands<R: Wait>(rt: &R, alloc: Global) -> Option<(usize, u32)> {
    let plain = plain(alloc)?;
    let Ok((started, mut hands)) = SharedBuffer::start_with_hands(alloc, Counting { plain }, 1, 3)
    else {
        return None;
    };
    let Started { buffer, mut desks } = started;
    let count = hands.len();
    while let Some(hand) = hands.pop() {
        hand.retire();
    }
    hands.destroy_empty();
    let mut desk = desks.pop()?;
    let next = kept(rt, &buffer, &mut desk).ok()?;
    Some((count, next))
}

#[test]
fn hands_are_there_from_the_start(rt: HostRuntime) {
    assert_eq!(rt; first_hands(&rt, rt.alloc()), Some((3, 3)));
}
