//! The shared buffer and its calls.
ghost use Rattle.std.specs.Prelude.{◌≡◌, ℕ, ◌≤◌, ◌<◌, true, false, nat_lt, IfOk, IfErr, IfSome, option_map, [], ◌∷◌, length, map, vec_len, vec_capacity, slice_index_or};
ghost use Rattle.turn_table.specs.declared.view.View.{View};
ghost use Rattle.turn_table.specs.Meaning.{MayFollow};
ghost use Rattle.points.specs.declared.limits.TheConstants.{MAX_HANDS};
ghost use Rattle.turn_table.specs.Openings.{AreDealt, new_desk, first_hand};
ghost use Rattle.turn_table.specs.Calls.{Turned, Joined};
ghost use Rattle.shared_buffer.specs.Entries.{Entry, Shared, is_plain, Meets, squashed, shaped, AreLayers};
ghost use Rattle.turn_table.specs.Given.{seat_in};
ghost use Rattle.shared_buffer.specs.Calls.{reply_in, hand_number, given, ending, showing, depth_in, sizes_in};
ghost use Rattle.shared_buffer.specs.Tokens.{IsDeskOf, IsSeatOf, Called, Stays, IsSpent, IsHanded, IsFull, IsEntered, IsTaken, IsFinished, AreHands, Known, rules};

use crate::call::{Call, Numbered, Reply, TakenText};
use crate::held::Held;
use crate::plain::PlainBuffer;
use crate::snapshot::Snapshot;
use crate::told::{Shown, Told};
use layers::{Reader, Shape};
use machine::Command;
use points::{MAX_HANDS, NoMemory, Units};
use std::alloc::Global;
use std::marker::Model;
use std::sync::Wait;
use turn_table::{HandSeat, Tokens, TurnTable};

/// A desk, from which a session calls. It has no bytes, and can go to another thread.
pub type Desk = turn_table::Desk<Told, Shown>;

/// A hand, which can hold one snapshot. It must be given back, or retired.
pub struct Hand {
    pub seat: HandSeat<Told, Shown>,
    pub number: u32,
}

impl Hand {
    /// Spends the hand without a call. Its number stays out for good.
    pub fn retire(self) {
        let Hand { seat, number: _ } = self;
        drop(seat);
    }
}

/// Why a numbered call has no number.
#[derive(Clone, Copy, Debug, PartialEq, Eq)]
pub enum Refusal {
    /// The last number is given.
    Spent,
    /// There was no memory.
    NoMemory,
}

/// Why there is no hand.
#[derive(Clone, Copy, Debug, PartialEq, Eq)]
pub enum HandRefusal {
    /// All 32 are out.
    HandsFull,
    /// There was no memory.
    NoMemory,
}

/// What a squash did.
#[derive(Clone, Copy, Debug, PartialEq, Eq)]
pub enum Squash {
    /// There are so many layers now, the base among them: 1 or 2.
    Done { depth: u32 },
}

/// A buffer that many sessions share. Contracts see what it began with.
#[derive(Drop)]
pub struct SharedBuffer<B: PlainBuffer + Send> {
    table: TurnTable<Held<B>>,
}

impl<B: PlainBuffer + Send> Model for SharedBuffer<B> {
    ghost use Rattle.turn_table.specs.Given.{seat_in};
    ghost use Rattle.shared_buffer.specs.Calls.{reply_in, hand_number, given, ending, showing, depth_in, sizes_in};
    ghost use Rattle.shared_buffer.specs.Tokens.{Opening};

    ghost Value = { Opening };

    ghost view = { λ b. record { table = b.table.table.shared.table_id; start = b.table.table.shared.key.object.value; desks = b.table.table.shared.key.desks; version = B.version } };
}

/// The whole text, and how many calls were numbered.
#[derive(Drop)]
pub struct Finished {
    pub text: Units,
    pub count: u64,
}

/// A shared buffer with its desks, in the order of their numbers.
#[derive(Drop)]
pub struct Started<B: PlainBuffer + Send> {
    pub buffer: SharedBuffer<B>,
    pub desks: Vec<Desk>,
}

impl<B: PlainBuffer + Send> SharedBuffer<B> {
    /// A buffer to be shared by so many desks, numbered from 0. No hand is out.
    pub fn start(alloc: Global, buffer: B, desks: u32) -> Result<Started<B>, NoMemory>
        requires fit { B.IsFit buffer }
        requires desks { (1 ≤ desks) × (desks ≤ 64) }
        ensures start { IfOk result (λ s. (s.buffer.start.plain ≡ B.state buffer) × (s.buffer.desks ≡ desks) × (s.buffer.version ≡ B.version)) }
        ensures out { IfOk result (λ s. (n : ℕ) → slice_index_or s.buffer.start.out n false ≡ false) }
        ensures desks { IfOk result (λ s. AreDealt s.buffer.table new_desk desks s.desks.items) }
    {
        match TurnTable::new(alloc, Held::new(alloc, buffer, 0), desks, 0) {
            Ok(
                Tokens {
                    table,
                    desks,
                    hands: _,
                },
            ) => Ok(Started {
                buffer: SharedBuffer { table },
                desks,
            }),
            Err(_) => Err(NoMemory),
        }
    }

    /// The same with so many hands, numbered from 0. No other hand is out.
    pub fn start_with_hands(
        alloc: Global,
        buffer: B,
        desks: u32,
        hands: u32,
    ) -> Result<(Started<B>, Vec<Hand>), NoMemory>
        requires fit { B.IsFit buffer }
        requires desks { (1 ≤ desks) × (desks ≤ 64) }
        requires hands { hands ≤ MAX_HANDS }
        ensures start { IfOk result (λ s. (s.0.buffer.start.plain ≡ B.state buffer) × (s.0.buffer.desks ≡ desks) × (s.0.buffer.version ≡ B.version)) }
        ensures out { IfOk result (λ s. (n : ℕ) → slice_index_or s.0.buffer.start.out n false ≡ nat_lt n hands) }
        ensures desks { IfOk result (λ s. AreDealt s.0.buffer.table new_desk desks s.0.desks.items) }
        ensures hands { IfOk result (λ s. (length s.1.items ≡ hands) × AreHands s.0.buffer s.1.items) }
    {
        let Ok(room) = Vec::with_capacity(alloc, hands as usize) else {
            return Err(NoMemory);
        };
        match TurnTable::new(alloc, Held::new(alloc, buffer, hands), desks, hands) {
            Ok(
                Tokens {
                    table,
                    desks,
                    hands,
                },
            ) => {
                let buffer = SharedBuffer { table };
                let hands = numbered(&buffer, hands, room);
                Ok((Started { buffer, desks }, hands))
            }
            Err(_) => {
                room.destroy_empty();
                Err(NoMemory)
            }
        }
    }

    /// Plays a numbered call that brings no watcher, and waits for its turn.
    pub fn play<R: Wait>(
        &self,
        rt: &R,
        desk: &mut Desk,
        command: Command,
    ) -> Result<machine::Reply, Refusal>
        requires plain { is_plain command ≡ true }
        requires desk { IsDeskOf self.now desk.old }
        ensures desk { IsDeskOf self.now desk.new }
        ensures ok { IfOk result (λ r. Turned (Called self.now command r) desk.old.views desk.new.views) }
        ensures spent { IfErr result (λ no. no ≡ Refusal.Spent → Turned (IsSpent self.now) desk.old.views desk.new.views) }
        ensures err { IfErr result (λ no. Turned (Stays self.now) desk.old.views desk.new.views) }
    {
        match self.table.with(rt, desk, Call::Play(Numbered { command })) {
            Ok(reply) => match played(reply) {
                Some(reply) => Ok(reply),
                None => Err(Refusal::Spent),
            },
            Err(_) => Err(Refusal::NoMemory),
        }
    }

    /// Makes a hand, which gets the lowest number that isn't out.
    pub fn hand<R: Wait>(&self, rt: &R, desk: &mut Desk) -> Result<Hand, HandRefusal>
        requires desk { IsDeskOf self.now desk.old }
        ensures desk { IsDeskOf self.now desk.new }
        ensures ok { IfOk result (λ h. IsSeatOf self.now h.number h.seat × Turned (IsHanded self.now h.number) desk.old.views desk.new.views) }
        ensures full { IfErr result (λ no. no ≡ HandRefusal.HandsFull → Turned (IsFull self.now) desk.old.views desk.new.views) }
        ensures err { IfErr result (λ no. Turned (Stays self.now) desk.old.views desk.new.views) }
    {
        match self.table.with(rt, desk, Call::Hand) {
            Ok(reply) => match made(reply) {
                Some(hand) => Ok(hand),
                None => Err(HandRefusal::HandsFull),
            },
            Err(_) => Err(HandRefusal::NoMemory),
        }
    }

    /// Gives a hand back. It takes no memory.
    pub fn hand_back<R: Wait>(&self, rt: &R, hand: Hand)
        requires { IsSeatOf self.now hand.number hand.seat }
    {
        let Hand { mut seat, number } = hand;
        let _ = self.table.with_hand(rt, &mut seat, Call::GiveBack(number));
    }

    /// Takes a snapshot of the text as it is, for which a hand is used up to its release. An `Err` is want of memory, and
    /// hands the hand back.
    pub fn take<R: Wait>(&self, rt: &R, desk: &mut Desk, hand: Hand) -> Result<Snapshot, Hand>
        requires desk { IsDeskOf self.now desk.old }
        ensures desk { IsDeskOf self.now desk.new }
        ensures ok { IfOk result (λ s. Turned (IsTaken self.now s.reader.text s.version) desk.old.views desk.new.views) }
        ensures hand { IfOk result (λ s. s.hand ≡ hand) }
        ensures err { IfErr result (λ h. (h ≡ hand) × Turned (Stays self.now) desk.old.views desk.new.views) }
    {
        match self.table.with(rt, desk, Call::Take(hand.number)) {
            Ok(reply) => match shown(reply) {
                Some(TakenText { reader, version }) => Ok(Snapshot {
                    hand,
                    reader,
                    version,
                }),
                None => Err(hand),
            },
            Err(_) => Err(hand),
        }
    }

    /// A reader of a snapshot, at any time up to its release. It shows what the take saw.
    pub fn open_snapshot(&self, snapshot: &Snapshot) -> Result<Reader, NoMemory>
        ensures { IfOk result (λ r. r.text ≡ snapshot.now.reader.text) }
    {
        snapshot.reader.try_clone()
    }

    /// Gives a snapshot up, and its hand back. It waits for nobody and takes no memory.
    pub fn release(&self, snapshot: Snapshot) -> Hand
        ensures { result ≡ snapshot.hand }
    {
        let Snapshot {
            hand,
            reader,
            version: _,
        } = snapshot;
        drop(reader);
        hand
    }

    /// Puts the layers of the text together, so that at most two are left: the base, and one with all changes since. No call can
    /// tell the difference but `shape`.
    pub fn squash<R: Wait>(&self, rt: &R, desk: &mut Desk) -> Result<Squash, NoMemory>
        requires desk { IsDeskOf self.now desk.old }
        ensures desk { IsDeskOf self.now desk.new }
        ensures ok { IfOk result (λ s. (depth : ℕ) → s ≡ Squash.Done depth → (depth ≤ 2) × Turned (IsEntered self.now (squashed depth)) desk.old.views desk.new.views) }
        ensures err { IfErr result (λ _. Turned (Stays self.now) desk.old.views desk.new.views) }
    {
        match self.table.with(rt, desk, Call::Squash) {
            Ok(reply) => match flattened(&reply) {
                Some(depth) => Ok(Squash::Done { depth }),
                None => Err(NoMemory),
            },
            Err(_) => Err(NoMemory),
        }
    }

    /// How large the layers of the text are, from the base to the newest.
    pub fn shape<R: Wait>(&self, rt: &R, desk: &mut Desk) -> Result<Shape, NoMemory>
        requires desk { IsDeskOf self.now desk.old }
        ensures desk { IsDeskOf self.now desk.new }
        ensures layers { IfOk result (λ shape. AreLayers shape) }
        ensures ok { IfOk result (λ shape. Turned (IsEntered self.now (shaped shape)) desk.old.views desk.new.views) }
        ensures err { IfErr result (λ _. Turned (Stays self.now) desk.old.views desk.new.views) }
    {
        match self.table.with(rt, desk, Call::Measure) {
            Ok(reply) => match measured(reply) {
                Some(shape) => Ok(shape),
                None => Err(NoMemory),
            },
            Err(_) => Err(NoMemory),
        }
    }

    /// Ends a desk into another, which then stands for the desk numbers of both. It waits for nobody.
    pub fn end(&self, desk: Desk, into: &mut Desk)
        requires desk { IsDeskOf self.now desk }
        requires into { IsDeskOf self.now into.old }
        ensures into { IsDeskOf self.now into.new }
        ensures joined { (other : View Entry Shared) → desk.views ≡ other ∷ [] → Turned (λ v w. Joined (rules self.now) (MayFollow (rules self.now) Meets) self.now.start self.now.desks v other w) into.old.views into.new.views }
    {
        self.table.end(desk, into);
    }

    /// The whole text and the count, for which the buffer is given up. An `Err` is want of memory, and hands both back.
    pub fn finish<R: Wait>(
        self,
        rt: &R,
        alloc: Global,
        desk: Desk,
    ) -> Result<Finished, (SharedBuffer<B>, Desk)>
        requires { IsDeskOf self desk }
        ensures ok { IfOk result (λ f. (v : Known) → desk.views ≡ v ∷ [] → IsFinished self f.text f.count v) }
        ensures same { IfErr result (λ x. (x.0 ≡ self) × IsDeskOf self x.1) }
        ensures err { IfErr result (λ x. Turned (Stays self) desk.views x.1.views) }
    {
        match self.table.close(rt, desk, Call::Finish) {
            Ok(reply) => Ok(ended(alloc, reply)),
            Err((table, desk, _)) => Err((SharedBuffer { table }, desk)),
        }
    }
}

// The reader in a reply, where it has one, with the version.
fn shown(reply: Reply) -> Option<TakenText>
    ensures { IfSome result (λ t. (t.reader.text, t.version) ≡ showing reply) }
{
    match reply {
        Reply::Taken(text) => Some(text),
        _ => None,
    }
}

// The text and the count in a reply.
fn ended(alloc: Global, reply: Reply) -> Finished
    ensures { (result.text, result.count) ≡ ending reply }
{
    match reply {
        Reply::Finished(text, count) => Finished { text, count },
        _ => Finished {
            text: Units::new(alloc),
            count: 0,
        },
    }
}

// The reply to a numbered call, where it has a number.
fn played(reply: Reply) -> Option<machine::Reply>
    ensures { result ≡ reply_in reply }
{
    match reply {
        Reply::Played(reply) => Some(reply),
        _ => None,
    }
}

// The hand that was made, where one was.
fn made(reply: Reply) -> Option<Hand>
    ensures number { option_map (λ h. h.number) result ≡ hand_number reply }
    ensures seat { IfSome result (λ h. given reply ≡ seat_in h.seat.table_id h.seat.views) }
{
    match reply {
        Reply::Hand(seat, number) => Some(Hand { seat, number }),
        _ => None,
    }
}

// How many layers there are, in a reply that tells it.
fn flattened(reply: &Reply) -> Option<u32>
    ensures { IfSome result (λ depth. depth ≡ depth_in reply.now) }
{
    match reply {
        Reply::Squashed(depth) => Some(*depth),
        _ => None,
    }
}

// The sizes of layers in a reply that tells them.
fn measured(reply: Reply) -> Option<Shape>
    ensures { IfSome result (λ shape. shape ≡ sizes_in reply) }
{
    match reply {
        Reply::Measured(shape) => Some(shape),
        _ => None,
    }
}

// The hands of a buffer's first seats, in the order of their numbers.
fn numbered<B: PlainBuffer + Send>(
    buffer: &SharedBuffer<B>,
    seats: Vec<HandSeat<Told, Shown>>,
    room: Vec<Hand>,
) -> Vec<Hand>
    requires seats { AreDealt buffer.now.table first_hand (vec_len seats) seats.items }
    requires few { vec_len seats ≤ MAX_HANDS }
    requires room { (room.items ≡ []) × (vec_len seats ≤ vec_capacity room) }
    ensures len { vec_len result ≡ vec_len seats }
    ensures hands { AreHands buffer.now result.items }
{
    let _ = buffer;
    let mut hands = room;
    for seat in seats {
        let number = hands.len() as u32;
        hands.push_reserved(Hand { seat, number });
    }
    hands
}
