//! The calls under the lock, and their replies.
ghost use Rattle.std.specs.Prelude.{◌≡◌, true};
ghost use Rattle.points.specs.Text.{IsWellFormed};
ghost use Rattle.shared_buffer.specs.Entries.{is_plain};

use crate::told::{Shown, Told};
use layers::{Reader, Shape};
use machine::Command;
use points::Units;
use turn_table::HandSeat;

/// A command that is a numbered call and brings no watcher.
#[derive(Drop)]
pub struct Numbered {
    pub command: Command,
    ghost plain: { is_plain command ≡ true },
}

/// What a caller asks of the buffer under the lock.
#[derive(Drop)]
pub enum Call {
    /// A numbered call.
    Play(Numbered),
    /// Make a hand, if fewer than 32 are out.
    Hand,
    /// Give back the hand with this number.
    GiveBack(u32),
    /// Make a reader of the text, and let the hand with this number hold on to it.
    Take(u32),
    /// Copy the whole text.
    Finish,
    /// Put the layers of the text together.
    Squash,
    /// Tell how large the layers are.
    Measure,
}

/// A reader of a text, and the text's version. No surrogate of the text lacks its partner.
#[derive(Drop)]
pub struct TakenText {
    pub reader: Reader,
    pub version: u64,
    pub ghost whole: { ∥ IsWellFormed reader.text ∥₁ },
}

/// What the buffer answers under the lock.
#[derive(Drop)]
pub enum Reply {
    /// The reply to a numbered call.
    Played(machine::Reply),
    /// No number is left for the call.
    Spent,
    /// The hand that was made, and its number.
    Hand(HandSeat<Told, Shown>, u32),
    /// All hands are out.
    NoHand,
    /// A reader of the text, and the text's version.
    Taken(TakenText),
    /// The whole text, and how many calls were numbered.
    Finished(Units, u64),
    /// How many layers there are, after they were put together.
    Squashed(u32),
    /// How large the layers are.
    Measured(Shape),
    /// The call was done, and tells no more.
    Done,
}
