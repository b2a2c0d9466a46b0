//! What lies under the lock: a buffer, and which hands are out.
ghost use Rattle.std.specs.Prelude.{◌≡◌, ◌≤◌, ◌<◌, ℕ, true, false, None, IfOk, OnErr, nat_lt, slice_index_or};
ghost use Rattle.points.specs.declared.limits.TheConstants.{MAX_HANDS};
ghost use Rattle.shared_buffer.specs.Entries.{Shared, is_plain, said, after_called, with_out, AreLayers};
ghost use Rattle.shared_buffer.specs.Calls.{reply_in, given, showing, ending, depth_in, sizes_in};

use crate::call::{Call, Reply, TakenText};
use crate::plain::PlainBuffer;
use crate::told::{Shown, Told};
use machine::Command;
use points::{LAST, MAX_HANDS, NoMemory};
use std::alloc::Global;
use std::marker::Model;
use turn_table::{Object, Turn, hand_row, lowest_free};

/// A buffer and a row of hands. Contracts see the plain machine's state, and which hands are out.
#[derive(Drop)]
pub struct Held<B: PlainBuffer> {
    alloc: Global,
    buffer: B,
    out: [bool; 32],
}

impl<B: PlainBuffer> Model for Held<B> {
    ghost use Rattle.shared_buffer.specs.Entries.{Shared};

    ghost Value = { Shared };

    ghost view = { λ h. record { plain = B.state h.buffer; out = h.out } };

    ghost invariant = { λ h. B.IsFit h.buffer };
}

impl<B: PlainBuffer> Held<B> {
    /// This buffer, with the hands below this number out.
    pub fn new(alloc: Global, buffer: B, hands: u32) -> Self
        requires fit { B.IsFit buffer }
        requires hands { hands ≤ MAX_HANDS }
        ensures plain { result.plain ≡ B.state buffer }
        ensures out { (n : ℕ) → slice_index_or result.out n false ≡ nat_lt n hands }
    {
        Held {
            alloc,
            buffer,
            out: hand_row(hands),
        }
    }

    // Plays a numbered call, where a number is left for it.
    fn numbered(&mut self, command: &Command) -> Result<Reply, NoMemory>
        requires { is_plain command.now ≡ true }
        ensures reply { IfOk result (λ r. reply_in r ≡ said B.version self.old.plain command.now) }
        ensures state { IfOk result (λ r. self.new ≡ after_called self.old command.now (reply_in r)) }
        ensures given { IfOk result (λ r. given r ≡ None) }
        ensures err { OnErr result (self.new ≡ self.old) }
    {
        if self.buffer.count() >= LAST {
            return Ok(Reply::Spent);
        }
        let reply = self.buffer.play(self.alloc, command)?;
        Ok(Reply::Played(reply))
    }

    // Takes a hand's number back, and lets go of what the hand held on to.
    fn give_back(&mut self, number: u32)
        ensures { self.new ≡ with_out self.old number false }
    {
        self.buffer.let_go(number);
        if (number as usize) < MAX_HANDS {
            self.out[number as usize] = false;
        }
    }

    // A reader of the text, which the hand then holds on to, and to nothing older.
    fn taken(&mut self, number: u32) -> Result<Reply, NoMemory>
        ensures text { IfOk result (λ r. (showing r).0 ≡ self.old.plain.text) }
        ensures version { IfOk result (λ r. (showing r).1 ≡ self.old.plain.version) }
        ensures given { IfOk result (λ r. given r ≡ None) }
        ensures state { self.new ≡ self.old }
    {
        let (reader, version) = self.buffer.reader(self.alloc)?;
        self.buffer.let_go(number);
        if (number as usize) < MAX_HANDS {
            self.buffer.hold(number);
        }
        Ok(Reply::Taken(TakenText { reader, version }))
    }

    // The whole text and the count.
    fn finished(&self) -> Result<Reply, NoMemory>
        ensures text { IfOk result (λ r. (ending r).0 ≡ self.now.plain.text) }
        ensures count { IfOk result (λ r. (ending r).1 ≡ self.now.plain.count) }
        ensures given { IfOk result (λ r. given r ≡ None) }
    {
        let text = self.buffer.units(self.alloc)?;
        Ok(Reply::Finished(text, self.buffer.count()))
    }

    // Puts the layers together.
    fn squashed(&mut self) -> Result<Reply, NoMemory>
        ensures depth { IfOk result (λ r. depth_in r ≤ 2) }
        ensures given { IfOk result (λ r. given r ≡ None) }
        ensures state { self.new ≡ self.old }
    {
        let depth = self.buffer.squash(self.alloc)?;
        Ok(Reply::Squashed(depth))
    }

    // How large the layers are.
    fn measured(&self) -> Result<Reply, NoMemory>
        ensures layers { IfOk result (λ r. AreLayers (sizes_in r)) }
        ensures given { IfOk result (λ r. given r ≡ None) }
    {
        let shape = self.buffer.shape(self.alloc)?;
        Ok(Reply::Measured(shape))
    }
}

impl<B: PlainBuffer + Send> Object for Held<B> {
    ghost use Rattle.shared_buffer.specs.Entries.{meaning, Meets};
    ghost use Rattle.shared_buffer.specs.Calls.{told, back, is_free, given, by_call};

    type Call = Call;

    type Reply = Reply;

    type Told = Told;

    type State = Shown;

    ghost state = { λ h. h };

    ghost told = { told };

    ghost meaning = { meaning B.version };

    ghost Meets = { Meets };

    ghost back = { back };

    ghost is_free = { is_free };

    ghost given = { given };

    ghost by_call = { by_call B.version };

    fn play<T: Turn<Held<B>>>(&mut self, turn: &mut T, call: Call) -> Result<Reply, Call> {
        match call {
            Call::Play(numbered) => match self.numbered(&numbered.command) {
                Ok(reply) => Ok(reply),
                Err(NoMemory) => Err(Call::Play(numbered)),
            },
            Call::Hand => {
                let number = lowest_free(&self.out);
                if number >= MAX_HANDS {
                    return Ok(Reply::NoHand);
                }
                match turn.make_hand() {
                    Ok(hand) => {
                        self.out[number] = true;
                        Ok(Reply::Hand(hand, number as u32))
                    }
                    Err(NoMemory) => Err(Call::Hand),
                }
            }
            Call::GiveBack(number) => {
                self.give_back(number);
                Ok(Reply::Done)
            }
            Call::Take(number) => self.taken(number).map_err(|_| Call::Take(number)),
            Call::Finish => self.finished().map_err(|_| Call::Finish),
            Call::Squash => self.squashed().map_err(|_| Call::Squash),
            Call::Measure => self.measured().map_err(|_| Call::Measure),
        }
    }
}
