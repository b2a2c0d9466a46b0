ghost use Rattle.std.specs.Prelude.{◌≡◌, ℕ, ◌<◌, ◌≤◌, true, false, None, IfOk, IfErr, nat_lt, slice_index_or};
ghost use Rattle.turn_table.specs.Turns.{IsReady};
ghost use Rattle.turn_table.specs.Views.{holding};
ghost use Rattle.hand_register.specs.declared.register.Call.TheVariants.{Hand};
ghost use Rattle.hand_register.specs.Register.{shown, meaning, Meets, told, by_call, given, back, is_free, Makes};

use points::MAX_HANDS;
use std::collections::LinkedList;
use turn_table::{HandSeat, Object, Turn, hand_row, lowest_free};

/// What a caller asks of the register.
#[derive(Drop)]
pub enum Call {
    /// Raise the number, which stands still at its type's end. This call is numbered.
    Add,
    /// Tell any number that isn't above the register's.
    Guess,
    /// Do nothing.
    Rest,
    /// Make a hand, if fewer than 32 are out.
    Hand,
    /// Give back the hand with this number.
    GiveBack(u32),
    /// Find no memory.
    Refuse,
}

/// What the register answers: its number, for `Add` and `Guess`, or the hand that was made with its number, if any.
#[derive(Drop)]
pub enum Reply {
    Number(u64),
    Hand(HandSeat<Told, Shown>, u32),
    NoHand,
    Done,
}

/// A call with its reply, as plain data.
pub enum Told {
    Added(u64),
    Guessed(u64),
    Rested,
    Handed(Option<u32>),
    GivenBack(u32),
}

/// The register's state, as plain data: its number, and for each hand whether it is out.
pub struct Shown {
    pub count: u64,
    pub out: LinkedList<bool>,
}

/// A number and a row of hands.
#[derive(Drop)]
pub struct Register {
    count: u64,
    out: [bool; 32],
}

impl Register {
    /// A register at 0, with the hands below this number out.
    pub fn new(hands: u32) -> Register
        requires { hands ≤ MAX_HANDS }
        ensures count { result.count ≡ 0 }
        ensures out { (n : ℕ) → slice_index_or result.out n false ≡ nat_lt n hands }
    {
        Register {
            count: 0,
            out: hand_row(hands),
        }
    }
}

impl Register {
    // Makes a hand where there is room for one.
    fn make<T: Turn<Register>>(&mut self, turn: &mut T) -> Result<Reply, Call>
        requires ready { IsReady (T.about turn.old) }
        requires held { (T.view turn.old).holds ≡ holding (shown self.old.count self.old.out) None }
        ensures same { T.about turn.new ≡ T.about turn.old }
        ensures ok { IfOk result (λ r. Makes (T.about turn.old).table (T.view turn.old) (T.view turn.new) (shown self.old.count self.old.out) r (shown self.new.count self.new.out)) }
        ensures err { IfErr result (λ c. (c ≡ Hand) × (shown self.new.count self.new.out ≡ shown self.old.count self.old.out) × (T.view turn.new ≡ T.view turn.old)) }
    {
        let number = lowest_free(&self.out);
        if number >= MAX_HANDS {
            return Ok(Reply::NoHand);
        }
        match turn.make_hand() {
            Ok(hand) => {
                self.out[number] = true;
                Ok(Reply::Hand(hand, number as u32))
            }
            Err(_) => Err(Call::Hand),
        }
    }
}

impl Object for Register {
    type Call = Call;

    type Reply = Reply;

    type Told = Told;

    type State = Shown;

    ghost state = { λ r. shown r.count r.out };

    ghost told = { told };

    ghost meaning = { meaning };

    ghost Meets = { Meets };

    ghost back = { back };

    ghost is_free = { is_free };

    ghost given = { given };

    ghost by_call = { by_call };

    fn play<T: Turn<Register>>(&mut self, turn: &mut T, call: Call) -> Result<Reply, Call> {
        match call {
            Call::Add => {
                self.count = self.count.saturating_add(1);
                Ok(Reply::Number(self.count))
            }
            Call::Guess => Ok(Reply::Number(self.count / 2)),
            Call::Rest => Ok(Reply::Done),
            Call::Hand => self.make(turn),
            Call::GiveBack(number) => {
                if (number as usize) < MAX_HANDS {
                    self.out[number as usize] = false;
                }
                Ok(Reply::Done)
            }
            Call::Refuse => Err(Call::Refuse),
        }
    }
}
