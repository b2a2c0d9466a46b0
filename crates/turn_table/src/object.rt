// What lies under the lock, and what its calls can do there.
ghost use Rattle.std.specs.Prelude.{◌≡◌, ℕ, Bool, true, Option, None, Some, IfOk, IfErr, IsOk, MatchOption, [], ◌∷◌};
ghost use Rattle.atomic_table.specs.Seated.{TableId};
ghost use Rattle.turn_table.specs.declared.view.View.{View};
ghost use Rattle.turn_table.specs.Meaning.{Meaning, MayFollow, HasRoom};
ghost use Rattle.turn_table.specs.Views.{holding};
ghost use Rattle.turn_table.specs.Turns.{About, IsReady, MayMake, maker, new_hand, made_of, Outs};

use crate::view::HandSeat;
use points::NoMemory;

/// What a call can do while it has the lock. This crate has its one implementation.
pub trait Turn<O: Object> {
    ghost about: { Self → About O };

    ghost view: { Self → View O.Told O.State };

    /// Makes a hand, which gets the lowest number that isn't out. One hold makes at most one.
    fn make_hand(&mut self) -> Result<HandSeat<O::Told, O::State>, NoMemory>
        requires ready { IsReady (about self.old) }
        requires room { MayMake O.meaning (view self.old) }
        ensures same { about self.new ≡ about self.old }
        ensures ok { IfOk result (λ h. (h.views ≡ new_hand O.meaning (view self.old) ∷ []) × (h.table_id ≡ (about self.old).table) × (view self.new ≡ maker O.meaning (view self.old))) }
        ensures err { IfErr result (λ _. view self.new ≡ view self.old) };
}

/// What lies under the lock of a `TurnTable`, with the calls that it takes.
pub trait Object: Send + Drop {
    /// A call, with what it is given.
    type Call: Drop;

    /// What a call answers.
    type Reply: Drop;

    /// A call with its reply, as plain data: an entry of the history. No value of it is made.
    type Told;

    /// The object's state, as plain data. No value of it is made.
    type State;

    ghost state: { Self → Self.State };

    // The entry that a call makes with its reply.
    ghost told: { Self.Call → Self.Reply → Self.Told };

    // What calls make of a state, which of them are numbered, and which hands are out.
    ghost meaning: { Meaning Self.Told Self.State };

    // The relation between a state and an entry whose reply the state doesn't fix.
    ghost Meets: { Self.State → Self.Told → Type 0 };

    // The hand number that a call gives back.
    ghost back: { Self.Call → Option ℕ };

    // Whether a call takes no memory.
    ghost is_free: { Self.Call → Bool };

    // The seat of the hand that a reply has: its table and its view.
    ghost given: { Self.Reply → Option (TableId × View Self.Told Self.State) };

    /// Plays one call. An `Err` is want of memory, and hands the call back.
    fn play<T: Turn<Self>>(
        &mut self,
        turn: &mut T,
        call: Self::Call,
    ) -> Result<Self::Reply, Self::Call>
        requires ready { IsReady (T.about turn.old) }
        requires held { (T.view turn.old).holds ≡ holding (state self.old) None }
        ensures same { T.about turn.new ≡ T.about turn.old }
        ensures ok { IfOk result (λ r. MayFollow meaning Meets (state self.old) (told call r) × (state self.new ≡ meaning.after (state self.old) (told call r))) }
        ensures hand { IfOk result (λ r. MatchOption (given r) (T.view turn.new ≡ T.view turn.old) (λ h. (h ≡ ((T.about turn.old).table, new_hand meaning (T.view turn.old))) × (T.view turn.new ≡ maker meaning (T.view turn.old)) × HasRoom meaning (state self.old))) }
        ensures outs { IfOk result (λ r. Outs meaning (state self.old) (made_of (T.view turn.new)) (back call) (state self.new)) }
        ensures err { IfErr result (λ c. (c ≡ call) × (state self.new ≡ state self.old) × (T.view turn.new ≡ T.view turn.old)) }
        ensures free { is_free call ≡ true → IsOk result };

    // What a call makes of it at a state doesn't depend on the reply that stands in the entry.
    ghost by_call: { (x : Self.State) (c : Self.Call) (r s : Self.Reply) → meaning.next x (told c r) ≡ meaning.next x (told c s) };
}
