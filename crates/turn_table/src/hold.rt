// One hold of the lock: the call is played on the object, and its entry is added.
ghost use Rattle.std.specs.Prelude.{◌≡◌, ℕ, true, [], ◌∷◌, List, Option, None, Some, IfOk, IfErr, IsOk, IfSome, MatchOption, MatchResult, option_map};
ghost use Rattle.turn_table.specs.declared.view.View.{View};
ghost use Rattle.turn_table.specs.Meaning.{MayFollow, HasRoom};
ghost use Rattle.turn_table.specs.Views.{holding};
ghost use Rattle.turn_table.specs.Turns.{About, IsReady, MayMake, MayLetGo, maker, new_hand, made_of, Outs};
ghost use Rattle.turn_table.specs.Steps.{decided, let_go};
ghost use Rattle.turn_table.specs.Calls.{Began, MayCall, Played, Took, Looked};

use crate::object::{Object, Turn};
use crate::rule::MakeHand;
use crate::table::TurnTable;
use crate::view::{HandSeat, View};
use atomic_table::Seat;
use points::NoMemory;
use std::marker::Brand;
use std::snapshot::Snapshot;
use std::sync::Wait;

// The table, and the seat that has the lock.
#[derive(Drop)]
pub(crate) struct Hold<'a, O: Object> {
    table: &'a TurnTable<O>,
    seat: Seat<Option<O>, View<O::Told, O::State>>,
}

impl<'a, O: Object> Turn<O> for Hold<'a, O> {
    ghost about = { λ h. record { table = h.table.now.table.shared.table_id; seat = h.seat.table_id; id = h.seat.id; carried = h.seat.me.1 } };

    ghost view = { λ h. h.seat.me.0 };

    fn make_hand(&mut self) -> Result<HandSeat<O::Told, O::State>, NoMemory> {
        Ok(
            self.table
                .table
                .shared
                .split_seat::<MakeHand<O>>(&mut self.seat)
                .into_badge(),
        )
    }
}

impl<O: Object> TurnTable<O> {
    // Plays a call on the object that is out. Where it answers Ok, its entry is the last of the history.
    fn play(
        &self,
        object: &mut O,
        seat: Seat<Option<O>, View<O::Told, O::State>>,
        call: O::Call,
    ) -> (
        Seat<Option<O>, View<O::Told, O::State>>,
        Result<O::Reply, O::Call>,
    )
        requires table { (seat.table_id ≡ self.now.table.shared.table_id) × (seat.me.1 ≡ (0, None) ∷ []) }
        requires held { seat.me.0.holds ≡ holding (O.state object.old) None }
        requires may { MayCall O.meaning (O.told call) (O.back call) seat.me.0.role }
        ensures id { (result.0.table_id ≡ seat.table_id) × (result.0.id ≡ seat.id) }
        ensures carries { result.0.me.1 ≡ (0, None) ∷ [] }
        ensures lets { MayLetGo O.meaning (O.state object.new) result.0.me.0 }
        ensures ok { IfOk result.1 (λ r. Played O.meaning (MayFollow O.meaning O.Meets) (O.back call) (option_map (λ h. h.1) (O.given r)) (O.told call r) (O.state object.old) seat.me.0 result.0.me.0) }
        ensures given { IfOk result.1 (λ r. IfSome (O.given r) (λ h. h.0 ≡ self.now.table.shared.table_id)) }
        ensures err { IfErr result.1 (λ c. (c ≡ call) × (result.0.me.0 ≡ seat.me.0)) }
        ensures free { O.is_free call ≡ true → IsOk result.1 }
    {
        let asked = Snapshot::of(&call);
        let mut hold = Hold { table: self, seat };
        let result = object.play(&mut hold, call);
        let Hold { table: _, mut seat } = hold;
        match result {
            Ok(reply) => {
                self.decide::<Brand>(&mut seat, &asked, &reply);
                (seat, Ok(reply))
            }
            Err(call) => (seat, Err(call)),
        }
    }

    // One call under the lock.
    pub(crate) fn turn<R: Wait>(
        &self,
        rt: &R,
        mut seat: Seat<Option<O>, View<O::Told, O::State>>,
        call: O::Call,
    ) -> (
        Seat<Option<O>, View<O::Told, O::State>>,
        Result<O::Reply, O::Call>,
    )
        requires table { (seat.table_id ≡ self.now.table.shared.table_id) × (seat.me.1 ≡ []) }
        requires may { MayCall O.meaning (O.told call) (O.back call) seat.me.0.role }
        ensures id { (result.0.table_id ≡ seat.table_id) × (result.0.id ≡ seat.id) × (result.0.me.1 ≡ []) }
        ensures ok { IfOk result.1 (λ r. Took O.meaning (MayFollow O.meaning O.Meets) (O.state self.now.table.shared.key.object.value) self.now.table.shared.key.desks (O.back call) (option_map (λ h. h.1) (O.given r)) (O.told call r) seat.me.0 result.0.me.0) }
        ensures given { IfOk result.1 (λ r. IfSome (O.given r) (λ h. h.0 ≡ self.now.table.shared.table_id)) }
        ensures err { IfErr result.1 (λ c. (c ≡ call) × Looked O.meaning (MayFollow O.meaning O.Meets) (O.state self.now.table.shared.key.object.value) self.now.table.shared.key.desks seat.me.0 result.0.me.0) }
        ensures free { O.is_free call ≡ true → IsOk result.1 }
    {
        let mut object = self.begin(rt, &mut seat);
        let (mut seat, result) = self.play(&mut object, seat, call);
        self.finish(&mut seat, object);
        (seat, result)
    }
}
