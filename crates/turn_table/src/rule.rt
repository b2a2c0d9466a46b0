// The rule of a table, and its kinds of step.
ghost use Rattle.std.specs.Prelude.{ℕ, Option, None};

use crate::object::Object;
use crate::view::View;
use atomic_table::{Join, Play, Split, TableRule};
use std::marker::{Brand, PhantomData};
use std::snapshot::Snapshot;

/// What a table is told once: the object that it was made with, as clauses see it, and how many desks and hands.
#[derive(Drop)]
pub struct Key<O> {
    pub object: Snapshot<O>,
    pub desks: u32,
    pub hands: u32,
}

/// The rule of a table.
pub struct Law<O> {
    of: PhantomData<O>,
}

impl<O: Object> TableRule<Option<O>, View<O::Told, O::State>, Key<O>> for Law<O> {
    ghost use Rattle.turn_table.specs.Meaning.{MayFollow};
    ghost use Rattle.turn_table.specs.Rule.{Kept, first_view};

    ghost holds = { λ key. Kept O.meaning (MayFollow O.meaning O.Meets) O.state (O.state key.object.value) key.desks };

    ghost first = { λ key. first_view key.desks key.hands };
}

/// The state that a table began with, and how many desks it has: what a step tells of the history is about these. Each
/// call picks them.
pub trait Begun<S> {
    ghost start: { Option S };

    ghost desks: { ℕ };
}

impl<S> Begun<S> for Brand {
    ghost start = { None };

    ghost desks = { 0 };
}

/// The entry that a step adds, and the hand number that its call gives back. Each call picks them.
pub trait Asking<T> {
    ghost entry: { Option T };

    ghost back: { Option ℕ };
}

impl<T> Asking<T> for Brand {
    ghost entry = { None };

    ghost back = { None };
}

/// A step that takes the lock and the object, where the lock is free.
pub struct Grab<O, B> {
    of: PhantomData<(O, B)>,
}

impl<O: Object, B: Begun<O::State>> Play<Option<O>, View<O::Told, O::State>> for Grab<O, B> {
    ghost use Rattle.turn_table.specs.Meaning.{MayFollow};
    ghost use Rattle.turn_table.specs.Steps.{Grabs};

    ghost then = { Grabs O.meaning (MayFollow O.meaning O.Meets) O.state B.start B.desks };
}

/// A step that sees the whole history.
pub struct See<O, B> {
    of: PhantomData<(O, B)>,
}

impl<O: Object, B: Begun<O::State>> Play<Option<O>, View<O::Told, O::State>> for See<O, B> {
    ghost use Rattle.turn_table.specs.Meaning.{MayFollow};
    ghost use Rattle.turn_table.specs.Steps.{Sees};

    ghost then = { Sees O.meaning (MayFollow O.meaning O.Meets) B.start B.desks };
}

/// A step that adds an entry to the history.
pub struct Decide<O, A> {
    of: PhantomData<(O, A)>,
}

impl<O: Object, A: Asking<O::Told>> Play<Option<O>, View<O::Told, O::State>> for Decide<O, A> {
    ghost use Rattle.turn_table.specs.Meaning.{MayFollow};
    ghost use Rattle.turn_table.specs.Steps.{Decides};

    ghost then = { Decides O.meaning (MayFollow O.meaning O.Meets) A.entry A.back };
}

/// A step that gives the lock and the object back.
pub struct LetGo;

impl<O, T, S> Play<Option<O>, View<T, S>> for LetGo {
    ghost use Rattle.turn_table.specs.Steps.{LetsGo};

    ghost then = { LetsGo };
}

/// The holder makes a hand.
pub struct MakeHand<O> {
    of: PhantomData<O>,
}

impl<O: Object> Split<View<O::Told, O::State>> for MakeHand<O> {
    ghost use Rattle.turn_table.specs.Turns.{maker, new_hand};

    ghost left = { maker O.meaning };

    ghost right = { new_hand O.meaning };
}

/// The first seat deals a desk.
pub struct DealDesk;

impl<T, S> Split<View<T, S>> for DealDesk {
    ghost use Rattle.turn_table.specs.Steps.{after_desk, deal_desk};

    ghost left = { after_desk };

    ghost right = { deal_desk };
}

/// The first seat deals a hand.
pub struct DealHand;

impl<T, S> Split<View<T, S>> for DealHand {
    ghost use Rattle.turn_table.specs.Steps.{after_hand, deal_hand};

    ghost left = { after_hand };

    ghost right = { deal_hand };
}

/// A desk takes in another.
pub struct End;

impl<T, S> Join<View<T, S>> for End {
    ghost use Rattle.turn_table.specs.Steps.{joined, spent};

    ghost both = { joined };

    ghost spent = { spent };
}
