// What a seat knows, as plain data. No value of these types is ever made: they are the types of the views that
// clauses speak of.
use atomic_table::Badge;
use std::collections::LinkedList;

/// A call of the history: the desk number that signs it, which a hand's call has not, and the call with its reply.
pub struct Entry<T> {
    pub by: Option<u32>,
    pub told: T,
}

/// One desk number that a desk stands for, with the numbered calls under it, in the order of the history.
pub struct Part<T> {
    pub number: u32,
    pub mine: LinkedList<Entry<T>>,
}

/// A desk's own calls: a part for each desk number that it stands for. The first number signs its calls, and the
/// others are those of the desks that were ended into it.
pub struct DeskRole<T> {
    pub parts: LinkedList<Part<T>>,
}

/// A hand and its number.
pub struct HandRole {
    pub number: u32,
}

/// The numbers that `TurnTable::new` has not given out yet: desks from `desk` up to `desks`, and hands from `hand` up
/// to `hands`.
pub struct Dealer {
    pub desk: u32,
    pub desks: u32,
    pub hand: u32,
    pub hands: u32,
}

/// What a seat stands for. `Nothing` is a seat that is spent.
pub enum Role<T> {
    Desk(DeskRole<T>),
    Hand(HandRole),
    Deals(Dealer),
    Nothing,
}

/// What the holder of the lock knows besides: the object's state, and the number of the hand that it made, if any.
pub struct Holding<S> {
    pub state: S,
    pub made: Option<u32>,
}

/// What a seat knows: the beginning of the history that it has seen, what it stands for, and, while it holds the lock,
/// what it knows of the object. `heard` is what a seat had seen that was just taken in, and is empty at all other
/// times.
pub struct View<T, S> {
    pub seen: LinkedList<Entry<T>>,
    pub heard: LinkedList<Entry<T>>,
    pub role: Role<T>,
    pub holds: Option<Holding<S>>,
}

/// A desk, from which a session calls. It has no bytes, and can go to another thread.
pub type Desk<T, S> = Badge<View<T, S>>;

/// A hand's seat. It has no bytes, and can go to another thread.
pub type HandSeat<T, S> = Badge<View<T, S>>;
