//! What accounts show, and the rule of the queue: what was put is what was taken and what is left.
ghost use Rattle.std.specs.Prelude.{◌≡◌, [], ◌∷◌, ◌++◌};

use crossbeam_queue::Pass;
use crossbeam_queue::protocol::{Join, Lesson, Outcome, Protocol, Split};
use std::collections::LinkedList;

/// What an account shows: what its thread put and what it took, each in order, and its parts of the right to know the
/// whole. No value of it is made.
pub struct Share<T> {
    pub parts: u64,
    pub put: LinkedList<T>,
    pub taken: LinkedList<T>,
}

/// The account of one thread. It has no bytes, and can go to another thread.
pub type Account<T> = Pass<T, Share<T>>;

/// The rule of the queue: what all accounts put is, in some order, what they took and what is left in it.
pub struct Balance;

impl<T> Protocol<T, Share<T>> for Balance {
    ghost use Rattle.std.specs.Prelude.{[]};
    ghost use Rattle.handover.specs.Accounts.{share, ALL_PARTS, Balanced};

    ghost holds = { Balanced };

    ghost first = { share ALL_PARTS [] [] };
}

/// The step that opens an account: an account gives one of its parts to a new one, which shows nothing yet.
pub struct Opening;

impl<T> Split<Share<T>> for Opening {
    ghost use Rattle.std.specs.Prelude.{◌-◌, []};
    ghost use Rattle.handover.specs.Accounts.{share};

    ghost left = { λ v. share (v.parts - 1) v.put v.taken };

    ghost right = { λ v. share 1 [] [] };
}

/// The step that closes an account: another takes over its parts and what it shows.
pub struct Settling;

impl<T> Join<Share<T>> for Settling {
    ghost use Rattle.std.specs.Prelude.{◌+◌, ◌++◌, []};
    ghost use Rattle.handover.specs.Accounts.{share};

    ghost both = { λ v w. share (v.parts + w.parts) (v.put ++ w.put) (v.taken ++ w.taken) };

    ghost spent = { share 0 [] [] };
}

/// The step that puts an item at the back of the queue: the account shows it as put.
pub struct Puts;

impl<T> Outcome<T, Share<T>> for Puts {
    ghost use Rattle.std.specs.Prelude.{◌≡◌};
    ghost use Rattle.handover.specs.Accounts.{with_put};

    ghost then = { λ v x w. w ≡ with_put v x };
}

impl<T> Lesson<T, Share<T>> for Puts {
    ghost use Rattle.handover.specs.Accounts.{Learned};

    ghost fact = { Learned };
}

/// The step that takes the item at the front of the queue: the account shows it as taken.
pub struct Takes;

impl<T> Outcome<T, Share<T>> for Takes {
    ghost use Rattle.std.specs.Prelude.{◌≡◌};
    ghost use Rattle.handover.specs.Accounts.{with_taken};

    ghost then = { λ v x w. w ≡ with_taken v x };
}

impl<T> Lesson<T, Share<T>> for Takes {
    ghost use Rattle.handover.specs.Accounts.{Learned};

    ghost fact = { Learned };
}
