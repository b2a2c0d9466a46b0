//! Whether the numbers of each session rise.
ghost use Rattle.std.specs.Prelude.{◌≡◌};
ghost use Rattle.std.specs.Bool.{Decides};
ghost use Rattle.std.specs.List.{AllByRecursion};
ghost use Rattle.std.specs.List.Sorted.{IsStrictlyIncreasing};
ghost use Rattle.machine.specs.Lawful.{numbers};
ghost use Rattle.transcript_check.specs.Order.{is_above};

use machine::{Reply, Sequence};
use snapshot_check::number_of;

/// The numbers of each session rise.
pub(crate) fn all_rise(sessions: &[Sequence<Reply>]) -> bool
    ensures { Decides result (AllByRecursion (λ rs. IsStrictlyIncreasing (numbers rs)) sessions.now) }
{
    for i in 0..sessions.len() {
        if !rise(sessions[i].as_slice()) {
            return false;
        }
    }
    true
}

// The numbers of a session rise.
fn rise(replies: &[Reply]) -> bool
    ensures { Decides result (IsStrictlyIncreasing (numbers replies.now)) }
{
    let mut last = None;
    for i in 0..replies.len() {
        match number_of(&replies[i]) {
            None => {}
            Some(number) => {
                if !is_above(number, last) {
                    return false;
                }
                last = Some(number);
            }
        }
    }
    true
}

// The number is above the last one, if there is one.
fn is_above(number: u64, last: Option<u64>) -> bool
    ensures { result ≡ is_above number last }
{
    match last {
        None => true,
        Some(m) => m < number,
    }
}
