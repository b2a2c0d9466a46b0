//! Hands put on places and taken from them.
ghost use Rattle.std.specs.Prelude.{◌≡◌, ◌+◌, ◌-◌, ◌<◌, ◌≤◌, ◌^◌, map};
ghost use Rattle.places.specs.Placed.{noted, quieted, narrowed, hand_mask};

use crate::placed::Placed;

// The mask of a hand.
pub(crate) fn mask_of(hand: u32) -> u64
    ensures { result ≡ hand_mask hand }
{
    if hand < 64 { 1 << hand } else { 0 }
}

// Puts hands on one place.
pub(crate) fn add_hands<X>(entries: &mut [Placed<X>], place: u32, hands: u64)
    ensures { entries.new ≡ map (noted place hands) entries.old }
{
    for entry in entries.iter_mut() {
        if entry.place == place {
            entry.mask |= hands;
        }
    }
}

// Takes hands from all but the last.
pub(crate) fn take_hands<X>(entries: &mut [Placed<X>], hands: u64)
    ensures { entries.new ≡ quieted hands entries.old }
{
    let others = entries.len().saturating_sub(1);
    for at in 0..others {
        let other = &mut entries[at];
        other.mask &= !hands;
    }
}

// Leaves each hand at the newest that has it, the last aside.
pub(crate) fn narrow_hands<X>(entries: &mut [Placed<X>])
    ensures { entries.new ≡ narrowed entries.old }
{
    let mut seen = 0;
    let mut at = entries.len().saturating_sub(1);
    while at > 0 {
        at -= 1;
        let entry = &mut entries[at];
        let hands = entry.mask;
        entry.mask = hands & !seen;
        seen |= hands;
    }
}
