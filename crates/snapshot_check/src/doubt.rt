//! The first take that isn't lawful.
ghost use Rattle.std.specs.Prelude.{◌≡◌, ◌+◌, ◌<◌, length, MatchOption};
ghost use Rattle.std.specs.List.Sorted.{IsStrictlyIncreasing};
ghost use Rattle.machine.specs.Lawful.{numbers};
ghost use Rattle.snapshot_check.specs.Showing.{is_shown_by, is_below, version_before, AreGood, IsNamed};

use crate::take::Take;
use machine::Place;

/// The first take that shows a version that it can't show, or whose answers aren't right.
pub fn first_doubt(takes: &[Take<'_>], versions: &[u64], right: &[bool]) -> Option<Place>
    requires versions { 0 < length versions.now }
    requires right { length right.now ≡ length takes.now }
    ensures { MatchOption result (AreGood versions.now right.now takes.now (length takes.now)) (IsNamed versions.now right.now takes.now) }
{
    for i in 0..takes.len() {
        if !(is_shown(&takes[i], versions) && right[i]) {
            return Some(place_of(&takes[i]));
        }
    }
    None
}

// The take shows a version that it can show.
fn is_shown(take: &Take<'_>, versions: &[u64]) -> bool
    requires { 0 < length versions.now }
    ensures shown { result ≡ is_shown_by versions.now take.now }
    ensures rising { IsStrictlyIncreasing (numbers take.now.replies) }
{
    if take.version >= versions.len() as u64 {
        return false;
    }
    if versions[take.version as usize] != take.version {
        return false;
    }
    if version_before(take, versions) > take.version {
        return false;
    }
    is_below(take.version, take.next)
}

// The version behind the session's last number before the take.
fn version_before(take: &Take<'_>, versions: &[u64]) -> u64
    requires { 0 < length versions.now }
    ensures { result ≡ version_before versions.now take.now }
{
    let last = versions.len() - 1;
    if take.last < last as u64 {
        versions[take.last as usize]
    } else {
        versions[last]
    }
}

// The version is below the next number, if there is one.
fn is_below(version: u64, next: Option<u64>) -> bool
    ensures { result ≡ is_below version next }
{
    match next {
        None => true,
        Some(number) => version < number,
    }
}

// The place of a take.
fn place_of(take: &Take<'_>) -> Place
    ensures { result ≡ Place.Snapshot take.now.session (take.now.place + 1) }
{
    Place::Snapshot {
        session: take.session,
        command: take.place as u32 + 1,
    }
}
