//! A turn table round a register with hands: eight threads, hands that come and go, refusals, the most of everything.
ghost use Rattle.std.specs.Prelude.{◌≡◌, ℕ, ◌<◌, ◌≤◌, ◌∷◌, [], length, IfSome, slice_index_or};
ghost use Rattle.atomic_table.specs.Seated.{TableId};
ghost use Rattle.hand_register.specs.Tests.{IsAt, AreAt, IsHandAt};

use super::*;
use std::alloc::Global;
use std::sync::Wait;
use std::test::Fail;
use std::thread::{Threads, join};
use turn_table::{Desk, HandSeat, Tokens, TurnTable};

type Table = TurnTable<Register>;

type Seat = Desk<Told, Shown>;

type Hand = HandSeat<Told, Shown>;

// A table with this many desks and hands.
fn opened(alloc: Global, desks: u32, hands: u32) -> Option<(Table, Vec<Seat>, Vec<Hand>)>
    requires { (1 ≤ desks) × (desks ≤ 64) × (hands ≤ 32) }
    ensures { IfSome result (λ r. AreAt r.0.table.shared.table_id r.1.items) }
{
    let Ok(tokens) = TurnTable::new(alloc, Register::new(hands), desks, hands) else {
        return None;
    };
    let Tokens {
        table,
        desks,
        hands,
    } = tokens;
    Some((table, desks, hands))
}

// A call that answers a number.
fn number<R: Wait>(rt: &R, table: &Table, desk: &mut Seat, adds: bool) -> Option<u64>
    requires { IsAt table.now.table.shared.table_id desk.old }
    ensures { IsAt table.now.table.shared.table_id desk.new }
{
    let reply = if adds {
        table.with(rt, desk, Call::Add)
    } else {
        table.with(rt, desk, Call::Guess)
    };
    match reply {
        Ok(Reply::Number(number)) => Some(number),
        _ => None,
    }
}

// Whether a call finds no memory and comes back.
fn refuses<R: Wait>(rt: &R, table: &Table, desk: &mut Seat) -> bool
    requires { IsAt table.now.table.shared.table_id desk.old }
    ensures { IsAt table.now.table.shared.table_id desk.new }
{
    matches!(table.with(rt, desk, Call::Refuse), Err(Call::Refuse))
}

// A new hand and its number.
fn made<R: Wait>(rt: &R, table: &Table, desk: &mut Seat) -> Option<(Hand, u32)>
    requires { IsAt table.now.table.shared.table_id desk.old }
    ensures desk { IsAt table.now.table.shared.table_id desk.new }
    ensures hand { IfSome result (λ r. IsHandAt table.now.table.shared.table_id r.1 r.0) }
{
    match table.with(rt, desk, Call::Hand) {
        Ok(Reply::Hand(hand, number)) => Some((hand, number)),
        _ => None,
    }
}

// Gives a hand back.
fn given_back<R: Wait>(rt: &R, table: &Table, hand: Hand, number: u32) -> bool
    requires { IsHandAt table.now.table.shared.table_id number hand }
{
    let mut hand = hand;
    table
        .with_hand(rt, &mut hand, Call::GiveBack(number))
        .is_ok()
}

// What a session brings back: its desk and the numbers that its calls answered.
#[derive(Drop)]
struct Session {
    desk: Seat,
    numbers: Vec<u64>,
    rising: bool,
}

// A thousand calls.
fn work<R: Wait>(rt: &R, alloc: Global, table: &Table, desk: Seat) -> Session
    requires { IsAt table.now.table.shared.table_id desk }
    ensures { IsAt table.now.table.shared.table_id result.desk }
{
    let mut session = Session {
        desk,
        numbers: Vec::new(alloc),
        rising: true,
    };
    let mut last = 0;
    for _ in 0..1000 {
        let Some(number) = number(rt, table, &mut session.desk, true) else {
            break;
        };
        session.rising = session.rising && last < number;
        last = number;
        if session.numbers.push(number).is_err() {
            break;
        }
    }
    session
}

// Two sessions ended into one.
fn ended(table: &Table, one: Session, other: Session) -> Session
    requires { IsAt table.now.table.shared.table_id one.desk × IsAt table.now.table.shared.table_id other.desk }
    ensures { IsAt table.now.table.shared.table_id result.desk }
{
    let mut one = one;
    table.end(other.desk, &mut one.desk);
    one.rising = one.rising
        && other.rising
        && one
            .numbers
            .extend_from_slice(other.numbers.as_slice())
            .is_ok();
    one
}

fn two<R: Threads + Wait + Sync>(rt: &R, alloc: Global, table: &Table, a: Seat, b: Seat) -> Session
    requires { IsAt table.now.table.shared.table_id a × IsAt table.now.table.shared.table_id b }
    ensures { IsAt table.now.table.shared.table_id result.desk }
{
    let (one, other) = join(
        rt,
        || -> Session
            requires { IsAt table.now.table.shared.table_id a }
            ensures { IsAt table.entry.now.table.shared.table_id result.desk }
        { work(rt, alloc, table, a) },
        || -> Session
            requires { IsAt table.now.table.shared.table_id b }
            ensures { IsAt table.entry.now.table.shared.table_id result.desk }
        { work(rt, alloc, table, b) },
    );
    ended(table, one, other)
}

fn four<R: Threads + Wait + Sync>(
    rt: &R,
    alloc: Global,
    table: &Table,
    a: Seat,
    b: Seat,
    c: Seat,
    d: Seat,
) -> Session
    requires { IsAt table.now.table.shared.table_id a × IsAt table.now.table.shared.table_id b × IsAt table.now.table.shared.table_id c × IsAt table.now.table.shared.table_id d }
    ensures { IsAt table.now.table.shared.table_id result.desk }
{
    let (one, other) = join(
        rt,
        || -> Session
            requires { IsAt table.now.table.shared.table_id a × IsAt table.now.table.shared.table_id b }
            ensures { IsAt table.entry.now.table.shared.table_id result.desk }
        { two(rt, alloc, table, a, b) },
        || -> Session
            requires { IsAt table.now.table.shared.table_id c × IsAt table.now.table.shared.table_id d }
            ensures { IsAt table.entry.now.table.shared.table_id result.desk }
        { two(rt, alloc, table, c, d) },
    );
    ended(table, one, other)
}

// The last of a table's desks.
fn taken(table: &Table, desks: &mut Vec<Seat>) -> Option<Seat>
    requires { AreAt table.now.table.shared.table_id desks.old.items }
    ensures desk { IfSome result (λ d. IsAt table.now.table.shared.table_id d) }
    ensures others { AreAt table.now.table.shared.table_id desks.new.items }
{
    let _ = table;
    desks.pop()
}

fn eight<R: Threads + Wait + Sync>(
    rt: &R,
    alloc: Global,
    table: &Table,
    desks: Vec<Seat>,
) -> Option<Session>
    requires { AreAt table.now.table.shared.table_id desks.items }
    ensures { IfSome result (λ s. IsAt table.now.table.shared.table_id s.desk) }
{
    let mut desks = desks;
    let (a, b) = (taken(table, &mut desks)?, taken(table, &mut desks)?);
    let (c, d) = (taken(table, &mut desks)?, taken(table, &mut desks)?);
    let (e, f) = (taken(table, &mut desks)?, taken(table, &mut desks)?);
    let (g, h) = (taken(table, &mut desks)?, taken(table, &mut desks)?);
    let (one, other) = join(
        rt,
        || -> Session
            requires { IsAt table.now.table.shared.table_id a × IsAt table.now.table.shared.table_id b × IsAt table.now.table.shared.table_id c × IsAt table.now.table.shared.table_id d }
            ensures { IsAt table.entry.now.table.shared.table_id result.desk }
        { four(rt, alloc, table, a, b, c, d) },
        || -> Session
            requires { IsAt table.now.table.shared.table_id e × IsAt table.now.table.shared.table_id f × IsAt table.now.table.shared.table_id g × IsAt table.now.table.shared.table_id h }
            ensures { IsAt table.entry.now.table.shared.table_id result.desk }
        { four(rt, alloc, table, e, f, g, h) },
    );
    Some(ended(table, one, other))
}

// Whether the numbers are those from 1 on, each once, in some order.
fn are_all(mut numbers: Vec<u64>, count: u64) -> bool {
    if numbers.sort().is_err() || numbers.len() as u64 != count {
        return false;
    }
    let mut next = 1;
    for number in &numbers {
        if *number != next || next > count {
            return false;
        }
        next += 1;
    }
    true
}

// Eight sessions of a thousand calls each, and a last one by `close`: the plain register would answer 1 to 8,000,
// rising in each session, and then 8,001.
fn all_count<R: Threads + Wait + Sync>(rt: &R, alloc: Global) -> Option<bool> {
    let (table, desks, _hands) = opened(alloc, 8, 0)?;
    let session = eight(rt, alloc, &table, desks)?;
    let rising = session.rising;
    let numbers = session.numbers;
    let last = matches!(
        table.close(rt, session.desk, Call::Add),
        Ok(Reply::Number(8001))
    );
    Some(rising && last && are_all(numbers, 8000))
}

#[test]
fn eight_threads_have_one_history(rt: HostRuntime) {
    assert_eq!(rt; all_count(&rt, rt.alloc()), Some(true));
}

// The number that a new hand gets, given back at once.
fn passing<R: Wait>(rt: &R, table: &Table, desk: &mut Seat) -> Option<u32>
    requires { IsAt table.now.table.shared.table_id desk.old }
    ensures { IsAt table.now.table.shared.table_id desk.new }
{
    let (hand, number) = made(rt, table, desk)?;
    if given_back(rt, table, hand, number) {
        Some(number)
    } else {
        None
    }
}

fn hands_pass<R: Wait>(rt: &R, alloc: Global) -> Option<(u32, u32, u32)> {
    let (table, mut desks, _hands) = opened(alloc, 1, 3)?;
    let mut desk = desks.pop()?;
    let first = passing(rt, &table, &mut desk)?;
    let (_kept, second) = made(rt, &table, &mut desk)?;
    let third = passing(rt, &table, &mut desk)?;
    Some((first, second, third))
}

#[test]
fn a_hand_that_was_given_back_is_made_again(rt: HostRuntime) {
    assert_eq!(rt; hands_pass(&rt, rt.alloc()), Some((3, 3, 4)));
}

fn refused_once<R: Wait>(rt: &R, alloc: Global) -> Option<(u64, bool, u64, u64)> {
    let (table, mut desks, _hands) = opened(alloc, 1, 0)?;
    let mut desk = desks.pop()?;
    let before = number(rt, &table, &mut desk, true)?;
    let refused = refuses(rt, &table, &mut desk);
    let guess = number(rt, &table, &mut desk, false)?;
    let behind = number(rt, &table, &mut desk, true)?;
    Some((before, refused, guess, behind))
}

#[test]
fn a_call_that_is_refused_memory_leaves_the_number_and_the_desk(rt: HostRuntime) {
    assert_eq!(rt; refused_once(&rt, rt.alloc()), Some((1, true, 0, 2)));
}

fn most<R: Wait>(rt: &R, alloc: Global) -> Option<(usize, usize, bool)> {
    let (table, mut desks, hands) = opened(alloc, 64, 32)?;
    let counts = (desks.len(), hands.len());
    let mut desk = desks.pop()?;
    Some((counts.0, counts.1, made(rt, &table, &mut desk).is_none()))
}

#[test]
fn a_table_has_at_most_64_desks_and_32_hands(rt: HostRuntime) {
    assert_eq!(rt; most(&rt, rt.alloc()), Some((64, 32, true)));
}
