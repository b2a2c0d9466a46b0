//! A queue in one thread, and between two.
ghost use Rattle.std.specs.Prelude.{◌≡◌, ◌<◌, IfSome};
ghost use Rattle.std.specs.Thread.{IsSync};
ghost use Rattle.crossbeam_queue.specs.Passes.{view, IsPassOf};

use handover::{Account, Handover};
use std::alloc::Global;
use std::sync::Wait;
use std::thread::{self, Threads};

// What a queue of two places answers to three puts and three takes.
fn filled<R: Wait>(rt: &R, alloc: Global) -> Option<([bool; 3], [Option<u32>; 3])> {
    let (queue, mut account) = Handover::new(alloc, 2).ok()?;
    let put = [
        queue.put(rt, &mut account, 7u32).is_ok(),
        queue.put(rt, &mut account, 8).is_ok(),
        queue.put(rt, &mut account, 9).is_ok(),
    ];
    let taken = [
        queue.take(rt, &mut account),
        queue.take(rt, &mut account),
        queue.take(rt, &mut account),
    ];
    Some((put, taken))
}

#[test]
fn a_full_queue_hands_the_item_back(rt: HostRuntime) {
    let wanted = ([true, true, false], [Some(7), Some(8), None]);
    assert_eq!(rt; filled(&rt, rt.alloc()), Some(wanted));
}

// Puts 1 to 5, and tells the end.
fn put_five<R: Wait>(rt: &R, queue: &Handover<u32>, account: Account<u32>) -> u32
    requires queue { IsPassOf queue.now.ring account }
    requires parts { 0 < (view account).parts }
{
    let mut account = account;
    let mut put = 0u32;
    for item in 1..6 {
        if queue.put(rt, &mut account, item).is_ok() {
            put = put.wrapping_add(1);
        }
    }
    queue.close(rt);
    put
}

// Takes until the end, and adds up what it took.
fn add_up<R: Wait>(rt: &R, queue: &Handover<u32>, account: Account<u32>) -> u32
    requires queue { IsPassOf queue.now.ring account }
    requires parts { 0 < (view account).parts }
{
    let mut account = account;
    let mut sum = 0u32;
    for _ in rt.forever() {
        match queue.wait(rt, &mut account) {
            Some(item) => sum = sum.wrapping_add(item),
            None => return sum,
        }
    }
    unreachable!()
}

// How many items one thread put, and the sum of what another took meanwhile.
fn handed_over<R: Threads + Wait + Sync>(rt: &R, alloc: Global) -> Option<(u32, u32)> {
    let (queue, mut account) = Handover::new(alloc, 8).ok()?;
    let queue = &queue;
    let other = queue.open(&mut account);
    Some(thread::join(
        rt,
        move || -> u32
            requires { IsSync R.row × IsPassOf queue.now.ring other × (0 < (view other).parts) }
        { put_five(rt, queue, other) },
        move || -> u32
            requires { IsSync R.row × IsPassOf queue.now.ring account × (0 < (view account).parts) }
        { add_up(rt, queue, account) },
    ))
}

#[test]
fn a_thread_waits_for_items_until_the_end(rt: HostRuntime) {
    assert_eq!(rt; handed_over(&rt, rt.alloc()), Some((5, 15)));
}
