//! Gates alone, and a gate that one thread holds until another leaves it.
ghost use Rattle.std.specs.Thread.{IsSync};

use gates::{Gate, HoldGate, OpenGate};
use std::sync::Wait;
use std::thread::{self, Threads};

// Whether a gate that nobody else goes through gives up.
fn gives_up<R: Wait>(rt: &R) -> bool {
    let gate = HoldGate::new(1, 2, 10);
    gate.enter(rt, 2);
    let before = gate.gave_up();
    gate.enter(rt, 1);
    gate.gave_up() && !before
}

#[test]
fn a_gate_alone_gives_up(rt: HostRuntime) {
    assert!(rt; gives_up(&rt));
}

// Whether a gate lets the first task go on once the second has left.
fn goes_on<R: Wait>(rt: &R) -> bool {
    let gate = HoldGate::new(1, 2, 10);
    gate.leave(rt, 2);
    gate.enter(rt, 1);
    gate.leave(rt, 1);
    !gate.gave_up()
}

#[test]
fn a_gate_opens_when_the_other_has_left(rt: HostRuntime) {
    assert!(rt; goes_on(&rt));
}

// Goes through a gate.
fn pass<G: Gate, R: Wait>(rt: &R, gate: &G, task: u32) -> bool {
    gate.enter(rt, task);
    gate.leave(rt, task);
    true
}

// Whether two tasks in two threads get through the gate that holds the first of them.
fn two_pass<R: Threads + Wait + Sync>(rt: &R, gate: &HoldGate) -> bool {
    let (one, two) = thread::join(
        rt,
        || -> bool
            requires { IsSync R.row }
        { pass(rt, gate, 1) },
        || -> bool
            requires { IsSync R.row }
        { pass(rt, gate, 2) },
    );
    one && two
}

#[test]
fn a_gate_holds_one_task_until_another_has_left(rt: HostRuntime) {
    let gate = HoldGate::new(1, 2, 10_000_000);
    assert!(rt; two_pass(&rt, &gate));
    assert!(rt; !gate.gave_up());
}

#[test]
fn an_open_gate_holds_nobody(rt: HostRuntime) {
    assert!(rt; pass(&rt, &OpenGate, 1));
}
