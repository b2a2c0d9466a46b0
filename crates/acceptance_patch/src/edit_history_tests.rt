//! Steps: what an undo and a redo lend, and what the ring forgets.
use crate::patch_cases::{at, change};
use edit_history::Steps;
use patch::Change;
use points::MAX_STEPS;
use std::alloc::Global;
use std::test::Fail;

// An insertion of `x` at the start of a row.
fn step(alloc: Global, row: u32) -> Option<Change> {
    change(alloc, ([row, 0, row, 0], "", [row, 0, row, 1], "x"))
}

// Whether a step is the insertion at that row.
fn is_step(step: Option<&Change>, row: u32) -> bool {
    match step {
        Some(change) => change.old_range.start == at(row, 0) && change.new_text.len() == 1,
        None => false,
    }
}

fn undoes(steps: &mut Steps, row: u32) -> bool {
    is_step(steps.undo(), row)
}

fn redoes(steps: &mut Steps, row: u32) -> bool {
    is_step(steps.redo(), row)
}

fn cannot_undo(steps: &mut Steps) -> bool {
    steps.undo().is_none()
}

fn cannot_redo(steps: &mut Steps) -> bool {
    steps.redo().is_none()
}

// Whether the insertion at a row is pushed, and no step falls off.
fn pushes(alloc: Global, steps: &mut Steps, row: u32) -> bool {
    match step(alloc, row) {
        Some(step) => steps.push(step).is_none(),
        None => false,
    }
}

// Whether it is pushed, and the step of another row falls off.
fn pushes_out(alloc: Global, steps: &mut Steps, row: u32, fallen: u32) -> bool {
    match step(alloc, row) {
        Some(step) => is_step(steps.push(step).as_ref(), fallen),
        None => false,
    }
}

// Whether two steps are taken back and made again, and no more.
fn goes_back_and_on(alloc: Global, steps: &mut Steps) -> bool {
    pushes(alloc, steps, 1)
        && pushes(alloc, steps, 2)
        && cannot_redo(steps)
        && undoes(steps, 2)
        && undoes(steps, 1)
        && cannot_undo(steps)
        && redoes(steps, 1)
        && redoes(steps, 2)
        && cannot_redo(steps)
}

#[test]
fn takes_back_and_makes_again(rt: HostRuntime) -> Result<(), Fail> {
    let mut steps = Steps::new(rt.alloc())?;
    assert!(rt; goes_back_and_on(rt.alloc(), &mut steps));
    Ok(())
}

// Whether a step behind one that was taken back leaves nothing to make again.
fn empties_the_future(alloc: Global, steps: &mut Steps) -> bool {
    pushes(alloc, steps, 1)
        && pushes(alloc, steps, 2)
        && undoes(steps, 2)
        && pushes(alloc, steps, 3)
        && cannot_redo(steps)
        && undoes(steps, 3)
        && undoes(steps, 1)
        && cannot_undo(steps)
}

#[test]
fn a_new_step_empties_the_future(rt: HostRuntime) -> Result<(), Fail> {
    let mut steps = Steps::new(rt.alloc())?;
    assert!(rt; empties_the_future(rt.alloc(), &mut steps));
    Ok(())
}

// Whether steps of the rows from 0 on are pushed until the ring is full.
fn fills(alloc: Global, steps: &mut Steps) -> bool {
    for row in 0..MAX_STEPS as u32 {
        if !pushes(alloc, steps, row) {
            return false;
        }
    }
    true
}

// Whether the steps of the rows from the last down to 1 are taken back, and no more.
fn undoes_all(steps: &mut Steps) -> bool {
    for row in (1..MAX_STEPS as u32 + 1).rev() {
        if !undoes(steps, row) {
            return false;
        }
    }
    cannot_undo(steps)
}

#[test]
fn undo_ring_forgets_the_oldest(rt: HostRuntime) -> Result<(), Fail> {
    let mut steps = Steps::new(rt.alloc())?;
    assert!(rt; fills(rt.alloc(), &mut steps));
    assert!(rt; pushes_out(rt.alloc(), &mut steps, MAX_STEPS as u32, 0));
    assert!(rt; undoes_all(&mut steps) && redoes(&mut steps, 1));
    Ok(())
}
