//! A gate that holds one task back, for tests.
use crate::gate::Gate;
use std::sync::Wait;
use std::sync::atomic::{AtomicBool, Ordering};
use std::thread;

/// Holds the task `first` before it begins, until the task `second` has ended or so many turns were made. In a turn it
/// looks once whether the other has ended, and lets other threads go on.
#[derive(Drop)]
pub struct HoldGate {
    first: u32,
    second: u32,
    turns: u64,
    ended: AtomicBool,
    gave_up: AtomicBool,
}

impl HoldGate {
    /// A gate at which nothing has ended yet.
    pub fn new(first: u32, second: u32, turns: u64) -> HoldGate {
        HoldGate {
            first,
            second,
            turns,
            ended: AtomicBool::new(false),
            gave_up: AtomicBool::new(false),
        }
    }

    /// Whether the turns ran out before the other task had ended.
    pub fn gave_up(&self) -> bool {
        self.gave_up.load(Ordering::SeqCst)
    }

    // Whether the other task has ended before the turns ran out.
    fn held(&self) -> bool {
        for _ in 0..self.turns {
            if self.ended.load(Ordering::SeqCst) {
                return true;
            }
            thread::yield_now();
        }
        self.ended.load(Ordering::SeqCst)
    }
}

impl Gate for HoldGate {
    fn enter<R: Wait>(&self, rt: &R, task: u32) {
        let _ = rt;
        if task == self.first && !self.held() {
            self.gave_up.store(true, Ordering::SeqCst);
        }
    }

    fn leave<R: Wait>(&self, rt: &R, task: u32) {
        let _ = rt;
        if task == self.second {
            self.ended.store(true, Ordering::SeqCst);
        }
    }
}

// It may be shared with other threads.
fn _is_shared() {
    fn goes_to_threads<T: Send + Sync>() {}
    goes_to_threads::<HoldGate>();
}
