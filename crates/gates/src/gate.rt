//! The trait, and the gate that stands open.
use std::sync::Wait;

/// What a task goes through, by its number.
pub trait Gate: Sync {
    /// A task is to begin. It may wait.
    fn enter<R: Wait>(&self, rt: &R, task: u32);

    /// A task has ended. It may wait.
    fn leave<R: Wait>(&self, rt: &R, task: u32);
}

/// A gate at which no task waits.
#[derive(Clone, Copy, Debug, Drop)]
pub struct OpenGate;

impl Gate for OpenGate {
    fn enter<R: Wait>(&self, rt: &R, task: u32) {
        let _ = rt;
        let _ = task;
    }

    fn leave<R: Wait>(&self, rt: &R, task: u32) {
        let _ = rt;
        let _ = task;
    }
}

// It may be shared with other threads.
fn _is_shared() {
    fn goes_to_threads<T: Send + Sync>() {}
    goes_to_threads::<OpenGate>();
}
