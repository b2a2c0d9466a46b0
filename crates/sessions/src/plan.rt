//! What a session is to do.
use machine::Command;

/// The commands of a session, a matcher for each pattern that they read, in their order, and how many hands it gets for its
/// snapshots.
#[derive(Drop)]
pub struct Plan<M> {
    pub commands: Vec<Command>,
    pub matchers: Vec<M>,
    pub hands: u32,
}
