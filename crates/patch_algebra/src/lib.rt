//! Patches as functions on texts: where one fits, what it makes of the text, and the patch of two
//! in turn.
#![tactic(auto)]

mod composition;
mod fit;
pub mod laws;
mod middle;
mod new_text;
mod refusal;

pub use composition::compose;
pub use fit::fits;
pub use new_text::apply;
pub use refusal::ApplyRefusal;
