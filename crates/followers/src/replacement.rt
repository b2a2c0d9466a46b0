//! What a step back or on replaces.
ghost use Rattle.std.specs.Prelude.{◌≡◌, ◌∷◌, [], IfOk};
ghost use Rattle.followers.specs.Following.{step_of, step_back, step_on};

use patch::Change;
use points::{NoMemory, Point, Units};

/// Units that stand at a point of a text, and those that are to stand there in their place.
#[derive(Debug, Drop)]
pub struct Replacement {
    pub start: Point,
    pub old_text: Units,
    pub new_text: Units,
}

/// What makes the change again.
pub(crate) fn copy_of(change: &Change) -> Result<Replacement, NoMemory>
    ensures { IfOk result (λ copy. step_on copy ≡ step_of change.now) }
{
    let old_text = change.old_text.try_clone()?;
    let new_text = change.new_text.try_clone()?;
    Ok(Replacement {
        start: change.old_range.start,
        old_text,
        new_text,
    })
}

/// What takes the change back.
pub(crate) fn back_of(change: &Change) -> Result<Replacement, NoMemory>
    ensures { IfOk result (λ back. step_back back ≡ step_of change.now) }
{
    let old_text = change.new_text.try_clone()?;
    let new_text = change.old_text.try_clone()?;
    Ok(Replacement {
        start: change.old_range.start,
        old_text,
        new_text,
    })
}
