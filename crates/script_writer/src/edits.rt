//! The edits of a batch as JSON.
ghost use Rattle.script.specs.ScriptValue.{batch_edit_value};

use crate::parts::{Ends, Part};
use json::Writer;
use machine::BatchEdit;
use script::values::write_two;
use std::alloc::AllocError;

impl Part for BatchEdit {
    ghost value = { batch_edit_value };

    fn write_part(&self, out: &mut Writer) -> Result<(), AllocError> {
        write_two("range", &Ends { of: &self.range }, "text", &self.text, out)
    }
}
