//! The saves of a script: the names under which its reads save, and what those names keep.
ghost use Rattle.std.specs.Prelude.{◌≡◌, option_map, IfOk};
ghost use Rattle.std.specs.List.{list_all};
ghost use Rattle.serde_json.specs.View.{view, items_view};
ghost use Rattle.script.specs.Rules.{is_again, is_among, is_name, names_in, reads_in, save_name};

use crate::opening::is_name;
use crate::parts::{is_save, listed_reads, text_in};
use machine::Text;
use serde_json::Value;
use std::alloc::{AllocError, Global};

// The name under which a read saves, if it does.
fn save_name<'v>(value: &'v Value) -> Option<&'v str>
    ensures { option_map (λ s. s.now) result ≡ save_name (view value.now) }
{
    if is_save(value) {
        text_in(value, "name")
    } else {
        None
    }
}

// The names under which reads save, in their order.
fn names_of(alloc: Global, reads: &[Value]) -> Result<Vec<Text>, AllocError>
    ensures { IfOk result (λ names. names.items ≡ names_in (items_view reads.now)) }
{
    let mut names = Vec::new(alloc);
    for read in reads {
        if let Some(name) = save_name(read) {
            names.push(Text::from_str(alloc, name)?)?;
        }
    }
    Ok(names)
}

/// The names under which a command saves, in the order of its reads.
pub(crate) fn names_in(alloc: Global, value: &Value) -> Result<Vec<Text>, AllocError>
    ensures { IfOk result (λ names. names.items ≡ names_in (reads_in (view value.now))) }
{
    names_of(alloc, listed_reads(value))
}

/// Whether each of these is the name of a file.
pub(crate) fn are_names(names: &[Text]) -> bool
    ensures { result ≡ list_all is_name names.now }
{
    for name in names {
        if !is_name(name.as_str()) {
            return false;
        }
    }
    true
}

// Whether a name is one of those.
fn is_among(names: &[Text], name: &Text) -> bool
    ensures { result ≡ is_among names.now name.now }
{
    for other in names {
        if name.as_str() == other.as_str() {
            return true;
        }
    }
    false
}

/// Whether one of these names is there already, or stands twice among them.
pub(crate) fn is_again(there: &[Text], names: &[Text]) -> bool
    ensures { result ≡ is_again there.now names.now }
{
    for i in 0..names.len() {
        if is_among(there, &names[i]) || is_among(&names[..i], &names[i]) {
            return true;
        }
    }
    false
}
