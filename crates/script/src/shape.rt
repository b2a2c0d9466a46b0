//! Whether the shape of a command or of a read is broken: a member that is missing, that no row has or that holds
//! another kind of value, or a command's word that isn't built.
ghost use Rattle.std.specs.Prelude.{◌≡◌, ◌==◌, ◌&&◌, ◌||◌, not, codes, true, false, Some};
ghost use Rattle.serde_json.specs.Find.{get};
ghost use Rattle.serde_json.specs.View.{view, items_view};
ghost use Rattle.script.specs.declared.limits.TheConstants.{MAX_SHOWN, MAX_HITS, MAX_ID};
ghost use Rattle.script.specs.Parts.{count_items, string_in};
ghost use Rattle.script.specs.Rows as kind;
ghost use Rattle.script.specs.Rules.{field_breaks, with_reads, read_breaks, wrong_kind, is_misshapen, is_number, any_item, is_one_of};
ghost use Rattle.script.specs.Rows.{how_words};
ghost use Rattle.script.specs.Reading.{reads_break, read_members_break};

use crate::parts::member_count;
use serde_json::Value;

// How many items there are.
fn count_of(items: &[Value]) -> usize
    ensures { result ≡ count_items (items_view items.now) }
{
    items.len()
}

// Whether there are four items, each a number.
fn are_four_numbers(items: &[Value]) -> bool
    ensures { result ≡ ((count_items (items_view items.now) == 4) && not (any_item (λ n. not (is_number n)) (items_view items.now))) }
{
    if count_of(items) != 4 {
        return false;
    }
    for item in items {
        if item.as_number().is_none() {
            return false;
        }
    }
    true
}

// Whether the member `range` is a list of four numbers.
fn lacks_range(value: &Value) -> bool
    ensures { result ≡ field_breaks wrong_kind true kind.range (get (codes "range") (view value.now)) }
{
    match value.get("range") {
        Some(range) => match range.as_array() {
            Some(items) => !are_four_numbers(items.as_slice()),
            None => true,
        },
        None => true,
    }
}

// Whether the member is a string; a needle, a name and an encoding are one too.
fn lacks_text(value: &Value, key: &str) -> bool
    ensures text { result ≡ field_breaks wrong_kind true kind.text (get key.now (view value.now)) }
    ensures needle { result ≡ field_breaks wrong_kind true kind.needle (get key.now (view value.now)) }
    ensures name { result ≡ field_breaks wrong_kind true kind.name (get key.now (view value.now)) }
    ensures encoding { result ≡ field_breaks wrong_kind true kind.encoding (get key.now (view value.now)) }
{
    match value.get(key) {
        Some(text) => text.as_str().is_none(),
        None => true,
    }
}

// Whether the member `limit` is a number.
fn lacks_limit(value: &Value) -> bool
    ensures shown { result ≡ field_breaks wrong_kind true (kind.whole MAX_SHOWN) (get (codes "limit") (view value.now)) }
    ensures hits { result ≡ field_breaks wrong_kind true (kind.whole MAX_HITS) (get (codes "limit") (view value.now)) }
{
    match value.get("limit") {
        Some(limit) => limit.as_number().is_none(),
        None => true,
    }
}

// Whether the member is a number, as an id.
fn lacks_id(value: &Value, key: &str) -> bool
    ensures { result ≡ field_breaks wrong_kind true (kind.whole MAX_ID) (get key.now (view value.now)) }
{
    match value.get(key) {
        Some(id) => id.as_number().is_none(),
        None => true,
    }
}

// Whether the member is true or false.
fn lacks_flag(value: &Value, key: &str) -> bool
    ensures { result ≡ field_breaks wrong_kind true kind.flag (get key.now (view value.now)) }
{
    match value.get(key) {
        Some(flag) => flag.as_bool().is_none(),
        None => true,
    }
}

// Whether the word is one of a find of marks.
fn is_how(word: &str) -> bool
    ensures { result ≡ is_one_of how_words (Some word.now) }
{
    word == "intersecting"
        || word == "containing"
        || word == "contained_in"
        || word == "starting_in"
        || word == "starting_at"
        || word == "ending_in"
        || word == "ending_at"
}

// Whether the member `how` is one of these words.
fn lacks_how(value: &Value) -> bool
    ensures { result ≡ field_breaks wrong_kind true kind.how (get (codes "how") (view value.now)) }
{
    match value.get("how") {
        Some(how) => match how.as_str() {
            Some(word) => !is_how(word),
            None => true,
        },
        None => true,
    }
}

// Whether the shape of a read with this word is broken.
fn is_misshapen_get(word: &str, value: &Value) -> bool
    requires { string_in (codes "get") (view value.now) ≡ Some word.now }
    ensures { result ≡ read_breaks wrong_kind true (view value.now) }
{
    if word == "size" {
        return member_count(value) != 1;
    }
    if word == "text" {
        return member_count(value) != 3 || lacks_range(value) || lacks_limit(value);
    }
    if word == "find" {
        return member_count(value) != 3 || lacks_text(value, "needle") || lacks_limit(value);
    }
    if word == "pattern" {
        return member_count(value) != 3 || lacks_text(value, "pattern") || lacks_limit(value);
    }
    if word == "save" {
        return member_count(value) != 3
            || lacks_text(value, "name")
            || lacks_text(value, "encoding");
    }
    true
}

// Whether the shape of a read is broken.
fn is_misshapen_read(value: &Value) -> bool
    ensures { result ≡ read_breaks wrong_kind true (view value.now) }
{
    match value.get("get") {
        Some(word) => match word.as_str() {
            Some(word) => is_misshapen_get(word, value),
            None => true,
        },
        None => true,
    }
}

// Whether the shape of one of these reads is broken.
fn are_misshapen(items: &[Value]) -> bool
    ensures { result ≡ any_item (read_breaks wrong_kind true) (items_view items.now) }
{
    for item in items {
        if is_misshapen_read(item) {
            return true;
        }
    }
    false
}

// Whether the member `reads` is no list, or one of its reads is broken.
fn lacks_reads(value: &Value) -> bool
    ensures { result ≡ reads_break (get (codes "reads") (view value.now)) }
{
    match value.get("reads") {
        Some(reads) => match reads.as_array() {
            Some(items) => are_misshapen(items.as_slice()),
            None => true,
        },
        None => true,
    }
}

// Whether the members of a command that reads a snapshot are broken, or one of its reads is.
fn lacks_members_of_read(value: &Value) -> bool
    ensures { result ≡ read_members_break (view value.now) }
{
    member_count(value) != 3 || lacks_id(value, "snapshot") || lacks_reads(value)
}

// Whether the shape of a command with this word is broken, or its word isn't built.
fn is_misshapen_do(word: &str, value: &Value) -> bool
    requires { string_in (codes "do") (view value.now) ≡ Some word.now }
    ensures { result ≡ is_misshapen false (view value.now) }
{
    if word == "edit" {
        return member_count(value) != 3 || lacks_range(value) || lacks_text(value, "text");
    }
    if word == "text" {
        return member_count(value) != 3 || lacks_range(value) || lacks_limit(value);
    }
    if word == "undo" || word == "redo" || word == "squash" {
        return member_count(value) != 1;
    }
    if word == "unmark" || word == "range" || word == "watch" || word == "unwatch" {
        return member_count(value) != 2 || lacks_id(value, "id");
    }
    if word == "mark" {
        return member_count(value) != 4
            || lacks_id(value, "id")
            || lacks_range(value)
            || lacks_flag(value, "exclusive");
    }
    if word == "exclusive" {
        return member_count(value) != 3 || lacks_id(value, "id") || lacks_flag(value, "value");
    }
    if word == "compare" {
        return member_count(value) != 3 || lacks_id(value, "a") || lacks_id(value, "b");
    }
    if word == "marks" {
        return member_count(value) != 3 || lacks_how(value) || lacks_range(value);
    }
    if word == "take" || word == "release" {
        return member_count(value) != 2 || lacks_id(value, "snapshot");
    }
    if word == "read" {
        return lacks_members_of_read(value);
    }
    if word == "send" {
        return lacks_members_of_read(value);
    }
    true
}

/// Whether the shape of a command is broken, or its word isn't built.
pub(crate) fn is_misshapen(value: &Value) -> bool
    ensures { result ≡ is_misshapen false (view value.now) }
{
    match value.get("do") {
        Some(word) => match word.as_str() {
            Some(word) => is_misshapen_do(word, value),
            None => true,
        },
        None => true,
    }
}
