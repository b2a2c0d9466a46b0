//! Encodings: characters of one, two and more bytes in each, bytes that are no character, texts in layers that part
//! pairs, sinks that fail, and every start of a character with every class of byte behind it, beside a plain slow
//! reading.
ghost use Rattle.std.specs.Prelude.{◌≡◌, IfSome, IsTrue};
ghost use Rattle.points.specs.Text.{IsWellFormed};

use crate::plain_utf8::plain_text;
use codecs::{decode, laws, save};
use layers::{NewLayer, Reader, Shelf};
use line_text::LineText;
use machine::Encoding;
use outer::MemSink;
use points::{MAX_UNITS, Point, Range, Units};
use std::alloc::Global;
use std::test::Fail;

const ENCODINGS: [Encoding; 4] = [
    Encoding::Utf8,
    Encoding::Utf16Le,
    Encoding::Utf16Be,
    Encoding::Latin1,
];

fn shelf_of(alloc: Global, units: Units) -> Option<Shelf> {
    let text = LineText::from_units(units).ok()?;
    Shelf::new(alloc, text, 0).ok()
}

fn top_reader(shelf: &Shelf) -> Option<Reader> {
    let top = shelf.top();
    if shelf.live(top) {
        shelf.reader(top).ok()
    } else {
        None
    }
}

// The units of a reader's text.
fn units_of(alloc: Global, reader: &Reader) -> Option<Units>
    ensures { IfSome result (λ units. units ≡ reader.now.text) }
{
    prove!(reader.len() <= MAX_UNITS);
    let past = Point {
        row: u32::MAX,
        column: 0,
    };
    let mut units = Units::new(alloc);
    match reader.units(Range::new(Point { row: 0, column: 0 }, past), &mut units) {
        Ok(()) => Some(units),
        Err(_) => None,
    }
}

// Tells whether no surrogate lacks its partner.
fn is_whole(alloc: Global, units: &[u16]) -> bool
    ensures { IsTrue result → IsWellFormed units.now }
{
    points::laws::well_formed(units);
    let read: Result<Result<_, _>, _> = String::from_utf16(alloc, units);
    matches!(read, Ok(Ok(_)))
}

// The top's reader, where no surrogate of its text lacks its partner.
fn whole_reader(alloc: Global, shelf: &Shelf) -> Option<Reader>
    ensures { IfSome result (λ reader. IsWellFormed reader.text) }
{
    let reader = top_reader(shelf)?;
    let units = units_of(alloc, &reader)?;
    if is_whole(alloc, units.as_slice()) {
        Some(reader)
    } else {
        None
    }
}

// A sink with room for 65,536 bytes, whose call with this number fails.
fn sink_failing_at(alloc: Global, call: u64) -> Option<MemSink> {
    let mut fails = Vec::new(alloc);
    fails.push(call).ok()?;
    MemSink::new(alloc, 65536, fails).ok()
}

// How many bytes are saved of the top's text, and whether these are the ones that the sink then has.
fn saved(alloc: Global, shelf: &Shelf, encoding: Encoding, bytes: &[u8]) -> Option<(u64, bool)> {
    let reader = whole_reader(alloc, shelf)?;
    let mut sink = sink_failing_at(alloc, 0)?;
    let count = save(&reader, encoding, &mut sink).ok()?;
    Some((count, sink.bytes() == bytes))
}

fn saves(alloc: Global, shelf: &Shelf, encoding: Encoding, bytes: &[u8]) -> bool {
    saved(alloc, shelf, encoding, bytes) == Some((bytes.len() as u64, true))
}

// Tells whether a text is saved as these bytes.
fn writes(alloc: Global, text: &str, encoding: Encoding, bytes: &[u8]) -> bool {
    let Ok(units) = Units::from_str(alloc, text) else {
        return false;
    };
    match shelf_of(alloc, units) {
        Some(shelf) => saves(alloc, &shelf, encoding, bytes),
        None => false,
    }
}

// Tells whether bytes are read as this text.
fn reads(alloc: Global, encoding: Encoding, bytes: &[u8], text: &str) -> bool {
    match decode(alloc, encoding, bytes) {
        Ok(read) => read.as_str() == text,
        Err(_) => false,
    }
}

#[test]
fn writes_characters_in_each_encoding(rt: HostRuntime) {
    for (encoding, text, bytes) in [
        (Encoding::Utf8, "\u{100}", [0xC4, 0x80].as_slice()),
        (Encoding::Utf16Le, "\u{100}", &[0x00, 0x01]),
        (Encoding::Utf16Be, "\u{100}", &[0x01, 0x00]),
        (Encoding::Latin1, "\u{100}", b"?"),
        (Encoding::Latin1, "\u{E9}", &[0xE9]),
        (Encoding::Utf8, "\u{1F600}", &[0xF0, 0x9F, 0x98, 0x80]),
        (Encoding::Utf16Le, "\u{1F600}", &[0x3D, 0xD8, 0x00, 0xDE]),
        (Encoding::Utf16Be, "\u{1F600}", &[0xD8, 0x3D, 0xDE, 0x00]),
        (Encoding::Latin1, "\u{1F600}", b"?"),
        (Encoding::Utf8, "", b""),
    ] {
        assert!(rt;
            writes(rt.alloc(), text, encoding, bytes),
            "{text} {encoding:?}"
        );
    }
}

// Bytes of UTF-8 that are no character, of them the four examples of the Unicode standard's chapter 3.9, with what they
// are read as.
#[test]
fn replaces_what_is_no_character(rt: HostRuntime) {
    for (bytes, text) in [
        (b"\xC3\xA9\xF0\x9F\x98\x80".as_slice(), "\u{E9}\u{1F600}"),
        (b"\x80", "\u{FFFD}"),
        (b"\xC0\x80", "\u{FFFD}\u{FFFD}"),
        (b"\xE0\x80\x80", "\u{FFFD}\u{FFFD}\u{FFFD}"),
        (b"\xED\xA0\x80", "\u{FFFD}\u{FFFD}\u{FFFD}"),
        (b"\xF4\x90\x80\x80", "\u{FFFD}\u{FFFD}\u{FFFD}\u{FFFD}"),
        (b"\xE2\x82", "\u{FFFD}"),
        (b"\xE2\x82A", "\u{FFFD}A"),
        (b"\xF0\x9F\x98", "\u{FFFD}"),
        (b"\xF0\x9F\x98\xF0\x9F\x98\x80", "\u{FFFD}\u{1F600}"),
        (
            b"\xC0\xAF\xE0\x80\xBF\xF0\x81\x82A",
            "\u{FFFD}\u{FFFD}\u{FFFD}\u{FFFD}\u{FFFD}\u{FFFD}\u{FFFD}\u{FFFD}A",
        ),
        (
            b"\xED\xA0\x80\xED\xBF\xBF\xED\xAFA",
            "\u{FFFD}\u{FFFD}\u{FFFD}\u{FFFD}\u{FFFD}\u{FFFD}\u{FFFD}\u{FFFD}A",
        ),
        (
            b"\xF4\x91\x92\x93\xFFA\x80\xBFB",
            "\u{FFFD}\u{FFFD}\u{FFFD}\u{FFFD}\u{FFFD}A\u{FFFD}\u{FFFD}B",
        ),
        (
            b"\xE1\x80\xE2\xF0\x91\x92\xF1\xBFA",
            "\u{FFFD}\u{FFFD}\u{FFFD}\u{FFFD}A",
        ),
    ] {
        assert!(rt; reads(rt.alloc(), Encoding::Utf8, bytes, text), "{bytes:?}");
    }
}

#[test]
fn replaces_surrogates_that_lack_their_partner(rt: HostRuntime) {
    for (encoding, bytes, text) in [
        (
            Encoding::Utf16Le,
            [0x3D, 0xD8, 0x00, 0xDE].as_slice(),
            "\u{1F600}",
        ),
        (Encoding::Utf16Be, &[0xD8, 0x3D, 0xDE, 0x00], "\u{1F600}"),
        (Encoding::Utf16Le, &[0x00, 0xDE], "\u{FFFD}"),
        (Encoding::Utf16Be, &[0xD8, 0x3D], "\u{FFFD}"),
        (Encoding::Utf16Le, &[0x3D, 0xD8, 0x41, 0x00], "\u{FFFD}A"),
        (
            Encoding::Utf16Be,
            &[0xD8, 0x3D, 0xD8, 0x3D, 0xDE, 0x00],
            "\u{FFFD}\u{1F600}",
        ),
        (
            Encoding::Utf16Le,
            &[0x00, 0xDE, 0x3D, 0xD8],
            "\u{FFFD}\u{FFFD}",
        ),
        (Encoding::Utf16Le, &[0x41], "\u{FFFD}"),
        (Encoding::Utf16Be, &[0x00, 0x41, 0x00], "A\u{FFFD}"),
        (Encoding::Utf16Be, &[0xD8, 0x3D, 0xDE], "\u{FFFD}\u{FFFD}"),
        (Encoding::Latin1, &[0xFF, 0x41, 0x80], "\u{FF}A\u{80}"),
        (Encoding::Latin1, &[], ""),
    ] {
        assert!(rt;
            reads(rt.alloc(), encoding, bytes, text),
            "{encoding:?} {bytes:?}"
        );
    }
}

// The bytes at the ends of the classes that Table 3-7 tells apart. A sequence has a digit a byte; the digit behind the
// last class stands for no byte.
const CLASSES: [u8; 19] = [
    0x00, 0x41, 0x7F, 0x80, 0x8F, 0x90, 0x9F, 0xA0, 0xBF, 0xC0, 0xC2, 0xDF, 0xE0, 0xED, 0xEF, 0xF0,
    0xF4, 0xF5, 0xFF,
];

// The bytes of a sequence of four digits.
fn sequence(alloc: Global, number: u32) -> Option<Vec<u8>> {
    let mut bytes = Vec::new(alloc);
    for place in [8000, 400, 20, 1] {
        if let Some(byte) = CLASSES.get((number / place % 20) as usize) {
            bytes.push(*byte).ok()?;
        }
    }
    Some(bytes)
}

fn agrees(alloc: Global, number: u32) -> bool {
    let Some(bytes) = sequence(alloc, number) else {
        return false;
    };
    match plain_text(alloc, bytes.as_slice()) {
        Ok(text) => reads(alloc, Encoding::Utf8, bytes.as_slice(), text.as_str()),
        Err(_) => false,
    }
}

#[test]
fn reads_each_start_with_each_class_behind_it(rt: HostRuntime) {
    for number in 0..160_000 {
        assert!(rt; agrees(rt.alloc(), number), "{number}");
    }
}

// Puts the bytes of a character in an encoding behind others, worked out plainly.
fn put_plainly(encoding: Encoding, c: char, bytes: &mut Vec<u8>) -> Option<()> {
    let mut room = [0; 4];
    let mut units = [0; 2];
    match encoding {
        Encoding::Utf8 => bytes
            .extend_from_slice(c.encode_utf8(&mut room).as_bytes())
            .ok(),
        Encoding::Utf16Le => {
            for unit in c.encode_utf16(&mut units) {
                bytes.extend_from_slice(&unit.to_le_bytes()).ok()?;
            }
            Some(())
        }
        Encoding::Utf16Be => {
            for unit in c.encode_utf16(&mut units) {
                bytes.extend_from_slice(&unit.to_be_bytes()).ok()?;
            }
            Some(())
        }
        Encoding::Latin1 => bytes.push(u8::try_from(u32::from(c)).unwrap_or(b'?')).ok(),
    }
}

fn encoded(alloc: Global, encoding: Encoding, text: &str) -> Option<Vec<u8>> {
    let mut bytes = Vec::new(alloc);
    for c in text.chars() {
        put_plainly(encoding, c, &mut bytes)?;
    }
    Some(bytes)
}

// Puts the layer on the shelf, where its top is still the one that the layer was built on.
fn put(shelf: &mut Shelf, layer: NewLayer) -> bool {
    if shelf.free() == 0 || !shelf.still(&layer) {
        return false;
    }
    let place = shelf.install(layer);
    shelf.top() == place
}

// Puts units at a column of the first row, a half of a pair too.
fn insert(shelf: &mut Shelf, column: u32, units: Units) -> bool {
    let Ok(text) = LineText::from_units(units) else {
        return false;
    };
    let at = Point { row: 0, column };
    let (from, to) = shelf.look().span(Range::new(at, at));
    match shelf.build_between(1, from, to, &text) {
        Ok(layer) => put(shelf, layer),
        Err(_) => false,
    }
}

fn insert_slice(alloc: Global, shelf: &mut Shelf, column: u32, units: &[u16]) -> bool {
    let mut items = Units::new(alloc);
    items.append(units).is_ok() && insert(shelf, column, items)
}

// As many times the letter a, a high surrogate, and 3,000 times the letter b.
fn parted(alloc: Global, count: u32) -> Option<Units> {
    let mut units = Units::new(alloc);
    for _ in 0..count {
        units.append(&[97]).ok()?;
    }
    units.append(&[0xD83D]).ok()?;
    for _ in 0..3000 {
        units.append(&[98]).ok()?;
    }
    Some(units)
}

// A shelf of that text. The low surrogate comes in a layer above, as do two more characters at the front.
fn parted_shelf(alloc: Global, count: u32) -> Option<Shelf> {
    let mut shelf = shelf_of(alloc, parted(alloc, count)?)?;
    let low = count.saturating_add(1);
    if insert_slice(alloc, &mut shelf, low, &[0xDE00])
        && insert_slice(alloc, &mut shelf, 1, &[0xE9, 0xD83D, 0xDE00])
    {
        Some(shelf)
    } else {
        None
    }
}

// That text, made at once.
fn parted_text(alloc: Global, count: u32) -> Option<String> {
    let mut text = String::new(alloc);
    text.push_str("a\u{E9}\u{1F600}").ok()?;
    for _ in 1..count {
        text.push('a').ok()?;
    }
    text.push('\u{1F600}').ok()?;
    for _ in 0..3000 {
        text.push('b').ok()?;
    }
    Some(text)
}

fn saves_parted(alloc: Global, count: u32, encoding: Encoding) -> Option<bool> {
    let shelf = parted_shelf(alloc, count)?;
    let text = parted_text(alloc, count)?;
    let bytes = encoded(alloc, encoding, text.as_str())?;
    Some(saves(alloc, &shelf, encoding, bytes.as_slice()))
}

// Tells whether a text is saved rightly in each encoding.
fn saves_in_each(alloc: Global, count: u32) -> bool {
    ENCODINGS.iter().all(|encoding| saves_parted(alloc, count, *encoding) == Some(true))
}

// The pair stands before, over and behind the end of a buffer of 4,096 bytes, in UTF-16 and in the others.
#[test]
fn saves_a_pair_that_a_layer_and_a_buffer_part(rt: HostRuntime) {
    for near in [2038, 4080] {
        for more in 0..20 {
            assert!(rt; saves_in_each(rt.alloc(), near + more), "{near} {more}");
        }
    }
}

// The bytes that the sink has after a save that its call with this number fails; none where the save is made.
fn taken_before_a_fault(alloc: Global, shelf: &Shelf, call: u64) -> Option<Option<usize>> {
    let reader = whole_reader(alloc, shelf)?;
    let mut sink = sink_failing_at(alloc, call)?;
    let wanted = encoded(alloc, Encoding::Utf8, parted_text(alloc, 6000)?.as_str())?;
    match save(&reader, Encoding::Utf8, &mut sink) {
        Ok(_) => Some(None),
        Err(_) if wanted.as_slice().starts_with(sink.bytes()) => Some(Some(sink.bytes().len())),
        Err(_) => None,
    }
}

// The text has 9,010 bytes. The third put has what is left, and the fourth call is the flush.
#[test]
fn a_fault_of_the_sink_leaves_a_prefix(rt: HostRuntime) -> Result<(), Fail> {
    let shelf = parted_shelf(rt.alloc(), 6000).ok_or("no shelf")?;
    for (call, taken) in [
        (1, Some(0)),
        (2, Some(4093)),
        (3, Some(8186)),
        (4, Some(9010)),
        (5, None),
    ] {
        assert!(rt;
            taken_before_a_fault(rt.alloc(), &shelf, call) == Some(taken),
            "{call}"
        );
    }
    Ok(())
}

#[test]
fn states_that_what_was_encoded_is_read_again() {
    laws::decoded_again(Encoding::Latin1, &[0xE9]);
}
