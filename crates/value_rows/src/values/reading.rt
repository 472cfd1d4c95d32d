//! What texts are read as.

use crate::values::{fault_of_one, property, schema_of_one, words};
use feature_values::{Property, Schema, Value, ValueFault, ValueKind, read_as, read_value};
use std::alloc::Global;
use wfs_ends::Mem;

// By XML Schema Part 2, 3.3.20 (long).
static WHOLE: [(&str, Option<i64>); 28] = [
    ("0", Some(0)),
    ("-0", Some(0)),
    ("+0", Some(0)),
    ("-00", Some(0)),
    ("+1", Some(1)),
    ("-17", Some(-17)),
    ("007", Some(7)),
    ("-007", Some(-7)),
    ("+9223372036854775807", Some(9_223_372_036_854_775_807)),
    ("+9223372036854775808", None),
    ("000000000000000000000000000012", Some(12)),
    ("9223372036854775807", Some(9_223_372_036_854_775_807)),
    ("9223372036854775808", None),
    ("-9223372036854775808", Some(-9_223_372_036_854_775_808)),
    ("-9223372036854775809", None),
    ("18446744073709551616", None),
    (" \t\n5\n ", Some(5)),
    ("\r5", None),
    ("5\u{c}", None),
    ("5\u{a0}", None),
    ("", None),
    (" ", None),
    ("+", None),
    ("+-1", None),
    ("- 1", None),
    ("1 2", None),
    ("1.0", None),
    ("\u{661}", None),
];

// Whether a text is read as this number, or refused as a bad value where there is none.
fn is_whole(alloc: Global, text: &str, number: Option<i64>) -> bool {
    let wanted = match number {
        Some(number) => Ok(Value::Whole(number)),
        None => Err(ValueFault::BadValue),
    };
    read_as(alloc, ValueKind::Whole, text) == wanted
}

// The first text of `WHOLE` that is read as something else.
fn misread_whole(alloc: Global) -> Option<&'static str> {
    for row in WHOLE.iter() {
        let (text, number) = *row;
        if !is_whole(alloc, text, number) {
            return Some(text);
        }
    }
    None
}

#[test]
fn reads_whole_numbers(rt: HostRuntime) {
    assert_eq!(rt; misread_whole(rt.alloc()), None);
}

static TRUTH: [(&str, Option<bool>); 11] = [
    ("true", Some(true)),
    ("1", Some(true)),
    ("false", Some(false)),
    ("0", Some(false)),
    ("\ttrue ", Some(true)),
    ("True", None),
    ("tru", None),
    ("truefalse", None),
    ("01", None),
    ("", None),
    ("true\r", None),
];

// Whether a text is read as this truth value, or refused as a bad value where there is none.
fn is_truth(alloc: Global, text: &str, truth: Option<bool>) -> bool {
    let wanted = match truth {
        Some(truth) => Ok(Value::Truth(truth)),
        None => Err(ValueFault::BadValue),
    };
    read_as(alloc, ValueKind::Truth, text) == wanted
}

// The first text of `TRUTH` that is read as something else.
fn misread_truth(alloc: Global) -> Option<&'static str> {
    for row in TRUTH.iter() {
        let (text, truth) = *row;
        if !is_truth(alloc, text, truth) {
            return Some(text);
        }
    }
    None
}

#[test]
fn reads_truth_values(rt: HostRuntime) {
    assert_eq!(rt; misread_truth(rt.alloc()), None);
}

fn is_bad_value(alloc: Global, kind: ValueKind, text: &str) -> bool {
    read_as(alloc, kind, text) == Err(ValueFault::BadValue)
}

#[test]
fn reads_no_geometries(rt: HostRuntime) {
    assert!(rt; is_bad_value(rt.alloc(), ValueKind::Point, "1 2"));
    assert!(rt; is_bad_value(rt.alloc(), ValueKind::Line, "1 2"));
    assert!(rt; is_bad_value(rt.alloc(), ValueKind::Polygon, "1 2"));
}

// Texts, and whether they are too long for three characters.
static TEXTS: [(&str, bool); 6] = [
    ("", false),
    (" a ", false),
    ("\u{e4}\u{20ac}\u{1f5fa}", false),
    ("abcd", true),
    ("    ", true),
    ("\u{e4}\u{f6}\u{fc}\u{df}", true),
];

fn too_long_or(alloc: Global, text: &str, is_longer: bool) -> Mem<Result<Value, ValueFault>> {
    if is_longer {
        return Ok(Err(ValueFault::TooLong));
    }
    Ok(Ok(words(alloc, text)?))
}

// Whether a text is refused as too long for the property, or else read as it stands.
fn is_read_as(alloc: Global, label: &Property, text: &str, is_longer: bool) -> Mem<bool> {
    let wanted = too_long_or(alloc, text, is_longer)?;
    Ok(read_value(alloc, label, text) == wanted)
}

// The same of a property of at most so many characters.
fn is_read(alloc: Global, max: u32, text: &str, is_longer: bool) -> Mem<bool> {
    let label = property(alloc, "label", ValueKind::Words, true, max)?;
    is_read_as(alloc, &label, text, is_longer)
}

// A schema of one text of at most so many characters.
fn schema_of_text(alloc: Global, max: u32) -> Mem<Schema> {
    let label = property(alloc, "label", ValueKind::Words, true, max)?;
    schema_of_one(alloc, label)
}

// The same of a feature that has this text.
fn is_judged(alloc: Global, max: u32, text: &str, is_longer: bool) -> Mem<bool> {
    let schema = schema_of_text(alloc, max)?;
    let fault = fault_of_one(alloc, &schema, words(alloc, text)?)?;
    Ok(match fault {
        Some(fault) => is_longer && fault == ValueFault::TooLong,
        None => !is_longer,
    })
}

// The first text of `TEXTS` of which the reader says something else.
fn misread_text(alloc: Global) -> Mem<Option<&'static str>> {
    for row in TEXTS.iter() {
        let (text, is_longer) = *row;
        if !is_read(alloc, 3, text, is_longer)? {
            return Ok(Some(text));
        }
    }
    Ok(None)
}

// Characters of one to four bytes, how many there are, and whether they are too many for 256.
static LENGTHS: [(&str, usize, bool); 8] = [
    ("a", 256, false),
    ("a", 257, true),
    ("\u{e4}", 256, false),
    ("\u{e4}", 257, true),
    ("\u{20ac}", 256, false),
    ("\u{20ac}", 257, true),
    ("\u{1f5fa}", 256, false),
    ("\u{1f5fa}", 257, true),
];

// Whether so many of a character are read and judged by their count.
fn is_counted(alloc: Global, character: &str, count: usize, is_longer: bool) -> Mem<bool> {
    let text = character.repeat(alloc, count)?;
    let is_read = is_read(alloc, 256, text.as_str(), is_longer)?;
    let is_judged = is_judged(alloc, 256, text.as_str(), is_longer)?;
    Ok(is_read && is_judged)
}

// The first row of `LENGTHS` that is counted otherwise.
fn miscounted(alloc: Global) -> Mem<Option<usize>> {
    for i in 0..LENGTHS.len() {
        let (character, count, is_longer) = LENGTHS[i];
        if !is_counted(alloc, character, count, is_longer)? {
            return Ok(Some(i));
        }
    }
    Ok(None)
}

#[test]
fn reads_texts_of_at_most_so_many_characters(rt: HostRuntime) {
    assert_eq!(rt; misread_text(rt.alloc()), Ok(None));
    assert_eq!(rt; miscounted(rt.alloc()), Ok(None));
}

// A size is read whatever its length, and as no text.
fn is_size_read(alloc: Global) -> Mem<bool> {
    let size = property(alloc, "size", ValueKind::Whole, false, 1)?;
    let is_long_read = read_value(alloc, &size, "12345") == Ok(Value::Whole(12345));
    Ok(is_long_read && read_value(alloc, &size, "x") == Err(ValueFault::BadValue))
}

#[test]
fn reads_numbers_of_any_length(rt: HostRuntime) {
    assert_eq!(rt; is_size_read(rt.alloc()), Ok(true));
}
