//! Canonical texts, written from XML 1.0 and Namespaces in XML 1.0.

use crate::names::name;
use doc_tree::{
    Attribute, Element, Prefixes, QName, escaped_length, put_element, put_text, put_text_on,
    text_length,
};
use std::alloc::Global;
use std::test::Fail;
use wfs_ends::{List, Mem, MemSink, Text};

fn attribute(alloc: Global, space: &str, local: &str, value: &str) -> Mem<Attribute> {
    Ok(Attribute {
        name: name(alloc, space, local)?,
        value: Text::of(alloc, value)?,
    })
}

fn leaf(alloc: Global, space: &str, local: &str, text: &str) -> Mem<Element> {
    Ok(Element {
        name: name(alloc, space, local)?,
        attributes: List::of(Vec::new(alloc)),
        children: List::of(Vec::new(alloc)),
        text: Text::of(alloc, text)?,
    })
}

// Three children: with a text, empty, and in a namespace that no prefix stands for.
fn children(alloc: Global) -> Mem<Vec<Element>> {
    let mut children = Vec::new(alloc);
    children.push(leaf(alloc, "urn:a", "one", "a&b\r")?)?;
    children.push(leaf(alloc, "urn:b", "two", "")?)?;
    children.push(leaf(alloc, "urn:c", "three", "\t\n")?)?;
    Ok(children)
}

fn document(alloc: Global, text: &str) -> Mem<Element> {
    let mut attributes = Vec::new(alloc);
    attributes.push(attribute(alloc, "", "id", "\"<\t")?)?;
    attributes.push(attribute(alloc, "urn:b", "at", "'\n'")?)?;
    Ok(Element {
        name: name(alloc, "urn:a", "all")?,
        attributes: List::of(attributes),
        children: List::of(children(alloc)?),
        text: Text::of(alloc, text)?,
    })
}

// The third prefix stands for a namespace that the first one has.
fn prefixes(alloc: Global) -> Mem<Prefixes> {
    let mut pairs = Vec::new(alloc);
    pairs.push((Text::of(alloc, "a")?, Text::of(alloc, "urn:a")?))?;
    pairs.push((Text::of(alloc, "b")?, Text::of(alloc, "urn:b")?))?;
    pairs.push((Text::of(alloc, "x")?, Text::of(alloc, "urn:a")?))?;
    Ok(Prefixes {
        pairs: List::of(pairs),
    })
}

const DOCUMENT: &str =
    "<a:all xmlns:a=\"urn:a\" xmlns:b=\"urn:b\" xmlns:x=\"urn:a\" id=\"&quot;&lt;&#9;\" b:at=\"'&#10;'\"><a:one>a&amp;b&#13;</a:one><b:two/><three>\t\n</three></a:all>";

// A text beside children stands before them.
const MIXED: &str =
    "<a:all xmlns:a=\"urn:a\" xmlns:b=\"urn:b\" xmlns:x=\"urn:a\" id=\"&quot;&lt;&#9;\" b:at=\"'&#10;'\">1 &gt; 0<a:one>a&amp;b&#13;</a:one><b:two/><three>\t\n</three></a:all>";

fn no_prefixes(alloc: Global) -> Mem<Prefixes> {
    Ok(Prefixes {
        pairs: List::of(Vec::new(alloc)),
    })
}

fn is_written(alloc: Global, tree: &Element, names: &Prefixes, text: &str) -> Mem<bool> {
    let mut sink = MemSink::new(alloc, 300, Vec::new(alloc))?;
    let is_given = put_element(tree, names, &mut sink).is_ok();
    let length = text_length(tree, names);
    Ok(is_given && sink.bytes() == text.as_bytes() && length == text.len() as u64)
}

// Whether this is the text of a tree.
fn is_text_of(alloc: Global, tree: Mem<Element>, names: Mem<Prefixes>, text: &str) -> Mem<bool> {
    let tree = tree?;
    let names = names?;
    is_written(alloc, &tree, &names, text)
}

#[test]
fn writes_documents(rt: HostRuntime) {
    let alloc = rt.alloc();
    let full = is_text_of(alloc, document(alloc, ""), prefixes(alloc), DOCUMENT);
    assert_eq!(rt; full, Ok(true));
    let mixed = is_text_of(alloc, document(alloc, "1 > 0"), prefixes(alloc), MIXED);
    assert_eq!(rt; mixed, Ok(true));
}

#[test]
fn writes_leaves(rt: HostRuntime) {
    let alloc = rt.alloc();
    let empty = is_text_of(alloc, leaf(alloc, "", "x", ""), no_prefixes(alloc), "<x/>");
    assert_eq!(rt; empty, Ok(true));
    let worded = leaf(alloc, "urn:a", "x", "]]>");
    let worded = is_text_of(alloc, worded, no_prefixes(alloc), "<x>]]&gt;</x>");
    assert_eq!(rt; worded, Ok(true));
}

// A text, whether it stands in a value, and how it is spelled (XML 1.0, sections 2.2, 2.4, 2.11 and 3.3.3).
static SPELLED: [(&str, bool, &str); 17] = [
    ("", false, ""),
    ("", true, ""),
    ("plain words", false, "plain words"),
    ("<&>", false, "&lt;&amp;&gt;"),
    ("&lt;", true, "&amp;lt;"),
    ("a\"b'c\td\ne\rf", false, "a\"b'c\td\ne&#13;f"),
    ("a\"b'c\td\ne\rf", true, "a&quot;b'c&#9;d&#10;e&#13;f"),
    (
        "\u{e9}>\u{20ac}<\u{1f5fa}",
        true,
        "\u{e9}&gt;\u{20ac}&lt;\u{1f5fa}",
    ),
    // What no document may hold, to the edges of each range.
    ("\0", false, "\u{fffd}"),
    ("\u{1}\u{8}", true, "\u{fffd}\u{fffd}"),
    ("\u{b}\u{c}", false, "\u{fffd}\u{fffd}"),
    ("\u{e}\u{1f}", true, "\u{fffd}\u{fffd}"),
    ("\u{fffe}\u{ffff}", false, "\u{fffd}\u{fffd}"),
    ("a\0<\u{fffe}>b", true, "a\u{fffd}&lt;\u{fffd}&gt;b"),
    // What stands beside these.
    (" \u{7f}\u{9f}", true, " \u{7f}\u{9f}"),
    (
        "\u{d7ff}\u{e000}\u{efff}",
        false,
        "\u{d7ff}\u{e000}\u{efff}",
    ),
    (
        "\u{fffd}\u{10000}\u{1fffe}\u{10ffff}",
        true,
        "\u{fffd}\u{10000}\u{1fffe}\u{10ffff}",
    ),
];

fn is_spelled(alloc: Global, text: &str, in_value: bool, spelled: &str) -> Mem<bool> {
    let mut sink = MemSink::new(alloc, 100, Vec::new(alloc))?;
    let is_given = put_text(text, in_value, &mut sink).is_ok();
    let length = escaped_length(text, in_value);
    Ok(is_given && sink.bytes() == spelled.as_bytes() && length == spelled.len() as u64)
}

// The first text that is spelled otherwise.
fn first_misspelled(alloc: Global) -> Mem<Option<&'static str>> {
    for (text, in_value, spelled) in SPELLED.iter() {
        if !is_spelled(alloc, text, *in_value, spelled)? {
            return Ok(Some(spelled));
        }
    }
    Ok(None)
}

#[test]
fn spells_texts(rt: HostRuntime) {
    assert_eq!(rt; first_misspelled(rt.alloc()), Ok(None));
}

#[test]
fn gives_a_front_where_the_sink_fails(rt: HostRuntime) -> Result<(), Fail> {
    let tree = document(rt.alloc(), "")?;
    let names = prefixes(rt.alloc())?;
    let mut narrow = MemSink::new(rt.alloc(), 30, Vec::new(rt.alloc()))?;
    assert!(rt; put_element(&tree, &names, &mut narrow).is_err());
    assert_eq!(rt; narrow.bytes(), &DOCUMENT.as_bytes()[..30]);
    let mut failing = Vec::new(rt.alloc());
    failing.push(7)?;
    let mut broken = MemSink::new(rt.alloc(), 300, failing)?;
    assert!(rt; put_element(&tree, &names, &mut broken).is_err());
    assert!(rt; broken.bytes().len() < DOCUMENT.len());
    assert!(rt; DOCUMENT.as_bytes().starts_with(broken.bytes()));
    assert!(rt; put_text_on(&mut broken, true, "x", false));
    assert!(rt; DOCUMENT.as_bytes().starts_with(broken.bytes()));
    Ok(())
}
