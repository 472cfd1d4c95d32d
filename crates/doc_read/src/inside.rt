//! What stands inside an element.

ghost use Rattle.std.specs.Prelude.{◌≡◌, map, string_bytes};
ghost use Rattle.std.specs.List.{list_all};
ghost use Rattle.std.specs.Str.{chars};
ghost use Rattle.doc_read.specs.Read.{Gives, GivesBy};
ghost use Rattle.doc_read.specs.Chars.{holds, contains};
ghost use Rattle.doc_read.specs.declared.word.Word.TheVariants as Word;
ghost use Rattle.doc_read.specs.Lex.{spelled};
ghost use Rattle.doc_read.specs.Element.{comment_at, remark_at, marked_at, run_at, closed_at, tree, made};

use crate::fault::DocFault;
use crate::front::has;
use crate::head::Head;
use crate::lex::{Class, Spelled, expected_at, skip_space, spelled_at, split_front};
use crate::twins::same_spelling;
use crate::word::{Word, begins, contains, split_word, word_at};
use doc_tree::{Attribute, Element, QName};
use std::alloc::Global;
use wfs_ends::{List, Text};

/// What was read inside an element.
#[derive(Drop)]
pub struct Inside<'a> {
    pub children: Vec<Element>,
    pub text: String,
    pub seen: u32,
    pub rest: &'a str,
}

/// What comes after a comment, of which the first dashes were read.
#[tactic(auto, unfolding(crate::specs::Element::comment_at, wfs_ends::specs::Read::unless))]
fn comment_at(cs: &str) -> Result<&str, DocFault>
    ensures { GivesBy (λ x. chars x.now) result (comment_at (chars cs.now)) }
{
    let (comment, rest) = split_word(Word::CommentEnd, cs)?;
    if contains(Word::Dashes, comment) {
        return Err(DocFault::Malformed);
    }
    Ok(rest)
}

/// What `<!` begins, where no text may stand.
#[tactic(auto, unfolding(crate::specs::Element::remark_at))]
pub fn remark_at(cs: &str) -> Result<&str, DocFault>
    ensures { GivesBy (λ x. chars x.now) result (remark_at (chars cs.now)) }
{
    if begins(Word::Dashes, cs) {
        return comment_at(word_at(Word::Dashes, cs)?);
    }
    if begins(Word::Doctype, cs) {
        return Err(DocFault::Doctype);
    }
    Err(DocFault::Malformed)
}

/// What `<!` begins, where text may stand: its text, and what comes after it.
#[tactic(auto, using(crate::proofs::Rests::chars_nil), unfolding(crate::specs::Element::marked_at))]
pub fn marked_at(cs: &str) -> Result<(&str, &str), DocFault>
    ensures { GivesBy (λ x. (chars x.0.now, chars x.1.now)) result (marked_at (chars cs.now)) }
{
    if begins(Word::Section, cs) {
        return split_word(Word::SectionEnd, word_at(Word::Section, cs)?);
    }
    Ok(("", remark_at(cs)?))
}

/// Whether the end of a section stands anywhere.
#[tactic(auto, using(crate::proofs::Bytes::no_section_end))]
fn ends_section(run: &str) -> bool
    ensures { result ≡ contains Word.SectionEnd (chars run.now) }
{
    if !has(run, b']') {
        return false;
    }
    contains(Word::SectionEnd, run)
}

/// Characters up to the next markup or reference.
#[tactic(auto, unfolding(crate::specs::Element::run_at, wfs_ends::specs::Read::unless))]
pub fn run_at(cs: &str) -> Result<(&str, &str), DocFault>
    ensures { GivesBy (λ x. (chars x.0.now, chars x.1.now)) result (run_at (chars cs.now)) }
{
    let (run, rest) = split_front(Class::Text, cs);
    if ends_section(run) {
        return Err(DocFault::Malformed);
    }
    Ok((run, rest))
}

/// The rest of an end tag.
#[tactic(auto, unfolding(crate::specs::Element::closed_at))]
pub fn closed_at<'a>(spelling: &Spelled<'_>, cs: &'a str) -> Result<&'a str, DocFault>
    ensures { GivesBy (λ x. chars x.now) result (closed_at (spelled spelling.now) (chars cs.now)) }
{
    let (name, rest) = spelled_at(cs)?;
    if !same_spelling(&name, spelling) {
        return Err(DocFault::Malformed);
    }
    expected_at('>', skip_space(rest))
}

fn is_blank(text: &str) -> bool
    ensures { result ≡ list_all (holds Class.Space) text.now }
{
    text.as_bytes()
        .iter()
        .all(|b| *b == b' ' || *b == b'\t' || *b == b'\n')
}

pub fn tree(name: QName, attributes: Vec<Attribute>, children: Vec<Element>, text: Text) -> Element
    ensures { result ≡ tree name attributes.items children.items text }
{
    Element {
        name,
        attributes: List::of(attributes),
        children: List::of(children),
        text,
    }
}

/// An element has children or text, and white space between children is none.
#[tactic(auto, unfolding(crate::specs::Element::made))]
pub fn made(
    alloc: Global,
    head: Head<'_>,
    children: Vec<Element>,
    text: String,
) -> Result<Element, DocFault>
    ensures { Gives result (made head.entry.name head.entry.attributes.items children.items
        (string_bytes text)) }
{
    if children.is_empty() {
        let text = Text::of_string(text)?;
        return Ok(tree(head.name, head.attributes, children, text));
    }
    if !is_blank(text.as_str()) {
        return Err(DocFault::Malformed);
    }
    let text = Text::of(alloc, "")?;
    let mut children = children;
    children.shrink_to_fit();
    Ok(tree(head.name, head.attributes, children, text))
}
