//! Whole documents.

ghost use Rattle.std.specs.Prelude.{◌≡◌, ◌++◌, false, List, ℕ, Ok, OnOk, IfOk, string_bytes, encode_utf8_all};
ghost use Rattle.std.specs.Str.{chars};
ghost use Rattle.doc_read.specs.Read.{Gives, GivesBy};
ghost use Rattle.doc_read.specs.Scope.{xml_scope};
ghost use Rattle.doc_read.specs.Document.{line_piece, line_feeds, unmarked, misc_turn, misc_at, tree_at, document};
ghost use Rattle.doc_read.specs.Grammar.{Spells};
ghost use Rattle.doc_tree.specs.declared.tree.Element.{Element};

use crate::declaration::declaration_at;
use crate::fault::DocFault;
use crate::front::{first, has, is_empty};
use crate::inside::remark_at;
use crate::level::Level;
use crate::lex::{expected_at, skip_space};
use crate::scope::xml_bound;
use crate::texts::Texts;
use crate::tree::element;
use doc_tree::{Element, all_allowed};
use std::alloc::{AllocError, Global};
use wfs_ends::Mem;

const MAX_DEPTH: u32 = 32;

#[tactic(auto, unfolding(crate::specs::Document::line_piece))]
fn add_character(found: &mut String, was_return: bool, c: char) -> Result<(), AllocError>
    ensures { OnOk result (string_bytes found.new
        ≡ string_bytes found.old ++ encode_utf8_all (line_piece was_return c)) }
{
    if c == '\r' {
        found.push('\n')?;
        return Ok(());
    }
    if was_return && c == '\n' {
        return Ok(());
    }
    found.push(c)?;
    Ok(())
}

#[tactic(auto, using(crate::proofs::Text::line_turn, crate::proofs::Text::line_end, std::proofs::Common::append_assoc))]
fn line_feeds(alloc: Global, cs: &str) -> Result<String, AllocError>
    ensures { IfOk result (λ text. string_bytes text
        ≡ encode_utf8_all (line_feeds false (chars cs.now))) }
{
    let mut found = String::new(alloc);
    let mut was_return = false;
    let mut rest = cs;
    while let Some((c, after)) = first(rest) {
        add_character(&mut found, was_return, c)?;
        was_return = c == '\r';
        rest = after;
    }
    Ok(found)
}

#[tactic(auto, unfolding(crate::specs::Document::misc_turn))]
fn misc_turn(cs: &str) -> Result<(bool, &str), DocFault>
    ensures { GivesBy (λ x. (x.0, chars x.1.now)) result (misc_turn (chars cs.now)) }
{
    let cs = skip_space(cs);
    match first(cs) {
        Some(('<', after)) => match first(after) {
            Some(('!', after)) => Ok((false, remark_at(after)?)),
            _ => Ok((true, cs)),
        },
        _ => Ok((true, cs)),
    }
}

/// What comes after white space and comments.
#[tactic(auto, using(wfs_ends::proofs::Turns::until_turn, wfs_ends::proofs::Turns::until_end, crate::proofs::Enough::misc_enough))]
fn misc_at(cs: &str) -> Result<&str, DocFault>
    ensures { GivesBy (λ x. chars x.now) result (misc_at (chars cs.now)) }
{
    let mut rest = cs;
    for _ in 0..cs.len() + 1 {
        let (is_end, after) = misc_turn(rest)?;
        if is_end {
            return Ok(after);
        }
        rest = after;
    }
    Err(DocFault::Malformed)
}

fn xml_level(alloc: Global) -> Mem<Level>
    ensures { IfOk result (λ level. level.bounds.items ≡ xml_scope) }
{
    let mut bounds = Vec::new(alloc);
    bounds.push(xml_bound(alloc)?)?;
    Level::new(alloc, bounds)
}

#[tactic(auto, unfolding(crate::specs::Document::tree_at))]
fn tree_at(alloc: Global, cs: &str) -> Result<Element, DocFault>
    ensures { Gives result (tree_at (chars cs.now)) }
{
    let rest = declaration_at(cs)?;
    let rest = misc_at(rest)?;
    let rest = expected_at('<', rest)?;
    let mut scope = Vec::new(alloc);
    scope.push(xml_level(alloc)?)?;
    let mut texts = Texts::new(alloc);
    let (root, _, rest) = element(alloc, &mut texts, MAX_DEPTH, &mut scope, 0, rest)?;
    let rest = misc_at(rest)?;
    if !is_empty(rest) {
        return Err(DocFault::Malformed);
    }
    Ok(root)
}

/// The characters behind a leading byte order mark.
fn unmarked(cs: &str) -> &str
    ensures { chars result.now ≡ unmarked (chars cs.now) }
{
    match first(cs) {
        Some(('\u{feff}', rest)) => rest,
        _ => cs,
    }
}

/// The tree of allowed characters.
fn tree_of(alloc: Global, cs: &str) -> Result<Element, DocFault>
    ensures { Gives result (tree_at (line_feeds false (chars cs.now))) }
{
    if has(cs, b'\r') {
        let lines = line_feeds(alloc, cs)?;
        return tree_at(alloc, lines.as_str());
    }
    tree_at(alloc, cs)
}

#[tactic(auto, using(crate::proofs::Text::is_utf8_yes, crate::proofs::Text::is_utf8_no), unfolding(crate::specs::Document::document))]
fn read(alloc: Global, bytes: &[u8]) -> Result<Element, DocFault>
    ensures { Gives result (document bytes.now) }
{
    let Ok(text) = str::from_utf8(bytes) else {
        return Err(DocFault::NotText);
    };
    if !all_allowed(text) {
        return Err(DocFault::NotText);
    }
    tree_of(alloc, unmarked(text))
}

/// Reads a document.
///
/// The bytes are UTF-8, with a byte order mark or without; the rules are those of XML 1.0 and of Namespaces in
/// XML 1.0, as far as this project's profile of them goes. The answer is the one tree that the bytes spell, or
/// the first fault in document order.
///
/// # Errors
///
/// See [`DocFault`]: each but `OutOfMemory` says that the bytes spell no tree.
pub fn read_document(alloc: Global, bytes: &[u8]) -> Result<Element, DocFault>
    // What is read is spelled so.
    ensures found { IfOk result (λ e. Spells bytes.now e) }
    // What is spelled so is read, unless memory runs out.
    ensures only { (e : Element) → Spells bytes.now e → Gives result (Ok e) }
    // Which fault it is.
    ensures fault { Gives result (document bytes.now) }
{
    read(alloc, bytes)
}

/// A text spells at most one tree.
pub fn one_tree()
    ensures { (bytes : List ℕ) (a b : Element) → Spells bytes a → Spells bytes b → a ≡ b }
{}
