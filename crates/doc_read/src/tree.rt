//! Elements, and what stands inside them.

ghost use Rattle.std.specs.Prelude.{◌≡◌, ◌<◌, ◌++◌, [], ◌∷◌, map, take, vec_len, OnOk, IfOk, length, string_bytes};
ghost use Rattle.std.specs.Str.{chars};
ghost use Rattle.doc_read.specs.Read.{GivesBy};
ghost use Rattle.doc_read.specs.Levels.{bounds_of};
ghost use Rattle.doc_read.specs.Element.{inside_of, max_elements, admitted, turn_at, content_at, element_at};

use crate::fault::DocFault;
use crate::front::first;
use crate::head::head_at;
use crate::inside::{Inside, closed_at, made, marked_at, run_at, tree};
use crate::level::Level;
use crate::reference::reference_at;
use crate::texts::Texts;
use crate::value::add_characters;
use doc_tree::Element;
use std::alloc::Global;
use wfs_ends::{Mem, Text};

const MAX_ELEMENTS: u32 = 100_000;

const MAX_ATTRIBUTES: usize = 64;

/// Whether one more element with so many attributes may stand.
#[tactic(auto, unfolding(crate::specs::Element::admitted))]
fn admit(seen: u32, attributes: usize) -> Result<(), DocFault>
    ensures few { OnOk result (seen < max_elements) }
    ensures reads { GivesBy (λ _. tt) result (admitted seen attributes) }
{
    if seen < MAX_ELEMENTS && attributes <= MAX_ATTRIBUTES {
        Ok(())
    } else {
        Err(DocFault::TooMany)
    }
}

/// An element, of which the less-than sign was read, with how many elements came so far and the text that is left.
#[cycle(tree)]
#[tactic(auto, using(crate::proofs::Levels::element_deep, crate::proofs::Levels::element_level), unfolding(crate::specs::Element::level_at))]
pub fn element<'a>(
    alloc: Global,
    texts: &mut Texts,
    depth: u32,
    scope: &mut Vec<Level>,
    seen: u32,
    cs: &'a str,
) -> Result<(Element, u32, &'a str), DocFault>
    ensures reads { GivesBy (λ x. (x.0, x.1, chars x.2.now)) result
        (element_at depth (bounds_of scope.old.items) seen (chars cs.now)) }
    ensures scope { OnOk result (scope.new.items ≡ scope.old.items) }
{
    let outer = scope.len();
    let (head, rest) = head_at(alloc, texts, scope, cs)?;
    if depth == 0 {
        return Err(DocFault::TooDeep);
    }
    admit(seen, head.attributes.len())?;
    if head.is_empty {
        scope.truncate(outer);
        let text = Text::of(alloc, "")?;
        let element = tree(head.name, head.attributes, Vec::new(alloc), text);
        return Ok((element, seen + 1, rest));
    }
    let inside = content(alloc, texts, depth - 1, scope, seen + 1, rest)?;
    scope.truncate(outer);
    let rest = closed_at(&head.spelling, inside.rest)?;
    let seen = inside.seen;
    let element = made(alloc, head, inside.children, inside.text)?;
    Ok((element, seen, rest))
}

/// What stands inside an element, up to the name in its end tag.
#[cycle(tree)]
#[tactic(auto, using(wfs_ends::proofs::Turns::until_turn, wfs_ends::proofs::Turns::until_end, crate::proofs::Enough::content_enough), unfolding(crate::specs::Element::content_at))]
fn content<'a>(
    alloc: Global,
    texts: &mut Texts,
    depth: u32,
    scope: &mut Vec<Level>,
    seen: u32,
    cs: &'a str,
) -> Result<Inside<'a>, DocFault>
    ensures reads { GivesBy inside_of result (content_at
        (element_at depth (bounds_of scope.old.items)) seen (chars cs.now)) }
    ensures scope { OnOk result (scope.new.items ≡ scope.old.items) }
{
    let mut inside = Inside {
        children: Vec::new(alloc),
        text: String::new(alloc),
        seen,
        rest: cs,
    };
    for _ in 0..cs.len() {
        let (is_end, next) = turn(alloc, texts, depth, scope, inside)?;
        if is_end {
            return Ok(next);
        }
        inside = next;
    }
    Err(DocFault::Malformed)
}

/// Adds a child. Most elements that have any have one, for which no more room is made.
fn push_child(children: &mut Vec<Element>, child: Element) -> Mem<()>
    ensures { OnOk result (children.new.items ≡ children.old.items ++ child ∷ []) }
{
    if children.is_empty() {
        children.reserve_exact(1)?;
    }
    children.push(child)?;
    Ok(())
}

/// One piece of content, and whether it was the start of the end tag.
#[cycle(tree)]
#[tactic(auto, using(std::proofs::lemmas::List::map_push), unfolding(crate::specs::Element::turn_at))]
fn turn<'a>(
    alloc: Global,
    texts: &mut Texts,
    depth: u32,
    scope: &mut Vec<Level>,
    inside: Inside<'a>,
) -> Result<(bool, Inside<'a>), DocFault>
    ensures reads { GivesBy (λ x. (x.0, inside_of x.1)) result
        (turn_at (element_at depth (bounds_of scope.old.items)) (inside_of inside.entry)) }
    ensures scope { OnOk result (scope.new.items ≡ scope.old.items) }
{
    let Inside {
        mut children,
        mut text,
        seen,
        rest,
    } = inside;
    match first(rest) {
        None => Err(DocFault::Malformed),
        Some(('<', after)) => match first(after) {
            None => Err(DocFault::Malformed),
            Some(('/', rest)) => Ok((
                true,
                Inside {
                    children,
                    text,
                    seen,
                    rest,
                },
            )),
            Some(('!', after)) => {
                let (section, rest) = marked_at(after)?;
                add_characters(&mut text, section)?;
                Ok((
                    false,
                    Inside {
                        children,
                        text,
                        seen,
                        rest,
                    },
                ))
            }
            Some(_) => {
                let (child, seen, rest) = element(alloc, texts, depth, scope, seen, after)?;
                push_child(&mut children, child)?;
                Ok((
                    false,
                    Inside {
                        children,
                        text,
                        seen,
                        rest,
                    },
                ))
            }
        },
        Some(('&', after)) => {
            let (c, rest) = reference_at(after)?;
            text.push(c)?;
            Ok((
                false,
                Inside {
                    children,
                    text,
                    seen,
                    rest,
                },
            ))
        }
        Some(_) => {
            let (run, rest) = run_at(rest)?;
            add_characters(&mut text, run)?;
            Ok((
                false,
                Inside {
                    children,
                    text,
                    seen,
                    rest,
                },
            ))
        }
    }
}
