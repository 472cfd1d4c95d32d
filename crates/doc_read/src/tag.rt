//! Start tags as they stand.

ghost use Rattle.std.specs.Prelude.{◌≡◌, map, length, []};
ghost use Rattle.std.specs.Str.{chars};
ghost use Rattle.doc_read.specs.Read.{GivesBy};
ghost use Rattle.doc_read.specs.Lex.{raw_of, raw_attribute_at, attributes_at, tag_at, tag_of};

use crate::fault::DocFault;
use crate::front::first;
use crate::lex::{Class, Spelled, expected_at, skip_space, spelled_at, starts};
use crate::value::value_at;
use std::alloc::Global;
use wfs_ends::Text;

/// An attribute, with its name as it is spelled.
#[derive(Drop)]
pub struct RawAttribute<'a> {
    pub name: Spelled<'a>,
    pub value: Text,
}

#[tactic(auto, unfolding(crate::specs::Lex::raw_attribute_at))]
fn raw_attribute_at<'a>(alloc: Global, cs: &'a str) -> Result<(RawAttribute<'a>, &'a str), DocFault>
    ensures { GivesBy (λ x. (raw_of x.0, chars x.1.now)) result (raw_attribute_at (chars cs.now)) }
{
    let (name, rest) = spelled_at(cs)?;
    let rest = expected_at('=', skip_space(rest))?;
    let (value, rest) = value_at(alloc, skip_space(rest))?;
    Ok((RawAttribute { name, value }, rest))
}

/// The attributes of a tag, and what comes after the white space behind them.
#[tactic(auto, using(crate::proofs::Tags::attributes_turn, crate::proofs::Tags::attributes_out, crate::proofs::Enough::attributes_enough, std::proofs::lemmas::List::map_push))]
fn attributes_at<'a>(
    alloc: Global,
    cs: &'a str,
) -> Result<(Vec<RawAttribute<'a>>, &'a str), DocFault>
    ensures { GivesBy (λ x. (map raw_of x.0.items, chars x.1.now)) result
        (attributes_at (length (chars cs.now)) [] (chars cs.now)) }
{
    let mut found = Vec::new(alloc);
    let mut rest = cs;
    for _ in 0..cs.len() {
        let after = skip_space(rest);
        if !starts(Class::NameStart, after) {
            return Ok((found, after));
        }
        if !starts(Class::Space, rest) {
            return Err(DocFault::Malformed);
        }
        let (attribute, next) = raw_attribute_at(alloc, after)?;
        found.push(attribute)?;
        rest = next;
    }
    Err(DocFault::Malformed)
}

/// A start tag as it stands.
#[derive(Drop)]
pub struct Tag<'a> {
    pub name: Spelled<'a>,
    pub attributes: Vec<RawAttribute<'a>>,
    pub is_empty: bool,
}

/// A start tag behind its less-than sign.
#[tactic(auto, unfolding(crate::specs::Lex::tag_at))]
pub fn tag_at<'a>(alloc: Global, cs: &'a str) -> Result<(Tag<'a>, &'a str), DocFault>
    ensures { GivesBy (λ x. (tag_of x.0, chars x.1.now)) result (tag_at (chars cs.now)) }
{
    let (name, rest) = spelled_at(cs)?;
    let (attributes, rest) = attributes_at(alloc, rest)?;
    match first(rest) {
        Some(('>', rest)) => Ok((
            Tag {
                name,
                attributes,
                is_empty: false,
            },
            rest,
        )),
        Some(('/', after)) => match first(after) {
            Some(('>', rest)) => Ok((
                Tag {
                    name,
                    attributes,
                    is_empty: true,
                },
                rest,
            )),
            _ => Err(DocFault::Malformed),
        },
        _ => Err(DocFault::Malformed),
    }
}
