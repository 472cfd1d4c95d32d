//! What an element's start tag says.

ghost use Rattle.std.specs.Prelude.{◌≡◌, take, vec_len, OnOk};
ghost use Rattle.std.specs.Str.{chars};
ghost use Rattle.doc_read.specs.Read.{GivesBy};
ghost use Rattle.doc_read.specs.Levels.{bounds_of};
ghost use Rattle.doc_read.specs.Element.{head_of, head_at};

use crate::fault::DocFault;
use crate::level::Level;
use crate::lex::Spelled;
use crate::names::{attributes_in, element_name, has_unknown};
use crate::scope::declared_at;
use crate::tag::tag_at;
use crate::texts::Texts;
use crate::twins::{have_one_name, have_one_spelling};
use doc_tree::{Attribute, QName};
use std::alloc::Global;

/// A start tag, with what its names mean.
#[derive(Drop)]
pub struct Head<'a> {
    pub spelling: Spelled<'a>,
    pub name: QName,
    pub attributes: Vec<Attribute>,
    pub is_empty: bool,
}

/// Reads a start tag, and puts its declarations into the scope.
#[tactic(auto, unfolding(crate::specs::Element::head_at, wfs_ends::specs::Read::unless))]
pub fn head_at<'a>(
    alloc: Global,
    texts: &mut Texts,
    scope: &mut Vec<Level>,
    cs: &'a str,
) -> Result<(Head<'a>, &'a str), DocFault>
    ensures reads { GivesBy (λ x. (head_of (bounds_of scope.new.items) x.0, chars x.1.now)) result
        (head_at (bounds_of scope.old.items) (chars cs.now)) }
    ensures outer { OnOk result (take (vec_len scope.old) scope.new.items ≡ scope.old.items) }
{
    let (tag, rest) = tag_at(alloc, cs)?;
    if have_one_spelling(alloc, &tag.attributes)? {
        return Err(DocFault::Malformed);
    }
    let own = declared_at(alloc, &tag.attributes)?;
    scope.push(Level::new(alloc, own)?)?;
    let attributes = attributes_in(alloc, texts, scope, &tag.attributes)?;
    if have_one_name(alloc, &attributes)? {
        return Err(DocFault::Malformed);
    }
    if has_unknown(scope, &tag.attributes) {
        return Err(DocFault::Prefix);
    }
    let name = element_name(alloc, texts, scope, &tag.name)?;
    Ok((
        Head {
            spelling: tag.name,
            name,
            attributes,
            is_empty: tag.is_empty,
        },
        rest,
    ))
}
