//! Attributes that an element may not have.

ghost use Rattle.std.specs.Prelude.{◌≡◌, map};
ghost use Rattle.std.specs.Option.{option_copied};
ghost use Rattle.doc_tree.specs.Others.{is_other, lesser, first_other};

use crate::attributes::is_among;
use crate::tree::Attribute;
use std::cmp::Ordering;
use wfs_ends::Text;

#[tactic(auto, unfolding(crate::specs::Others::is_other))]
fn is_other(listed: &[&str], attribute: &Attribute) -> bool
    ensures { result ≡ is_other (map (λ n. n.now) listed.now) attribute.now }
{
    attribute.name.space.as_str() == "" && !is_among(listed, attribute.name.local.as_str())
}

// The lesser of a name, if there is one, and another.
fn lesser<'a>(least: Option<&'a Text>, name: &'a Text) -> &'a Text
    ensures { result.now ≡ lesser (option_copied least.entry) name.now }
{
    match least {
        None => name,
        Some(least) => match name.as_str().cmp(least.as_str()) {
            Ordering::Less => name,
            _ => least,
        },
    }
}

/// The first by name, in the order of bytes, of the attributes in no namespace that are none of the listed ones: the name that an
/// element is refused with where it may have the listed ones alone.
pub fn first_other<'a>(listed: &[&str], attributes: &'a [Attribute]) -> Option<&'a Text>
    ensures { option_copied result ≡ first_other (map (λ n. n.now) listed.now) attributes.now }
{
    let mut least = None;
    for attribute in attributes {
        if !is_other(listed, attribute) {
            continue;
        }
        least = Some(lesser(least, &attribute.name.local));
    }
    least
}
