//! Names of elements and attributes, and values by name.

ghost use Rattle.std.specs.Prelude.{◌≡◌, map};
ghost use Rattle.std.specs.List.{list_any};
ghost use Rattle.std.specs.Option.{option_copied};
ghost use Rattle.std.specs.Str.{bytes_eq};
ghost use Rattle.doc_tree.specs.Attributes.{is_name, is_among, value_at};

use crate::tree::{Attribute, QName};
use wfs_ends::Text;

/// Whether a name is this one of this namespace (Namespaces in XML 1.0, section 2.1). The empty namespace is none.
pub fn is_name(name: &QName, space: &str, local: &str) -> bool
    ensures { result ≡ is_name space.now local.now name.now }
{
    name.space.as_str() == space && name.local.as_str() == local
}

fn any_is(names: &[&str], name: &str) -> bool
    ensures { result ≡ list_any (λ n. bytes_eq n.now name.now) names.now }
{
    names.iter().any(|n| *n == name)
}

/// Whether a name is among some.
pub fn is_among(names: &[&str], name: &str) -> bool
    ensures { result ≡ is_among (map (λ n. n.now) names.now) name.now }
{
    any_is(names, name)
}

/// The value of the first attribute of this name. A document's element has at most one (Namespaces in XML 1.0, section 6.3).
pub fn value_at<'a>(attributes: &'a [Attribute], space: &str, local: &str) -> Option<&'a Text>
    ensures { option_copied result ≡ value_at space.now local.now attributes.now }
{
    for attribute in attributes {
        if is_name(&attribute.name, space, local) {
            return Some(&attribute.value);
        }
    }
    None
}
