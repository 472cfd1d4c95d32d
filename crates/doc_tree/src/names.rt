//! Prefixes of namespaces.

ghost use Rattle.std.specs.Prelude.{◌≡◌};
ghost use Rattle.std.specs.Option.{option_copied};
ghost use Rattle.doc_tree.specs.Tree.{prefix_of};

use crate::tree::Prefixes;
use wfs_ends::Text;

// The first prefix that stands for a namespace.
pub(crate) fn find_prefix<'a>(names: &'a Prefixes, space: &Text) -> Option<&'a Text>
    ensures { option_copied result ≡ prefix_of names.now.pairs space.now }
{
    for pair in names.pairs.items() {
        if pair.1.as_str() == space.as_str() {
            return Some(&pair.0);
        }
    }
    None
}
