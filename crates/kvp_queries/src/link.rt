//! The beginning of the links to other pages.

ghost use Rattle.std.specs.Prelude.{◌≡◌, ◌++◌, [], ◌∷◌, IfOk, OnOk, filter, codes, string_bytes};
ghost use Rattle.form_urlencoded.specs.Form.{extend_pairs};
ghost use Rattle.kvp_queries.specs.Pairs.{stays, link_of};

use crate::names::is_same;
use form_urlencoded::Serializer;
use std::alloc::Global;
use wfs_ends::{Mem, Text};

// A serializer behind a text.
fn after(text: String) -> Serializer<Global>
    ensures { result ≡ record { prefix = string_bytes text; form = [] } }
{
    let at = text.len();
    Serializer::for_suffix(text, at)
}

// The address and a question mark.
fn beginning(alloc: Global, address: &str) -> Mem<String>
    ensures { IfOk result (λ text. string_bytes text ≡ address.now ++ codes "?") }
{
    let mut text = String::from_str(alloc, address)?;
    text.push('?')?;
    Ok(text)
}

// Whether a pair stays in the links to other pages.
#[tactic(auto, unfolding(crate::specs::Pairs::stays))]
fn stays(name: &str) -> bool
    ensures { result ≡ stays name.now }
{
    !(is_same("startIndex", name) || is_same("count", name))
}

// Writes a pair, if it stays.
fn add_pair(form: &mut Serializer<Global>, name: &str, value: &str) -> Mem<()>
    ensures { OnOk result (form.new ≡ record form.old {
      form = extend_pairs form.old.form
          (filter (λ p. stays p.0) ((name.now, value.now) ∷ []));
    }) }
{
    if stays(name) {
        form.append_pair(name, value)?;
    }
    Ok(())
}

// The beginning of the links to other pages, for a request that came as these pairs (OGC 09-025r2, section 7.7.4.4).
#[tactic(auto, unfolding(crate::specs::Pairs::link_of))]
pub(crate) fn link_of(alloc: Global, address: &str, pairs: &[(Text, Text)]) -> Mem<Text>
    ensures { IfOk result (λ text. text ≡ link_of address.now pairs.now) }
{
    let mut form = after(beginning(alloc, address)?);
    for pair in pairs {
        add_pair(&mut form, pair.0.as_str(), pair.1.as_str())?;
    }
    Text::of_string(form.finish())
}
