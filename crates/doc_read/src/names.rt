//! What names mean in a scope.

ghost use Rattle.std.specs.Prelude.{◌≡◌, ◌++◌, None, map, IfOk, OnOk, encode_utf8_all};
ghost use Rattle.std.specs.Option.{option_copied};
ghost use Rattle.std.specs.Str.{chars};
ghost use Rattle.doc_read.specs.Read.{Gives};
ghost use Rattle.doc_read.specs.Lex.{raw_of, spelled};
ghost use Rattle.doc_read.specs.Scope.{newest, space_of, element_name, attribute_of, attributes_in, is_unknown, has_unknown};
ghost use Rattle.doc_read.specs.Levels.{bounds_of};

use crate::fault::DocFault;
use crate::front::is_empty;
use crate::level::Level;
use crate::lex::Spelled;
use crate::scope::is_declaration;
use crate::tag::RawAttribute;
use crate::texts::Texts;
use doc_tree::{Attribute, QName};
use std::alloc::Global;
use wfs_ends::{Mem, Text};

#[tactic(auto, using(crate::proofs::Scopes::newest_found, crate::proofs::Scopes::newest_none))]
fn newer<'s>(found: Option<&'s Text>, level: &'s Level, prefix: &str) -> Option<&'s Text>
    ensures { option_copied result ≡ newest prefix.now (option_copied found.entry)
        level.now.bounds.items }
{
    match level.space_of(prefix) {
        Some(space) => Some(space),
        None => found,
    }
}

/// The space of the newest declaration of the prefix, by a look-up a level.
#[tactic(auto, using(crate::proofs::Scopes::newest_turn, crate::proofs::Scopes::newest_end))]
fn newest<'s>(scope: &'s [Level], prefix: &str) -> Option<&'s Text>
    ensures { option_copied result ≡ newest prefix.now None (bounds_of scope.now) }
{
    let mut found = None;
    for level in scope {
        found = newer(found, level, prefix);
    }
    found
}

fn space_of<'s>(scope: &'s [Level], prefix: &str) -> Option<&'s Text>
    ensures { option_copied result ≡ space_of (bounds_of scope.now) (chars prefix.now) }
{
    newest(scope, prefix)
}

fn qname(alloc: Global, texts: &mut Texts, space: Text, local: &str) -> Mem<QName>
    ensures { IfOk result (λ n. n ≡ record {
      space = space;
      local = encode_utf8_all (chars local.now);
    }) }
{
    Ok(QName {
        space,
        local: texts.name(alloc, local)?,
    })
}

/// The default space applies to elements only, and needs no declaration.
#[tactic(auto, unfolding(crate::specs::Scope::element_name))]
pub fn element_name(
    alloc: Global,
    texts: &mut Texts,
    scope: &[Level],
    s: &Spelled<'_>,
) -> Result<QName, DocFault>
    ensures { Gives result (element_name (bounds_of scope.now) (spelled s.now)) }
{
    match space_of(scope, s.prefix) {
        Some(space) => Ok(qname(alloc, texts, space.copy(alloc)?, s.local)?),
        None => {
            if is_empty(s.prefix) {
                let none = Text::of(alloc, "")?;
                Ok(qname(alloc, texts, none, s.local)?)
            } else {
                Err(DocFault::Prefix)
            }
        }
    }
}

fn attribute(
    alloc: Global,
    texts: &mut Texts,
    space: Text,
    raw: &RawAttribute<'_>,
) -> Mem<Attribute>
    ensures { IfOk result (λ a. a ≡ record {
      name =
          record { space = space; local = encode_utf8_all (chars raw.now.name.local.now) };
      value = raw.now.value;
    }) }
{
    Ok(Attribute {
        name: qname(alloc, texts, space, raw.name.local)?,
        value: raw.value.copy(alloc)?,
    })
}

#[tactic(auto, unfolding(crate::specs::Scope::attribute_of))]
fn add_attribute(
    alloc: Global,
    texts: &mut Texts,
    scope: &[Level],
    found: &mut Vec<Attribute>,
    raw: &RawAttribute<'_>,
) -> Mem<()>
    ensures { OnOk result (found.new.items ≡ found.old.items
        ++ attribute_of (bounds_of scope.now) (raw_of raw.now)) }
{
    if is_declaration(&raw.name) {
        return Ok(());
    }
    if is_empty(raw.name.prefix) {
        let none = Text::of(alloc, "")?;
        found.push(attribute(alloc, texts, none, raw)?)?;
        return Ok(());
    }
    match space_of(scope, raw.name.prefix) {
        Some(space) => {
            found.push(attribute(alloc, texts, space.copy(alloc)?, raw)?)?;
            Ok(())
        }
        None => Ok(()),
    }
}

/// The attributes of a tag whose prefixes are declared.
#[tactic(auto, using(crate::proofs::Scopes::attributes_turn, crate::proofs::Scopes::attributes_end, std::proofs::Common::append_assoc))]
pub fn attributes_in(
    alloc: Global,
    texts: &mut Texts,
    scope: &[Level],
    raws: &[RawAttribute<'_>],
) -> Mem<Vec<Attribute>>
    ensures { IfOk result (λ v. v.items ≡ attributes_in (bounds_of scope.now)
        (map raw_of raws.now)) }
{
    let mut found = Vec::with_capacity(alloc, raws.len())?;
    for raw in raws {
        add_attribute(alloc, texts, scope, &mut found, raw)?;
    }
    Ok(found)
}

fn is_unknown(scope: &[Level], raw: &RawAttribute<'_>) -> bool
    ensures { result ≡ is_unknown (bounds_of scope.now) (raw_of raw.now) }
{
    if is_declaration(&raw.name) || is_empty(raw.name.prefix) {
        return false;
    }
    space_of(scope, raw.name.prefix).is_none()
}

/// Whether an attribute has a prefix that is not declared.
#[tactic(auto, using(crate::proofs::Scopes::unknown_turn, crate::proofs::Scopes::unknown_end))]
pub fn has_unknown(scope: &[Level], raws: &[RawAttribute<'_>]) -> bool
    ensures { result ≡ has_unknown (bounds_of scope.now) (map raw_of raws.now) }
{
    for raw in raws {
        if is_unknown(scope, raw) {
            return true;
        }
    }
    false
}
