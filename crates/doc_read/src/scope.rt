//! Declarations of prefixes.

ghost use Rattle.std.specs.Prelude.{◌≡◌, map, [], ◌∷◌, IfOk, codes, if◌then◌else◌, encode_utf8_all};
ghost use Rattle.std.specs.Str.{bytes_eq, chars};
ghost use Rattle.doc_read.specs.Read.{GivesBy};
ghost use Rattle.doc_read.specs.Lex.{raw_of, spelled};
ghost use Rattle.doc_read.specs.Scope.{xml_scope, unbinds, declared_step, is_default, is_declaration, is_xml, declaration_of, declared_at};

use crate::fault::DocFault;
use crate::front::{is_empty, same};
use crate::lex::Spelled;
use crate::tag::RawAttribute;
use crate::value::text_of;
use std::alloc::Global;
use wfs_ends::{Mem, Text};

/// A prefix and the space that it stands for. The default space has no prefix.
#[derive(Drop)]
pub struct Bound {
    pub prefix: Text,
    pub space: Text,
}

/// The binding that needs no declaration.
pub fn xml_bound(alloc: Global) -> Mem<Bound>
    ensures { IfOk result (λ b. b ∷ [] ≡ xml_scope) }
{
    Ok(Bound {
        prefix: Text::of(alloc, "xml")?,
        space: Text::of(alloc, "http://www.w3.org/XML/1998/namespace")?,
    })
}

#[tactic(auto, using(crate::proofs::Rests::word_chars))]
fn is_xmlns(cs: &str) -> bool
    ensures { result ≡ bytes_eq (chars cs.now) (codes "xmlns") }
{
    same(cs, "xmlns")
}

fn is_default(s: &Spelled<'_>) -> bool
    ensures { result ≡ is_default (spelled s.now) }
{
    is_empty(s.prefix) && is_xmlns(s.local)
}

pub fn is_declaration(s: &Spelled<'_>) -> bool
    ensures { result ≡ is_declaration (spelled s.now) }
{
    is_xmlns(s.prefix) || is_default(s)
}

#[tactic(auto, using(crate::proofs::Rests::word_chars))]
fn is_xml(s: &Spelled<'_>) -> bool
    ensures { result ≡ is_xml (spelled s.now) }
{
    !is_default(s) && same(s.local, "xml")
}

fn declared_prefix(alloc: Global, s: &Spelled<'_>) -> Mem<Text>
    ensures { IfOk result (λ t. t ≡ (if is_default (spelled s.now) then [] else encode_utf8_all
        (chars s.now.local.now))) }
{
    if is_default(s) {
        Text::of(alloc, "")
    } else {
        text_of(alloc, s.local)
    }
}

fn declaration_of(alloc: Global, r: &RawAttribute<'_>) -> Mem<Bound>
    ensures { IfOk result (λ b. b ≡ declaration_of (raw_of r.now)) }
{
    Ok(Bound {
        prefix: declared_prefix(alloc, &r.name)?,
        space: r.value.copy(alloc)?,
    })
}

fn unbinds(r: &RawAttribute<'_>) -> bool
    ensures { result ≡ unbinds (raw_of r.now) }
{
    !is_default(&r.name) && r.value.as_str().is_empty()
}

#[tactic(auto, unfolding(crate::specs::Scope::declared_step))]
fn declare(alloc: Global, found: &mut Vec<Bound>, raw: &RawAttribute<'_>) -> Result<(), DocFault>
    ensures { GivesBy (λ _. found.new.items) result
        (declared_step found.old.items (raw_of raw.now)) }
{
    if !is_declaration(&raw.name) {
        return Ok(());
    }
    if unbinds(raw) {
        return Err(DocFault::Malformed);
    }
    if is_xml(&raw.name) {
        return Ok(());
    }
    found.push(declaration_of(alloc, raw)?)?;
    Ok(())
}

/// The declarations of a tag.
#[tactic(auto, using(wfs_ends::proofs::Turns::each_end))]
pub fn declared_at(alloc: Global, raws: &[RawAttribute<'_>]) -> Result<Vec<Bound>, DocFault>
    ensures { GivesBy (λ v. v.items) result (declared_at (map raw_of raws.now)) }
{
    let mut found = Vec::new(alloc);
    for raw in raws {
        declare(alloc, &mut found, raw)?;
    }
    Ok(found)
}
