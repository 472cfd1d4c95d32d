//! GetCapabilities.

ghost use Rattle.std.specs.Prelude.{◌≡◌, [], ◌∷◌, ◌++◌, None, OnOk, IfOk, unwrap_or};
ghost use Rattle.wfs_ends.specs.Read.{GivesBut, each};
ghost use Rattle.request_parameters.specs.Base.{negotiated};
ghost use Rattle.wfs_requests.specs.Capabilities.{is_ows, next_version, versions_in, with_versions, is_passed_over, next_accepted, capabilities_others, capabilities_of};

use crate::base::base_of;
use doc_tree::{Element, is_name};
use request_parameters::{misplaced, negotiated, no_others, text_in};
use std::alloc::Global;
use wfs_ends::{List, Mem, Text};
use wfs_model::{AskFault, Request};

// The namespace of OWS Common 1.1.
const OWS: &str = "http://www.opengis.net/ows/1.1";

// Whether an element is one of OWS with this local name.
#[tactic(auto, unfolding(crate::specs::Capabilities::is_ows))]
fn is_ows(element: &Element, local: &str) -> bool
    ensures { result ≡ is_ows local.now element.now }
{
    is_name(&element.name, OWS, local)
}

fn push_text(found: &mut Vec<Text>, text: Text) -> Mem<()>
    ensures { OnOk result (found.new.items ≡ found.old.items ++ text ∷ []) }
{
    found.push(text)?;
    Ok(())
}

// Adds a Version.
#[tactic(auto, unfolding(crate::specs::Capabilities::next_version, wfs_ends::specs::Read::unless))]
fn add_version(alloc: Global, found: &mut Vec<Text>, element: &Element) -> Result<(), AskFault>
    ensures { GivesBut AskFault.OutOfMemory (λ _. found.new.items) result
        (next_version found.old.items element.now) }
{
    if !is_ows(element, "Version") {
        return Err(misplaced(alloc, element));
    }
    no_others(alloc, element, &[])?;
    let text = text_in(alloc, element)?.copy(alloc)?;
    push_text(found, text)?;
    Ok(())
}

fn all_versions(alloc: Global, elements: &[Element]) -> Result<Vec<Text>, AskFault>
    ensures { GivesBut AskFault.OutOfMemory (λ v. v.items) result
        (each next_version [] elements.now) }
{
    let mut found = Vec::new(alloc);
    for element in elements {
        add_version(alloc, &mut found, element)?;
    }
    Ok(found)
}

// The versions of an AcceptVersions.
#[tactic(auto, unfolding(crate::specs::Capabilities::versions_in))]
fn versions_in(alloc: Global, element: &Element) -> Result<List<Text>, AskFault>
    ensures { GivesBut AskFault.OutOfMemory (λ versions. versions) result
        (versions_in element.now) }
{
    no_others(alloc, element, &[])?;
    let versions = all_versions(alloc, element.children.items())?;
    Ok(List::of(versions))
}

// The versions that are accepted, by an AcceptVersions.
#[tactic(auto, unfolding(crate::specs::Capabilities::with_versions, wfs_ends::specs::Read::unless))]
fn with_versions(
    alloc: Global,
    found: Option<List<Text>>,
    element: &Element,
) -> Result<Option<List<Text>>, AskFault>
    ensures { GivesBut AskFault.OutOfMemory (λ found. found) result
        (with_versions found element.now) }
{
    if !is_ows(element, "AcceptVersions") || found.is_some() {
        return Err(misplaced(alloc, element));
    }
    let versions = versions_in(alloc, element)?;
    Ok(Some(versions))
}

// Whether an element says which sections or formats are accepted.
#[tactic(auto, unfolding(crate::specs::Capabilities::is_passed_over))]
fn is_passed_over(element: &Element) -> bool
    ensures { result ≡ is_passed_over element.now }
{
    is_ows(element, "Sections") || is_ows(element, "AcceptFormats")
}

// What is accepted, with one element more.
#[tactic(auto, unfolding(crate::specs::Capabilities::next_accepted))]
fn next_accepted(
    alloc: Global,
    found: Option<List<Text>>,
    element: &Element,
) -> Result<Option<List<Text>>, AskFault>
    ensures { GivesBut AskFault.OutOfMemory (λ found. found) result
        (next_accepted found element.now) }
{
    if is_passed_over(element) {
        return Ok(found);
    }
    with_versions(alloc, found, element)
}

fn all_accepted(alloc: Global, elements: &[Element]) -> Result<Option<List<Text>>, AskFault>
    ensures { GivesBut AskFault.OutOfMemory (λ found. found) result
        (each next_accepted None elements.now) }
{
    let mut found = None;
    for element in elements {
        found = next_accepted(alloc, found, element)?;
    }
    Ok(found)
}

// Judges the versions that are accepted.
fn accepted(alloc: Global, found: Option<List<Text>>) -> Result<(), AskFault>
    ensures { GivesBut AskFault.OutOfMemory (λ x. x) result (negotiated (unwrap_or found [])) }
{
    match found {
        None => negotiated(alloc, &[]),
        Some(versions) => negotiated(alloc, versions.items()),
    }
}

// Refuses attributes that a GetCapabilities has not.
#[tactic(auto, unfolding(crate::specs::Capabilities::capabilities_others))]
fn capabilities_others(alloc: Global, element: &Element) -> Result<(), AskFault>
    ensures { GivesBut AskFault.OutOfMemory (λ x. x) result (capabilities_others element.now) }
{
    no_others(alloc, element, &["service", "version", "handle"])
}

// A GetCapabilities.
#[tactic(auto, unfolding(crate::specs::Capabilities::capabilities_of))]
pub(crate) fn capabilities_of(alloc: Global, element: &Element) -> Result<Request, AskFault>
    ensures { GivesBut AskFault.OutOfMemory (λ request. request) result
        (capabilities_of element.now) }
{
    base_of(alloc, element)?;
    capabilities_others(alloc, element)?;
    let found = all_accepted(alloc, element.children.items())?;
    accepted(alloc, found)?;
    Ok(Request::Capabilities)
}
