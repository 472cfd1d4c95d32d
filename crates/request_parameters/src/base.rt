//! The values that stand in all requests, and the formats of features.

ghost use Rattle.std.specs.Prelude.{◌≡◌};
ghost use Rattle.wfs_ends.specs.Read.{GivesBut};
ghost use Rattle.std.specs.List.{list_any};
ghost use Rattle.wfs_model.specs.Terms.{is_version};
ghost use Rattle.request_parameters.specs.Base.{service_of, version_of, srs_of, format_of, negotiated};

use crate::said::Given;
use std::alloc::Global;
use wfs_ends::Text;
use wfs_model::{AskFault, is_format, is_listed, is_version, refused};

/// Judges `service`, which has to be there (row 10) and to be `WFS` (row 11).
#[tactic(auto, unfolding(crate::specs::Base::service_of, crate::specs::Said::required_of, wfs_ends::specs::Read::unless))]
pub fn service_of<G: Given>(alloc: Global, given: &G) -> Result<(), AskFault>
    ensures { GivesBut AskFault.OutOfMemory (λ x. x) result (service_of (G.said given.now)) }
{
    let Some(text) = given.value_of("service") else {
        return Err(refused(alloc, 10, "service"));
    };
    if text.as_str() != "WFS" {
        return Err(refused(alloc, 11, "service"));
    }
    Ok(())
}

/// Judges `version`: `2.0.0` or `2.0.2`, else row 11. It may be missing.
#[tactic(auto, unfolding(crate::specs::Base::version_of, wfs_ends::specs::Read::unless))]
pub fn version_of<G: Given>(alloc: Global, given: &G) -> Result<(), AskFault>
    ensures { GivesBut AskFault.OutOfMemory (λ x. x) result (version_of (G.said given.now)) }
{
    let Some(text) = given.value_of("version") else {
        return Ok(());
    };
    if !is_version(text.as_str()) {
        return Err(refused(alloc, 11, "version"));
    }
    Ok(())
}

/// Judges `srsName`: one of the names of the reference system, else row 11. It may be missing.
#[tactic(auto, unfolding(crate::specs::Base::srs_of, wfs_ends::specs::Read::unless))]
pub fn srs_of<G: Given>(alloc: Global, srs: &[Text], given: &G) -> Result<(), AskFault>
    ensures { GivesBut AskFault.OutOfMemory (λ x. x) result (srs_of srs.now (G.said given.now)) }
{
    let Some(text) = given.value_of("srsName") else {
        return Ok(());
    };
    if !is_listed(srs, text.as_str()) {
        return Err(refused(alloc, 11, "srsName"));
    }
    Ok(())
}

/// Judges a format, `inputFormat` or `outputFormat` by the name that is told: GML 3.2, else row 11 with the name. It may be missing.
#[tactic(auto, unfolding(crate::specs::Base::format_of, wfs_ends::specs::Read::unless))]
pub fn format_of<G: Given>(alloc: Global, name: &str, given: &G) -> Result<(), AskFault>
    ensures { GivesBut AskFault.OutOfMemory (λ x. x) result
        (format_of name.now (G.said given.now)) }
{
    let Some(text) = given.value_of(name) else {
        return Ok(());
    };
    if !is_format(text.as_str()) {
        return Err(refused(alloc, 11, name));
    }
    Ok(())
}

// Whether the service has one of these versions.
fn any_version(versions: &[Text]) -> bool
    ensures { result ≡ list_any is_version versions.now }
{
    versions.iter().any(|version| is_version(version.as_str()))
}

/// Judges the versions that a client accepts (OGC 06-121r9, section 7.3.2): where some are listed, the service has to have one of
/// them, else row 13 with `acceptVersions`.
#[tactic(auto, unfolding(crate::specs::Base::negotiated, wfs_ends::specs::Read::unless))]
pub fn negotiated(alloc: Global, versions: &[Text]) -> Result<(), AskFault>
    ensures { GivesBut AskFault.OutOfMemory (λ x. x) result (negotiated versions.now) }
{
    if versions.is_empty() || any_version(versions) {
        return Ok(());
    }
    Err(refused(alloc, 13, "acceptVersions"))
}
