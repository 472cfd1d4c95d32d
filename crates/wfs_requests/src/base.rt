//! What the root elements of all requests have.

ghost use Rattle.wfs_ends.specs.Read.{GivesBut};
ghost use Rattle.wfs_requests.specs.Base.{base_of};

use doc_tree::Element;
use request_parameters::{Attributes, service_of, version_of};
use std::alloc::Global;
use wfs_model::AskFault;

// Judges the service and its version.
#[tactic(auto, unfolding(crate::specs::Base::base_of))]
pub(crate) fn base_of(alloc: Global, element: &Element) -> Result<(), AskFault>
    ensures { GivesBut AskFault.OutOfMemory (λ x. x) result (base_of element.now) }
{
    let said = Attributes { of: element };
    service_of(alloc, &said)?;
    version_of(alloc, &said)
}
