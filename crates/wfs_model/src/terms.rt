//! Values that stand in requests, whatever form a request has.

ghost use Rattle.std.specs.Prelude.{◌≡◌};
ghost use Rattle.wfs_model.specs.Terms.{refused, is_version, is_format, is_listed, count_of};

use crate::fault::AskFault;
use crate::reply::Refusal;
use std::alloc::Global;
use wfs_ends::Text;

/// The refusal by a row of the table of refusals, which points at a part of the request. Naming that part takes memory.
pub fn refused(alloc: Global, row: u8, locator: &str) -> AskFault
    ensures { (result ≡ AskFault.OutOfMemory → ⊥) → result ≡ refused row locator.now }
{
    match Text::of(alloc, locator) {
        Ok(locator) => AskFault::Refused(Refusal { row, locator }),
        Err(_) => AskFault::OutOfMemory,
    }
}

/// Whether this is a version that the service answers: `2.0.0` or `2.0.2` (OGC 09-025r2, section 7.6.25).
#[tactic(auto, unfolding(crate::specs::Terms::is_version))]
pub fn is_version(text: &str) -> bool
    ensures { result ≡ is_version text.now }
{
    text == "2.0.0" || text == "2.0.2"
}

/// Whether this names GML 3.2, the format in which features come in and go out (OGC 09-025r2, section 7.6.3.7).
#[tactic(auto, unfolding(crate::specs::Terms::is_format))]
pub fn is_format(text: &str) -> bool
    ensures { result ≡ is_format text.now }
{
    text == "application/gml+xml; version=3.2"
        || text == "text/xml; subtype=gml/3.2"
        || text == "text/xml; subtype=gml/3.2.1"
}

/// Whether this is one of some names, as of the reference systems of a schema.
#[tactic(auto, unfolding(crate::specs::Terms::is_listed))]
pub fn is_listed(names: &[Text], text: &str) -> bool
    ensures { result ≡ is_listed names.now text.now }
{
    names.iter().any(|name| name.as_str() == text)
}

/// Reads a number of 32 bits (0 to 4,294,967,295) in decimal digits, without a sign. `None`: the text is none.
#[tactic(auto, unfolding(crate::specs::Terms::count_of))]
pub fn read_count(text: &str) -> Option<u32>
    ensures { result ≡ count_of text.now }
{
    let bytes = text.as_bytes();
    if bytes.is_empty() || bytes[0] == b'+' {
        return None;
    }
    text.parse::<u32>().ok()
}
