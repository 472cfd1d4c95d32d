//! The names of parameters, and which of them operations list.

ghost use Rattle.std.specs.Prelude.{◌≡◌, map, option_map};
ghost use Rattle.kvp_queries.specs.Pairs.{among, is_same, or_else, base_name, page_name, query_name, other_name, listed_name, is_lock_name, lists_too, lists, is_type_names, repeated_name};

use request_parameters::Operation;

// Whether two names are one.
#[tactic(auto, unfolding(crate::specs::Pairs::is_same))]
pub(crate) fn is_same(a: &str, b: &str) -> bool
    ensures { result ≡ is_same a.now b.now }
{
    a.eq_ignore_ascii_case(b)
}

// Which of these names it is.
#[tactic(auto, using(crate::proofs::Finds::find_turn, crate::proofs::Finds::find_end))]
fn among<'a>(names: &[&'a str], name: &str) -> Option<&'a str>
    ensures { option_map (λ n. n.now) result ≡ among (map (λ n. n.now) names.now) name.now }
{
    for listed in names {
        if is_same(listed, name) {
            return Some(*listed);
        }
    }
    None
}

// A name that all operations list.
#[tactic(auto, unfolding(crate::specs::Pairs::base_name))]
fn base_name(name: &str) -> Option<&'static str>
    ensures { option_map (λ n. n.now) result ≡ base_name name.now }
{
    among(&["service", "request", "version"], name)
}

// A name of how features are presented.
#[tactic(auto, unfolding(crate::specs::Pairs::page_name))]
fn page_name(name: &str) -> Option<&'static str>
    ensures { option_map (λ n. n.now) result ≡ page_name name.now }
{
    among(
        &[
            "count",
            "startIndex",
            "resultType",
            "outputFormat",
            "resolve",
        ],
        name,
    )
}

// A name of which features are asked for.
#[tactic(auto, unfolding(crate::specs::Pairs::query_name))]
fn query_name(name: &str) -> Option<&'static str>
    ensures { option_map (λ n. n.now) result ≡ query_name name.now }
{
    among(
        &[
            "storedQuery_id",
            "typeNames",
            "typeName",
            "srsName",
            "resourceId",
            "filter",
            "bbox",
            "sortBy",
            "propertyName",
        ],
        name,
    )
}

// A name that single operations list.
#[tactic(auto, unfolding(crate::specs::Pairs::other_name))]
fn other_name(name: &str) -> Option<&'static str>
    ensures { option_map (λ n. n.now) result ≡ other_name name.now }
{
    among(
        &[
            "acceptVersions",
            "valueReference",
            "expiry",
            "lockAction",
            "lockId",
        ],
        name,
    )
}

// A name that not all operations list.
fn own_name(name: &str) -> Option<&'static str>
    ensures { option_map (λ n. n.now) result ≡ or_else (page_name name.now)
        (or_else (query_name name.now) (other_name name.now)) }
{
    if let Some(listed) = page_name(name) {
        return Some(listed);
    }
    match query_name(name) {
        Some(listed) => Some(listed),
        None => other_name(name),
    }
}

// A name as it is listed.
#[tactic(auto, unfolding(crate::specs::Pairs::listed_name))]
pub(crate) fn listed_name(name: &str) -> Option<&'static str>
    ensures { option_map (λ n. n.now) result ≡ listed_name name.now }
{
    match base_name(name) {
        Some(listed) => Some(listed),
        None => own_name(name),
    }
}

#[tactic(auto, unfolding(crate::specs::Pairs::is_lock_name))]
fn is_lock_name(name: &str) -> bool
    ensures { result ≡ is_lock_name name.now }
{
    is_same("expiry", name) || is_same("lockAction", name)
}

// Whether an operation that asks for features lists a name beside those that all of them do.
fn lists_too(operation: Operation, name: &str) -> bool
    ensures { result ≡ lists_too operation name.now }
{
    match operation {
        Operation::GetFeature => page_name(name).is_some(),
        Operation::GetPropertyValue => page_name(name).is_some() || is_same("valueReference", name),
        Operation::GetFeatureWithLock => page_name(name).is_some() || is_lock_name(name),
        Operation::LockFeature => is_lock_name(name) || is_same("lockId", name),
        _ => false,
    }
}

// Whether an operation that asks for features lists a name.
#[tactic(auto, unfolding(crate::specs::Pairs::lists))]
pub(crate) fn lists(operation: Operation, name: &str) -> bool
    ensures { result ≡ lists operation name.now }
{
    base_name(name).is_some() || query_name(name).is_some() || lists_too(operation, name)
}

// Whether a name is one of the two spellings of the names of types.
#[tactic(auto, unfolding(crate::specs::Pairs::is_type_names))]
pub(crate) fn is_type_names(name: &str) -> bool
    ensures { result ≡ is_type_names name.now }
{
    is_same("typeNames", name) || is_same("typeName", name)
}

// The name that a repeated pair is refused with.
#[tactic(auto, unfolding(crate::specs::Pairs::repeated_name))]
pub(crate) fn repeated_name(name: &str) -> &str
    ensures { result.now ≡ repeated_name name.now }
{
    if is_type_names(name) {
        return "typeNames";
    }
    match listed_name(name) {
        Some(listed) => listed,
        None => name,
    }
}
