//! The laws of reading and writing filters.

ghost use Rattle.fes_docs.specs.Allowed.{ReadIsAllowed};
ghost use Rattle.fes_docs.specs.RoundTrip.{ReadsBack};

/// The element that `filter_tree` or `filter_tree_in` writes for a filter reads back as that filter, where `read_filter`
/// or `read_filter_in` gave the filter for some element and the same schema, type and parameters.
///
/// The schema's prefix holds no colon, and its reference system has a name. Every value of `Filter` is such a filter as
/// is asked for here.
pub fn round_trip()
    ensures { ReadsBack }
{}

/// Nothing is wrong with a filter that `read_filter` or `read_filter_in` gave for some element: `fes_filter`'s `check` of
/// it, for the same schema and type, finds no fault.
///
/// So a request that was read keeps the condition under which its filters are judged, and nobody has to check them again.
pub fn read_is_allowed()
    ensures { ReadIsAllowed }
{}
