//! What holds of filters, read and written (`fes_docs`), and of documents (`doc_laws`) together.
#![tactic(auto)]

ghost use Rattle.filter_laws.specs.Standing.{IsSpelled};

/// The element that `fes_docs` writes for a filter stands in a document: its canonical text spells it, where the filter was read from
/// an element of a document.
///
/// The schema is one that keeps the rules of schema files, the names of the parameters are texts that a document may hold, and the
/// prefixes are such that a document can declare them, with one for FES and one for GML.
pub fn is_spelled()
    ensures { IsSpelled }
{}
