//! What holds of reading and writing together.

ghost use Rattle.gml_docs.specs.Printed.{StandsAlike};
ghost use Rattle.gml_docs.specs.RoundTrip.{ReadsBack};

/// The element that `geometry_tree` writes for a geometry reads back as that geometry, where the name that it writes is
/// one of the reference system's. Every value of `Geometry` is such a geometry.
pub fn round_trip()
    ensures { ReadsBack }
{}

/// The text that `put_geometry` gives is the canonical one of the element that `geometry_tree` writes, as a part of every
/// document that writes the names of GML with the prefix `gml` and those in no namespace without one, whatever other
/// prefixes it declares.
pub fn stands_alike()
    ensures { StandsAlike }
{}
