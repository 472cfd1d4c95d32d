//! The same element as text, given in one pass, and how long that text is.

ghost use Rattle.std.specs.Prelude.{◌≡◌, ◌++◌, [], ◌∷◌, true, length, codes, decimal};
ghost use Rattle.std.specs.List.{flat_map};
ghost use Rattle.std.specs.Fmt.{signed_decimal};
ghost use Rattle.wfs_ends.specs.Ends.{Writes, joined, capped};
ghost use Rattle.doc_tree.specs.Escape.{escaped};
ghost use Rattle.gml_docs.specs.Written.{position_text, next_text, positions_text};
ghost use Rattle.gml_docs.specs.Printed.{id_text, id_of, geometry_text, head_text, some_positions_text, list_text, ring_text, hole_text, point_text, line_text, area_text};

use doc_tree::put_text_on;
use geom_core::{Geometry, Polygon, Pos, Ring};
use itoa::Buffer;
use wfs_ends::{CountingSink, Sink, put_on};

/// The identifier of a geometry in a reply, `kind.number.property`, in its parts.
#[derive(Clone, Copy, Debug)]
pub struct GeometryId<'a> {
    /// The name of the feature's type.
    pub kind: &'a str,
    /// The feature's number.
    pub number: u64,
    /// The name of the property that has the geometry.
    pub property: &'a str,
}

fn put_natural<S: Sink>(sink: &mut S, failed: bool, number: u64) -> bool
    ensures { Writes (record { shown = S.sink sink.old; failed = failed }) (decimal number)
        (record { shown = S.sink sink.new; failed = result }) }
{
    let mut buffer = Buffer::new();
    put_on(sink, failed, buffer.format(number).as_bytes())
}

fn put_number<S: Sink>(sink: &mut S, failed: bool, number: i32) -> bool
    ensures { Writes (record { shown = S.sink sink.old; failed = failed }) (signed_decimal number)
        (record { shown = S.sink sink.new; failed = result }) }
{
    let mut buffer = Buffer::new();
    put_on(sink, failed, buffer.format(number).as_bytes())
}

// The identifier with these parts.
fn put_id<S: Sink>(sink: &mut S, failed: bool, kind: &str, number: u64, property: &str) -> bool
    ensures { Writes (record { shown = S.sink sink.old; failed = failed })
        (escaped true (id_text kind.now number property.now))
        (record { shown = S.sink sink.new; failed = result }) }
{
    let failed = put_text_on(sink, failed, kind, true);
    let failed = put_on(sink, failed, b".");
    let failed = put_natural(sink, failed, number);
    let failed = put_on(sink, failed, b".");
    put_text_on(sink, failed, property, true)
}

// A start tag, which begins so and has the attributes.
fn put_head<S: Sink>(
    sink: &mut S,
    failed: bool,
    start: &[u8],
    id: &GeometryId<'_>,
    srs: &str,
) -> bool
    ensures { Writes (record { shown = S.sink sink.old; failed = failed })
        (head_text start.now (id_of id.now) srs.now)
        (record { shown = S.sink sink.new; failed = result }) }
{
    let failed = put_on(sink, failed, start);
    let failed = put_id(sink, failed, id.kind, id.number, id.property);
    let failed = put_on(sink, failed, b"\" srsName=\"");
    let failed = put_text_on(sink, failed, srs, true);
    put_on(sink, failed, b"\">")
}

// Two coordinates, with a space between them.
fn put_pair<S: Sink>(sink: &mut S, failed: bool, x: i32, y: i32) -> bool
    ensures { Writes (record { shown = S.sink sink.old; failed = failed })
        (joined (signed_decimal x ∷ codes " " ∷ signed_decimal y ∷ []))
        (record { shown = S.sink sink.new; failed = result }) }
{
    let failed = put_number(sink, failed, x);
    let failed = put_on(sink, failed, b" ");
    put_number(sink, failed, y)
}

#[tactic(auto, unfolding(crate::specs::Written::position_text))]
fn put_position<S: Sink>(sink: &mut S, failed: bool, p: Pos) -> bool
    ensures { Writes (record { shown = S.sink sink.old; failed = failed }) (position_text p)
        (record { shown = S.sink sink.new; failed = result }) }
{
    put_pair(sink, failed, p.x, p.y)
}

fn put_next<S: Sink>(sink: &mut S, failed: bool, p: Pos) -> bool
    ensures { Writes (record { shown = S.sink sink.old; failed = failed }) (next_text p)
        (record { shown = S.sink sink.new; failed = result }) }
{
    let begun = put_on(sink, failed, b" ");
    put_position(sink, begun, p)
}

fn put_rest<S: Sink>(sink: &mut S, failed: bool, positions: &[Pos]) -> bool
    ensures { Writes (record { shown = S.sink sink.old; failed = failed })
        (flat_map next_text positions.now) (record { shown = S.sink sink.new; failed = result }) }
{
    let mut failed = failed;
    for p in positions {
        failed = put_next(sink, failed, *p);
    }
    failed
}

// A first position, and the others behind it.
fn put_from<S: Sink>(sink: &mut S, failed: bool, first: Pos, rest: &[Pos]) -> bool
    ensures { Writes (record { shown = S.sink sink.old; failed = failed })
        (position_text first ++ flat_map next_text rest.now)
        (record { shown = S.sink sink.new; failed = result }) }
{
    let failed = put_position(sink, failed, first);
    put_rest(sink, failed, rest)
}

#[tactic(auto, unfolding(crate::specs::Written::positions_text))]
fn put_positions<S: Sink>(sink: &mut S, failed: bool, positions: &[Pos]) -> bool
    ensures { Writes (record { shown = S.sink sink.old; failed = failed })
        (positions_text positions.now) (record { shown = S.sink sink.new; failed = result }) }
{
    match positions {
        [first, rest @ ..] => put_from(sink, failed, *first, rest),
        [] => put_on(sink, failed, b""),
    }
}

fn put_some_positions<S: Sink>(sink: &mut S, failed: bool, positions: &[Pos]) -> bool
    ensures { Writes (record { shown = S.sink sink.old; failed = failed })
        (some_positions_text positions.now) (record { shown = S.sink sink.new; failed = result }) }
{
    let failed = put_on(sink, failed, b"<gml:posList>");
    let failed = put_positions(sink, failed, positions);
    put_on(sink, failed, b"</gml:posList>")
}

fn put_list<S: Sink>(sink: &mut S, failed: bool, positions: &[Pos]) -> bool
    ensures { Writes (record { shown = S.sink sink.old; failed = failed }) (list_text positions.now)
        (record { shown = S.sink sink.new; failed = result }) }
{
    match positions {
        [] => put_on(sink, failed, b"<gml:posList/>"),
        _ => put_some_positions(sink, failed, positions),
    }
}

fn put_ring<S: Sink>(sink: &mut S, failed: bool, ring: &Ring) -> bool
    ensures { Writes (record { shown = S.sink sink.old; failed = failed }) (ring_text ring.now)
        (record { shown = S.sink sink.new; failed = result }) }
{
    let failed = put_on(sink, failed, b"<gml:LinearRing>");
    let failed = put_list(sink, failed, ring.positions());
    put_on(sink, failed, b"</gml:LinearRing>")
}

fn put_hole<S: Sink>(sink: &mut S, failed: bool, hole: &Ring) -> bool
    ensures { Writes (record { shown = S.sink sink.old; failed = failed }) (hole_text hole.now)
        (record { shown = S.sink sink.new; failed = result }) }
{
    let failed = put_on(sink, failed, b"<gml:interior>");
    let failed = put_ring(sink, failed, hole);
    put_on(sink, failed, b"</gml:interior>")
}

fn put_holes<S: Sink>(sink: &mut S, failed: bool, holes: &[Ring]) -> bool
    ensures { Writes (record { shown = S.sink sink.old; failed = failed })
        (flat_map hole_text holes.now) (record { shown = S.sink sink.new; failed = result }) }
{
    let mut failed = failed;
    for hole in holes {
        failed = put_hole(sink, failed, hole);
    }
    failed
}

fn put_point<S: Sink>(sink: &mut S, failed: bool, p: Pos, id: &GeometryId<'_>, srs: &str) -> bool
    ensures { Writes (record { shown = S.sink sink.old; failed = failed })
        (point_text p (id_of id.now) srs.now)
        (record { shown = S.sink sink.new; failed = result }) }
{
    let failed = put_head(sink, failed, b"<gml:Point gml:id=\"", id, srs);
    let failed = put_on(sink, failed, b"<gml:pos>");
    let failed = put_position(sink, failed, p);
    put_on(sink, failed, b"</gml:pos></gml:Point>")
}

fn put_line<S: Sink>(
    sink: &mut S,
    failed: bool,
    line: &[Pos],
    id: &GeometryId<'_>,
    srs: &str,
) -> bool
    ensures { Writes (record { shown = S.sink sink.old; failed = failed })
        (line_text line.now (id_of id.now) srs.now)
        (record { shown = S.sink sink.new; failed = result }) }
{
    let failed = put_head(sink, failed, b"<gml:LineString gml:id=\"", id, srs);
    let failed = put_list(sink, failed, line);
    put_on(sink, failed, b"</gml:LineString>")
}

fn put_area<S: Sink>(
    sink: &mut S,
    failed: bool,
    area: &Polygon,
    id: &GeometryId<'_>,
    srs: &str,
) -> bool
    ensures { Writes (record { shown = S.sink sink.old; failed = failed })
        (area_text area.now (id_of id.now) srs.now)
        (record { shown = S.sink sink.new; failed = result }) }
{
    let failed = put_head(sink, failed, b"<gml:Polygon gml:id=\"", id, srs);
    let failed = put_on(sink, failed, b"<gml:exterior>");
    let failed = put_ring(sink, failed, area.shell());
    let failed = put_on(sink, failed, b"</gml:exterior>");
    let failed = put_holes(sink, failed, area.holes());
    put_on(sink, failed, b"</gml:Polygon>")
}

/// Gives the text of a geometry as an element within a document, unless a put failed before. It says whether one has
/// failed by now.
///
/// It is the text that `doc_tree::put_element` gives for the element of `geometry_tree`, with `id` and `srs`, where that
/// stands within a document that writes the names of GML with the prefix `gml`: nothing is declared in it. A writer of
/// several pieces hands the answer of each call to the next one, and looks at the last alone.
///
/// Each position is given as it is met, in one pass, and nothing takes memory.
#[tactic(auto, using(crate::proofs::Printed::prints_point, crate::proofs::Printed::prints_line, crate::proofs::Printed::prints_area))]
pub fn put_geometry<S: Sink>(
    sink: &mut S,
    failed: bool,
    g: &Geometry,
    id: &GeometryId<'_>,
    srs: &str,
) -> bool
    ensures { Writes (record { shown = S.sink sink.old; failed = failed })
        (geometry_text g.now (id_of id.now) srs.now)
        (record { shown = S.sink sink.new; failed = result }) }
{
    match g {
        Geometry::At(p) => put_point(sink, failed, *p, id, srs),
        Geometry::Along(line) => put_line(sink, failed, line.item().positions(), id, srs),
        Geometry::Over(area) => put_area(sink, failed, area.item(), id, srs),
    }
}

/// How many bytes `put_geometry` gives for the same geometry, or the greatest u64 where they are more.
#[tactic(auto, using(wfs_ends::proofs::Writing::counted_on))]
pub fn geometry_length(g: &Geometry, id: &GeometryId<'_>, srs: &str) -> u64
    ensures { result ≡ capped (length (geometry_text g.now (id_of id.now) srs.now)) }
{
    let mut counter = CountingSink::new();
    let _ = put_geometry(&mut counter, false, g, id, srs);
    counter.count()
}
