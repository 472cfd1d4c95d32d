//! Queries that are answered, with what each finds among the features of the tests.

use super::Found;

pub(super) static BY_TYPE_AND_ID: [Found; 15] = [
    (("typeNames=Mark", ""), 4, "Mark.1 Mark.2 Mark.3 Mark.4"),
    (("typeNames=m:Mark&count=2", ""), 4, "Mark.1 Mark.2"),
    (("typeNames=Mark&startIndex=3", ""), 4, "Mark.4"),
    (
        ("typeNames=Mark&startIndex=1&count=2", ""),
        4,
        "Mark.2 Mark.3",
    ),
    (("typeNames=Mark&startIndex=4&count=5", ""), 4, ""),
    (("typeNames=Mark&count=0", ""), 4, ""),
    (("typeNames=Mark&resultType=hits", ""), 4, ""),
    (("typeName=Way", ""), 2, "Way.1 Way.2"),
    (("typeNames=Way&typeName=Way", ""), 2, "Way.1 Way.2"),
    (
        ("TYPENAMES=Field&srsname=EPSG:25832", ""),
        2,
        "Field.1 Field.2",
    ),
    (("resourceId=Mark.2,Mark.9", ""), 1, "Mark.2"),
    (
        ("resourceId=Way.1,Mark.1,Field.1", ""),
        3,
        "Mark.1 Field.1 Way.1",
    ),
    (("typeNames=Mark&resourceId=Mark.3,Way.1", ""), 1, "Mark.3"),
    (("resourceId=Mark.2,Mark.2", ""), 1, "Mark.2"),
    (("resourceId=Mark.02,Mark.0,Nope.1,Mark", ""), 0, ""),
];

pub(super) static BY_BOX: [Found; 11] = [
    // The edges of a box belong to it.
    (("typeNames=Mark&bbox=0,0,5,5", ""), 2, "Mark.3 Mark.4"),
    (
        ("typeNames=Mark&bbox=-5,-5,20,20", ""),
        3,
        "Mark.1 Mark.3 Mark.4",
    ),
    // A corner of a field, a place in its hole, and the ring of the hole.
    (("typeNames=Field&bbox=10,10,12,12", ""), 1, "Field.1"),
    (("typeNames=Field&bbox=3,3,3,3", ""), 0, ""),
    (("typeNames=Field&bbox=2,2,4,4", ""), 1, "Field.1"),
    // A way at the far edge of all coordinates.
    (
        ("typeNames=Way&bbox=1000000000,5,1000000000,5", ""),
        1,
        "Way.1",
    ),
    (("typeNames=Way&bbox=999999999,5,999999999,5", ""), 0, ""),
    // On the way that leads across, and beside it though within its bounds.
    (("typeNames=Way&bbox=2.0,2,2,2.00", ""), 1, "Way.2"),
    (("typeNames=Way&bbox=1,2,1,2", ""), 0, ""),
    (("typeNames=Way&bbox=5,5,9,9,EPSG:25832", ""), 1, "Way.2"),
    (("typeNames=Mark&bbox=0,0,5,5&resultType=hits", ""), 2, ""),
];

// Nulls come first where the order ascends and last where it descends, texts by their bytes, ties in default order.
pub(super) static SORTED: [Found; 9] = [
    (
        ("typeNames=Mark&sortBy=label", ""),
        4,
        "Mark.2 Mark.3 Mark.1 Mark.4",
    ),
    (
        ("typeNames=Mark&sortBy=label+DESC", ""),
        4,
        "Mark.4 Mark.1 Mark.3 Mark.2",
    ),
    (
        ("typeNames=Mark&sortBy=size", ""),
        4,
        "Mark.2 Mark.3 Mark.1 Mark.4",
    ),
    (
        ("typeNames=Mark&sortBy=size%20DESC", ""),
        4,
        "Mark.1 Mark.4 Mark.3 Mark.2",
    ),
    (
        ("typeNames=Mark&sortBy=size+DESC,label+DESC", ""),
        4,
        "Mark.4 Mark.1 Mark.3 Mark.2",
    ),
    (
        ("typeNames=Mark&sortBy=m:size+ASC,label", ""),
        4,
        "Mark.2 Mark.3 Mark.1 Mark.4",
    ),
    (
        ("typeNames=Mark&sortBy=size+DESC&startIndex=1&count=2", ""),
        4,
        "Mark.4 Mark.3",
    ),
    (
        (
            "typeNames=Mark&sortBy=label+DESC&resourceId=Mark.1,Mark.4",
            "",
        ),
        2,
        "Mark.4 Mark.1",
    ),
    (
        ("typeNames=Mark&sortBy=label&bbox=0,0,5,5", ""),
        2,
        "Mark.3 Mark.4",
    ),
];

pub(super) static COMPARED: [Found; 15] = [
    (
        (
            "typeNames=Mark",
            "<PropertyIsEqualTo><ValueReference>size</ValueReference><Literal>1</Literal></PropertyIsEqualTo>",
        ),
        0,
        "",
    ),
    // A null under Not.
    (
        (
            "typeNames=Mark",
            "<Not><PropertyIsEqualTo><ValueReference>size</ValueReference><Literal>1</Literal></PropertyIsEqualTo></Not>",
        ),
        4,
        "Mark.1 Mark.2 Mark.3 Mark.4",
    ),
    (
        (
            "typeNames=Mark",
            "<PropertyIsEqualTo><ValueReference>m:size</ValueReference><Literal>5</Literal></PropertyIsEqualTo>",
        ),
        2,
        "Mark.1 Mark.4",
    ),
    (
        (
            "typeNames=Mark",
            "<PropertyIsNotEqualTo><ValueReference>size</ValueReference><Literal>5</Literal></PropertyIsNotEqualTo>",
        ),
        1,
        "Mark.3",
    ),
    (
        (
            "typeNames=Mark",
            "<PropertyIsLessThan><ValueReference>size</ValueReference><Literal>5</Literal></PropertyIsLessThan>",
        ),
        1,
        "Mark.3",
    ),
    (
        (
            "typeNames=Mark",
            "<PropertyIsLessThan><Literal>0</Literal><ValueReference>size</ValueReference></PropertyIsLessThan>",
        ),
        2,
        "Mark.1 Mark.4",
    ),
    (
        (
            "typeNames=Mark",
            "<PropertyIsGreaterThanOrEqualTo><ValueReference>size</ValueReference><Literal>5</Literal></PropertyIsGreaterThanOrEqualTo>",
        ),
        2,
        "Mark.1 Mark.4",
    ),
    (
        (
            "typeNames=Mark",
            "<PropertyIsLessThanOrEqualTo><ValueReference>size</ValueReference><Literal>-3</Literal></PropertyIsLessThanOrEqualTo>",
        ),
        1,
        "Mark.3",
    ),
    (
        (
            "typeNames=Mark",
            "<PropertyIsGreaterThan><ValueReference>size</ValueReference><Literal>-3</Literal></PropertyIsGreaterThan>",
        ),
        2,
        "Mark.1 Mark.4",
    ),
    // A sharp s without its case, and with it.
    (
        (
            "typeNames=Mark",
            "<PropertyIsEqualTo matchCase=\"false\"><ValueReference>label</ValueReference><Literal>straße</Literal></PropertyIsEqualTo>",
        ),
        1,
        "Mark.1",
    ),
    (
        (
            "typeNames=Mark",
            "<PropertyIsEqualTo><ValueReference>label</ValueReference><Literal>straße</Literal></PropertyIsEqualTo>",
        ),
        0,
        "",
    ),
    (
        (
            "typeNames=Mark",
            "<PropertyIsNull><ValueReference>size</ValueReference></PropertyIsNull>",
        ),
        1,
        "Mark.2",
    ),
    // The bounds of a range belong to it.
    (
        (
            "typeNames=Mark",
            "<PropertyIsBetween><ValueReference>size</ValueReference><LowerBoundary><Literal>-3</Literal></LowerBoundary><UpperBoundary><Literal>5</Literal></UpperBoundary></PropertyIsBetween>",
        ),
        3,
        "Mark.1 Mark.3 Mark.4",
    ),
    (
        (
            "typeNames=Mark",
            "<PropertyIsBetween><ValueReference>size</ValueReference><LowerBoundary><Literal>-2</Literal></LowerBoundary><UpperBoundary><Literal>4</Literal></UpperBoundary></PropertyIsBetween>",
        ),
        0,
        "",
    ),
    (
        (
            "typeNames=Mark&sortBy=label&count=1",
            "<PropertyIsEqualTo><ValueReference>size</ValueReference><Literal>5</Literal></PropertyIsEqualTo>",
        ),
        2,
        "Mark.1",
    ),
];

pub(super) static BY_OTHER_OPERATORS: [Found; 13] = [
    // A star that is escaped stands for itself.
    (
        (
            "typeNames=Mark",
            "<PropertyIsLike wildCard=\"*\" singleChar=\".\" escapeChar=\"!\"><ValueReference>label</ValueReference><Literal>A!*.</Literal></PropertyIsLike>",
        ),
        1,
        "Mark.2",
    ),
    (
        (
            "typeNames=Mark",
            "<PropertyIsLike wildCard=\"*\" singleChar=\".\" escapeChar=\"!\"><ValueReference>label</ValueReference><Literal>*b</Literal></PropertyIsLike>",
        ),
        3,
        "Mark.2 Mark.3 Mark.4",
    ),
    (
        (
            "typeNames=Mark",
            "<PropertyIsLike wildCard=\"%\" singleChar=\"_\" escapeChar=\"\\\"><ValueReference>label</ValueReference><Literal>_b</Literal></PropertyIsLike>",
        ),
        1,
        "Mark.3",
    ),
    (
        (
            "typeNames=Mark",
            "<And><PropertyIsEqualTo><ValueReference>size</ValueReference><Literal>5</Literal></PropertyIsEqualTo><PropertyIsEqualTo><ValueReference>label</ValueReference><Literal>b</Literal></PropertyIsEqualTo></And>",
        ),
        1,
        "Mark.4",
    ),
    (
        (
            "typeNames=Mark",
            "<Or><PropertyIsEqualTo><ValueReference>size</ValueReference><Literal>-3</Literal></PropertyIsEqualTo><PropertyIsEqualTo><ValueReference>label</ValueReference><Literal>b</Literal></PropertyIsEqualTo></Or>",
        ),
        2,
        "Mark.3 Mark.4",
    ),
    (
        (
            "typeNames=Mark",
            "<ResourceId rid=\"Mark.4\"/><ResourceId rid=\"Mark.2\"/><ResourceId rid=\"Mark.02\"/>",
        ),
        2,
        "Mark.2 Mark.4",
    ),
    (
        (
            "typeNames=Mark",
            "<And><PropertyIsEqualTo><ValueReference>size</ValueReference><Literal>-3</Literal></PropertyIsEqualTo><ResourceId rid=\"Mark.4\"/></And>",
        ),
        0,
        "",
    ),
    (
        (
            "typeNames=Mark",
            "<BBOX><ValueReference>place</ValueReference><Envelope xmlns=\"http://www.opengis.net/gml/3.2\"><lowerCorner>0 0</lowerCorner><upperCorner>3 3</upperCorner></Envelope></BBOX>",
        ),
        1,
        "Mark.3",
    ),
    (
        (
            "typeNames=Field",
            "<BBOX><Envelope xmlns=\"http://www.opengis.net/gml/3.2\"><lowerCorner>3 3</lowerCorner><upperCorner>3 3</upperCorner></Envelope></BBOX>",
        ),
        0,
        "",
    ),
    (
        (
            "typeNames=Field",
            "<Intersects><ValueReference>area</ValueReference><Point xmlns=\"http://www.opengis.net/gml/3.2\"><pos>4 4</pos></Point></Intersects>",
        ),
        1,
        "Field.1",
    ),
    (
        (
            "typeNames=Way",
            "<Intersects><ValueReference>course</ValueReference><LineString xmlns=\"http://www.opengis.net/gml/3.2\"><posList>0 2 2 0</posList></LineString></Intersects>",
        ),
        1,
        "Way.2",
    ),
    // What is apart from a geometry, or has none.
    (
        (
            "typeNames=Mark",
            "<Disjoint><ValueReference>place</ValueReference><Point xmlns=\"http://www.opengis.net/gml/3.2\"><pos>3 3</pos></Point></Disjoint>",
        ),
        3,
        "Mark.1 Mark.2 Mark.4",
    ),
    (
        (
            "typeNames=Mark&startIndex=1",
            "<Disjoint><ValueReference>place</ValueReference><Point xmlns=\"http://www.opengis.net/gml/3.2\"><pos>3 3</pos></Point></Disjoint>",
        ),
        3,
        "Mark.2 Mark.4",
    ),
];
