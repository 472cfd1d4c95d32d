//! Queries that are refused, each with its first fault.

use super::Fault;

pub(super) static UNFIT: [Fault; 31] = [
    (("typeNames=Nope", ""), 11, "typeNames"),
    (("typeNames=Mark,Way", ""), 12, "typeNames"),
    (("count=1", ""), 10, "typeNames"),
    (("bbox=1,2,3,4", ""), 10, "typeNames"),
    (("typeNames=Mark&count=x", ""), 11, "count"),
    (
        ("typeNames=Mark&startIndex=4294967296", ""),
        11,
        "startIndex",
    ),
    (("typeNames=Mark&resultType=all", ""), 11, "resultType"),
    (("typeNames=Mark&resolve=local", ""), 12, "resolve"),
    (("typeNames=Mark&srsName=EPSG:1", ""), 11, "srsName"),
    (
        ("typeNames=Mark&propertyName=label", ""),
        12,
        "propertyName",
    ),
    (("typeNames=Mark&TypeNames=Mark", ""), 8, "typeNames"),
    (
        ("typeNames=Way&bbox=1000000001,5,1000000001,5", ""),
        11,
        "bbox",
    ),
    (("typeNames=Way&bbox=1,2,3", ""), 11, "bbox"),
    (("typeNames=Way&bbox=1,2,3,4,EPSG:1", ""), 11, "bbox"),
    (("typeNames=Way&bbox=1,2,3,4,EPSG:25832,5", ""), 11, "bbox"),
    (("typeNames=Way&bbox=1.5,2,3,4", ""), 11, "bbox"),
    (("typeNames=Way&bbox=5,5,4,9", ""), 11, "bbox"),
    (("resourceId=Mark.1&bbox=0,0,1,1", ""), 11, "bbox"),
    (
        (
            "resourceId=Mark.1&typeNames=Mark",
            "<ResourceId rid=\"Mark.1\"/>",
        ),
        11,
        "filter",
    ),
    (
        (
            "bbox=0,0,1,1&typeNames=Mark",
            "<ResourceId rid=\"Mark.1\"/>",
        ),
        11,
        "bbox",
    ),
    (("resourceId=Mark.1&filter=x", ""), 8, "filter"),
    (("typeNames=Mark&filter=%3Cx/%3E", ""), 8, "x"),
    (("typeNames=Mark&sortBy=place", ""), 11, "sortBy"),
    (("typeNames=Mark&sortBy=nope", ""), 11, "nope"),
    (("typeNames=Mark&sortBy=label+UP", ""), 11, "sortBy"),
    (("resourceId=Mark.1&sortBy=label", ""), 11, "sortBy"),
    (
        (
            "typeNames=Mark",
            "<PropertyIsEqualTo><ValueReference>size</ValueReference><Literal>x</Literal></PropertyIsEqualTo>",
        ),
        11,
        "size",
    ),
    (
        (
            "typeNames=Mark",
            "<PropertyIsEqualTo><ValueReference>m:sort</ValueReference><Literal>x</Literal></PropertyIsEqualTo>",
        ),
        11,
        "m:sort",
    ),
    (
        (
            "typeNames=Mark",
            "<Touches><ValueReference>place</ValueReference></Touches>",
        ),
        12,
        "Touches",
    ),
    (("count=1", "<ResourceId rid=\"Mark.1\"/>"), 10, "typeNames"),
    (
        (
            "count=1",
            "<PropertyIsNull><ValueReference>size</ValueReference></PropertyIsNull>",
        ),
        11,
        "size",
    ),
];
