//! Sessions of some messages: what each is asked, and what it answers. The answers were written from the formats' own
//! words.

use program_samples::{
    Answer, COLLECTION, FEATURES, INSERTED, Message, REPORT, REPORT_END, REPORT_LOCATOR,
    REPORT_TEXT, TWO_MARKS,
};

// What the answer to a transaction begins with, up to how many were inserted.
const TRANSACTED: &str =
    "<?xml version=\"1.0\" encoding=\"UTF-8\"?><wfs:TransactionResponse xmlns:wfs=\"http://www.opengis.net/wfs/2.0\" xmlns:fes=\"http://www.opengis.net/fes/2.0\" version=\"2.0.2\"><wfs:TransactionSummary><wfs:totalInserted>";

// An Update of all marks that sets one property twice, and a Replace of the first of them, in one transaction.
pub(super) static SETTING: [Message; 3] = [
    ("", TWO_MARKS),
    (
        "POST /wfs HTTP/1.1\r\nHost: h\r\nContent-Length: 643\r\n\r\n<wfs:Transaction service=\"WFS\" version=\"2.0.2\" xmlns:wfs=\"http://www.opengis.net/wfs/2.0\" xmlns:fes=\"http://www.opengis.net/fes/2.0\" xmlns:m=\"http://example.org/marks\"><wfs:Update typeName=\"m:Mark\"><wfs:Property><wfs:ValueReference>size</wfs:ValueReference><wfs:Value>7</wfs:Value></wfs:Property><wfs:Property><wfs:ValueReference>label</wfs:ValueReference><wfs:Value>Q</wfs:Value></wfs:Property><wfs:Property><wfs:ValueReference>size</wfs:ValueReference><wfs:Value>8</wfs:Value></wfs:Property></wfs:Update><wfs:Replace><m:Mark><m:label>Z</m:label></m:Mark><fes:Filter><fes:ResourceId rid=\"Mark.1\"/></fes:Filter></wfs:Replace></wfs:Transaction>",
        "",
    ),
    (
        "GET /wfs?service=WFS&request=GetFeature&typeNames=Mark HTTP/1.1\r\nHost: h\r\n\r\n",
        "",
    ),
];

// Without a filter all are set, of two values of one property the later one stands, and nothing of what is replaced is
// left.
pub(super) static SET: [Answer; 3] = [
    ("200 OK", "text/xml", "", &[INSERTED]),
    (
        "200 OK",
        "text/xml",
        "",
        &[
            TRANSACTED,
            "0</wfs:totalInserted><wfs:totalUpdated>2</wfs:totalUpdated><wfs:totalReplaced>1</wfs:totalReplaced><wfs:totalDeleted>0</wfs:totalDeleted></wfs:TransactionSummary><wfs:UpdateResults><wfs:Feature><fes:ResourceId rid=\"Mark.1\"/></wfs:Feature><wfs:Feature><fes:ResourceId rid=\"Mark.2\"/></wfs:Feature></wfs:UpdateResults><wfs:ReplaceResults><wfs:Feature><fes:ResourceId rid=\"Mark.1\"/></wfs:Feature></wfs:ReplaceResults></wfs:TransactionResponse>",
        ],
    ),
    (
        "200 OK",
        FEATURES,
        "",
        &[
            COLLECTION,
            "2\" numberReturned=\"2\"><wfs:member><m:Mark gml:id=\"Mark.1\"><m:label>Z</m:label></m:Mark></wfs:member><wfs:member><m:Mark gml:id=\"Mark.2\"><m:label>Q</m:label><m:size>8</m:size></m:Mark></wfs:member></wfs:FeatureCollection>",
        ],
    ),
];

// Locks on a way beside a mark, and a Delete of marks whose filter the way would pass too.
pub(super) static OF_TWO_TYPES: [Message; 4] = [
    (
        "",
        "<m:Mark><m:label>A</m:label></m:Mark><m:Way><m:course><LineString xmlns=\"http://www.opengis.net/gml/3.2\"><posList>0 0 5 5</posList></LineString></m:course></m:Way>",
    ),
    (
        "GET /wfs?service=WFS&request=LockFeature&resourceId=Way.1 HTTP/1.1\r\nHost: h\r\n\r\n",
        "",
    ),
    (
        "GET /wfs?service=WFS&request=LockFeature&typeNames=Way HTTP/1.1\r\nHost: h\r\n\r\n",
        "",
    ),
    (
        "POST /wfs HTTP/1.1\r\nHost: h\r\nContent-Length: 303\r\n\r\n<wfs:Transaction service=\"WFS\" version=\"2.0.2\" xmlns:wfs=\"http://www.opengis.net/wfs/2.0\" xmlns:fes=\"http://www.opengis.net/fes/2.0\" xmlns:m=\"http://example.org/marks\"><wfs:Delete typeName=\"m:Mark\"><fes:Filter><fes:Not><fes:ResourceId rid=\"Mark.9\"/></fes:Not></fes:Filter></wfs:Delete></wfs:Transaction>",
        "",
    ),
];

// The locator names the way; it is not deleted, and so its lock does not count.
pub(super) static FOR_TWO_TYPES: [Answer; 4] = [
    (
        "200 OK",
        "text/xml",
        "",
        &[
            TRANSACTED,
            "2</wfs:totalInserted><wfs:totalUpdated>0</wfs:totalUpdated><wfs:totalReplaced>0</wfs:totalReplaced><wfs:totalDeleted>0</wfs:totalDeleted></wfs:TransactionSummary><wfs:InsertResults><wfs:Feature><fes:ResourceId rid=\"Mark.1\"/></wfs:Feature><wfs:Feature><fes:ResourceId rid=\"Way.1\"/></wfs:Feature></wfs:InsertResults></wfs:TransactionResponse>",
        ],
    ),
    (
        "200 OK",
        "text/xml",
        "",
        &[
            "<?xml version=\"1.0\" encoding=\"UTF-8\"?><wfs:LockFeatureResponse xmlns:wfs=\"http://www.opengis.net/wfs/2.0\" xmlns:fes=\"http://www.opengis.net/fes/2.0\" lockId=\"lock-1-1\"><wfs:FeaturesLocked><fes:ResourceId rid=\"Way.1\"/></wfs:FeaturesLocked></wfs:LockFeatureResponse>",
        ],
    ),
    (
        "409 Conflict",
        "text/xml",
        "",
        &[
            REPORT,
            "CannotLockAllFeatures",
            REPORT_LOCATOR,
            "Way.1",
            REPORT_TEXT,
            "not all are free",
            REPORT_END,
        ],
    ),
    (
        "200 OK",
        "text/xml",
        "",
        &[
            TRANSACTED,
            "0</wfs:totalInserted><wfs:totalUpdated>0</wfs:totalUpdated><wfs:totalReplaced>0</wfs:totalReplaced><wfs:totalDeleted>1</wfs:totalDeleted></wfs:TransactionSummary></wfs:TransactionResponse>",
        ],
    ),
];

// A lock on the one feature with an identifier, and one on a page, while the mark behind that page is locked.
pub(super) static PAGES_WITH_LOCKS: [Message; 3] = [
    ("", TWO_MARKS),
    (
        "GET /wfs?service=WFS&request=GetFeatureWithLock&storedQuery_id=urn:ogc:def:query:OGC-WFS::GetFeatureById&id=Mark.2 HTTP/1.1\r\nHost: h\r\n\r\n",
        "",
    ),
    (
        "GET /wfs?service=WFS&request=GetFeatureWithLock&typeNames=Mark&count=1 HTTP/1.1\r\nHost: h\r\n\r\n",
        "",
    ),
];

// Both are collections, without links.
pub(super) static LOCKED_PAGES: [Answer; 3] = [
    ("200 OK", "text/xml", "", &[INSERTED]),
    (
        "200 OK",
        FEATURES,
        "",
        &[
            COLLECTION,
            "1\" numberReturned=\"1\" lockId=\"lock-1-1\"><wfs:member><m:Mark gml:id=\"Mark.2\"><m:label>B</m:label></m:Mark></wfs:member></wfs:FeatureCollection>",
        ],
    ),
    (
        "200 OK",
        FEATURES,
        "",
        &[
            COLLECTION,
            "2\" numberReturned=\"1\" lockId=\"lock-1-2\"><wfs:member><m:Mark gml:id=\"Mark.1\"><m:label>A</m:label></m:Mark></wfs:member></wfs:FeatureCollection>",
        ],
    ),
];

// An Insert, and two counts.
pub(super) static COUNTING: [Message; 3] = [
    ("", TWO_MARKS),
    (
        "GET /wfs?service=WFS&request=GetFeature&typeNames=Mark&resultType=hits HTTP/1.1\r\nHost: h\r\n\r\n",
        "",
    ),
    (
        "GET /wfs?service=WFS&request=GetFeature&typeNames=Mark&resultType=hits HTTP/1.1\r\nHost: h\r\n\r\n",
        "",
    ),
];

// What a collection begins with, up to its moment.
const PRINTED: &str =
    "<?xml version=\"1.0\" encoding=\"UTF-8\"?><wfs:FeatureCollection xmlns:wfs=\"http://www.opengis.net/wfs/2.0\" xmlns:gml=\"http://www.opengis.net/gml/3.2\" xmlns:m=\"http://example.org/marks\" timeStamp=\"";

const TWO_COUNTED: &str = "\" numberMatched=\"2\" numberReturned=\"0\"/>";

// Their moments are 900, though an entry came at 1,000 before; and 200,000,000,000, which is the greatest.
pub(super) static COUNTED: [Answer; 3] = [
    ("200 OK", "text/xml", "", &[INSERTED]),
    (
        "200 OK",
        FEATURES,
        "",
        &[PRINTED, "1970-01-01T00:15:00Z", TWO_COUNTED],
    ),
    (
        "200 OK",
        FEATURES,
        "",
        &[PRINTED, "8307-10-01T19:33:20Z", TWO_COUNTED],
    ),
];

pub(super) static DESCRIBING: [Message; 1] = [(
    "GET /wfs?service=WFS&request=DescribeFeatureType&typeNames=Way,Field HTTP/1.1\r\nHost: h\r\n\r\n",
    "",
)];

// Types stand in the order in which they were asked for.
pub(super) static DESCRIBED: [Answer; 1] = [(
    "200 OK",
    FEATURES,
    "",
    &[
        "<?xml version=\"1.0\" encoding=\"UTF-8\"?><xs:schema xmlns:xs=\"http://www.w3.org/2001/XMLSchema\" xmlns:gml=\"http://www.opengis.net/gml/3.2\" xmlns:m=\"http://example.org/marks\" targetNamespace=\"http://example.org/marks\" elementFormDefault=\"qualified\"><xs:import namespace=\"http://www.opengis.net/gml/3.2\" schemaLocation=\"http://schemas.opengis.net/gml/3.2.1/gml.xsd\"/><xs:element name=\"Way\" type=\"m:WayType\" substitutionGroup=\"gml:AbstractFeature\"/><xs:complexType name=\"WayType\"><xs:complexContent><xs:extension base=\"gml:AbstractFeatureType\"><xs:sequence><xs:element name=\"course\" type=\"gml:CurvePropertyType\" minOccurs=\"0\"/></xs:sequence></xs:extension></xs:complexContent></xs:complexType><xs:element name=\"Field\" type=\"m:FieldType\" substitutionGroup=\"gml:AbstractFeature\"/><xs:complexType name=\"FieldType\"><xs:complexContent><xs:extension base=\"gml:AbstractFeatureType\"><xs:sequence><xs:element name=\"name\" type=\"xs:string\" minOccurs=\"0\"/><xs:element name=\"area\" type=\"gml:SurfacePropertyType\" minOccurs=\"0\"/></xs:sequence></xs:extension></xs:complexContent></xs:complexType></xs:schema>",
    ],
)];

// A stored query of marks and then of fields, and the labels of what it selects.
pub(super) static LABELS: [Message; 3] = [
    (
        "",
        "<m:Mark><m:label>A</m:label></m:Mark><m:Field><m:name>north</m:name></m:Field>",
    ),
    (
        "POST /wfs HTTP/1.1\r\nHost: h\r\nContent-Length: 382\r\n\r\n<wfs:CreateStoredQuery service=\"WFS\" version=\"2.0.2\" xmlns:wfs=\"http://www.opengis.net/wfs/2.0\" xmlns:fes=\"http://www.opengis.net/fes/2.0\" xmlns:m=\"http://example.org/marks\"><wfs:StoredQueryDefinition id=\"urn:x:all\"><wfs:QueryExpressionText><wfs:Query typeNames=\"m:Mark\"/><wfs:Query typeNames=\"m:Field\"/></wfs:QueryExpressionText></wfs:StoredQueryDefinition></wfs:CreateStoredQuery>",
        "",
    ),
    (
        "GET /wfs?service=WFS&request=GetPropertyValue&storedQuery_id=urn:x:all&valueReference=label HTTP/1.1\r\nHost: h\r\n\r\n",
        "",
    ),
];

// The property is that of marks, and a field has no value of it.
pub(super) static LABELLED: [Answer; 3] = [
    (
        "200 OK",
        "text/xml",
        "",
        &[
            TRANSACTED,
            "2</wfs:totalInserted><wfs:totalUpdated>0</wfs:totalUpdated><wfs:totalReplaced>0</wfs:totalReplaced><wfs:totalDeleted>0</wfs:totalDeleted></wfs:TransactionSummary><wfs:InsertResults><wfs:Feature><fes:ResourceId rid=\"Mark.1\"/></wfs:Feature><wfs:Feature><fes:ResourceId rid=\"Field.1\"/></wfs:Feature></wfs:InsertResults></wfs:TransactionResponse>",
        ],
    ),
    (
        "200 OK",
        "text/xml",
        "",
        &[
            "<?xml version=\"1.0\" encoding=\"UTF-8\"?><wfs:CreateStoredQueryResponse xmlns:wfs=\"http://www.opengis.net/wfs/2.0\" status=\"OK\"/>",
        ],
    ),
    (
        "200 OK",
        FEATURES,
        "",
        &[
            "<?xml version=\"1.0\" encoding=\"UTF-8\"?><wfs:ValueCollection xmlns:wfs=\"http://www.opengis.net/wfs/2.0\" xmlns:gml=\"http://www.opengis.net/gml/3.2\" xmlns:m=\"http://example.org/marks\" timeStamp=\"1970-01-01T00:16:40Z\" numberMatched=\"1\" numberReturned=\"1\"><wfs:member><m:label>A</m:label></wfs:member></wfs:ValueCollection>",
        ],
    ),
];
