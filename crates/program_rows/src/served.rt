//! One session in which every operation is served, from bytes to bytes. Each body was written from the formats' own words.

use program_samples::{SCHEMA, add_answer, go_empty, make_ready_at};
use std::alloc::Global;
use std::sync::Wait;
use std::thread::Threads;
use wfs_ends::{ListClock, Mem};

// A message, and its answer: status and phrase, content type, and body.
type Row = (&'static str, &'static str, &'static str, &'static str);

static CHANGES: [Row; 5] = [
    (
        "POST /wfs HTTP/1.1\r\nHost: h\r\nContent-Length: 285\r\n\r\n<wfs:Transaction service=\"WFS\" version=\"2.0.2\" xmlns:wfs=\"http://www.opengis.net/wfs/2.0\" xmlns:fes=\"http://www.opengis.net/fes/2.0\" xmlns:m=\"http://example.org/marks\"><wfs:Insert><m:Mark><m:label>A</m:label></m:Mark><m:Mark><m:label>B</m:label></m:Mark></wfs:Insert></wfs:Transaction>",
        "200 OK",
        "text/xml",
        "<?xml version=\"1.0\" encoding=\"UTF-8\"?><wfs:TransactionResponse xmlns:wfs=\"http://www.opengis.net/wfs/2.0\" xmlns:fes=\"http://www.opengis.net/fes/2.0\" version=\"2.0.2\"><wfs:TransactionSummary><wfs:totalInserted>2</wfs:totalInserted><wfs:totalUpdated>0</wfs:totalUpdated><wfs:totalReplaced>0</wfs:totalReplaced><wfs:totalDeleted>0</wfs:totalDeleted></wfs:TransactionSummary><wfs:InsertResults><wfs:Feature><fes:ResourceId rid=\"Mark.1\"/></wfs:Feature><wfs:Feature><fes:ResourceId rid=\"Mark.2\"/></wfs:Feature></wfs:InsertResults></wfs:TransactionResponse>",
    ),
    (
        "POST /wfs HTTP/1.1\r\nHost: h\r\nContent-Length: 512\r\n\r\n<wfs:Transaction service=\"WFS\" version=\"2.0.2\" xmlns:wfs=\"http://www.opengis.net/wfs/2.0\" xmlns:fes=\"http://www.opengis.net/fes/2.0\" xmlns:m=\"http://example.org/marks\"><wfs:Update handle=\"u\" typeName=\"m:Mark\"><wfs:Property><wfs:ValueReference>size</wfs:ValueReference><wfs:Value>7</wfs:Value></wfs:Property><fes:Filter><fes:ResourceId rid=\"Mark.1\"/></fes:Filter></wfs:Update><wfs:Replace><m:Mark><m:label>C</m:label></m:Mark><fes:Filter><fes:ResourceId rid=\"Mark.2\"/></fes:Filter></wfs:Replace></wfs:Transaction>",
        "200 OK",
        "text/xml",
        "<?xml version=\"1.0\" encoding=\"UTF-8\"?><wfs:TransactionResponse xmlns:wfs=\"http://www.opengis.net/wfs/2.0\" xmlns:fes=\"http://www.opengis.net/fes/2.0\" version=\"2.0.2\"><wfs:TransactionSummary><wfs:totalInserted>0</wfs:totalInserted><wfs:totalUpdated>1</wfs:totalUpdated><wfs:totalReplaced>1</wfs:totalReplaced><wfs:totalDeleted>0</wfs:totalDeleted></wfs:TransactionSummary><wfs:UpdateResults><wfs:Feature handle=\"u\"><fes:ResourceId rid=\"Mark.1\"/></wfs:Feature></wfs:UpdateResults><wfs:ReplaceResults><wfs:Feature><fes:ResourceId rid=\"Mark.2\"/></wfs:Feature></wfs:ReplaceResults></wfs:TransactionResponse>",
    ),
    (
        "POST /wfs HTTP/1.1\r\nHost: h\r\nContent-Length: 295\r\n\r\n<wfs:LockFeature service=\"WFS\" version=\"2.0.2\" expiry=\"60\" xmlns:wfs=\"http://www.opengis.net/wfs/2.0\" xmlns:fes=\"http://www.opengis.net/fes/2.0\" xmlns:m=\"http://example.org/marks\"><wfs:Query typeNames=\"m:Mark\"><fes:Filter><fes:ResourceId rid=\"Mark.1\"/></fes:Filter></wfs:Query></wfs:LockFeature>",
        "200 OK",
        "text/xml",
        "<?xml version=\"1.0\" encoding=\"UTF-8\"?><wfs:LockFeatureResponse xmlns:wfs=\"http://www.opengis.net/wfs/2.0\" xmlns:fes=\"http://www.opengis.net/fes/2.0\" lockId=\"lock-1-1\"><wfs:FeaturesLocked><fes:ResourceId rid=\"Mark.1\"/></wfs:FeaturesLocked></wfs:LockFeatureResponse>",
    ),
    (
        "POST /wfs HTTP/1.1\r\nHost: h\r\nContent-Length: 382\r\n\r\n<wfs:Transaction service=\"WFS\" version=\"2.0.2\" xmlns:wfs=\"http://www.opengis.net/wfs/2.0\" xmlns:fes=\"http://www.opengis.net/fes/2.0\" xmlns:m=\"http://example.org/marks\"><wfs:Update typeName=\"m:Mark\"><wfs:Property><wfs:ValueReference>size</wfs:ValueReference><wfs:Value>8</wfs:Value></wfs:Property><fes:Filter><fes:ResourceId rid=\"Mark.1\"/></fes:Filter></wfs:Update></wfs:Transaction>",
        "400 Bad Request",
        "text/xml",
        "<?xml version=\"1.0\" encoding=\"UTF-8\"?><ows:ExceptionReport xmlns:ows=\"http://www.opengis.net/ows/1.1\" version=\"2.0.2\"><ows:Exception exceptionCode=\"MissingParameterValue\" locator=\"lockId\"><ows:ExceptionText>feature is locked</ows:ExceptionText></ows:Exception></ows:ExceptionReport>",
    ),
    (
        "POST /wfs HTTP/1.1\r\nHost: h\r\nContent-Length: 421\r\n\r\n<wfs:Transaction service=\"WFS\" version=\"2.0.2\" lockId=\"lock-1-1\" releaseAction=\"SOME\" xmlns:wfs=\"http://www.opengis.net/wfs/2.0\" xmlns:fes=\"http://www.opengis.net/fes/2.0\" xmlns:m=\"http://example.org/marks\"><wfs:Update typeName=\"m:Mark\"><wfs:Property><wfs:ValueReference>size</wfs:ValueReference><wfs:Value>5</wfs:Value></wfs:Property><fes:Filter><fes:ResourceId rid=\"Mark.2\"/></fes:Filter></wfs:Update></wfs:Transaction>",
        "200 OK",
        "text/xml",
        "<?xml version=\"1.0\" encoding=\"UTF-8\"?><wfs:TransactionResponse xmlns:wfs=\"http://www.opengis.net/wfs/2.0\" xmlns:fes=\"http://www.opengis.net/fes/2.0\" version=\"2.0.2\"><wfs:TransactionSummary><wfs:totalInserted>0</wfs:totalInserted><wfs:totalUpdated>1</wfs:totalUpdated><wfs:totalReplaced>0</wfs:totalReplaced><wfs:totalDeleted>0</wfs:totalDeleted></wfs:TransactionSummary><wfs:UpdateResults><wfs:Feature><fes:ResourceId rid=\"Mark.2\"/></wfs:Feature></wfs:UpdateResults></wfs:TransactionResponse>",
    ),
];

static LOCKS: [Row; 5] = [
    (
        "POST /wfs HTTP/1.1\r\nHost: h\r\nContent-Length: 217\r\n\r\n<wfs:LockFeature service=\"WFS\" version=\"2.0.2\" xmlns:wfs=\"http://www.opengis.net/wfs/2.0\" xmlns:fes=\"http://www.opengis.net/fes/2.0\" xmlns:m=\"http://example.org/marks\"><wfs:Query typeNames=\"m:Mark\"/></wfs:LockFeature>",
        "409 Conflict",
        "text/xml",
        "<?xml version=\"1.0\" encoding=\"UTF-8\"?><ows:ExceptionReport xmlns:ows=\"http://www.opengis.net/ows/1.1\" version=\"2.0.2\"><ows:Exception exceptionCode=\"CannotLockAllFeatures\" locator=\"Mark.1\"><ows:ExceptionText>not all are free</ows:ExceptionText></ows:Exception></ows:ExceptionReport>",
    ),
    (
        "POST /wfs HTTP/1.1\r\nHost: h\r\nContent-Length: 235\r\n\r\n<wfs:LockFeature service=\"WFS\" version=\"2.0.2\" lockAction=\"SOME\" xmlns:wfs=\"http://www.opengis.net/wfs/2.0\" xmlns:fes=\"http://www.opengis.net/fes/2.0\" xmlns:m=\"http://example.org/marks\"><wfs:Query typeNames=\"m:Mark\"/></wfs:LockFeature>",
        "200 OK",
        "text/xml",
        "<?xml version=\"1.0\" encoding=\"UTF-8\"?><wfs:LockFeatureResponse xmlns:wfs=\"http://www.opengis.net/wfs/2.0\" xmlns:fes=\"http://www.opengis.net/fes/2.0\" lockId=\"lock-1-2\"><wfs:FeaturesLocked><fes:ResourceId rid=\"Mark.2\"/></wfs:FeaturesLocked><wfs:FeaturesNotLocked><fes:ResourceId rid=\"Mark.1\"/></wfs:FeaturesNotLocked></wfs:LockFeatureResponse>",
    ),
    (
        "POST /wfs HTTP/1.1\r\nHost: h\r\nContent-Length: 400\r\n\r\n<wfs:Transaction service=\"WFS\" version=\"2.0.2\" lockId=\"lock-1-1\" xmlns:wfs=\"http://www.opengis.net/wfs/2.0\" xmlns:fes=\"http://www.opengis.net/fes/2.0\" xmlns:m=\"http://example.org/marks\"><wfs:Update typeName=\"m:Mark\"><wfs:Property><wfs:ValueReference>size</wfs:ValueReference><wfs:Value>9</wfs:Value></wfs:Property><fes:Filter><fes:ResourceId rid=\"Mark.2\"/></fes:Filter></wfs:Update></wfs:Transaction>",
        "403 Forbidden",
        "text/xml",
        "<?xml version=\"1.0\" encoding=\"UTF-8\"?><ows:ExceptionReport xmlns:ows=\"http://www.opengis.net/ows/1.1\" version=\"2.0.2\"><ows:Exception exceptionCode=\"OperationProcessingFailed\" locator=\"Mark.2\"><ows:ExceptionText>feature is locked by another</ows:ExceptionText></ows:Exception></ows:ExceptionReport>",
    ),
    (
        "GET /wfs?service=WFS&request=LockFeature&lockId=lock-1-1&expiry=100 HTTP/1.1\r\nHost: h\r\n\r\n",
        "200 OK",
        "text/xml",
        "<?xml version=\"1.0\" encoding=\"UTF-8\"?><wfs:LockFeatureResponse xmlns:wfs=\"http://www.opengis.net/wfs/2.0\" xmlns:fes=\"http://www.opengis.net/fes/2.0\" lockId=\"lock-1-1\"><wfs:FeaturesLocked><fes:ResourceId rid=\"Mark.1\"/></wfs:FeaturesLocked></wfs:LockFeatureResponse>",
    ),
    (
        "GET /wfs?service=WFS&request=LockFeature&lockId=lock-1-9 HTTP/1.1\r\nHost: h\r\n\r\n",
        "400 Bad Request",
        "text/xml",
        "<?xml version=\"1.0\" encoding=\"UTF-8\"?><ows:ExceptionReport xmlns:ows=\"http://www.opengis.net/ows/1.1\" version=\"2.0.2\"><ows:Exception exceptionCode=\"InvalidLockId\" locator=\"lockId\"><ows:ExceptionText>unknown lock</ows:ExceptionText></ows:Exception></ows:ExceptionReport>",
    ),
];

static ENDED_LOCKS: [Row; 4] = [
    (
        "POST /wfs HTTP/1.1\r\nHost: h\r\nContent-Length: 302\r\n\r\n<wfs:Transaction service=\"WFS\" version=\"2.0.2\" lockId=\"lock-1-1\" xmlns:wfs=\"http://www.opengis.net/wfs/2.0\" xmlns:fes=\"http://www.opengis.net/fes/2.0\" xmlns:m=\"http://example.org/marks\"><wfs:Delete typeName=\"m:Mark\"><fes:Filter><fes:ResourceId rid=\"Mark.1\"/></fes:Filter></wfs:Delete></wfs:Transaction>",
        "403 Forbidden",
        "text/xml",
        "<?xml version=\"1.0\" encoding=\"UTF-8\"?><ows:ExceptionReport xmlns:ows=\"http://www.opengis.net/ows/1.1\" version=\"2.0.2\"><ows:Exception exceptionCode=\"LockHasExpired\" locator=\"lockId\"><ows:ExceptionText>lock has expired</ows:ExceptionText></ows:Exception></ows:ExceptionReport>",
    ),
    (
        "POST /wfs HTTP/1.1\r\nHost: h\r\nContent-Length: 204\r\n\r\n<wfs:Transaction service=\"WFS\" version=\"2.0.2\" lockId=\"lock-1-2\" xmlns:wfs=\"http://www.opengis.net/wfs/2.0\" xmlns:fes=\"http://www.opengis.net/fes/2.0\" xmlns:m=\"http://example.org/marks\"></wfs:Transaction>",
        "200 OK",
        "text/xml",
        "<?xml version=\"1.0\" encoding=\"UTF-8\"?><wfs:TransactionResponse xmlns:wfs=\"http://www.opengis.net/wfs/2.0\" xmlns:fes=\"http://www.opengis.net/fes/2.0\" version=\"2.0.2\"><wfs:TransactionSummary><wfs:totalInserted>0</wfs:totalInserted><wfs:totalUpdated>0</wfs:totalUpdated><wfs:totalReplaced>0</wfs:totalReplaced><wfs:totalDeleted>0</wfs:totalDeleted></wfs:TransactionSummary></wfs:TransactionResponse>",
    ),
    (
        "POST /wfs HTTP/1.1\r\nHost: h\r\nContent-Length: 217\r\n\r\n<wfs:LockFeature service=\"WFS\" version=\"2.0.2\" xmlns:wfs=\"http://www.opengis.net/wfs/2.0\" xmlns:fes=\"http://www.opengis.net/fes/2.0\" xmlns:m=\"http://example.org/marks\"><wfs:Query typeNames=\"m:Mark\"/></wfs:LockFeature>",
        "200 OK",
        "text/xml",
        "<?xml version=\"1.0\" encoding=\"UTF-8\"?><wfs:LockFeatureResponse xmlns:wfs=\"http://www.opengis.net/wfs/2.0\" xmlns:fes=\"http://www.opengis.net/fes/2.0\" lockId=\"lock-1-3\"><wfs:FeaturesLocked><fes:ResourceId rid=\"Mark.1\"/><fes:ResourceId rid=\"Mark.2\"/></wfs:FeaturesLocked></wfs:LockFeatureResponse>",
    ),
    (
        "POST /wfs HTTP/1.1\r\nHost: h\r\nContent-Length: 235\r\n\r\n<wfs:LockFeature service=\"WFS\" version=\"2.0.2\" lockAction=\"SOME\" xmlns:wfs=\"http://www.opengis.net/wfs/2.0\" xmlns:fes=\"http://www.opengis.net/fes/2.0\" xmlns:m=\"http://example.org/marks\"><wfs:Query typeNames=\"m:Mark\"/></wfs:LockFeature>",
        "200 OK",
        "text/xml",
        "<?xml version=\"1.0\" encoding=\"UTF-8\"?><wfs:LockFeatureResponse xmlns:wfs=\"http://www.opengis.net/wfs/2.0\" xmlns:fes=\"http://www.opengis.net/fes/2.0\"><wfs:FeaturesNotLocked><fes:ResourceId rid=\"Mark.1\"/><fes:ResourceId rid=\"Mark.2\"/></wfs:FeaturesNotLocked></wfs:LockFeatureResponse>",
    ),
];

static READS: [Row; 5] = [
    (
        "GET /wfs?service=WFS&request=GetFeature&typeNames=Mark&count=1 HTTP/1.1\r\nHost: h\r\n\r\n",
        "200 OK",
        "application/gml+xml; version=3.2",
        "<?xml version=\"1.0\" encoding=\"UTF-8\"?><wfs:FeatureCollection xmlns:wfs=\"http://www.opengis.net/wfs/2.0\" xmlns:gml=\"http://www.opengis.net/gml/3.2\" xmlns:m=\"http://example.org/marks\" timeStamp=\"1970-01-01T00:20:12Z\" numberMatched=\"2\" numberReturned=\"1\" next=\"http://localhost:8080/wfs?service=WFS&amp;request=GetFeature&amp;typeNames=Mark&amp;startIndex=1&amp;count=1\"><wfs:member><m:Mark gml:id=\"Mark.1\"><m:label>A</m:label><m:size>7</m:size></m:Mark></wfs:member></wfs:FeatureCollection>",
    ),
    (
        "GET /wfs?service=WFS&request=GetPropertyValue&typeNames=Mark&valueReference=label&count=1 HTTP/1.1\r\nHost: h\r\n\r\n",
        "200 OK",
        "application/gml+xml; version=3.2",
        "<?xml version=\"1.0\" encoding=\"UTF-8\"?><wfs:ValueCollection xmlns:wfs=\"http://www.opengis.net/wfs/2.0\" xmlns:gml=\"http://www.opengis.net/gml/3.2\" xmlns:m=\"http://example.org/marks\" timeStamp=\"1970-01-01T00:20:12Z\" numberMatched=\"2\" numberReturned=\"1\" next=\"http://localhost:8080/wfs?service=WFS&amp;request=GetPropertyValue&amp;typeNames=Mark&amp;valueReference=label&amp;startIndex=1&amp;count=1\"><wfs:member><m:label>A</m:label></wfs:member></wfs:ValueCollection>",
    ),
    (
        "GET /wfs?service=WFS&request=GetFeature&storedQuery_id=urn:ogc:def:query:OGC-WFS::GetFeatureById&id=Mark.2 HTTP/1.1\r\nHost: h\r\n\r\n",
        "200 OK",
        "application/gml+xml; version=3.2",
        "<?xml version=\"1.0\" encoding=\"UTF-8\"?><m:Mark xmlns:gml=\"http://www.opengis.net/gml/3.2\" xmlns:m=\"http://example.org/marks\" gml:id=\"Mark.2\"><m:label>C</m:label><m:size>5</m:size></m:Mark>",
    ),
    (
        "GET /wfs?service=WFS&request=GetFeature&storedQuery_id=urn:ogc:def:query:OGC-WFS::GetFeatureById&id=Mark.2&startIndex=1&count=0 HTTP/1.1\r\nHost: h\r\n\r\n",
        "200 OK",
        "application/gml+xml; version=3.2",
        "<?xml version=\"1.0\" encoding=\"UTF-8\"?><m:Mark xmlns:gml=\"http://www.opengis.net/gml/3.2\" xmlns:m=\"http://example.org/marks\" gml:id=\"Mark.2\"><m:label>C</m:label><m:size>5</m:size></m:Mark>",
    ),
    (
        "GET /wfs?service=WFS&request=GetFeature&storedQuery_id=urn:ogc:def:query:OGC-WFS::GetFeatureById&id=Mark.9 HTTP/1.1\r\nHost: h\r\n\r\n",
        "404 Not Found",
        "text/xml",
        "<?xml version=\"1.0\" encoding=\"UTF-8\"?><ows:ExceptionReport xmlns:ows=\"http://www.opengis.net/ows/1.1\" version=\"2.0.2\"><ows:Exception exceptionCode=\"InvalidParameterValue\" locator=\"id\"><ows:ExceptionText>no such feature</ows:ExceptionText></ows:Exception></ows:ExceptionReport>",
    ),
];

static STORED: [Row; 8] = [
    (
        "POST /wfs HTTP/1.1\r\nHost: h\r\nContent-Length: 551\r\n\r\n<wfs:CreateStoredQuery service=\"WFS\" version=\"2.0.2\" xmlns:wfs=\"http://www.opengis.net/wfs/2.0\" xmlns:fes=\"http://www.opengis.net/fes/2.0\" xmlns:m=\"http://example.org/marks\"><wfs:StoredQueryDefinition id=\"urn:x:by\"><wfs:Parameter name=\"l\" type=\"xs:string\"/><wfs:QueryExpressionText><wfs:Query typeNames=\"m:Mark\"><fes:Filter><fes:PropertyIsEqualTo><fes:ValueReference>label</fes:ValueReference><fes:Literal>${l}</fes:Literal></fes:PropertyIsEqualTo></fes:Filter></wfs:Query></wfs:QueryExpressionText></wfs:StoredQueryDefinition></wfs:CreateStoredQuery>",
        "200 OK",
        "text/xml",
        "<?xml version=\"1.0\" encoding=\"UTF-8\"?><wfs:CreateStoredQueryResponse xmlns:wfs=\"http://www.opengis.net/wfs/2.0\" status=\"OK\"/>",
    ),
    (
        "POST /wfs HTTP/1.1\r\nHost: h\r\nContent-Length: 551\r\n\r\n<wfs:CreateStoredQuery service=\"WFS\" version=\"2.0.2\" xmlns:wfs=\"http://www.opengis.net/wfs/2.0\" xmlns:fes=\"http://www.opengis.net/fes/2.0\" xmlns:m=\"http://example.org/marks\"><wfs:StoredQueryDefinition id=\"urn:x:by\"><wfs:Parameter name=\"l\" type=\"xs:string\"/><wfs:QueryExpressionText><wfs:Query typeNames=\"m:Mark\"><fes:Filter><fes:PropertyIsEqualTo><fes:ValueReference>label</fes:ValueReference><fes:Literal>${l}</fes:Literal></fes:PropertyIsEqualTo></fes:Filter></wfs:Query></wfs:QueryExpressionText></wfs:StoredQueryDefinition></wfs:CreateStoredQuery>",
        "409 Conflict",
        "text/xml",
        "<?xml version=\"1.0\" encoding=\"UTF-8\"?><ows:ExceptionReport xmlns:ows=\"http://www.opengis.net/ows/1.1\" version=\"2.0.2\"><ows:Exception exceptionCode=\"DuplicateStoredQueryIdValue\" locator=\"urn:x:by\"><ows:ExceptionText>query exists</ows:ExceptionText></ows:Exception></ows:ExceptionReport>",
    ),
    (
        "GET /wfs?service=WFS&request=GetFeature&storedQuery_id=urn:x:by&L=C HTTP/1.1\r\nHost: h\r\n\r\n",
        "200 OK",
        "application/gml+xml; version=3.2",
        "<?xml version=\"1.0\" encoding=\"UTF-8\"?><wfs:FeatureCollection xmlns:wfs=\"http://www.opengis.net/wfs/2.0\" xmlns:gml=\"http://www.opengis.net/gml/3.2\" xmlns:m=\"http://example.org/marks\" timeStamp=\"1970-01-01T00:20:13Z\" numberMatched=\"1\" numberReturned=\"1\"><wfs:member><m:Mark gml:id=\"Mark.2\"><m:label>C</m:label><m:size>5</m:size></m:Mark></wfs:member></wfs:FeatureCollection>",
    ),
    (
        "GET /wfs?service=WFS&request=GetFeature&storedQuery_id=urn:x:by HTTP/1.1\r\nHost: h\r\n\r\n",
        "400 Bad Request",
        "text/xml",
        "<?xml version=\"1.0\" encoding=\"UTF-8\"?><ows:ExceptionReport xmlns:ows=\"http://www.opengis.net/ows/1.1\" version=\"2.0.2\"><ows:Exception exceptionCode=\"MissingParameterValue\" locator=\"l\"><ows:ExceptionText>value missing</ows:ExceptionText></ows:Exception></ows:ExceptionReport>",
    ),
    (
        "GET /wfs?service=WFS&request=ListStoredQueries HTTP/1.1\r\nHost: h\r\n\r\n",
        "200 OK",
        "text/xml",
        "<?xml version=\"1.0\" encoding=\"UTF-8\"?><wfs:ListStoredQueriesResponse xmlns:wfs=\"http://www.opengis.net/wfs/2.0\" xmlns:m=\"http://example.org/marks\"><wfs:StoredQuery id=\"urn:ogc:def:query:OGC-WFS::GetFeatureById\"><wfs:ReturnFeatureType>m:Mark</wfs:ReturnFeatureType><wfs:ReturnFeatureType>m:Field</wfs:ReturnFeatureType><wfs:ReturnFeatureType>m:Way</wfs:ReturnFeatureType></wfs:StoredQuery><wfs:StoredQuery id=\"urn:x:by\"><wfs:ReturnFeatureType>m:Mark</wfs:ReturnFeatureType></wfs:StoredQuery></wfs:ListStoredQueriesResponse>",
    ),
    (
        "GET /wfs?service=WFS&request=DescribeStoredQueries&storedQuery_id=urn:x:by HTTP/1.1\r\nHost: h\r\n\r\n",
        "200 OK",
        "text/xml",
        "<?xml version=\"1.0\" encoding=\"UTF-8\"?><wfs:DescribeStoredQueriesResponse xmlns:wfs=\"http://www.opengis.net/wfs/2.0\" xmlns:m=\"http://example.org/marks\" xmlns:xs=\"http://www.w3.org/2001/XMLSchema\"><wfs:StoredQueryDescription id=\"urn:x:by\"><wfs:Parameter name=\"l\" type=\"xs:string\"/><wfs:QueryExpressionText returnFeatureTypes=\"m:Mark\" language=\"urn:ogc:def:queryLanguage:OGC-WFS::WFS_QueryExpression\" isPrivate=\"false\"><wfs:Query xmlns:wfs=\"http://www.opengis.net/wfs/2.0\" xmlns:fes=\"http://www.opengis.net/fes/2.0\" xmlns:gml=\"http://www.opengis.net/gml/3.2\" xmlns:m=\"http://example.org/marks\" typeNames=\"m:Mark\"><fes:Filter><fes:PropertyIsEqualTo><fes:ValueReference>m:label</fes:ValueReference><fes:Literal>${l}</fes:Literal></fes:PropertyIsEqualTo></fes:Filter></wfs:Query></wfs:QueryExpressionText></wfs:StoredQueryDescription></wfs:DescribeStoredQueriesResponse>",
    ),
    (
        "GET /wfs?service=WFS&request=DropStoredQuery&storedQuery_id=urn:x:by HTTP/1.1\r\nHost: h\r\n\r\n",
        "200 OK",
        "text/xml",
        "<?xml version=\"1.0\" encoding=\"UTF-8\"?><wfs:DropStoredQueryResponse xmlns:wfs=\"http://www.opengis.net/wfs/2.0\" status=\"OK\"/>",
    ),
    (
        "GET /wfs?service=WFS&request=DropStoredQuery&storedQuery_id=urn:x:by HTTP/1.1\r\nHost: h\r\n\r\n",
        "400 Bad Request",
        "text/xml",
        "<?xml version=\"1.0\" encoding=\"UTF-8\"?><ows:ExceptionReport xmlns:ows=\"http://www.opengis.net/ows/1.1\" version=\"2.0.2\"><ows:Exception exceptionCode=\"InvalidParameterValue\" locator=\"storedQuery_id\"><ows:ExceptionText>no such query</ows:ExceptionText></ows:Exception></ows:ExceptionReport>",
    ),
];

static SERVICE: [Row; 4] = [
    (
        "GET /wfs?service=WFS&request=GetCapabilities HTTP/1.1\r\nHost: h\r\n\r\n",
        "200 OK",
        "text/xml",
        "<?xml version=\"1.0\" encoding=\"UTF-8\"?><wfs:WFS_Capabilities xmlns:wfs=\"http://www.opengis.net/wfs/2.0\" xmlns:ows=\"http://www.opengis.net/ows/1.1\" xmlns:xlink=\"http://www.w3.org/1999/xlink\" xmlns:m=\"http://example.org/marks\" version=\"2.0.2\"><ows:ServiceIdentification><ows:Title>Marks</ows:Title><ows:ServiceType>WFS</ows:ServiceType><ows:ServiceTypeVersion>2.0.2</ows:ServiceTypeVersion></ows:ServiceIdentification><ows:OperationsMetadata><ows:Operation name=\"GetCapabilities\"><ows:DCP><ows:HTTP><ows:Get xlink:href=\"http://localhost:8080/wfs?\"/><ows:Post xlink:href=\"http://localhost:8080/wfs\"/></ows:HTTP></ows:DCP></ows:Operation><ows:Operation name=\"DescribeFeatureType\"><ows:DCP><ows:HTTP><ows:Get xlink:href=\"http://localhost:8080/wfs?\"/><ows:Post xlink:href=\"http://localhost:8080/wfs\"/></ows:HTTP></ows:DCP></ows:Operation><ows:Operation name=\"GetPropertyValue\"><ows:DCP><ows:HTTP><ows:Get xlink:href=\"http://localhost:8080/wfs?\"/><ows:Post xlink:href=\"http://localhost:8080/wfs\"/></ows:HTTP></ows:DCP></ows:Operation><ows:Operation name=\"GetFeature\"><ows:DCP><ows:HTTP><ows:Get xlink:href=\"http://localhost:8080/wfs?\"/><ows:Post xlink:href=\"http://localhost:8080/wfs\"/></ows:HTTP></ows:DCP></ows:Operation><ows:Operation name=\"GetFeatureWithLock\"><ows:DCP><ows:HTTP><ows:Get xlink:href=\"http://localhost:8080/wfs?\"/><ows:Post xlink:href=\"http://localhost:8080/wfs\"/></ows:HTTP></ows:DCP></ows:Operation><ows:Operation name=\"LockFeature\"><ows:DCP><ows:HTTP><ows:Get xlink:href=\"http://localhost:8080/wfs?\"/><ows:Post xlink:href=\"http://localhost:8080/wfs\"/></ows:HTTP></ows:DCP></ows:Operation><ows:Operation name=\"Transaction\"><ows:DCP><ows:HTTP><ows:Post xlink:href=\"http://localhost:8080/wfs\"/></ows:HTTP></ows:DCP></ows:Operation><ows:Operation name=\"ListStoredQueries\"><ows:DCP><ows:HTTP><ows:Get xlink:href=\"http://localhost:8080/wfs?\"/><ows:Post xlink:href=\"http://localhost:8080/wfs\"/></ows:HTTP></ows:DCP></ows:Operation><ows:Operation name=\"DescribeStoredQueries\"><ows:DCP><ows:HTTP><ows:Get xlink:href=\"http://localhost:8080/wfs?\"/><ows:Post xlink:href=\"http://localhost:8080/wfs\"/></ows:HTTP></ows:DCP></ows:Operation><ows:Operation name=\"CreateStoredQuery\"><ows:DCP><ows:HTTP><ows:Post xlink:href=\"http://localhost:8080/wfs\"/></ows:HTTP></ows:DCP></ows:Operation><ows:Operation name=\"DropStoredQuery\"><ows:DCP><ows:HTTP><ows:Get xlink:href=\"http://localhost:8080/wfs?\"/><ows:Post xlink:href=\"http://localhost:8080/wfs\"/></ows:HTTP></ows:DCP></ows:Operation></ows:OperationsMetadata><wfs:FeatureTypeList><wfs:FeatureType><wfs:Name>m:Mark</wfs:Name><wfs:Title>Mark</wfs:Title><wfs:DefaultCRS>urn:ogc:def:crs:EPSG::25832</wfs:DefaultCRS><wfs:OtherCRS>EPSG:25832</wfs:OtherCRS></wfs:FeatureType><wfs:FeatureType><wfs:Name>m:Field</wfs:Name><wfs:Title>Field</wfs:Title><wfs:DefaultCRS>urn:ogc:def:crs:EPSG::25832</wfs:DefaultCRS><wfs:OtherCRS>EPSG:25832</wfs:OtherCRS></wfs:FeatureType><wfs:FeatureType><wfs:Name>m:Way</wfs:Name><wfs:Title>Way</wfs:Title><wfs:DefaultCRS>urn:ogc:def:crs:EPSG::25832</wfs:DefaultCRS><wfs:OtherCRS>EPSG:25832</wfs:OtherCRS></wfs:FeatureType></wfs:FeatureTypeList></wfs:WFS_Capabilities>",
    ),
    (
        "GET /wfs?service=WFS&request=DescribeFeatureType HTTP/1.1\r\nHost: h\r\n\r\n",
        "200 OK",
        "application/gml+xml; version=3.2",
        "<?xml version=\"1.0\" encoding=\"UTF-8\"?><xs:schema xmlns:xs=\"http://www.w3.org/2001/XMLSchema\" xmlns:gml=\"http://www.opengis.net/gml/3.2\" xmlns:m=\"http://example.org/marks\" targetNamespace=\"http://example.org/marks\" elementFormDefault=\"qualified\"><xs:import namespace=\"http://www.opengis.net/gml/3.2\" schemaLocation=\"http://schemas.opengis.net/gml/3.2.1/gml.xsd\"/><xs:element name=\"Mark\" type=\"m:MarkType\" substitutionGroup=\"gml:AbstractFeature\"/><xs:complexType name=\"MarkType\"><xs:complexContent><xs:extension base=\"gml:AbstractFeatureType\"><xs:sequence><xs:element name=\"label\" type=\"xs:string\"/><xs:element name=\"size\" type=\"xs:long\" minOccurs=\"0\"/><xs:element name=\"place\" type=\"gml:PointPropertyType\" minOccurs=\"0\"/></xs:sequence></xs:extension></xs:complexContent></xs:complexType><xs:element name=\"Field\" type=\"m:FieldType\" substitutionGroup=\"gml:AbstractFeature\"/><xs:complexType name=\"FieldType\"><xs:complexContent><xs:extension base=\"gml:AbstractFeatureType\"><xs:sequence><xs:element name=\"name\" type=\"xs:string\" minOccurs=\"0\"/><xs:element name=\"area\" type=\"gml:SurfacePropertyType\" minOccurs=\"0\"/></xs:sequence></xs:extension></xs:complexContent></xs:complexType><xs:element name=\"Way\" type=\"m:WayType\" substitutionGroup=\"gml:AbstractFeature\"/><xs:complexType name=\"WayType\"><xs:complexContent><xs:extension base=\"gml:AbstractFeatureType\"><xs:sequence><xs:element name=\"course\" type=\"gml:CurvePropertyType\" minOccurs=\"0\"/></xs:sequence></xs:extension></xs:complexContent></xs:complexType></xs:schema>",
    ),
    (
        "POST /wfs HTTP/1.1\r\nHost: h\r\nTransfer-Encoding: chunked\r\n\r\n64\r\n<wfs:Transaction service=\"WFS\" version=\"2.0.2\" xmlns:wfs=\"http://www.opengis.net/wfs/2.0\" xmlns:m=\"h\r\n64\r\nttp://example.org/marks\"><wfs:Insert><m:Mark><m:label>A</m:label></m:Mark><m:Mark><m:label>B</m:labe\r\n2a\r\nl></m:Mark></wfs:Insert></wfs:Transaction>\r\n0\r\n\r\n",
        "200 OK",
        "text/xml",
        "<?xml version=\"1.0\" encoding=\"UTF-8\"?><wfs:TransactionResponse xmlns:wfs=\"http://www.opengis.net/wfs/2.0\" xmlns:fes=\"http://www.opengis.net/fes/2.0\" version=\"2.0.2\"><wfs:TransactionSummary><wfs:totalInserted>2</wfs:totalInserted><wfs:totalUpdated>0</wfs:totalUpdated><wfs:totalReplaced>0</wfs:totalReplaced><wfs:totalDeleted>0</wfs:totalDeleted></wfs:TransactionSummary><wfs:InsertResults><wfs:Feature><fes:ResourceId rid=\"Mark.3\"/></wfs:Feature><wfs:Feature><fes:ResourceId rid=\"Mark.4\"/></wfs:Feature></wfs:InsertResults></wfs:TransactionResponse>",
    ),
    (
        "GET /wfs?service=WFS&request=GetFeatureWithLock&typeNames=Mark&startIndex=2&expiry=9 HTTP/1.1\r\nHost: h\r\n\r\n",
        "200 OK",
        "application/gml+xml; version=3.2",
        "<?xml version=\"1.0\" encoding=\"UTF-8\"?><wfs:FeatureCollection xmlns:wfs=\"http://www.opengis.net/wfs/2.0\" xmlns:gml=\"http://www.opengis.net/gml/3.2\" xmlns:m=\"http://example.org/marks\" timeStamp=\"1970-01-01T00:20:16Z\" numberMatched=\"4\" numberReturned=\"2\" lockId=\"lock-1-4\"><wfs:member><m:Mark gml:id=\"Mark.3\"><m:label>A</m:label></m:Mark></wfs:member><wfs:member><m:Mark gml:id=\"Mark.4\"><m:label>B</m:label></m:Mark></wfs:member></wfs:FeatureCollection>",
    ),
];

// A lock for which no period was given lives for 300 seconds: that on Mark.1 since 1211.
static PERIODS: [Row; 2] = [
    (
        "GET /wfs?service=WFS&request=LockFeature&resourceId=Mark.1 HTTP/1.1\r\nHost: h\r\n\r\n",
        "409 Conflict",
        "text/xml",
        "<?xml version=\"1.0\" encoding=\"UTF-8\"?><ows:ExceptionReport xmlns:ows=\"http://www.opengis.net/ows/1.1\" version=\"2.0.2\"><ows:Exception exceptionCode=\"CannotLockAllFeatures\" locator=\"Mark.1\"><ows:ExceptionText>not all are free</ows:ExceptionText></ows:Exception></ows:ExceptionReport>",
    ),
    (
        "GET /wfs?service=WFS&request=LockFeature&resourceId=Mark.1 HTTP/1.1\r\nHost: h\r\n\r\n",
        "200 OK",
        "text/xml",
        "<?xml version=\"1.0\" encoding=\"UTF-8\"?><wfs:LockFeatureResponse xmlns:wfs=\"http://www.opengis.net/wfs/2.0\" xmlns:fes=\"http://www.opengis.net/fes/2.0\" lockId=\"lock-1-5\"><wfs:FeaturesLocked><fes:ResourceId rid=\"Mark.1\"/></wfs:FeaturesLocked></wfs:LockFeatureResponse>",
    ),
];

// The moments at which the messages come, in seconds.
static MOMENTS: [u64; 33] = [
    1000, 1000, 1000, 1010, 1050, 1060, 1060, 1060, 1109, 1208, 1209, 1210, 1211, 1211, 1212, 1212,
    1212, 1212, 1212, 1213, 1213, 1213, 1213, 1213, 1213, 1213, 1213, 1214, 1214, 1215, 1216, 1510,
    1511,
];

fn add_inputs(text: &mut String, rows: &[Row]) -> Mem<()> {
    for row in rows {
        text.push_str(row.0)?;
    }
    Ok(())
}

fn add_outputs(text: &mut String, rows: &[Row]) -> Mem<()> {
    for row in rows {
        add_answer(text, row.1, row.2, "", &[row.3])?;
    }
    Ok(())
}

fn add_all_inputs(text: &mut String) -> Mem<()> {
    add_inputs(text, &CHANGES)?;
    add_inputs(text, &LOCKS)?;
    add_inputs(text, &ENDED_LOCKS)?;
    add_inputs(text, &READS)?;
    add_inputs(text, &STORED)?;
    add_inputs(text, &SERVICE)?;
    add_inputs(text, &PERIODS)
}

fn add_all_outputs(text: &mut String) -> Mem<()> {
    add_outputs(text, &CHANGES)?;
    add_outputs(text, &LOCKS)?;
    add_outputs(text, &ENDED_LOCKS)?;
    add_outputs(text, &READS)?;
    add_outputs(text, &STORED)?;
    add_outputs(text, &SERVICE)?;
    add_outputs(text, &PERIODS)
}

// Whether a session over this input, each message at its moment, comes to this output. Of the messages 22 are entries:
// those that ask for a change, also where they are refused.
fn comes_to<R: Threads + Wait + Sync>(
    rt: &R,
    alloc: Global,
    input: &str,
    output: &str,
) -> Mem<bool> {
    let clock = ListClock::new(Vec::from_slice(alloc, &MOMENTS)?);
    let words = &["talk", "d"];
    let ready = make_ready_at(alloc, clock, words, SCHEMA, input, &[], 40_000)?;
    let (end, out) = go_empty(rt, alloc, ready)?;
    Ok(end == (0, Some(22)) && out.bytes() == output.as_bytes())
}

// Whether a session over all messages comes to all answers.
fn is_served<R: Threads + Wait + Sync>(rt: &R, alloc: Global) -> Mem<bool> {
    let mut input = String::new(alloc);
    add_all_inputs(&mut input)?;
    let mut output = String::new(alloc);
    add_all_outputs(&mut output)?;
    comes_to(rt, alloc, input.as_str(), output.as_str())
}

#[test]
fn every_operation_is_served(rt: HostRuntime) {
    assert_eq!(rt; is_served(&rt, rt.alloc()), Ok(true));
}
