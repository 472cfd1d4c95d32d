//! Documents written and read again, each beside its canonical text.

use doc_read::read_document;
use doc_tree::{Prefixes, put_element};
use std::alloc::Global;
use std::test::Fail;
use wfs_ends::{List, Mem, MemSink, Text};

fn prefixes(alloc: Global) -> Mem<Prefixes> {
    let mut pairs = Vec::new(alloc);
    pairs.push((Text::of(alloc, "a")?, Text::of(alloc, "urn:a")?))?;
    pairs.push((Text::of(alloc, "b")?, Text::of(alloc, "urn:<b>")?))?;
    Ok(Prefixes {
        pairs: List::of(pairs),
    })
}

// A document, and its canonical text by the rules of XML 1.0 and Namespaces in XML 1.0.
const DOCUMENTS: &[(&str, &str)] = &[
    (
        "<?xml version='1.0'?><x><!-- none --></x>",
        "<x xmlns:a=\"urn:a\" xmlns:b=\"urn:&lt;b&gt;\"/>",
    ),
    (
        "<p:x xmlns:p='urn:a' p:k='&#13;&#10;\"' k=''>\u{e9}&#13;<![CDATA[]]&gt;<]]></p:x>",
        "<a:x xmlns:a=\"urn:a\" xmlns:b=\"urn:&lt;b&gt;\" a:k=\"&#13;&#10;&quot;\" k=\"\">\u{e9}&#13;]]&amp;gt;&lt;</a:x>",
    ),
    (
        "<x xmlns='urn:&lt;b>'>\n<y xmlns='' b='1'> ]]&gt; </y>\n<z/>\n</x>",
        "<b:x xmlns:a=\"urn:a\" xmlns:b=\"urn:&lt;b&gt;\"><y b=\"1\"> ]]&gt; </y><b:z/></b:x>",
    ),
];

#[test]
fn reads_back_what_it_writes(rt: HostRuntime) -> Result<(), Fail> {
    let alloc = rt.alloc();
    let names = prefixes(alloc)?;
    for (text, canonical) in DOCUMENTS {
        let tree = read_document(alloc, text.as_bytes())?;
        let mut sink = MemSink::new(alloc, 300, Vec::new(alloc))?;
        assert!(rt; put_element(&tree, &names, &mut sink).is_ok());
        assert_eq!(rt; sink.bytes(), canonical.as_bytes());
        assert_eq!(rt; read_document(alloc, sink.bytes())?, tree);
    }
    Ok(())
}
