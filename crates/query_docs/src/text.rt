//! The text that a stored query keeps of its queries: how it is written, and how it is read back.

ghost use Rattle.std.specs.Prelude.{◌≡◌, [], length, map, flat_map, All, IfOk, string_bytes};
ghost use Rattle.wfs_ends.specs.Ends.{Writes, capped};
ghost use Rattle.wfs_ends.specs.Read.{GivesBut, each};
ghost use Rattle.doc_tree.specs.Tree.{document_text};
ghost use Rattle.doc_read.specs.Document.{document};
ghost use Rattle.wfs_model.specs.OfSchema.{IsQueryOf};
ghost use Rattle.query_docs.specs.Definitions.{next_query};
ghost use Rattle.query_docs.specs.Texts.{stored_text};
ghost use Rattle.query_docs.specs.Reading.{rooted, or_bad, queries_in, text_queries};
ghost use Rattle.query_docs.specs.declared.fault.StoredTextFault.TheVariants.{OutOfMemory as NoMemory};

use crate::definition::all_queries;
use crate::fault::StoredTextFault;
use crate::trees::{query_prefixes, query_trees};
use doc_read::{DocFault, read_document};
use doc_tree::{Element, Prefixes, put_element};
use feature_values::Schema;
use fes_filter::Query;
use std::alloc::Global;
use wfs_ends::{CountingSink, List, Mem, MemSink, OutOfMemory, Sink, Text};
use wfs_model::AskFault;

// ---- writing

fn put_tree<S: Sink>(sink: &mut S, failed: bool, names: &Prefixes, tree: &Element) -> bool
    ensures { Writes (record { shown = S.sink sink.old; failed = failed })
        (document_text names.now tree.now) (record { shown = S.sink sink.new; failed = result }) }
{
    failed || put_element(tree, names, sink).is_err()
}

// Each tree as a document by itself.
fn put_trees<S: Sink>(sink: &mut S, failed: bool, names: &Prefixes, trees: &[Element]) -> bool
    ensures { Writes (record { shown = S.sink sink.old; failed = failed })
        (flat_map (document_text names.now) trees.now)
        (record { shown = S.sink sink.new; failed = result }) }
{
    let mut failed = failed;
    for tree in trees {
        failed = put_tree(sink, failed, names, tree);
    }
    failed
}

// How many bytes they are.
#[tactic(auto, using(wfs_ends::proofs::Writing::counted_on))]
fn trees_length(names: &Prefixes, trees: &[Element]) -> u64
    ensures { result ≡ capped (length (flat_map (document_text names.now) trees.now)) }
{
    let mut counter = CountingSink::new();
    let _ = put_trees(&mut counter, false, names, trees);
    counter.count()
}

// The bytes of all, in memory that is taken once.
fn written(alloc: Global, names: &Prefixes, trees: &[Element]) -> Mem<MemSink>
    ensures { IfOk result (λ sink. sink.bytes ≡ flat_map (document_text names.now) trees.now) }
{
    let room = trees_length(names, trees);
    let mut sink = MemSink::new(alloc, room, Vec::new(alloc))?;
    if put_trees(&mut sink, false, names, trees) {
        return Err(OutOfMemory);
    }
    Ok(sink)
}

// A text of these bytes. What is written of texts is one, so that there always is a text.
fn text_from(alloc: Global, bytes: &[u8]) -> Mem<Text>
    ensures { IfOk result (λ t. t ≡ bytes.now) }
{
    match str::from_utf8(bytes) {
        Ok(text) => Text::of(alloc, text),
        Err(_) => Err(OutOfMemory),
    }
}

/// The canonical text of queries (OGC 09-025r2, section 14.2.2.4.2), whose parameters have these names: each as an element Query, one
/// behind the other, without white space between, and each with the declarations of `wfs`, `fes`, `gml` and the schema's prefix.
///
/// A Query has `typeNames`, with the schema's prefix, and holds its filter as `fes_docs::filter_tree_in` writes it, where it has one,
/// and then a `fes:SortBy`, where it has sort keys; a SortOrder stands only where the order goes down. A query of no type has a
/// prefix and a colon alone as `typeNames`; the readers give no such query in a stored one.
///
/// `OutOfMemory`: there is no memory for the text.
#[tactic(auto, unfolding(crate::specs::Texts::stored_text))]
pub fn text_of(
    alloc: Global,
    queries: &List<Query>,
    parameters: &List<Text>,
    schema: &Schema,
) -> Mem<Text>
    ensures { IfOk result (λ t. t ≡ stored_text schema.now parameters.now queries.now) }
{
    let trees = query_trees(alloc, parameters, schema, queries.items())?;
    let names = query_prefixes(alloc, schema)?;
    let sink = written(alloc, &names, &trees)?;
    text_from(alloc, sink.bytes())
}

// ---- reading

// A text with a root around it.
#[tactic(auto, unfolding(crate::specs::Reading::rooted, wfs_ends::specs::Ends::joined))]
fn rooted(alloc: Global, text: &str) -> Mem<String>
    ensures { IfOk result (λ s. string_bytes s ≡ rooted text.now) }
{
    let mut document = String::new(alloc);
    document.push_str("<queries>")?;
    document.push_str(text)?;
    document.push_str("</queries>")?;
    Ok(document)
}

fn document_in(alloc: Global, text: &str) -> Result<Element, StoredTextFault>
    ensures { GivesBut NoMemory (λ e. e) result (or_bad (document text.now)) }
{
    match read_document(alloc, text.as_bytes()) {
        Ok(root) => Ok(root),
        Err(DocFault::OutOfMemory) => Err(StoredTextFault::OutOfMemory),
        Err(_) => Err(StoredTextFault::BadText),
    }
}

fn queries_of(
    alloc: Global,
    names: &List<Text>,
    schema: &Schema,
    elements: &[Element],
) -> Result<List<Query>, StoredTextFault>
    ensures { GivesBut NoMemory (λ x. x) result
        (or_bad (each (next_query names.now schema.now) [] elements.now)) }
{
    match all_queries(alloc, names, schema, elements) {
        Ok(queries) => Ok(List::of(queries)),
        Err(AskFault::OutOfMemory) => Err(StoredTextFault::OutOfMemory),
        Err(AskFault::Refused(_)) => Err(StoredTextFault::BadText),
    }
}

// The queries of the elements that stand in a text.
#[tactic(auto, unfolding(crate::specs::Reading::queries_in))]
fn queries_in(
    alloc: Global,
    names: &List<Text>,
    schema: &Schema,
    text: &str,
) -> Result<List<Query>, StoredTextFault>
    ensures { GivesBut NoMemory (λ x. x) result (queries_in schema.now names.now text.now) }
{
    let document = rooted(alloc, text)?;
    let root = document_in(alloc, document.as_str())?;
    queries_of(alloc, names, schema, root.children.items())
}

#[tactic(auto, unfolding(crate::specs::Reading::text_queries))]
fn text_queries(
    alloc: Global,
    names: &List<Text>,
    schema: &Schema,
    text: &Text,
) -> Result<List<Query>, StoredTextFault>
    ensures { GivesBut NoMemory (λ x. x) result (text_queries schema.now names.now text.now) }
{
    let queries = queries_in(alloc, names, schema, text.as_str())?;
    let again = text_of(alloc, &queries, names, schema)?;
    if again.as_str() != text.as_str() {
        return Err(StoredTextFault::BadText);
    }
    Ok(queries)
}

/// Reads the queries of a stored text, whose parameters have these names: those that `text_of` writes as this text, byte for byte.
///
/// The text is read as a list of Query elements, each as `read_definition` reads it, and then written again. What is read is of the
/// schema, with parameters of these names. `BadText`: it is no list of such elements, or is not what `text_of` writes for them over
/// this schema and these parameters. `OutOfMemory`: there is no memory for the queries, or for the text that is compared.
pub fn read_text(
    alloc: Global,
    text: &Text,
    parameters: &List<Text>,
    schema: &Schema,
) -> Result<List<Query>, StoredTextFault>
    ensures gives { GivesBut NoMemory (λ x. x) result
        (text_queries schema.now parameters.now text.now) }
    ensures of_schema { IfOk result (λ queries. All (IsQueryOf schema.now (length parameters.now))
        queries) }
{
    text_queries(alloc, parameters, schema, text)
}
