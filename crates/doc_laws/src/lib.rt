//! What holds of reading (`doc_read`) and writing (`doc_tree`) together.
#![tactic(auto)]

ghost use Rattle.std.specs.Prelude.{◌≡◌, List, ℕ};
ghost use Rattle.doc_tree.specs.Tree.{document_text};
ghost use Rattle.doc_tree.specs.declared.tree.Element.{Element};
ghost use Rattle.doc_tree.specs.declared.tree.Prefixes.{Prefixes};
ghost use Rattle.doc_read.specs.Grammar.{Spells};
ghost use Rattle.doc_laws.specs.InDocument.{IsInDocument};
ghost use Rattle.doc_laws.specs.RoundTrip.{ArePrefixes, Covers};

/// The canonical text of a tree is read back as that tree.
///
/// The tree is one that some text spells. The prefixes are different names, none of them `xml` or `xmlns`, each
/// with a space of allowed characters that is not empty (Namespaces in XML 1.0, section 3), and one stands for each
/// space of the tree's names, that of `xml` too where a name has it. A name in no space needs none.
pub fn round_trip()
    ensures { (names : Prefixes) (e : Element) (bytes : List ℕ) → ArePrefixes names → Covers names e
        → Spells bytes e → Spells (document_text names e) e }
{}

/// A tree that some text spells has at most 32 levels and 100,000 elements, and the characters of its texts are such as a document
/// may hold.
pub fn in_document()
    ensures { (bytes : List ℕ) (e : Element) → Spells bytes e → IsInDocument e }
{}
