//! Laws of the texts of PYX. Each function does nothing: its contract is the law.
#![tactic(auto)]

ghost use Rattle.std.specs.Prelude.{◌≡◌, ◌≤◌, ◌++◌, Ok, length};
ghost use Rattle.dita_doc.specs.Bytes.{Bytes};
ghost use Rattle.dita_doc.specs.Pyx as pyx_spec;
ghost use Rattle.dita_doc.specs.ReadTree as read_tree_spec;
ghost use Rattle.dita_doc.specs.Tree as tree_spec;
ghost use Rattle.dita_doc.specs.declared.fault.PyxFault as pyx_fault_declared;
ghost use Rattle.pyx_text.specs.Canonical as canonical_spec;
ghost use Rattle.pyx_text.specs.Pieces as pieces_spec;
ghost use Rattle.pyx_text.specs.Read as read_spec;

/// A text stands for one tree at most.
pub fn one_tree()
    ensures { (text : Bytes) (tree other : tree_spec.Content) →
        pyx_spec.StandsFor text tree → pyx_spec.StandsFor text other → tree ≡ other }
{}

/// The document of a text is the tree that it stands for; a fault excludes every tree.
pub fn one_reading()
    ensures stands { (text : Bytes) (tree : tree_spec.Content) →
        pyx_spec.document_of text ≡ Ok tree → pyx_spec.StandsFor text tree }
    ensures read { (text : Bytes) (tree : tree_spec.Content) →
        pyx_spec.StandsFor text tree → pyx_spec.document_of text ≡ Ok tree }
{}

/// A tree that a text stands for has one root, names, values and texts as lines give them, each
/// attribute once, and at most 256 elements within one another. And of a tree with these properties
/// the canonical text stands for it, apart from the lines of its elements, unless it is too long
/// for a text.
pub fn trees_of_texts()
    ensures kept { (text : Bytes) (tree : tree_spec.Content) →
        pyx_spec.StandsFor text tree → read_tree_spec.IsReadTree tree }
    ensures again { (tree : tree_spec.Content) → read_tree_spec.IsReadTree tree →
        length (canonical_spec.text_of tree) ≤ pyx_spec.text_limit →
        read_spec.StandsAgainFor (canonical_spec.text_of tree) tree }
{}

/// A fault that a text tells, since its line is ended, is told by each text that goes on from it. So
/// a reader of a text in pieces that told a fault tells it again at each later piece.
pub fn told_faults_stay()
    ensures { (text rest : Bytes) (fault : pyx_fault_declared.PyxFault) →
        pieces_spec.TellsFault text fault → pieces_spec.TellsFault (text ++ rest) fault }
{}
