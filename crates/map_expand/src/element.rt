//! What elements of maps make.

ghost use Rattle.std.specs.Prelude.{◌≡◌, ◌||◌, ℕ, List, bytes_eq, codes, if◌then◌else◌, true};
ghost use Rattle.dita_doc.specs.ClassValue as class_value_spec;
ghost use Rattle.map_spec.specs.Elements as elements_spec;
ghost use Rattle.doc_elements.specs.Walk as walk_spec;
ghost use Rattle.map_expand.specs.Makes as spec;
ghost use Rattle.map_expand.specs.declared.element.Makes.TheVariants as makes;

use dita_doc::{Node, PlanKind, split_word};
use doc_elements::{is_dita, tokens_of};

/// What an element makes: a node; nothing, and is passed over with its content; or nothing, and its
/// content stands in its place.
#[derive(Clone, Copy)]
pub(crate) enum Makes {
    Node(PlanKind),
    Nothing,
    Content,
}

// The types of maps that an element has, and whether it has any types.
#[derive(Clone, Copy)]
struct MapTypes {
    any: bool,
    ditavalref: bool,
    topicref: bool,
    reltable: bool,
    relrow: bool,
    relcell: bool,
}

/// What an element makes, by one reading of its class.
pub(crate) fn made_by(element: &Node) -> Makes
    ensures { (name : List ℕ) →
        result ≡ spec.made (walk_spec.element_of name element.now) }
{
    let types = map_types(tokens_of(element));
    if !types.any {
        return made_without_class(element);
    }
    match kind_of(types) {
        Some(kind) => Makes::Node(kind),
        None => Makes::Nothing,
    }
}

fn made_without_class(element: &Node) -> Makes
    ensures { (name : List ℕ) →
        result ≡ (if elements_spec.is_dita (walk_spec.element_of name element.now)
        then makes.Nothing else makes.Content) }
{
    if is_dita(element) {
        Makes::Nothing
    } else {
        Makes::Content
    }
}

fn map_types(tokens: &[u8]) -> MapTypes
    ensures { result ≡ spec.types_among (class_value_spec.words_of tokens.now) }
{
    let mut types = MapTypes {
        any: false,
        ditavalref: false,
        topicref: false,
        reltable: false,
        relrow: false,
        relcell: false,
    };
    let mut left = tokens;
    while let Some((token, rest)) = split_word(left) {
        types = with_type(types, token);
        left = rest;
    }
    types
}

fn with_type(types: MapTypes, token: &[u8]) -> MapTypes
    ensures any { result.any ≡ true }
    ensures ditavalref { result.ditavalref
        ≡ (types.ditavalref || bytes_eq (codes "ditavalref-d/ditavalref") token.now) }
    ensures topicref { result.topicref
        ≡ (types.topicref || bytes_eq (codes "map/topicref") token.now) }
    ensures reltable { result.reltable
        ≡ (types.reltable || bytes_eq (codes "map/reltable") token.now) }
    ensures relrow { result.relrow
        ≡ (types.relrow || bytes_eq (codes "map/relrow") token.now) }
    ensures relcell { result.relcell
        ≡ (types.relcell || bytes_eq (codes "map/relcell") token.now) }
{
    MapTypes {
        any: true,
        ditavalref: types.ditavalref || "ditavalref-d/ditavalref".as_bytes() == token,
        topicref: types.topicref || "map/topicref".as_bytes() == token,
        reltable: types.reltable || "map/reltable".as_bytes() == token,
        relrow: types.relrow || "map/relrow".as_bytes() == token,
        relcell: types.relcell || "map/relcell".as_bytes() == token,
    }
}

// The kind of node that an element of these types makes; the first that fits counts.
fn kind_of(types: MapTypes) -> Option<PlanKind>
    ensures { result ≡ spec.kind_by types }
{
    if types.ditavalref {
        Some(PlanKind::DitavalRef)
    } else if types.topicref {
        Some(PlanKind::Reference)
    } else if types.reltable {
        Some(PlanKind::RelTable)
    } else if types.relrow {
        Some(PlanKind::RelRow)
    } else if types.relcell {
        Some(PlanKind::RelCell)
    } else {
        None
    }
}
