//! The targets that references name.

ghost use Rattle.std.specs.Prelude.{◌≡◌, ◌++◌, [], ◌∷◌, ℕ, List, Some, IfOk, IfSome, OnOk, codes};
ghost use Rattle.std.specs.Arc.{arc_value};
ghost use Rattle.std.specs.Option.{option_copied, option_to_list, unwrap_or};
ghost use Rattle.dita_doc.specs.declared.content.Rule.{Rule};
ghost use Rattle.dita_doc.specs.declared.plan.PageId.{PageId};
ghost use Rattle.dita_doc.specs.declared.plan.PlanNode.{PlanNode};
ghost use Rattle.doc_elements.specs.Walk as walk_spec;
ghost use Rattle.map_spec.specs.Elements as elements_spec;
ghost use Rattle.map_spec.specs.Keys as keys_spec;
ghost use Rattle.map_spec.specs.Pages.{local_name};
ghost use Rattle.map_spec.specs.Written.{Element};
ghost use Rattle.conref_spec.specs.Content as content_spec;
ghost use Rattle.conref_spec.specs.Content.{ResolveInput};
ghost use Rattle.reader_spec.specs.World.{World};
ghost use Rattle.readers.specs.Founded.{Grows};
ghost use Rattle.readers.specs.Named as named_spec;
ghost use Rattle.readers.specs.Told.{Agrees};
ghost use Rattle.conref_targets.specs.Asking.{AreGiven, Asks, IsGivenIn, names_of_value};
ghost use Rattle.conref_targets.specs.Found as found_spec;
ghost use Rattle.conref_targets.specs.PageAsking.{FindsOnly, IsAt, IsMet, IsOfPage, PageAt};
ghost use Rattle.conref_targets.specs.ResolveInput as setting_spec;
ghost use Rattle.conref_targets.specs.Sought as sought_spec;
ghost use Rattle.conref_targets.specs.Tables.{AreTables, Documents};

use crate::reference::{Sought, reference_in};
use crate::tables::PlaceTables;
use dita_doc::{
    Context, Doc, Fault, FaultCode, KeyAnswer, List, Name, NoMemory, Node, Reference, Target, Text,
};
use doc_elements::{append_faults, fault_at};
use href_text::join_name;
use readers::Asker;
use std::alloc::Global;
use std::sync::Arc;
use targets::{if_read, is_same_topic, split_key};

/// A target: an element of a document with its pushes, by its place there, and the value that names
/// it.
#[derive(Drop)]
pub struct Found<'a> {
    pub name: Name,
    pub doc: Arc<Doc>,
    pub place: u32,
    pub value: &'a str,
}

// What a key reference names, and whether its key is defined.
#[derive(Drop)]
struct Keyed<'a> {
    found: Option<Found<'a>>,
    is_defined: bool,
}

/// The target that an element refers to, by its key, or where that fails by its value; none, with a
/// fault, if it can't be found. `topic` is the id of the topic around the element, where it stands
/// now.
#[tactic(auto, using(crate::proofs::AskingLaws::following))]
pub fn find_referenced<'b, A: Asker>(
    alloc: Global,
    asker: &mut A,
    places: &mut PlaceTables,
    faults: &mut List<Fault>,
    context: &Context,
    origin: &Name,
    element: &Node,
    sought: Sought<'b>,
    topic: &str,
) -> Result<Option<Found<'b>>, NoMemory>
    ensures known { (world : World) (rules : List (List Rule)) → Agrees world (A.told asker.new)
        → AreTables (setting_spec.documents_in world (A.stand asker.old).setting) places.old
        → IfOk result (λ found. found_spec.IsReferenced (setting_spec.setting_of world
        (A.stand asker.old).setting context.now.page rules) topic.now
        (walk_spec.element_of origin.now element.now) (sought_spec.sought_shown sought.entry)
        faults.old faults.new places.new found) }
    ensures asks { (nodes : List PlanNode) → (A.stand asker.old).setting.nodes ≡ nodes
        → Asks nodes (context.now.page.doc ∷ names_of_value origin.now
        (option_copied sought.entry.conref)) (A.told asker.old) (A.told asker.new) }
    ensures only { (page : PageAt) → Agrees page.world (A.told asker.new)
        → IsAt page (A.stand asker.old) context.now.page
        → IsMet page (walk_spec.element_of origin.now element.now)
        → sought_spec.sought_shown sought.entry
        ≡ content_spec.sought_by (walk_spec.element_of origin.now element.now)
        → IfOk result (λ found. FindsOnly page (A.told asker.old) (A.told asker.new) found) }
    ensures given { IfOk result (λ found. IsGivenIn (A.told asker.new) found) }
    ensures stand { A.stand asker.new ≡ A.stand asker.old }
    ensures grows { Grows (A.told asker.old) (A.told asker.new) }
{
    let keyed = find_by_key(alloc, asker, places, faults, context, sought.conkeyref)?;
    if keyed.found.is_some() {
        return Ok(keyed.found);
    }
    let found = find_by_value(alloc, asker, places, context, origin, sought.conref, topic)?;
    if found.is_some() {
        return Ok(found);
    }
    push_missing(alloc, faults, origin, element, sought, keyed.is_defined)?;
    Ok(None)
}

// Appends the fault of a reference that names nothing. Without a value beside it, an undefined key
// is told by its name.
fn push_missing(
    alloc: Global,
    faults: &mut List<Fault>,
    origin: &Name,
    element: &Node,
    sought: Sought<'_>,
    is_defined: bool,
) -> Result<(), NoMemory>
    ensures { OnOk result (faults.new ≡ faults.old
        ++ found_spec.missing_by (walk_spec.element_of origin.now element.now)
        (sought_spec.sought_shown sought.entry) is_defined ∷ []) }
{
    if sought.conref.is_some() || is_defined {
        let value = sought.conref.or(sought.conkeyref).unwrap_or("");
        let fault = fault_at(alloc, origin, element, FaultCode::ConrefMissing, value)?;
        return Ok(faults.push(fault)?);
    }
    let (key, _) = split_key(sought.conkeyref.unwrap_or(""));
    let fault = fault_at(alloc, origin, element, FaultCode::KeyUndefined, key)?;
    Ok(faults.push(fault)?)
}

// What a key reference names, with the faults of its key: the element of its id, else the one that
// the key's own reference names.
#[tactic(auto, using(crate::proofs::AskingLaws::following))]
fn find_by_key<'b, A: Asker>(
    alloc: Global,
    asker: &mut A,
    places: &mut PlaceTables,
    faults: &mut List<Fault>,
    context: &Context,
    conkeyref: Option<&'b str>,
) -> Result<Keyed<'b>, NoMemory>
    ensures known { (world : World) (rules : List (List Rule)) → Agrees world (A.told asker.new)
        → AreTables (setting_spec.documents_in world (A.stand asker.old).setting) places.old
        → IfOk result (λ keyed. found_spec.IsKeyed (setting_spec.setting_of world
        (A.stand asker.old).setting context.now.page rules) (option_copied conkeyref.entry)
        faults.old faults.new places.new keyed) }
    ensures asks { (nodes : List PlanNode) → (A.stand asker.old).setting.nodes ≡ nodes
        → Asks nodes [] (A.told asker.old) (A.told asker.new) }
    ensures only { (page : PageAt) (element : Element) → Agrees page.world (A.told asker.new)
        → IsAt page (A.stand asker.old) context.now.page → IsMet page element
        → option_copied conkeyref.entry ≡ elements_spec.attribute (codes "conkeyref") element
        → IfOk result (λ keyed. FindsOnly page (A.told asker.old) (A.told asker.new) keyed.found) }
    ensures given { IfOk result (λ keyed. IsGivenIn (A.told asker.new) keyed.found) }
    ensures stand { A.stand asker.new ≡ A.stand asker.old }
    ensures grows { Grows (A.told asker.old) (A.told asker.new) }
{
    let Some(keyref) = conkeyref else {
        return Ok(Keyed {
            found: None,
            is_defined: false,
        });
    };
    let (key, id) = split_key(keyref);
    let text = Text::from_str(alloc, key)?;
    let KeyAnswer {
        node,
        target,
        faults: key_faults,
        ..
    } = asker.key(alloc, context.page.scope, &text)?;
    append_faults(faults, key_faults)?;
    Ok(Keyed {
        found: find_target(alloc, asker, places, target, id, keyref)?,
        is_defined: node.is_some(),
    })
}

// The element that a key's target names, by an id in place of that of its reference.
#[tactic(auto, using(crate::proofs::AskingLaws::following))]
fn find_target<'b, A: Asker>(
    alloc: Global,
    asker: &mut A,
    places: &mut PlaceTables,
    target: Target,
    id: Option<&str>,
    keyref: &'b str,
) -> Result<Option<Found<'b>>, NoMemory>
    ensures known { (world : World) (page : PageId) (rules : List (List Rule))
        → Agrees world (A.told asker.new)
        → AreTables (setting_spec.documents_in world (A.stand asker.old).setting) places.old
        → option_copied id.entry ≡ keys_spec.id_of_key keyref.now
        → IfOk result (λ found. found_spec.IsSearch
        (setting_spec.documents_in world (A.stand asker.old).setting)
        (content_spec.key_named (setting_spec.setting_of world (A.stand asker.old).setting page rules)
        keyref.now target) keyref.now places.new found) }
    ensures asks { (nodes : List PlanNode) → (A.stand asker.old).setting.nodes ≡ nodes
        → AreGiven (A.told asker.old) (option_to_list (local_name target))
        → Asks nodes [] (A.told asker.old) (A.told asker.new) }
    ensures only { (page : PageAt) (at : PageId) → Agrees page.world (A.told asker.new)
        → IsAt page (A.stand asker.old) at
        → ((name : List ℕ) → local_name target ≡ Some name → IsOfPage page name)
        → IfOk result (λ found. FindsOnly page (A.told asker.old) (A.told asker.new) found) }
    ensures given { IfOk result (λ found. IsGivenIn (A.told asker.new) found) }
    ensures stand { A.stand asker.new ≡ A.stand asker.old }
    ensures grows { Grows (A.told asker.old) (A.told asker.new) }
{
    match target {
        Target::Local(name, reference) => {
            let Reference { topic, element, .. } = reference;
            let element = element_named(alloc, id, element)?;
            find_in(alloc, asker, places, name, &topic, &element, keyref)
        }
        _ => Ok(None),
    }
}

fn element_named(alloc: Global, id: Option<&str>, other: Text) -> Result<Text, NoMemory>
    ensures { IfOk result (λ element. element ≡ unwrap_or (option_copied id.entry) other) }
{
    match id {
        Some(id) => Ok(Text::from_str(alloc, id)?),
        None => Ok(other),
    }
}

// What a value names that was written in the document of this name. `#./element` means the page's
// document, and in it the topic where the element stands now.
#[tactic(auto, using(crate::proofs::AskingLaws::following))]
fn find_by_value<'b, A: Asker>(
    alloc: Global,
    asker: &mut A,
    places: &mut PlaceTables,
    context: &Context,
    origin: &Name,
    conref: Option<&'b str>,
    topic: &str,
) -> Result<Option<Found<'b>>, NoMemory>
    ensures known { (world : World) (rules : List (List Rule)) (element : Element)
        → Agrees world (A.told asker.new)
        → AreTables (setting_spec.documents_in world (A.stand asker.old).setting) places.old
        → element.doc ≡ origin.now
        → IfOk result (λ found. found_spec.IsSearch
        (setting_spec.documents_in world (A.stand asker.old).setting)
        (content_spec.by_conref (setting_spec.setting_of world (A.stand asker.old).setting
        context.now.page rules) topic.now element (option_copied conref.entry))
        (unwrap_or (option_copied conref.entry) []) places.new found) }
    ensures asks { (nodes : List PlanNode) → (A.stand asker.old).setting.nodes ≡ nodes
        → Asks nodes (context.now.page.doc ∷ names_of_value origin.now (option_copied conref.entry)) (A.told asker.old) (A.told asker.new) }
    ensures only { (page : PageAt) (element : Element) → Agrees page.world (A.told asker.new)
        → IsAt page (A.stand asker.old) context.now.page → IsMet page element
        → element.doc ≡ origin.now
        → option_copied conref.entry ≡ elements_spec.attribute (codes "conref") element
        → IfOk result (λ found. FindsOnly page (A.told asker.old) (A.told asker.new) found) }
    ensures given { IfOk result (λ found. IsGivenIn (A.told asker.new) found) }
    ensures stand { A.stand asker.new ≡ A.stand asker.old }
    ensures grows { Grows (A.told asker.old) (A.told asker.new) }
{
    let Some(conref) = conref else {
        return Ok(None);
    };
    let Some(reference) = reference_in(alloc, conref)? else {
        return Ok(None);
    };
    if is_same_topic(&reference) {
        let name = context.page.doc.clone()?;
        let topic = Text::from_str(alloc, topic)?;
        return find_in(
            alloc,
            asker,
            places,
            name,
            &topic,
            &reference.element,
            conref,
        );
    }
    let Some(name) = if_read(join_name(alloc, origin, &reference.file))? else {
        return Ok(None);
    };
    find_in(
        alloc,
        asker,
        places,
        name,
        &reference.topic,
        &reference.element,
        conref,
    )
}

// The element of a document that a fragment names.
#[tactic(auto, using(crate::proofs::AskingLaws::following))]
fn find_in<'b, A: Asker>(
    alloc: Global,
    asker: &mut A,
    places: &mut PlaceTables,
    name: Name,
    topic: &Text,
    element: &Text,
    value: &'b str,
) -> Result<Option<Found<'b>>, NoMemory>
    ensures known { (world : World) (page : PageId) (rules : List (List Rule))
        → Agrees world (A.told asker.new)
        → AreTables (setting_spec.documents_in world (A.stand asker.old).setting) places.old
        → IfOk result (λ found. found_spec.IsSearch
        (setting_spec.documents_in world (A.stand asker.old).setting)
        (content_spec.found_in (setting_spec.setting_of world (A.stand asker.old).setting page rules)
        name topic.now element.now) value.now places.new found) }
    ensures stand { A.stand asker.new ≡ A.stand asker.old }
    ensures asks { (nodes : List PlanNode) → (A.stand asker.old).setting.nodes ≡ nodes
        → Asks nodes (name ∷ []) (A.told asker.old) (A.told asker.new) }
    ensures only { (page : PageAt) (at : PageId) → Agrees page.world (A.told asker.new)
        → IsAt page (A.stand asker.old) at → IsOfPage page name
        → IfOk result (λ found. FindsOnly page (A.told asker.old) (A.told asker.new) found) }
    ensures given { IfOk result (λ found. IsGivenIn (A.told asker.new) found) }
    ensures grows { Grows (A.told asker.old) (A.told asker.new) }
{
    let stored = asker.pushed(alloc, &name)?;
    match stored {
        None => Ok(None),
        Some(doc) => found_in(alloc, places, name, doc, topic, element, value),
    }
}

// The same of a document with its pushes.
fn found_in<'b>(
    alloc: Global,
    places: &mut PlaceTables,
    name: Name,
    doc: Arc<Doc>,
    topic: &Text,
    element: &Text,
    value: &'b str,
) -> Result<Option<Found<'b>>, NoMemory>
    ensures known { (setting : ResolveInput) → AreTables setting.pushed places.old
        → setting.pushed name ≡ Some (named_spec.named_tree (arc_value doc))
        → IfOk result (λ found. found_spec.IsSearch setting.pushed
        (content_spec.found_in setting name topic.now element.now) value.now places.new found) }
    ensures doc { IfOk result (λ found. IfSome found (λ one. one.doc ≡ doc)) }
{
    let tree: &Doc = &doc;
    let found = places.find(alloc, &name, tree, topic, element)?;
    match found {
        None => Ok(None),
        Some(place) => Ok(Some(Found {
            name,
            doc,
            place,
            value,
        })),
    }
}

/// The names of conditional attributes that are declared around a target.
pub fn around_found(
    alloc: Global,
    places: &mut PlaceTables,
    found: &Found<'_>,
) -> Result<List<Text>, NoMemory>
    ensures names { (documents : Documents) (meant : content_spec.Found)
        → AreTables documents places.old → found_spec.IsFound documents meant found.now
        → IfOk result (λ names. names
        ≡ content_spec.declared_around_written [] meant.nodes meant.standing.place) }
    ensures tables { (documents : Documents) (meant : content_spec.Found)
        → AreTables documents places.old → found_spec.IsFound documents meant found.now
        → OnOk result (AreTables documents places.new) }
{
    places.declared_around(alloc, &found.name, &found.doc, found.place)
}
