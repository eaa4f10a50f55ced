//! A document with its pushes.

ghost use Rattle.std.specs.Prelude.{◌≡◌, ◌+◌, ◌<◌, ◌++◌, ◌∷◌, [], ℕ, List, None, IfOk, OnOk};
ghost use Rattle.std.specs.Option.{option_copied};
ghost use Rattle.conref_push.specs.Into as into_spec;
ghost use Rattle.conref_push.specs.Making as making_spec;
ghost use Rattle.conref_push.specs.Sight as sight_spec;
ghost use Rattle.conref_push.specs.Sources as sources_spec;
ghost use Rattle.dita_doc.specs.Siblings as siblings_spec;
ghost use Rattle.dita_doc.specs.Tree as tree_spec;
ghost use Rattle.doc_elements.specs.Walk as walk_spec;
ghost use Rattle.doc_maker.specs.Building as building_spec;
ghost use Rattle.doc_maker.specs.Made as made_spec;
ghost use Rattle.map_spec.specs.Written as written_spec;
ghost use Rattle.map_spec.specs.Pushes as pushes_spec;
ghost use Rattle.reader_spec.specs.World.{World};
ghost use Rattle.readers.specs.Documents as documents_spec;
ghost use Rattle.readers.specs.Documents.{AsksOnly, IsGiven};
ghost use Rattle.readers.specs.Founded.{AreAmong, Grows, StaysFounded};
ghost use Rattle.readers.specs.Named as named_spec;
ghost use Rattle.readers.specs.Only as only_spec;
ghost use Rattle.readers.specs.Only.{TellsOnly};
ghost use Rattle.readers.specs.Told.{Agrees};

use crate::acts::acts;
use crate::attributes::attributes_of;
use crate::sources::PushSources;
use crate::table::copy_push;
use dita_doc::{Doc, First, List, Name, NoMemory, Node, Push, PushKind, Siblings};
use doc_maker::DocMaker;
use readers::Reader;
use std::alloc::Global;
use std::collections::BTreeMap;
use std::sync::Arc;

/// Asks for what `pushed` asks for, and makes no document.
#[tactic(auto, using(readers::proofs::Rules::walking))]
pub fn ask_pushed<R: Reader>(
    alloc: Global,
    reader: &mut R,
    doc: &Name,
    pushes: &List<Push>,
) -> Result<(), NoMemory>
    ensures fixed { (world other : World) → Agrees world (R.told reader.new)
        → Agrees other (R.told reader.new) → OnOk result (into_spec.pushed_by world pushes.now doc.now
        ≡ into_spec.pushed_by other pushes.now doc.now) }
    ensures given { (world : World) → Agrees world (R.told reader.new)
        → OnOk result (IsGiven (R.told reader.new)
        (into_spec.pushed_by world pushes.now doc.now)) }
    ensures stand { R.stand reader.new ≡ R.stand reader.old }
    ensures founded { StaysFounded (into_spec.docs_of doc.now pushes.now) (R.told reader.old)
        (R.told reader.new) }
    ensures asks { AsksOnly documents_spec.nothing (into_spec.docs_of doc.now pushes.now)
        (R.told reader.old) (R.told reader.new) }
    ensures only { OnOk result (TellsOnly
        (only_spec.is_document_of (into_spec.docs_of doc.now pushes.now)) (R.told reader.old)
        (R.told reader.new)) }
    ensures grows { Grows (R.told reader.old) (R.told reader.new) }
{
    ask_all(alloc, reader, doc, pushes.as_slice())?;
    Ok(())
}

/// The document with these pushes into it, if it is stored, without the elements that act. The
/// documents that the pushes come from are asked for once each.
#[tactic(auto, using(readers::proofs::Rules::walking))]
pub fn pushed<R: Reader>(
    alloc: Global,
    reader: &mut R,
    doc: &Name,
    pushes: &List<Push>,
) -> Result<Option<Doc>, NoMemory>
    ensures value { IfOk result (λ found. into_spec.named_doc found
        ≡ into_spec.pushed_by (R.stand reader.old).world pushes.now doc.now) }
    ensures known { (world : World) → Agrees world (R.told reader.new)
        → IfOk result (λ found. into_spec.named_doc found
        ≡ into_spec.pushed_by world pushes.now doc.now) }
    ensures given { IfOk result (λ found. IsGiven (R.told reader.new)
        (into_spec.named_doc found)) }
    ensures stand { R.stand reader.new ≡ R.stand reader.old }
    ensures founded { StaysFounded (into_spec.docs_of doc.now pushes.now) (R.told reader.old)
        (R.told reader.new) }
    ensures asks { AsksOnly documents_spec.nothing (into_spec.docs_of doc.now pushes.now)
        (R.told reader.old) (R.told reader.new) }
    ensures only { OnOk result (TellsOnly
        (only_spec.is_document_of (into_spec.docs_of doc.now pushes.now)) (R.told reader.old)
        (R.told reader.new)) }
    ensures grows { Grows (R.told reader.old) (R.told reader.new) }
{
    pushed_doc(alloc, reader, doc, pushes)
}

// The same, of which the value is said only of worlds that agree with what was told.
#[tactic(auto, using(readers::proofs::Rules::walking))]
fn pushed_doc<R: Reader>(
    alloc: Global,
    reader: &mut R,
    doc: &Name,
    pushes: &List<Push>,
) -> Result<Option<Doc>, NoMemory>
    ensures known { (world : World) → Agrees world (R.told reader.new)
        → IfOk result (λ found. into_spec.named_doc found
        ≡ into_spec.pushed_by world pushes.now doc.now) }
    ensures given { (world : World) → Agrees world (R.told reader.new)
        → IfOk result (λ found. IsGiven (R.told reader.new) (into_spec.named_doc found)) }
    ensures stand { R.stand reader.new ≡ R.stand reader.old }
    ensures founded { StaysFounded (into_spec.docs_of doc.now pushes.now) (R.told reader.old)
        (R.told reader.new) }
    ensures asks { AsksOnly documents_spec.nothing (into_spec.docs_of doc.now pushes.now)
        (R.told reader.old) (R.told reader.new) }
    ensures only { OnOk result (TellsOnly
        (only_spec.is_document_of (into_spec.docs_of doc.now pushes.now)) (R.told reader.old)
        (R.told reader.new)) }
    ensures grows { Grows (R.told reader.old) (R.told reader.new) }
{
    let Some((found, sources)) = ask_all(alloc, reader, doc, pushes.as_slice())? else {
        return Ok(None);
    };
    let by_place = by_place(alloc, pushes.as_slice())?;
    let into = PushedInto {
        name: doc,
        by_place,
        sources,
    };
    let made = into.doc_from(alloc, &found)?;
    Ok(Some(made))
}

// Asks for the document, and if it is stored for those that the pushes come from.
#[tactic(auto, using(readers::proofs::Rules::walking))]
fn ask_all<R: Reader>(
    alloc: Global,
    reader: &mut R,
    doc: &Name,
    pushes: &[Push],
) -> Result<Option<(Arc<Doc>, PushSources)>, NoMemory>
    ensures known { (world : World) → Agrees world (R.told reader.new)
        → IfOk result (making_spec.AreAsked world doc.now pushes.now) }
    ensures given { IfOk result (making_spec.GivesAsked (R.told reader.new) doc.now) }
    ensures stand { R.stand reader.new ≡ R.stand reader.old }
    ensures founded { StaysFounded (into_spec.docs_of doc.now pushes.now) (R.told reader.old)
        (R.told reader.new) }
    ensures asks { AsksOnly documents_spec.nothing (into_spec.docs_of doc.now pushes.now)
        (R.told reader.old) (R.told reader.new) }
    ensures only { OnOk result (TellsOnly
        (only_spec.is_document_of (into_spec.docs_of doc.now pushes.now)) (R.told reader.old)
        (R.told reader.new)) }
    ensures grows { Grows (R.told reader.old) (R.told reader.new) }
{
    let Some(found) = reader.doc(alloc, doc)? else {
        return Ok(None);
    };
    let sources = PushSources::of(alloc, reader, pushes)?;
    Ok(Some((found, sources)))
}

// The pushes by the place that they go to, those to one place in their order.
fn by_place(alloc: Global, pushes: &[Push]) -> Result<BTreeMap<u32, Vec<Push>>, NoMemory>
    ensures { IfOk result (making_spec.AreGroups pushes.now) }
{
    let mut groups: BTreeMap<u32, Vec<Push>> = BTreeMap::new(alloc);
    for push in pushes {
        put_in_group(alloc, &mut groups, copy_push(push)?)?;
    }
    Ok(groups)
}

// Puts a push behind the others to its place.
fn put_in_group(
    alloc: Global,
    groups: &mut BTreeMap<u32, Vec<Push>>,
    push: Push,
) -> Result<(), NoMemory>
    ensures { (pushes : List making_spec.APush) → making_spec.AreGroups pushes groups.old
        → OnOk result (making_spec.AreGroups (pushes ++ push ∷ []) groups.new) }
{
    let at = push.at;
    let mut group = take_group(alloc, groups, at);
    group.push(push)?;
    groups.insert(at, group)?;
    Ok(())
}

// Takes out the pushes to a place.
fn take_group(alloc: Global, groups: &mut BTreeMap<u32, Vec<Push>>, at: u32) -> Vec<Push>
    ensures group { result.items ≡ making_spec.group_at groups.old at }
    ensures others { making_spec.HasAt groups.old groups.new at None }
{
    match groups.remove(&at) {
        Some(group) => group,
        None => Vec::new(alloc),
    }
}

// What goes into the document of this name.
#[derive(Drop)]
struct PushedInto<'a> {
    name: &'a Name,
    by_place: BTreeMap<u32, Vec<Push>>,
    sources: PushSources,
}

impl<'a> PushedInto<'a> {
    // The document with what is pushed into it.
    fn doc_from(&self, alloc: Global, found: &Doc) -> Result<Doc, NoMemory>
        ensures { (world : World) (pushes : List making_spec.APush)
            → making_spec.IsInto world pushes self.now
            → IfOk result (λ doc. named_spec.named_tree doc ≡ pushes_spec.pushed_from world pushes 0
            (written_spec.written_in self.now.name.now (tree_spec.tree_of found.now.nodes))) }
    {
        let mut maker = DocMaker::new(alloc);
        self.put(alloc, &mut maker, Siblings::of(found), 0)?;
        Ok(maker.finish())
    }

    // Puts siblings of the document with what is pushed to them and below. The first of them
    // stands at this place.
    #[cycle(put)]
    fn put(
        &self,
        alloc: Global,
        maker: &mut DocMaker,
        siblings: Siblings<'_>,
        place: u32,
    ) -> Result<(), NoMemory>
        requires { place + tree_spec.size_of (siblings_spec.content siblings)
            < tree_spec.doc_node_limit }
        ensures { (world : World) (pushes : List making_spec.APush)
            → making_spec.IsInto world pushes self.now
            → OnOk result (made_spec.building maker.new
            ≡ building_spec.behind (made_spec.building maker.old)
            (pushes_spec.pushed_from world pushes place
            (walk_spec.content_in self.now.name.now siblings.entry))) }
    {
        let mut left = siblings;
        let mut here = place;
        loop {
            match left.split_first() {
                First::End => return Ok(()),
                First::Chars { node, rest, .. } => {
                    maker.put_chars(alloc, node.text.clone()?, self.name)?;
                    here += 1;
                    left = rest;
                }
                First::Element {
                    place,
                    node,
                    inside,
                    rest,
                } => {
                    self.put_unless_acts(alloc, maker, node, inside, here)?;
                    here += node.end - place;
                    left = rest;
                }
            }
        }
    }

    // Puts what stands at the place of an element, or nothing if it acts.
    #[cycle(put)]
    fn put_unless_acts(
        &self,
        alloc: Global,
        maker: &mut DocMaker,
        node: &Node,
        inside: Siblings<'_>,
        place: u32,
    ) -> Result<(), NoMemory>
        requires { place + 1 + tree_spec.size_of (siblings_spec.content inside)
            < tree_spec.doc_node_limit }
        ensures { (world : World) (pushes : List making_spec.APush)
            → making_spec.IsInto world pushes self.now
            → OnOk result (made_spec.building maker.new
            ≡ building_spec.behind (made_spec.building maker.old)
            (making_spec.at_place_or_none world pushes place
            (walk_spec.element_of self.now.name.now node.now)
            (walk_spec.content_in self.now.name.now inside.entry))) }
    {
        if acts(node) {
            return Ok(());
        }
        let group = self.group(place);
        self.put_beside(alloc, maker, group, PushKind::Before)?;
        self.put_itself_or(alloc, maker, replacement(group), node, inside, place)?;
        self.put_beside(alloc, maker, group, PushKind::After)?;
        Ok(())
    }

    // Puts an element with what is pushed below it, or a copy of what replaces it.
    #[cycle(put)]
    fn put_itself_or(
        &self,
        alloc: Global,
        maker: &mut DocMaker,
        other: Option<&Push>,
        node: &Node,
        inside: Siblings<'_>,
        place: u32,
    ) -> Result<(), NoMemory>
        requires { place + 1 + tree_spec.size_of (siblings_spec.content inside)
            < tree_spec.doc_node_limit }
        ensures { (world : World) (pushes : List making_spec.APush)
            → making_spec.IsInto world pushes self.now
            → making_spec.IsFrom (into_spec.froms pushes) (option_copied other.entry)
            → OnOk result (made_spec.building maker.new
            ≡ building_spec.behind (made_spec.building maker.old)
            (pushes_spec.itself_or world (walk_spec.element_of self.now.name.now node.now)
            (pushes_spec.pushed_from world pushes (place + 1)
            (walk_spec.content_in self.now.name.now inside.entry))
            (option_copied other.entry))) }
    {
        match other {
            Some(push) => self.put_copy(alloc, maker, push, Some(node)),
            None => {
                open(alloc, maker, node, self.name)?;
                self.put(alloc, maker, inside, place + 1)?;
                maker.close();
                Ok(())
            }
        }
    }

    // The pushes to a place.
    fn group(&self, place: u32) -> &[Push]
        ensures { (pushes : List making_spec.APush)
            → making_spec.AreGroups pushes self.now.by_place
            → result.now ≡ making_spec.pushes_to place pushes }
    {
        match self.by_place.get(&place) {
            Some(group) => group.as_slice(),
            None => &[],
        }
    }

    // Puts copies of those pushes that are of a kind.
    fn put_beside(
        &self,
        alloc: Global,
        maker: &mut DocMaker,
        group: &[Push],
        kind: PushKind,
    ) -> Result<(), NoMemory>
        ensures { (world : World) (names : List (List ℕ))
            → sources_spec.AreSources world names self.now.sources
            → AreAmong (into_spec.froms group.now) names
            → OnOk result (made_spec.building maker.new
            ≡ building_spec.behind (made_spec.building maker.old)
            (making_spec.copies_of world kind group.now)) }
    {
        for push in group {
            self.put_if(alloc, maker, push, is_of_kind(kind, push))?;
        }
        Ok(())
    }

    // Puts a copy of what is pushed, if it is wanted.
    fn put_if(
        &self,
        alloc: Global,
        maker: &mut DocMaker,
        push: &Push,
        wanted: bool,
    ) -> Result<(), NoMemory>
        ensures { (world : World) (names : List (List ℕ))
            → sources_spec.AreSources world names self.now.sources
            → making_spec.IsFrom names (making_spec.some push.now)
            → OnOk result (made_spec.building maker.new
            ≡ building_spec.behind (made_spec.building maker.old)
            (making_spec.copy_if world wanted push.now)) }
    {
        if wanted {
            self.put_copy(alloc, maker, push, None)
        } else {
            Ok(())
        }
    }

    // Puts a copy of what is pushed, if it is there, instead of an element or beside one.
    fn put_copy(
        &self,
        alloc: Global,
        maker: &mut DocMaker,
        push: &Push,
        replaced: Option<&Node>,
    ) -> Result<(), NoMemory>
        ensures { (world : World) (names : List (List ℕ)) (name : List ℕ)
            → sources_spec.AreSources world names self.now.sources
            → making_spec.IsFrom names (making_spec.some push.now)
            → OnOk result (made_spec.building maker.new
            ≡ building_spec.behind (made_spec.building maker.old)
            (making_spec.copy_for world (sight_spec.element_before name replaced.entry)
            push.now)) }
    {
        let Some((element, inside)) = self.sources.element(push) else {
            return Ok(());
        };
        let attributes = attributes_of(alloc, element, replaced)?;
        let from = &push.from;
        maker.open(
            element.text.clone()?,
            attributes,
            from,
            element.line,
            from,
            List::new(alloc),
        )?;
        put_quiet(alloc, maker, from, inside)?;
        maker.close();
        Ok(())
    }
}

// The first of the pushes to a place that replaces what stands there.
fn replacement(group: &[Push]) -> Option<&Push>
    ensures { option_copied result ≡ making_spec.replacement group.now }
{
    for push in group {
        if is_of_kind(PushKind::Replace, push) {
            return Some(push);
        }
    }
    None
}

fn is_of_kind(kind: PushKind, push: &Push) -> bool
    ensures { result ≡ making_spec.is_kind kind push.now.kind }
{
    match kind {
        PushKind::Before => matches!(push.kind, PushKind::Before),
        PushKind::After => matches!(push.kind, PushKind::After),
        PushKind::Replace => matches!(push.kind, PushKind::Replace),
    }
}

// Puts siblings of the document of this name, without the elements that act.
fn put_quiet(
    alloc: Global,
    maker: &mut DocMaker,
    name: &Name,
    siblings: Siblings<'_>,
) -> Result<(), NoMemory>
    ensures { OnOk result (made_spec.building maker.new
        ≡ building_spec.behind (made_spec.building maker.old)
        (pushes_spec.without_acting (walk_spec.content_in name.now siblings.entry))) }
{
    let mut left = siblings;
    loop {
        match left.split_first() {
            First::End => return Ok(()),
            First::Chars { node, rest, .. } => {
                maker.put_chars(alloc, node.text.clone()?, name)?;
                left = rest;
            }
            First::Element {
                node,
                inside,
                rest,
                ..
            } => {
                if !acts(node) {
                    open(alloc, maker, node, name)?;
                    put_quiet(alloc, maker, name, inside)?;
                    maker.close();
                }
                left = rest;
            }
        }
    }
}

// Opens a copy of an element with all its attributes.
fn open(alloc: Global, maker: &mut DocMaker, element: &Node, name: &Name) -> Result<(), NoMemory>
    ensures { OnOk result (made_spec.building maker.new
        ≡ building_spec.opened (made_spec.building maker.old)
        (walk_spec.element_of name.now element.now)) }
{
    let attributes = element.attributes.clone()?;
    let none = List::new(alloc);
    maker.open(
        element.text.clone()?,
        attributes,
        name,
        element.line,
        name,
        none,
    )
}
