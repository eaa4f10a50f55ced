//! The walk over nodes that are resolved.

ghost use Rattle.std.specs.Prelude.{◌≡◌, unwrap_or};

use crate::chain::{TakenTarget, TakenTargets};
use crate::merge::{Merged, merged_with};
use crate::resolver::{At, Resolver, TooMany};
use crate::topics::{topic_seen, topic_taken, topic_within};
use conref_targets::{PlaceTables, Sought, node_of, origin_of};
use dita_doc::{Doc, First, List, Name, Node, Siblings, Stop, Text};
use ditaval_rules::own_names;
use readers::Asker;

impl<'a> Resolver<'a> {
    ghost use Rattle.std.specs.Prelude.{◌≡◌, ◌+◌, ◌≤◌, [], ◌∷◌, ℕ, List, Some, None, true, length, slice_get, OnOk};
    ghost use Rattle.dita_doc.specs.Siblings as siblings_spec;
    ghost use Rattle.dita_doc.specs.Tree as tree_spec;
    ghost use Rattle.dita_doc.specs.Tree.{Content};
    ghost use Rattle.dita_doc.specs.declared.plan.PlanNode.{PlanNode};
    ghost use Rattle.ditaval_rules.specs.Domains.{declared_by};
    ghost use Rattle.doc_elements.specs.Walk as walk_spec;
    ghost use Rattle.map_spec.specs.Elements as elements_spec;
    ghost use Rattle.conref_spec.specs.Content as content_spec;
    ghost use Rattle.conref_spec.specs.Content.{Place};
    ghost use Rattle.reader_spec.specs.World.{World};
    ghost use Rattle.readers.specs.Founded.{Grows};
    ghost use Rattle.readers.specs.Named as named_spec;
    ghost use Rattle.readers.specs.Named.{reused_in};
    ghost use Rattle.readers.specs.Told.{Agrees};
    ghost use Rattle.conref_targets.specs.Asking.{AreGiven, Asks, element_around, reused_of_doc, reused_of_node};
    ghost use Rattle.conref_targets.specs.Hrefs.{HasNamed, HaveNamed};
    ghost use Rattle.conref_targets.specs.Origin.{named_content};
    ghost use Rattle.conref_targets.specs.PageAsking.{AreMet, AsksPage, IsAt, IsMet, PageAt};
    ghost use Rattle.conref_targets.specs.Parts as parts_spec;
    ghost use Rattle.conref_pull.specs.Linked.{AreGivenTo, IsGivenTo};
    ghost use Rattle.conref_pull.specs.PutHrefs.{PutNamed};
    ghost use Rattle.conref_pull.specs.Linked as linked_spec;
    ghost use Rattle.conref_pull.specs.Met.{LinkMet, LinksMet, UnlessOut};
    ghost use Rattle.conref_pull.specs.Step as step_spec;
    ghost use Rattle.conref_pull.specs.Step.{Taken};
    ghost use Rattle.conref_pull.specs.Walking.{Here, IsReady, Walks, around_of, seen_by};
    ghost use Rattle.conref_pull.specs.State as state_spec;
    ghost use Rattle.conref_pull.specs.Walking as walking_spec;

    // Resolves nodes that stand side by side.
    #[cycle(resolve)]
    #[tactic(auto, using(conref_targets::proofs::AskingLaws::following, crate::proofs::StateLaws::paging))]
    pub(crate) fn siblings<A: Asker>(
        &mut self,
        asker: &mut A,
        places: &mut PlaceTables,
        siblings: Siblings<'_>,
        at: At<'_>,
    ) -> Result<(), Stop<TooMany>>
        ensures known { (world : World) (here : Here) → Agrees world (A.told asker.new)
            → IsReady world (A.stand asker.old) at.entry.links here self.old places.old
            → Walks result here.setting.pushed at.entry.links (walking_spec.among_made here
            at.entry.is_range (around_of at.entry) (named_content siblings.entry)) self.old self.new
            places.new }
        ensures asks { (nodes : List PlanNode) → (A.stand asker.old).setting.nodes ≡ nodes
            → Asks nodes (self.old.context.now.page.doc ∷ reused_in (named_content siblings.entry)) (A.told asker.old)
            (A.told asker.new) }
        ensures only { (page : PageAt) → Agrees page.world (A.told asker.new)
            → IsAt page (A.stand asker.old) self.old.context.now.page
            → AreMet page (named_content siblings.entry)
            → UnlessOut result (AsksPage page (A.told asker.old) (A.told asker.new)) }
        ensures hrefs { HaveNamed (A.told asker.old) (named_content siblings.entry)
            → PutNamed (A.told asker.old) self.old
            → OnOk result (PutNamed (A.told asker.new) self.new) }
        ensures page { OnOk result (state_spec.IsSamePage self.old self.new) }
        ensures stand { A.stand asker.new ≡ A.stand asker.old }
        ensures grows { Grows (A.told asker.old) (A.told asker.new) }
    {
        let mut left = siblings;
        loop {
            match left.split_first() {
                First::End => return Ok(()),
                First::Chars { node, rest, .. } => {
                    self.put_chars(left.doc(), node)?;
                    left = rest;
                }
                First::Element {
                    node,
                    inside,
                    rest,
                    ..
                } => {
                    self.element(asker, places, node, inside, at)?;
                    left = rest;
                }
            }
        }
    }

    // Resolves an element.
    #[cycle(resolve)]
    #[tactic(auto, using(conref_targets::proofs::AskingLaws::following, crate::proofs::StateLaws::paging))]
    pub(crate) fn element<A: Asker>(
        &mut self,
        asker: &mut A,
        places: &mut PlaceTables,
        node: &Node,
        inside: Siblings<'_>,
        at: At<'_>,
    ) -> Result<(), Stop<TooMany>>
        ensures known { (world : World) (here : Here) (place : ℕ) → Agrees world (A.told asker.new)
            → IsReady world (A.stand asker.old) at.entry.links here self.old places.old
            → slice_get (siblings_spec.doc_of_siblings inside.entry).nodes place ≡ Some node.now
            → Walks result here.setting.pushed at.entry.links (walking_spec.whole_made here
            at.entry.is_range (around_of at.entry) (element_around inside.entry node.now)
            (named_content inside.entry)) self.old self.new places.new }
        ensures asks { (nodes : List PlanNode) → (A.stand asker.old).setting.nodes ≡ nodes
            → Asks nodes (self.old.context.now.page.doc ∷ reused_of_node inside.entry node.now) (A.told asker.old)
            (A.told asker.new) }
        ensures only { (page : PageAt) → Agrees page.world (A.told asker.new)
            → IsAt page (A.stand asker.old) self.old.context.now.page
            → IsMet page (element_around inside.entry node.now)
            → AreMet page (named_content inside.entry)
            → UnlessOut result (AsksPage page (A.told asker.old) (A.told asker.new)) }
        ensures hrefs { HasNamed (A.told asker.old) (element_around inside.entry node.now)
            → HaveNamed (A.told asker.old) (named_content inside.entry)
            → PutNamed (A.told asker.old) self.old
            → OnOk result (PutNamed (A.told asker.new) self.new) }
        ensures page { OnOk result (state_spec.IsSamePage self.old self.new) }
        ensures stand { A.stand asker.new ≡ A.stand asker.old }
        ensures grows { Grows (A.told asker.old) (A.told asker.new) }
    {
        let own = own_names(self.alloc, node)?;
        let declared = declared_for(&own, at.declared);
        self.element_with(asker, places, node, inside, declared, at)
    }

    // Resolves an element for which these names of conditional attributes are declared: it goes,
    // stays as it is, or takes what its reference names, with the ranges behind it.
    #[cycle(resolve)]
    #[tactic(auto, using(conref_targets::proofs::AskingLaws::following, crate::proofs::StateLaws::paging))]
    fn element_with<A: Asker>(
        &mut self,
        asker: &mut A,
        places: &mut PlaceTables,
        node: &Node,
        inside: Siblings<'_>,
        declared: &List<Text>,
        at: At<'_>,
    ) -> Result<(), Stop<TooMany>>
        ensures known { (world : World) (here : Here) (place : ℕ) → Agrees world (A.told asker.new)
            → IsReady world (A.stand asker.old) at.entry.links here self.old places.old
            → slice_get (siblings_spec.doc_of_siblings inside.entry).nodes place ≡ Some node.now
            → declared.now ≡ declared_by at.entry.declared.now node.now.attributes
            → Walks result here.setting.pushed at.entry.links (walking_spec.whole_made here
            at.entry.is_range (around_of at.entry) (element_around inside.entry node.now)
            (named_content inside.entry)) self.old self.new places.new }
        ensures asks { (nodes : List PlanNode) → (A.stand asker.old).setting.nodes ≡ nodes
            → Asks nodes (self.old.context.now.page.doc ∷ reused_of_node inside.entry node.now) (A.told asker.old)
            (A.told asker.new) }
        ensures only { (page : PageAt) → Agrees page.world (A.told asker.new)
            → IsAt page (A.stand asker.old) self.old.context.now.page
            → IsMet page (element_around inside.entry node.now)
            → AreMet page (named_content inside.entry)
            → UnlessOut result (AsksPage page (A.told asker.old) (A.told asker.new)) }
        ensures hrefs { HasNamed (A.told asker.old) (element_around inside.entry node.now)
            → HaveNamed (A.told asker.old) (named_content inside.entry)
            → PutNamed (A.told asker.old) self.old
            → OnOk result (PutNamed (A.told asker.new) self.new) }
        ensures page { OnOk result (state_spec.IsSamePage self.old self.new) }
        ensures stand { A.stand asker.new ≡ A.stand asker.old }
        ensures grows { Grows (A.told asker.old) (A.told asker.new) }
    {
        let Some(origin) = origin_of(inside.doc(), node) else {
            return Ok(());
        };
        if self.is_excluded(origin, node, declared, &node.attributes)? {
            return Ok(());
        }
        if Sought::by(node).is_none() {
            return self.unchanged(asker, places, origin, node, inside, declared, at);
        }
        let topic = topic_seen(node, at);
        let chain = self.chain(asker, places, origin, node, topic, at.links)?;
        if chain.end <= at.links {
            return self.unchanged(asker, places, origin, node, inside, declared, at);
        }
        self.merged(asker, places, origin, node, &chain, topic, declared, at)?;
        self.ranges(asker, places, &chain, at)
    }

    // Puts an element for which these names are declared as it is, with its content.
    #[cycle(resolve)]
    #[tactic(auto, using(conref_targets::proofs::AskingLaws::following, crate::proofs::StateLaws::paging))]
    fn unchanged<A: Asker>(
        &mut self,
        asker: &mut A,
        places: &mut PlaceTables,
        origin: &Name,
        node: &Node,
        inside: Siblings<'_>,
        declared: &List<Text>,
        at: At<'_>,
    ) -> Result<(), Stop<TooMany>>
        ensures known { (world : World) (here : Here) → Agrees world (A.told asker.new)
            → IsReady world (A.stand asker.old) at.entry.links here self.old places.old
            → Walks result here.setting.pushed at.entry.links (walking_spec.kept_made here
            at.entry.is_range (seen_by (content_spec.topic_before_merge at.entry.is_range
            (walk_spec.element_of origin.now node.now) at.entry.topic.now) declared.now)
            (walk_spec.element_of origin.now node.now) (named_content inside.entry)) self.old
            self.new places.new }
        ensures asks { (nodes : List PlanNode) → (A.stand asker.old).setting.nodes ≡ nodes
            → Asks nodes (self.old.context.now.page.doc ∷ reused_in (named_content inside.entry)) (A.told asker.old)
            (A.told asker.new) }
        ensures only { (page : PageAt) → Agrees page.world (A.told asker.new)
            → IsAt page (A.stand asker.old) self.old.context.now.page
            → AreMet page (named_content inside.entry)
            → UnlessOut result (AsksPage page (A.told asker.old) (A.told asker.new)) }
        ensures hrefs { HasNamed (A.told asker.old) (walk_spec.element_of origin.now node.now)
            → HaveNamed (A.told asker.old) (named_content inside.entry)
            → PutNamed (A.told asker.old) self.old
            → OnOk result (PutNamed (A.told asker.new) self.new) }
        ensures page { OnOk result (state_spec.IsSamePage self.old self.new) }
        ensures stand { A.stand asker.new ≡ A.stand asker.old }
        ensures grows { Grows (A.told asker.old) (A.told asker.new) }
    {
        self.count_one()?;
        let own = Merged::written(self.alloc, origin, node)?;
        let Merged { attributes, .. } = own.without_id(self.alloc, at.is_range)?;
        let name = node.text.clone()?;
        let names = declared.clone()?;
        self.maker
            .open(name, attributes, origin, node.line, origin, names)?;
        let within = At {
            topic: topic_within(node, at),
            declared,
            links: at.links,
            is_range: false,
        };
        self.siblings(asker, places, inside, within)?;
        self.maker.close();
        Ok(())
    }

    // Puts an element with what it takes from its targets, and the content of the last of them. It
    // is judged once more, by the names that are declared for itself, and counts also if it goes.
    #[cycle(resolve)]
    #[tactic(auto, using(conref_targets::proofs::AskingLaws::following, crate::proofs::StateLaws::paging))]
    fn merged<A: Asker>(
        &mut self,
        asker: &mut A,
        places: &mut PlaceTables,
        origin: &Name,
        node: &Node,
        chain: &TakenTargets,
        topic: &str,
        declared: &List<Text>,
        at: At<'_>,
    ) -> Result<(), Stop<TooMany>>
        ensures known { (world : World) (here : Here) (farthest : Taken) (nearer : List Taken)
            → Agrees world (A.told asker.new)
            → IsReady world (A.stand asker.old) chain.now.end here self.old places.old
            → linked_spec.AreLinks here.path chain.now.end (farthest ∷ nearer) chain.now.links.items
            → elements_spec.has_types (walk_spec.element_of origin.now node.now) ≡ true
            → Walks result here.setting.pushed chain.now.end (walking_spec.merged_made here
            at.entry.is_range (seen_by topic.now declared.now) (step_spec.declared_inside farthest)
            (content_spec.merged_element (walk_spec.element_of origin.now node.now)
            (step_spec.merged_onto farthest.element nearer)) farthest.inside) self.old self.new
            places.new }
        ensures asks { (nodes : List PlanNode) → (A.stand asker.old).setting.nodes ≡ nodes
            → AreGivenTo (A.told asker.old) chain.now.links.items
            → Asks nodes (self.old.context.now.page.doc ∷ []) (A.told asker.old)
            (A.told asker.new) }
        ensures only { (page : PageAt) → Agrees page.world (A.told asker.new)
            → IsAt page (A.stand asker.old) self.old.context.now.page
            → LinksMet page chain.now.links.items
            → UnlessOut result (AsksPage page (A.told asker.old) (A.told asker.new)) }
        ensures hrefs { HasNamed (A.told asker.old) (walk_spec.element_of origin.now node.now)
            → AreGivenTo (A.told asker.old) chain.now.links.items
            → PutNamed (A.told asker.old) self.old
            → OnOk result (PutNamed (A.told asker.new) self.new) }
        ensures page { OnOk result (state_spec.IsSamePage self.old self.new) }
        ensures stand { A.stand asker.new ≡ A.stand asker.old }
        ensures grows { Grows (A.told asker.old) (A.told asker.new) }
    {
        self.count_one()?;
        let merged = merged_with(self.alloc, origin, node, &chain.links)?;
        if self.is_excluded(origin, node, declared, &merged.attributes)? {
            return Ok(());
        }
        let Some(target) = chain.farthest() else {
            return Ok(());
        };
        let there = chain.declared(self.alloc)?;
        let Merged {
            attributes,
            href_doc,
        } = merged.without_id(self.alloc, at.is_range)?;
        let name = node.text.clone()?;
        let own = declared.clone()?;
        self.maker
            .open(name, attributes, origin, node.line, &href_doc, own)?;
        let within = At {
            topic: topic_taken(node, topic, at.is_range),
            declared: &there,
            links: chain.end,
            is_range: false,
        };
        self.siblings(asker, places, target.inside, within)?;
        self.maker.close();
        Ok(())
    }

    // Resolves the ranges behind the targets of an element, the farthest first, each within the
    // targets up to its own.
    #[cycle(resolve)]
    #[tactic(auto, using(conref_targets::proofs::AskingLaws::following, crate::proofs::StateLaws::paging))]
    fn ranges<A: Asker>(
        &mut self,
        asker: &mut A,
        places: &mut PlaceTables,
        chain: &TakenTargets,
        at: At<'_>,
    ) -> Result<(), Stop<TooMany>>
        ensures known { (world : World) (here : Here) (path : List Place) (taken : List Taken)
            → Agrees world (A.told asker.new)
            → IsReady world (A.stand asker.old) at.entry.links here self.old places.old
            → chain.now.end ≤ length self.old.path.items → chain.now.end ≤ 32
            → path ≡ state_spec.path_within self.old chain.now.end
            → chain.now.end ≡ at.entry.links + length taken
            → linked_spec.AreLinks path chain.now.end taken chain.now.links.items
            → Walks result here.setting.pushed at.entry.links (walking_spec.ranges_put here
            (around_of at.entry) taken) self.old self.new places.new }
        ensures asks { (nodes : List PlanNode) → (A.stand asker.old).setting.nodes ≡ nodes
            → AreGivenTo (A.told asker.old) chain.now.links.items
            → Asks nodes (self.old.context.now.page.doc ∷ []) (A.told asker.old)
            (A.told asker.new) }
        ensures only { (page : PageAt) → Agrees page.world (A.told asker.new)
            → IsAt page (A.stand asker.old) self.old.context.now.page
            → LinksMet page chain.now.links.items
            → UnlessOut result (AsksPage page (A.told asker.old) (A.told asker.new)) }
        ensures hrefs { AreGivenTo (A.told asker.old) chain.now.links.items
            → PutNamed (A.told asker.old) self.old
            → OnOk result (PutNamed (A.told asker.new) self.new) }
        ensures page { OnOk result (state_spec.IsSamePage self.old self.new) }
        ensures stand { A.stand asker.new ≡ A.stand asker.old }
        ensures grows { Grows (A.told asker.old) (A.told asker.new) }
    {
        let mut count = chain.end;
        for link in &chain.links {
            if count <= at.links {
                return Ok(());
            }
            let within = At {
                topic: at.topic,
                declared: &link.declared,
                links: count,
                is_range: true,
            };
            self.range(asker, places, link, within)?;
            count -= 1;
        }
        Ok(())
    }

    // Resolves the range behind a target.
    #[cycle(resolve)]
    #[tactic(auto, using(conref_targets::proofs::AskingLaws::following, crate::proofs::StateLaws::paging))]
    fn range<A: Asker>(
        &mut self,
        asker: &mut A,
        places: &mut PlaceTables,
        link: &TakenTarget,
        at: At<'_>,
    ) -> Result<(), Stop<TooMany>>
        ensures known { (world : World) (here : Here) (one : Taken) → Agrees world (A.told asker.new)
            → IsReady world (A.stand asker.old) at.entry.links here self.old places.old
            → linked_spec.IsLink link.now one
            → Walks result here.setting.pushed at.entry.links (walking_spec.among_made here
            at.entry.is_range (around_of at.entry) one.range) self.old self.new places.new }
        ensures asks { (nodes : List PlanNode) → (A.stand asker.old).setting.nodes ≡ nodes
            → IsGivenTo (A.told asker.old) link.now
            → Asks nodes (self.old.context.now.page.doc ∷ []) (A.told asker.old)
            (A.told asker.new) }
        ensures only { (page : PageAt) → Agrees page.world (A.told asker.new)
            → IsAt page (A.stand asker.old) self.old.context.now.page
            → LinkMet page link.now
            → UnlessOut result (AsksPage page (A.told asker.old) (A.told asker.new)) }
        ensures hrefs { IsGivenTo (A.told asker.old) link.now → PutNamed (A.told asker.old) self.old
            → OnOk result (PutNamed (A.told asker.new) self.new) }
        ensures page { OnOk result (state_spec.IsSamePage self.old self.new) }
        ensures stand { A.stand asker.new ≡ A.stand asker.old }
        ensures grows { Grows (A.told asker.old) (A.told asker.new) }
    {
        let mut place = link.from;
        for _ in link.from..link.to {
            if place >= link.to {
                return Ok(());
            }
            let Some(node) = node_of(&link.doc, place) else {
                return Ok(());
            };
            self.node_at(asker, places, &link.doc, place, at)?;
            place = node.end;
        }
        Ok(())
    }

    // Resolves the node at a place of a document.
    #[cycle(resolve)]
    #[tactic(auto, using(conref_targets::proofs::AskingLaws::following, crate::proofs::StateLaws::paging))]
    pub(crate) fn node_at<A: Asker>(
        &mut self,
        asker: &mut A,
        places: &mut PlaceTables,
        doc: &Doc,
        place: u32,
        at: At<'_>,
    ) -> Result<(), Stop<TooMany>>
        ensures known { (world : World) (here : Here) (part : Content)
            → Agrees world (A.told asker.new)
            → IsReady world (A.stand asker.old) at.entry.links here self.old places.old
            → parts_spec.AreSiblingsAt (tree_spec.tree_of doc.now.nodes) place part
            → parts_spec.has_first part ≡ true
            → Walks result here.setting.pushed at.entry.links (walking_spec.among_made here
            at.entry.is_range (around_of at.entry) (parts_spec.first_alone
            (named_spec.under_names doc.now.origins part))) self.old self.new places.new }
        ensures missing { (world : World) (here : Here) → Agrees world (A.told asker.new)
            → IsReady world (A.stand asker.old) at.entry.links here self.old places.old
            → slice_get doc.now.nodes place ≡ None
            → Walks result here.setting.pushed at.entry.links content_spec.nothing_made self.old
            self.new places.new }
        ensures asks { (nodes : List PlanNode) → (A.stand asker.old).setting.nodes ≡ nodes
            → AreGiven (A.told asker.old) (reused_of_doc doc.now)
            → Asks nodes (self.old.context.now.page.doc ∷ []) (A.told asker.old)
            (A.told asker.new) }
        ensures only { (page : PageAt) → Agrees page.world (A.told asker.new)
            → IsAt page (A.stand asker.old) self.old.context.now.page
            → AreMet page (named_spec.named_tree doc.now)
            → UnlessOut result (AsksPage page (A.told asker.old) (A.told asker.new)) }
        ensures hrefs { HaveNamed (A.told asker.old) (named_spec.named_tree doc.now)
            → PutNamed (A.told asker.old) self.old
            → OnOk result (PutNamed (A.told asker.new) self.new) }
        ensures page { OnOk result (state_spec.IsSamePage self.old self.new) }
        ensures stand { A.stand asker.new ≡ A.stand asker.old }
        ensures grows { Grows (A.told asker.old) (A.told asker.new) }
    {
        match Siblings::element_at(doc, place) {
            Some((node, inside)) => self.element(asker, places, node, inside, at),
            None => match node_of(doc, place) {
                Some(node) => self.put_chars(doc, node),
                None => Ok(()),
            },
        }
    }
}

// The names of conditional attributes that are declared for an element: its own, or those around it.
fn declared_for<'b>(own: &'b Option<List<Text>>, around: &'b List<Text>) -> &'b List<Text>
    ensures { result.now ≡ unwrap_or own.now around.now }
{
    match own {
        Some(names) => names,
        None => around,
    }
}
