//! References that are followed, one behind another.

use crate::resolver::Resolver;
use conref_targets::{Found, PlaceTables, Sought, Whole, find_referenced, whole_at};
use dita_doc::{Doc, List, Name, NoMemory, Node, Text};
use ditaval_rules::own_names;
use readers::Asker;
use std::alloc::Global;
use std::sync::Arc;

// A target that was taken, the names of conditional attributes that are declared around it, and the
// range behind it, which is empty if there is none.
#[derive(Drop)]
pub(crate) struct TakenTarget {
    pub doc: Arc<Doc>,
    pub place: u32,
    pub declared: List<Text>,
    pub from: u32,
    pub to: u32,
}

impl TakenTarget {
    ghost use Rattle.std.specs.Prelude.{◌≡◌, List, Some, IfOk, IfSome};
    ghost use Rattle.std.specs.Arc.{arc_value};
    ghost use Rattle.readers.specs.Founded.{AreAmong};
    ghost use Rattle.readers.specs.Told.{Told};
    ghost use Rattle.conref_targets.specs.Each.{OfWhole};
    ghost use Rattle.conref_targets.specs.Hrefs.{WholeNamed};
    ghost use Rattle.conref_targets.specs.Origin as origin_spec;
    ghost use Rattle.conref_targets.specs.Asking as asking_spec;
    ghost use Rattle.conref_targets.specs.PageAsking.{IsMet, PageAt};
    ghost use Rattle.conref_pull.specs.Linked as linked_spec;
    ghost use Rattle.conref_pull.specs.Met.{LinkMet};
    ghost use Rattle.conref_pull.specs.Step.{Taken, declared_inside};

    // The target, and what it holds.
    pub(crate) fn whole(&self) -> Option<Whole<'_>>
        ensures target { (one : Taken) → linked_spec.IsLink self.now one
            → origin_spec.whole_shown result ≡ Some (one.element, one.inside) }
        ensures names { IfSome result (λ whole. AreAmong (asking_spec.reused_of_whole whole)
            (asking_spec.reused_of_doc (arc_value self.now.doc))) }
        ensures hrefs { (told : List Told) → linked_spec.IsGivenTo told self.now
            → IfSome result (WholeNamed told) }
        ensures met { (page : PageAt) → LinkMet page self.now
            → IfSome result (OfWhole (IsMet page)) }
    {
        whole_at(&self.doc, self.place)
    }

    // The names of conditional attributes that are declared for what the target holds.
    fn declared_inside(&self, alloc: Global) -> Result<List<Text>, NoMemory>
        ensures { (one : Taken) → linked_spec.IsLink self.now one
            → IfOk result (λ names. names ≡ declared_inside one) }
    {
        let Some(target) = self.whole() else {
            return Ok(List::new(alloc));
        };
        let own = own_names(alloc, target.node)?;
        match own {
            Some(names) => Ok(names),
            None => Ok(self.declared.clone()?),
        }
    }
}

// The targets that an element takes, the farthest first, and how many targets the content of that
// one is resolved within.
#[derive(Drop)]
pub(crate) struct TakenTargets {
    pub links: Vec<TakenTarget>,
    pub end: u32,
}

impl TakenTargets {
    ghost use Rattle.std.specs.Prelude.{◌≡◌, ◌∷◌, ℕ, List, Some, IfOk, IfSome};
    ghost use Rattle.conref_spec.specs.Content.{Place};
    ghost use Rattle.readers.specs.Told.{Told};
    ghost use Rattle.conref_targets.specs.Each.{OfWhole};
    ghost use Rattle.conref_targets.specs.Hrefs.{WholeNamed};
    ghost use Rattle.conref_targets.specs.Origin as origin_spec;
    ghost use Rattle.conref_targets.specs.Asking as asking_spec;
    ghost use Rattle.conref_targets.specs.PageAsking.{IsMet, PageAt};
    ghost use Rattle.conref_pull.specs.Linked as linked_spec;
    ghost use Rattle.conref_pull.specs.Met.{LinksMet};
    ghost use Rattle.conref_pull.specs.Step.{Taken, declared_inside};

    // The farthest target, and what it holds.
    pub(crate) fn farthest(&self) -> Option<Whole<'_>>
        ensures target { (path : List Place) (end : ℕ) (one : Taken) (nearer : List Taken)
            → linked_spec.AreLinks path end (one ∷ nearer) self.now.links.items
            → origin_spec.whole_shown result ≡ Some (one.element, one.inside) }
        ensures given { (told : List Told) → linked_spec.AreGivenTo told self.now.links.items
            → IfSome result (λ whole. asking_spec.AreGiven told
            (asking_spec.reused_of_whole whole)) }
        ensures hrefs { (told : List Told) → linked_spec.AreGivenTo told self.now.links.items
            → IfSome result (WholeNamed told) }
        ensures met { (page : PageAt) → LinksMet page self.now.links.items
            → IfSome result (OfWhole (IsMet page)) }
    {
        match self.links.split_first() {
            None => None,
            Some((farthest, _)) => farthest.whole(),
        }
    }

    // The names of conditional attributes that are declared for what the farthest target holds.
    pub(crate) fn declared(&self, alloc: Global) -> Result<List<Text>, NoMemory>
        ensures { (path : List Place) (end : ℕ) (one : Taken) (nearer : List Taken)
            → linked_spec.AreLinks path end (one ∷ nearer) self.now.links.items
            → IfOk result (λ names. names ≡ declared_inside one) }
    {
        match self.links.split_first() {
            None => Ok(List::new(alloc)),
            Some((farthest, _)) => farthest.declared_inside(alloc),
        }
    }
}

impl<'a> Resolver<'a> {
    ghost use Rattle.std.specs.Prelude.{◌≡◌, ◌+◌, ◌<◌, ◌≤◌, [], ◌∷◌, ℕ, List, IfOk, IsSome, OnOk, length};
    ghost use Rattle.std.specs.Option.{option_copied};
    ghost use Rattle.dita_doc.specs.declared.plan.PlanNode.{PlanNode};
    ghost use Rattle.doc_elements.specs.Walk as walk_spec;
    ghost use Rattle.map_spec.specs.Written.{Written};
    ghost use Rattle.conref_spec.specs.Content as content_spec;
    ghost use Rattle.reader_spec.specs.World.{World};
    ghost use Rattle.readers.specs.Founded.{Grows};
    ghost use Rattle.readers.specs.Named.{reused_by};
    ghost use Rattle.readers.specs.Told.{Agrees};
    ghost use Rattle.conref_targets.specs.Asking.{Asks, IsGivenIn, names_of_value};
    ghost use Rattle.conref_targets.specs.PageAsking.{FindsOnly, IsAt, IsMet, PageAt};
    ghost use Rattle.conref_targets.specs.Tables.{AreTables};
    ghost use Rattle.conref_targets.specs.ResolveInput as setting_spec;
    ghost use Rattle.conref_targets.specs.Sought as sought_spec;
    ghost use Rattle.conref_pull.specs.Linked.{AreGivenTo, IsGivenIf};
    ghost use Rattle.conref_pull.specs.Linked as linked_spec;
    ghost use Rattle.conref_pull.specs.Met.{FollowsOnly, LinksMet, TakesOnly};
    ghost use Rattle.conref_pull.specs.Putting.{IsSameMaker};
    ghost use Rattle.conref_pull.specs.Step as step_spec;
    ghost use Rattle.conref_pull.specs.State as state_spec;
    ghost use Rattle.conref_pull.specs.Seeking as seeking_spec;

    // Follows the reference of an element, target by target, until one has none or can't be taken.
    // `topic` is the id of the topic around the element, and `links` tells within how many targets
    // it is resolved.
    #[tactic(auto, using(conref_targets::proofs::AskingLaws::following, crate::proofs::PutLaws::making))]
    pub(crate) fn chain<A: Asker>(
        &mut self,
        asker: &mut A,
        places: &mut PlaceTables,
        origin: &Name,
        element: &Node,
        topic: &str,
        links: u32,
    ) -> Result<TakenTargets, NoMemory>
        ensures limit { IfOk result (λ chain. links < chain.end → chain.end ≤ 32) }
        ensures known { (world : World) (depth : ℕ) (inside : Written)
            → Agrees world (A.told asker.new)
            → AreTables (setting_spec.documents_in world (A.stand asker.old).setting) places.old
            → state_spec.IsDepth self.old depth → links ≤ length self.old.path.items
            → IfOk result (λ chain. linked_spec.IsFollowed
            (setting_spec.documents_in world (A.stand asker.old).setting)
            (walk_spec.element_of origin.now element.now) inside
            (content_spec.followed (setting_spec.setting_of world (A.stand asker.old).setting
            self.old.context.now.page self.old.rules) topic.now depth
            (state_spec.path_within self.old links) (walk_spec.element_of origin.now element.now)
            inside) [] chain.links.items links chain.end self.old self.new places.new) }
        ensures asks { (nodes : List PlanNode) → (A.stand asker.old).setting.nodes ≡ nodes
            → Asks nodes (self.old.context.now.page.doc
            ∷ reused_by (walk_spec.element_of origin.now element.now)) (A.told asker.old)
            (A.told asker.new) }
        ensures only { (page : PageAt) → Agrees page.world (A.told asker.new)
            → IsAt page (A.stand asker.old) self.old.context.now.page
            → IsMet page (walk_spec.element_of origin.now element.now)
            → IfOk result (λ chain. FollowsOnly page (A.told asker.old) (A.told asker.new)
            chain.links.items) }
        ensures given { IfOk result (λ chain. AreGivenTo (A.told asker.new) chain.links.items) }
        ensures page { OnOk result (state_spec.IsSamePage self.old self.new) }
        ensures maker { OnOk result (IsSameMaker self.old self.new) }
        ensures stand { A.stand asker.new ≡ A.stand asker.old }
        ensures grows { Grows (A.told asker.old) (A.told asker.new) }
    {
        let mut taken = Vec::new(self.alloc);
        let end = self.follow(asker, places, origin, element, topic, links, &mut taken)?;
        Ok(TakenTargets { links: taken, end })
    }

    // Puts the targets that an element takes behind others, and tells within how many targets the
    // content of the farthest is resolved.
    #[tactic(auto, using(conref_targets::proofs::AskingLaws::following, crate::proofs::PutLaws::making))]
    fn follow<A: Asker>(
        &mut self,
        asker: &mut A,
        places: &mut PlaceTables,
        origin: &Name,
        element: &Node,
        topic: &str,
        links: u32,
        taken: &mut Vec<TakenTarget>,
    ) -> Result<u32, NoMemory>
        ensures limit { IfOk result (λ end. links < end → end ≤ 32) }
        ensures known { (world : World) (depth steps : ℕ) (inside : Written)
            → Agrees world (A.told asker.new)
            → AreTables (setting_spec.documents_in world (A.stand asker.old).setting) places.old
            → state_spec.IsDepth self.old depth → 0 < steps → 32 < steps + links
            → links ≤ length self.old.path.items
            → IfOk result (λ end. linked_spec.IsFollowed
            (setting_spec.documents_in world (A.stand asker.old).setting)
            (walk_spec.element_of origin.now element.now) inside
            (content_spec.followed_from steps (setting_spec.setting_of world
            (A.stand asker.old).setting self.old.context.now.page self.old.rules) topic.now depth
            (state_spec.path_within self.old links) (walk_spec.element_of origin.now element.now)
            inside) taken.old.items taken.new.items links end self.old self.new places.new) }
        ensures asks { (nodes : List PlanNode) → (A.stand asker.old).setting.nodes ≡ nodes
            → Asks nodes (self.old.context.now.page.doc
            ∷ reused_by (walk_spec.element_of origin.now element.now)) (A.told asker.old)
            (A.told asker.new) }
        ensures only { (page : PageAt) → Agrees page.world (A.told asker.new)
            → IsAt page (A.stand asker.old) self.old.context.now.page
            → IsMet page (walk_spec.element_of origin.now element.now)
            → LinksMet page taken.old.items
            → OnOk result (FollowsOnly page (A.told asker.old) (A.told asker.new)
            taken.new.items) }
        ensures given { AreGivenTo (A.told asker.old) taken.old.items
            → OnOk result (AreGivenTo (A.told asker.new) taken.new.items) }
        ensures page { OnOk result (state_spec.IsSamePage self.old self.new) }
        ensures maker { OnOk result (IsSameMaker self.old self.new) }
        ensures stand { A.stand asker.new ≡ A.stand asker.old }
        ensures grows { Grows (A.told asker.old) (A.told asker.new) }
    {
        let Some(link) = self.take(asker, places, origin, element, topic, links)? else {
            return Ok(links);
        };
        let Some(target) = link.whole() else {
            return Ok(links);
        };
        let (origin, element) = (target.origin, target.node);
        let end = self.follow(asker, places, origin, element, topic, links + 1, taken)?;
        taken.push(link)?;
        Ok(end)
    }

    // Takes the target that an element refers to, within so many targets; none, if it has no
    // reference, or has a fault.
    #[tactic(auto, using(conref_targets::proofs::AskingLaws::following, crate::proofs::PutLaws::making))]
    fn take<A: Asker>(
        &mut self,
        asker: &mut A,
        places: &mut PlaceTables,
        origin: &Name,
        element: &Node,
        topic: &str,
        links: u32,
    ) -> Result<Option<TakenTarget>, NoMemory>
        ensures limit { IfOk result (λ link. IsSome link → links < 32) }
        ensures known { (world : World) (depth : ℕ) → Agrees world (A.told asker.new)
            → AreTables (setting_spec.documents_in world (A.stand asker.old).setting) places.old
            → state_spec.IsDepth self.old depth → links ≤ length self.old.path.items
            → IfOk result (λ link. linked_spec.IsStep
            (setting_spec.documents_in world (A.stand asker.old).setting)
            (step_spec.step_of (setting_spec.setting_of world (A.stand asker.old).setting
            self.old.context.now.page self.old.rules) topic.now depth
            (state_spec.path_within self.old links) (walk_spec.element_of origin.now element.now))
            self.old self.new places.new link) }
        ensures asks { (nodes : List PlanNode) → (A.stand asker.old).setting.nodes ≡ nodes
            → Asks nodes (self.old.context.now.page.doc
            ∷ reused_by (walk_spec.element_of origin.now element.now)) (A.told asker.old)
            (A.told asker.new) }
        ensures only { (page : PageAt) → Agrees page.world (A.told asker.new)
            → IsAt page (A.stand asker.old) self.old.context.now.page
            → IsMet page (walk_spec.element_of origin.now element.now)
            → IfOk result (λ link. TakesOnly page (A.told asker.old) (A.told asker.new) link) }
        ensures given { IfOk result (λ link. IsGivenIf (A.told asker.new) link) }
        ensures page { OnOk result (state_spec.IsSamePage self.old self.new) }
        ensures maker { OnOk result (IsSameMaker self.old self.new) }
        ensures stand { A.stand asker.new ≡ A.stand asker.old }
        ensures grows { Grows (A.told asker.old) (A.told asker.new) }
    {
        let Some(sought) = Sought::by(element) else {
            return Ok(None);
        };
        let Some(found) = self.find(asker, places, origin, element, sought, topic)? else {
            return Ok(None);
        };
        self.accept(places, origin, element, found, links)
    }

    // The target that an element refers to, by its key, or where that fails by its value; a fault,
    // if it can't be found.
    #[tactic(auto, using(crate::proofs::PutLaws::making))]
    fn find<'b, A: Asker>(
        &mut self,
        asker: &mut A,
        places: &mut PlaceTables,
        origin: &Name,
        element: &Node,
        sought: Sought<'b>,
        topic: &str,
    ) -> Result<Option<Found<'b>>, NoMemory>
        ensures known { (world : World) → Agrees world (A.told asker.new)
            → AreTables (setting_spec.documents_in world (A.stand asker.old).setting) places.old
            → IfOk result (λ found. seeking_spec.IsSought (setting_spec.setting_of world
            (A.stand asker.old).setting self.old.context.now.page self.old.rules) topic.now
            (walk_spec.element_of origin.now element.now) (sought_spec.sought_shown sought.entry)
            self.old self.new places.new found) }
        ensures asks { (nodes : List PlanNode) → (A.stand asker.old).setting.nodes ≡ nodes
            → Asks nodes (self.old.context.now.page.doc ∷ names_of_value origin.now
            (option_copied sought.entry.conref)) (A.told asker.old) (A.told asker.new) }
        ensures only { (page : PageAt) → Agrees page.world (A.told asker.new)
            → IsAt page (A.stand asker.old) self.old.context.now.page
            → IsMet page (walk_spec.element_of origin.now element.now)
            → sought_spec.sought_shown sought.entry
            ≡ content_spec.sought_by (walk_spec.element_of origin.now element.now)
            → IfOk result (λ found. FindsOnly page (A.told asker.old) (A.told asker.new) found) }
        ensures given { IfOk result (λ found. IsGivenIn (A.told asker.new) found) }
        ensures page { OnOk result (state_spec.IsSamePage self.old self.new) }
        ensures maker { OnOk result (IsSameMaker self.old self.new) }
        ensures stand { A.stand asker.new ≡ A.stand asker.old }
        ensures grows { Grows (A.told asker.old) (A.told asker.new) }
    {
        let context = self.context;
        let faults = &mut self.faults;
        find_referenced(
            self.alloc, asker, places, faults, context, origin, element, sought, topic,
        )
    }
}
