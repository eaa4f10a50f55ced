//! The state of a page that is being resolved.

ghost use Rattle.std.specs.Prelude.{◌≡◌, ◌+◌, ◌++◌, [], ◌∷◌, OnOk};

use crate::place::Place;
use conref_targets::{PageRules, origin_of};
use dita_doc::{
    Attribute, Context, Doc, Fault, FaultCode, List, Name, NoMemory, Node, Resolved, Stop, Text,
};
use doc_elements::fault_at;
use doc_maker::DocMaker;
use std::alloc::Global;

// How many nodes a page may have.
const COUNT_LIMIT: u32 = 262_144;

// The count of a page that has more.
pub(crate) const TOO_MANY: u32 = COUNT_LIMIT + 1;

// The answer that a page has too many nodes.
#[derive(Clone, Copy)]
pub(crate) struct TooMany;

// Where nodes are resolved: the id of the topic around them, where they stand now, the names of
// conditional attributes that are declared around them, where they were written, how many targets
// they are resolved within, which are the first of the path, and whether they are of a range.
#[derive(Clone, Copy)]
pub(crate) struct At<'a> {
    pub topic: &'a str,
    pub declared: &'a List<Text>,
    pub links: u32,
    pub is_range: bool,
}

// The content that was made so far, and what is needed to go on.
#[derive(Drop)]
pub(crate) struct Resolver<'a> {
    pub alloc: Global,
    pub context: &'a Context,
    pub rules: PageRules<'a>,
    pub maker: DocMaker,
    pub faults: List<Fault>,
    // The targets that are being resolved, the outermost first. What stands behind those that
    // count is left over.
    pub path: Vec<Place>,
    // How many elements may be open around one whose reference is followed.
    pub deepest: usize,
    count: u32,
}

impl<'a> Resolver<'a> {
    ghost use Rattle.std.specs.Prelude.{◌≡◌, ◌+◌, ◌++◌, [], ◌∷◌, ℕ, Some, slice_get, IfOk, OnOk};
    ghost use Rattle.doc_elements.specs.Walk as walk_spec;
    ghost use Rattle.doc_maker.specs.Building.{nothing, whole};
    ghost use Rattle.doc_maker.specs.Made.{resolved_tree};
    ghost use Rattle.conref_spec.specs.Content as content_spec;
    ghost use Rattle.readers.specs.Named.{name_at};
    ghost use Rattle.conref_pull.specs.Putting.{Puts, built, declared_put};
    ghost use Rattle.map_spec.specs.Elements as elements_spec;
    ghost use Rattle.map_spec.specs.Judged as judged_spec;
    ghost use Rattle.conref_targets.specs.Judging as judging_spec;
    ghost use Rattle.conref_targets.specs.Rules as rules_spec;
    ghost use Rattle.conref_pull.specs.Count as count_spec;
    ghost use Rattle.conref_pull.specs.State as state_spec;

    pub(crate) fn new(
        alloc: Global,
        context: &'a Context,
        rules: PageRules<'a>,
        deepest: usize,
    ) -> Self
        ensures context { result.context.now ≡ context.now }
        ensures rules { result.rules ≡ rules.entry }
        ensures deepest { result.deepest ≡ deepest }
        ensures nodes { built result ≡ nothing }
        ensures declared { declared_put result ≡ [] }
        ensures count { result.count ≡ 0 }
        ensures faults { result.faults ≡ [] }
        ensures path { result.path.items ≡ [] }
    {
        Resolver {
            alloc,
            context,
            rules,
            maker: DocMaker::new(alloc),
            faults: List::new(alloc),
            path: Vec::new(alloc),
            deepest,
            count: 0,
        }
    }

    pub(crate) fn finish(self) -> Resolved
        ensures content { resolved_tree result ≡ whole (built self.entry) }
        ensures declared { result.declared ≡ declared_put self.entry }
        ensures count { result.count ≡ self.entry.count }
        ensures faults { result.faults ≡ self.entry.faults }
    {
        let Resolver {
            maker,
            faults,
            count,
            ..
        } = self;
        maker.finish_resolved(count, faults)
    }

    // Counts a node, unless it is one too many.
    pub(crate) fn count_one(&mut self) -> Result<(), Stop<TooMany>>
        ensures { count_spec.IsCounted result self.old self.new }
    {
        if self.count >= COUNT_LIMIT {
            return Err(Stop::Fault(TooMany));
        }
        self.count += 1;
        Ok(())
    }

    // Puts a text of a document.
    #[tactic(auto, using(crate::proofs::StateLaws::paging))]
    pub(crate) fn put_chars(&mut self, doc: &Doc, node: &Node) -> Result<(), Stop<TooMany>>
        ensures put { (place : ℕ) → slice_get doc.now.nodes place ≡ Some node.now
            → Puts result (content_spec.text_made node.now.text
            (name_at doc.now.origins node.now.origin)) self.old self.new }
        ensures path { OnOk result (self.new.path ≡ self.old.path) }
        ensures page { OnOk result (state_spec.IsSamePage self.old self.new) }
    {
        self.count_one()?;
        if let Some(origin) = origin_of(doc, node) {
            self.maker
                .put_chars(self.alloc, node.text.clone()?, origin)?;
        }
        Ok(())
    }

    // Appends a fault of an element that was written in the document of this name.
    pub(crate) fn push_fault(
        &mut self,
        origin: &Name,
        element: &Node,
        code: FaultCode,
        detail: &str,
    ) -> Result<(), NoMemory>
        ensures { OnOk result (self.new ≡ record self.old {
          faults = self.old.faults
              ++ elements_spec.fault_at (walk_spec.element_of origin.now element.now) code detail.now
              ∷ [];
        }) }
    {
        let fault = fault_at(self.alloc, origin, element, code, detail)?;
        Ok(self.faults.push(fault)?)
    }

    // Whether an element goes that has these attributes, and for which these names of conditional
    // attributes are declared. A value of groups counts as absent, with a fault.
    pub(crate) fn is_excluded(
        &mut self,
        origin: &Name,
        element: &Node,
        declared: &List<Text>,
        attributes: &List<Attribute>,
    ) -> Result<bool, NoMemory>
        ensures state { OnOk result (self.new ≡ record self.old {
          faults = self.old.faults
              ++ judged_spec.group_faults declared.now (judging_spec.with_attributes attributes.now
              (walk_spec.element_of origin.now element.now));
        }) }
        ensures goes { IfOk result (λ goes. goes
            ≡ rules_spec.some_exclude self.old.rules declared.now attributes.now) }
    {
        let faults = &mut self.faults;
        self.rules
            .is_excluded(self.alloc, faults, origin, element, declared, attributes)
    }
}
