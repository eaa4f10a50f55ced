//! The names of pages, each given once.

ghost use Rattle.std.specs.Prelude.{◌≡◌, ◌++◌, [], ◌∷◌, length, IfOk, OnOk, codes};
ghost use Rattle.std.specs.Fmt.{decimal};
ghost use Rattle.std.specs.List.{flat_map};
ghost use Rattle.map_spec.specs.Pages as pages_spec;
ghost use Rattle.page_names.specs.Shown as shown_spec;
ghost use Rattle.page_names.specs.Taken as spec;

use crate::aim::node_at;
use crate::base::base_of;
use crate::page_uses::Use;
use dita_doc::{Fault, FaultCode, List, Name, NoMemory, PagePlan, PlanNode, Text, is_name};
use plan_nodes::fault_of;
use std::alloc::{AllocError, Global};
use std::collections::{BTreeMap, BTreeSet};

// The name of the contents page, which no other page has.
const CONTENTS_NAME: &str = "index.html";

// How many bytes the name of a page may have, so that it is a document name also in the folder of
// its build.
const PAGE_NAME_LIMIT: usize = 240;

// Names that are taken, and for each base the next number to try.
#[derive(Drop)]
struct PageNames {
    taken: BTreeSet<Name>,
    next: BTreeMap<Text, usize>,
}

impl PageNames {
    // Only the name of the contents page is taken.
    fn new(alloc: Global) -> Result<PageNames, NoMemory>
        ensures { IfOk result (λ names. spec.AreTaken (pages_spec.contents_name ∷ []) names) }
    {
        let mut names = PageNames {
            taken: BTreeSet::new(alloc),
            next: BTreeMap::new(alloc),
        };
        let _ = names.take(alloc, CONTENTS_NAME)?;
        Ok(names)
    }

    // The name with this text, if it was free. It is taken then.
    fn take(&mut self, alloc: Global, text: &str) -> Result<Option<Name>, NoMemory>
        ensures { (taken : spec.Texts) → spec.AreTaken taken self.old
            → IfOk result (λ found. spec.IsTakenBy taken text.now self.new found) }
    {
        let name = name_of(alloc, text)?;
        if self.taken.insert(name.clone()?)? {
            Ok(Some(name))
        } else {
            Ok(None)
        }
    }

    // Takes the first name that is free for the page at this place, whose base gives the name that
    // is wanted.
    fn take_good(
        &mut self,
        alloc: Global,
        place: usize,
        base: Text,
        wanted: &str,
    ) -> Result<Name, NoMemory>
        ensures { (taken : spec.Texts) → spec.AreTaken taken self.old
            → wanted.now ≡ pages_spec.html base → IfOk result (λ name. spec.IsFound taken
            (pages_spec.free_name taken (pages_spec.good_base place base)) name self.new) }
    {
        let good = good_base(alloc, place, base, wanted)?;
        self.take_first(alloc, good)
    }

    // Takes the first name that is free: the base's, or that with the number 2, 3 and so on.
    fn take_first(&mut self, alloc: Global, base: Text) -> Result<Name, NoMemory>
        ensures { (taken : spec.Texts) → spec.AreTaken taken self.old
            → IfOk result (λ name.
            spec.IsFound taken (pages_spec.free_name taken base) name self.new) }
    {
        let plain = html_of(alloc, base.as_str())?;
        match self.take(alloc, plain.as_str())? {
            Some(name) => Ok(name),
            None => self.take_numbered(alloc, base),
        }
    }

    // Takes the first name with a number that is free.
    fn take_numbered(&mut self, alloc: Global, base: Text) -> Result<Name, NoMemory>
        ensures { (taken : spec.Texts) → spec.AreTaken taken self.old
            → IfOk result (λ name. spec.IsFound taken
            (pages_spec.free_from (length taken) 2 taken base) name self.new) }
    {
        let start = self.next_of(&base);
        // One of these is free, since fewer names are taken.
        for number in start..self.taken.len().saturating_add(3) {
            let numbered = with_number(alloc, base.as_str(), number)?;
            if let Some(name) = self.take(alloc, numbered.as_str())? {
                let _ = self.next.insert(base, number + 1)?;
                return Ok(name);
            }
        }
        Err(NoMemory)
    }

    // The next number to try for a base.
    fn next_of(&self, base: &Text) -> usize
        ensures { (taken : spec.Texts) → spec.AreTaken taken self.now
            → spec.IsTried taken base.now result }
    {
        self.next.get(base).copied().unwrap_or(2)
    }
}

/// Pages with their names, in order. Appends a fault for each name that is not that of its base.
pub(crate) fn name_pages(
    alloc: Global,
    nodes: &[PlanNode],
    uses: Vec<Use>,
    faults: &mut List<Fault>,
) -> Result<List<PagePlan>, NoMemory>
    ensures pages { IfOk result (λ pages. pages ≡ pages_spec.named_from 0
        (pages_spec.contents_name ∷ []) (shown_spec.uses_shown uses.items)) }
    ensures faults { IfOk result (λ pages.
        faults.new ≡ faults.old ++ flat_map (pages_spec.name_fault nodes.now) pages) }
{
    let mut names = PageNames::new(alloc)?;
    let mut pages = List::new(alloc);
    for page in uses {
        let named = name_page(alloc, nodes, &mut names, pages.len(), page, faults)?;
        pages.push(named)?;
    }
    Ok(pages)
}

// The page of a use, with its name.
fn name_page(
    alloc: Global,
    nodes: &[PlanNode],
    names: &mut PageNames,
    index: usize,
    page: Use,
    faults: &mut List<Fault>,
) -> Result<PagePlan, NoMemory>
    ensures named { (taken : spec.Texts) → spec.AreTaken taken names.old
        → IfOk result (λ made.
        spec.IsNamed index taken (shown_spec.use_shown page) made names.new) }
    ensures faults { IfOk result (λ made.
        faults.new ≡ faults.old ++ pages_spec.name_fault nodes.now made) }
{
    let name = name_use(alloc, nodes, names, index, &page, faults)?;
    let Use { id, node } = page;
    Ok(PagePlan { id, node, name })
}

// The name of the page of a use. It is taken then.
fn name_use(
    alloc: Global,
    nodes: &[PlanNode],
    names: &mut PageNames,
    index: usize,
    page: &Use,
    faults: &mut List<Fault>,
) -> Result<Name, NoMemory>
    ensures named { (taken : spec.Texts) → spec.AreTaken taken names.old
        → IfOk result (λ name. spec.IsFound taken
        (spec.name_for index taken (shown_spec.use_shown page.now)) name names.new) }
    ensures faults { IfOk result (λ name. faults.new ≡ faults.old ++ shown_spec.changed_fault
        nodes.now page.now.node name (pages_spec.html (pages_spec.base_of page.now.id))) }
{
    let base = base_of(alloc, &page.id)?;
    let wanted = html_of(alloc, base.as_str())?;
    let name = names.take_good(alloc, index, base, wanted.as_str())?;
    append_changed(alloc, nodes, page.node, &name, wanted.as_str(), faults)?;
    Ok(name)
}

// The base, or that of the page's place if no page can have the name that the base gives.
fn good_base(alloc: Global, place: usize, base: Text, wanted: &str) -> Result<Text, AllocError>
    ensures { wanted.now ≡ pages_spec.html base → IfOk result (λ good.
        good ≡ pages_spec.good_base place base) }
{
    if is_page_name(wanted) {
        return Ok(base);
    }
    let numbered = format!(in alloc; "page{}", place)?;
    Text::from_str(alloc, numbered.as_str())
}

fn is_page_name(text: &str) -> bool
    ensures { result ≡ pages_spec.is_page_name text.now }
{
    is_name(text.as_bytes()) && text.len() <= PAGE_NAME_LIMIT
}

// Appends the fault of a page that does not have the name of its base.
fn append_changed(
    alloc: Global,
    nodes: &[PlanNode],
    at: u32,
    name: &Name,
    wanted: &str,
    faults: &mut List<Fault>,
) -> Result<(), NoMemory>
    ensures { OnOk result (faults.new ≡ faults.old
        ++ shown_spec.changed_fault nodes.now at name.now wanted.now) }
{
    if name.as_str() == wanted {
        return Ok(());
    }
    match node_at(nodes, at as usize) {
        None => Ok(()),
        Some(node) => {
            let fault = fault_of(alloc, node, FaultCode::NameChanged, name.as_str())?;
            Ok(faults.push(fault)?)
        }
    }
}

fn html_of(alloc: Global, base: &str) -> Result<Text, AllocError>
    ensures { IfOk result (λ text. text ≡ pages_spec.html base.now) }
{
    let mut text = Text::from_str(alloc, base)?;
    text.append(".html")?;
    Ok(text)
}

fn with_number(alloc: Global, base: &str, number: usize) -> Result<Text, AllocError>
    ensures { IfOk result (λ text. text ≡ pages_spec.with_number base.now number) }
{
    let mut text = numbered(alloc, base, number)?;
    text.append(".html")?;
    Ok(text)
}

fn numbered(alloc: Global, base: &str, number: usize) -> Result<Text, AllocError>
    ensures { IfOk result (λ text. text ≡ base.now ++ codes "_" ++ decimal number) }
{
    let text = format!(in alloc; "{}_{}", base, number)?;
    Text::from_str(alloc, text.as_str())
}

// The name with this text. What is made of a good base is a name.
fn name_of(alloc: Global, text: &str) -> Result<Name, NoMemory>
    ensures { IfOk result (λ name. name ≡ text.now) }
{
    match Name::parse(alloc, text) {
        Ok(name) => Ok(name),
        Err(_) => Err(NoMemory),
    }
}
