//! Where pages go.

ghost use Rattle.std.specs.Prelude.{◌≡◌, ℕ, [], Option, IfOk};
ghost use Rattle.dita_outside.specs.Cause as cause_spec;
ghost use Rattle.dita_outside.specs.Pages as pages_spec;

use crate::Failed;
use crate::calls::Calls;
use dita_doc::{List, Name, Stop};
use std::alloc::{AllocError, Global};

/// An outlet of pages.
pub trait Outlet {
    /// The pages that it took, in order, if it tells them.
    ghost pages: { Self → Option pages_spec.Pages };

    /// How often it failed. The count stands still at 2^64 - 1, the last value of a counter.
    ghost faults: { Self → ℕ };

    /// Takes a page whole. With an `Err` it did not take it; what then lies in a real folder is not
    /// said.
    fn put_page(&mut self, alloc: Global, name: &Name, bytes: &[u8]) -> Result<(), Stop<Failed>>
        ensures page { pages_spec.PutsPage (pages self.old) (pages self.new) result
            (name.now, bytes.now) }
        ensures cause { cause_spec.HasCauseOrNoMemory (faults self.old) (faults self.new) result };
}

/// An outlet in memory that fails at the calls listed, which are counted from 1.
#[derive(Drop)]
pub struct MemOutlet {
    content: List<(Name, List<u8>)>,
    calls: Calls,
}

impl MemOutlet {
    ghost use Rattle.dita_outside.specs.Calls as calls_spec;
    ghost use Rattle.dita_outside.specs.Forms as forms_spec;

    /// An outlet that took no page yet.
    pub fn new(alloc: Global, failing: List<u32>) -> MemOutlet
        ensures pages { forms_spec.outlet_pages result ≡ [] }
        ensures failing { forms_spec.outlet_failing result ≡ calls_spec.not_called failing }
    {
        MemOutlet {
            content: List::new(alloc),
            calls: Calls::new(failing),
        }
    }

    /// The pages that it took, in order.
    pub fn pages(&self) -> &List<(Name, List<u8>)>
        ensures { result.now ≡ forms_spec.outlet_pages self.now }
    {
        &self.content
    }
}

impl Outlet for MemOutlet {
    ghost use Rattle.std.specs.Prelude.{◌≡◌, IsTrue, OnOk, IfErr, false, Some};
    ghost use Rattle.dita_doc.specs.Gives.{OnFault};
    ghost use Rattle.dita_outside.specs.Calls as calls_spec;
    ghost use Rattle.dita_outside.specs.Cause as cause_spec;
    ghost use Rattle.dita_outside.specs.Pages as pages_spec;
    ghost use Rattle.dita_outside.specs.Forms as forms_spec;

    ghost pages = { λ o. Some (forms_spec.outlet_pages o) };

    ghost faults = { λ o. (forms_spec.outlet_failing o).faults };

    fn put_page(&mut self, alloc: Global, name: &Name, bytes: &[u8]) -> Result<(), Stop<Failed>>
        ensures page { pages_spec.PutsPage (Some (forms_spec.outlet_pages self.old))
            (Some (forms_spec.outlet_pages self.new)) result (name.now, bytes.now) }
        ensures cause { cause_spec.HasCauseOrNoMemory (forms_spec.outlet_failing self.old).faults
            (forms_spec.outlet_failing self.new).faults result }
        // It fails at the calls listed, and at no other.
        ensures failed { IfErr result (λ stop. OnFault stop
            (IsTrue (calls_spec.is_listed (forms_spec.outlet_failing self.old)))) }
        ensures took { OnOk result
            (calls_spec.is_listed (forms_spec.outlet_failing self.old) ≡ false) }
        ensures counted { forms_spec.outlet_failing self.new ≡ calls_spec.after_call
            (cause_spec.is_fault result) (forms_spec.outlet_failing self.old) }
    {
        if self.calls.call().is_err() {
            return Err(Stop::Fault(Failed));
        }
        self.content.push(page_of(alloc, name, bytes)?)?;
        Ok(())
    }
}

/// An outlet in memory that fails only when it is out of memory.
#[derive(Debug, Drop)]
pub struct SureOutlet {
    content: List<(Name, List<u8>)>,
}

impl SureOutlet {
    ghost use Rattle.dita_outside.specs.Forms as forms_spec;

    /// An outlet that took no page yet.
    pub fn new(alloc: Global) -> SureOutlet
        ensures { forms_spec.sure_outlet_pages result ≡ [] }
    {
        SureOutlet {
            content: List::new(alloc),
        }
    }

    /// The pages that it took, in order.
    pub fn pages(&self) -> &List<(Name, List<u8>)>
        ensures { result.now ≡ forms_spec.sure_outlet_pages self.now }
    {
        &self.content
    }
}

impl Outlet for SureOutlet {
    ghost use Rattle.std.specs.Prelude.{Some};
    ghost use Rattle.dita_outside.specs.Forms as forms_spec;

    ghost pages = { λ o. Some (forms_spec.sure_outlet_pages o) };

    ghost faults = { λ _. 0 };

    fn put_page(&mut self, alloc: Global, name: &Name, bytes: &[u8]) -> Result<(), Stop<Failed>> {
        self.content.push(page_of(alloc, name, bytes)?)?;
        Ok(())
    }
}

/// An outlet that keeps no page and never fails: for a build whose pages are read from its rows.
#[derive(Clone, Copy, Debug)]
pub struct NoOutlet;

/// It tells no pages.
impl Outlet for NoOutlet {
    ghost use Rattle.std.specs.Prelude.{None};

    ghost pages = { λ _. None };

    ghost faults = { λ _. 0 };

    fn put_page(
        &mut self,
        _alloc: Global,
        _name: &Name,
        _bytes: &[u8],
    ) -> Result<(), Stop<Failed>> {
        Ok(())
    }
}

// A page in memory of its own, with the name's text shared.
fn page_of(alloc: Global, name: &Name, bytes: &[u8]) -> Result<(Name, List<u8>), AllocError>
    ensures { IfOk result (λ page. page ≡ (name.now, bytes.now)) }
{
    Ok((name.clone()?, List::from_slice(alloc, bytes)?))
}
