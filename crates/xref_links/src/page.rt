//! A page whose elements are read, and an element where it stands.

ghost use Rattle.std.specs.Prelude.{◌≡◌};

use dita_doc::{Context, Fault, FaultCode, List, Name, NoMemory, Node, Plan, Resolved, Siblings};
use doc_elements::fault_at;
use std::alloc::Global;
use std::sync::Arc;

// A page whose elements are read: the plan that it is of, its context, and its body.
#[derive(Clone, Copy)]
pub(crate) struct PageRead<'a> {
    pub alloc: Global,
    pub plan: &'a Plan,
    pub context: &'a Arc<Context>,
    pub body: &'a Resolved,
}

// An element where it stands: its place, what it holds, and the id of the nearest topic, which a
// topic itself is.
#[derive(Clone, Copy)]
pub(crate) struct PlacedElement<'a> {
    pub place: u32,
    pub node: &'a Node,
    pub inside: Siblings<'a>,
    pub topic: &'a str,
}

impl<'a> PageRead<'a> {
    ghost use Rattle.std.specs.Prelude.{◌≡◌, ◌++◌, ◌∷◌, [], OnOk};
    ghost use Rattle.map_spec.specs.Elements as elements_spec;
    ghost use Rattle.xref_links.specs.Adding as spec;
    ghost use Rattle.xref_links.specs.Body as body_spec;

    // The document in which an element was written.
    fn home(self, standing: PlacedElement<'a>) -> &'a Name
        requires { spec.IsPlaced self standing }
        ensures { result.now ≡ (body_spec.body_element self.entry.body.now standing.entry.place
            standing.entry.node.now).doc }
    {
        let origins = self.body.doc.origins.as_slice();
        &origins[standing.node.origin as usize]
    }

    // The document in which an element's href was written.
    pub(crate) fn href_home(self, standing: PlacedElement<'a>) -> &'a Name
        requires { spec.IsPlaced self standing }
        ensures { result.now ≡ body_spec.href_home self.entry.body.now standing.entry.place }
    {
        let hrefs = self.body.hrefs.as_slice();
        let origins = self.body.doc.origins.as_slice();
        let origin = hrefs[standing.place as usize];
        &origins[origin as usize]
    }

    // Appends a fault of an element, where it was written.
    pub(crate) fn put_fault(
        self,
        standing: PlacedElement<'a>,
        code: FaultCode,
        detail: &str,
        faults: &mut List<Fault>,
    ) -> Result<(), NoMemory>
        requires { spec.IsPlaced self standing }
        ensures { OnOk result (faults.new ≡ faults.old ++ elements_spec.fault_at
            (spec.element_of self.entry standing.entry) code detail.now ∷ []) }
    {
        let name = self.home(standing);
        let fault = fault_at(self.alloc, name, standing.node, code, detail)?;
        Ok(faults.push(fault)?)
    }
}
