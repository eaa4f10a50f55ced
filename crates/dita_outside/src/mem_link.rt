//! Links in memory.

ghost use Rattle.std.specs.Prelude.{◌≡◌, [], ◌∷◌, ◌++◌, is_ok, if◌then◌else◌};

use crate::Failed;
use crate::calls::Calls;
use crate::link::Link;
use dita_doc::{List, Stop};
use std::alloc::{AllocError, Global};
use std::collections::VecDeque;

/// A link in memory that fails at the calls listed. The calls `receive` and `send` are counted
/// together, from 1.
#[derive(Drop)]
pub struct MemLink {
    left: VecDeque<List<u8>>,
    sent: List<List<u8>>,
    calls: Calls,
}

impl MemLink {
    ghost use Rattle.dita_outside.specs.Calls as calls_spec;
    ghost use Rattle.dita_outside.specs.Forms as forms_spec;

    /// A link from which these messages come. It takes no memory.
    pub fn new(alloc: Global, messages: List<List<u8>>, failing: List<u32>) -> MemLink
        ensures left { forms_spec.link_left result ≡ messages }
        ensures sent { forms_spec.link_sent result ≡ [] }
        ensures failing { forms_spec.link_failing result ≡ calls_spec.not_called failing }
    {
        MemLink {
            left: VecDeque::from_vec(messages.into_vec()),
            sent: List::new(alloc),
            calls: Calls::new(failing),
        }
    }

    /// The messages that were sent, in order.
    pub fn sent(&self) -> &List<List<u8>>
        ensures { result.now ≡ forms_spec.link_sent self.now }
    {
        &self.sent
    }
}

impl Link for MemLink {
    ghost use Rattle.std.specs.Prelude.{◌≡◌, [], IsTrue, IfErr, OnOk, false, is_err};
    ghost use Rattle.dita_doc.specs.Gives.{OnFault};
    ghost use Rattle.dita_outside.specs.Calls as calls_spec;
    ghost use Rattle.dita_outside.specs.Cause as cause_spec;
    ghost use Rattle.dita_outside.specs.Forms as forms_spec;
    ghost use Rattle.dita_outside.specs.Links as links_spec;

    ghost told = { forms_spec.link_told };

    fn receive(&mut self, _alloc: Global) -> Result<Option<List<u8>>, Stop<Failed>>
        ensures left { links_spec.Receives (forms_spec.link_told self.old).left
            (forms_spec.link_told self.new).left result }
        ensures sent { links_spec.HasMore (forms_spec.link_told self.old).sent
            (forms_spec.link_told self.new).sent [] }
        ensures cause { cause_spec.HasCauseOrNoMemory (forms_spec.link_told self.old).faults
            (forms_spec.link_told self.new).faults result }
        // It fails at the calls listed, and at no other, and is never out of memory.
        ensures listed { is_err result ≡ calls_spec.is_listed (forms_spec.link_failing self.old) }
        ensures counted { forms_spec.link_failing self.new ≡ calls_spec.after_call
            (cause_spec.is_fault result) (forms_spec.link_failing self.old) }
        ensures memory { cause_spec.is_fault result ≡ is_err result }
    {
        if self.calls.call().is_err() {
            return Err(Stop::Fault(Failed));
        }
        Ok(self.left.pop_front())
    }

    fn send(&mut self, alloc: Global, message: &[u8]) -> Result<(), Stop<Failed>>
        ensures sent { links_spec.Sends (forms_spec.link_told self.old).sent
            (forms_spec.link_told self.new).sent result message.now }
        ensures left { links_spec.HasFewer (forms_spec.link_told self.old).left
            (forms_spec.link_told self.new).left [] }
        ensures cause { cause_spec.HasCauseOrNoMemory (forms_spec.link_told self.old).faults
            (forms_spec.link_told self.new).faults result }
        // It fails at the calls listed, and at no other.
        ensures failed { IfErr result (λ stop. OnFault stop
            (IsTrue (calls_spec.is_listed (forms_spec.link_failing self.old)))) }
        ensures taken { OnOk result
            (calls_spec.is_listed (forms_spec.link_failing self.old) ≡ false) }
        ensures counted { forms_spec.link_failing self.new ≡ calls_spec.after_call
            (cause_spec.is_fault result) (forms_spec.link_failing self.old) }
    {
        if self.calls.call().is_err() {
            return Err(Stop::Fault(Failed));
        }
        push_copy(alloc, &mut self.sent, message)?;
        Ok(())
    }
}

/// A link in memory that fails only when it is out of memory.
#[derive(Drop)]
pub struct SureLink {
    left: VecDeque<List<u8>>,
    sent: List<List<u8>>,
}

impl SureLink {
    ghost use Rattle.dita_outside.specs.Forms as forms_spec;

    /// A link from which these messages come. It takes no memory.
    pub fn new(alloc: Global, messages: List<List<u8>>) -> SureLink
        ensures left { forms_spec.sure_link_left result ≡ messages }
        ensures sent { forms_spec.sure_link_sent result ≡ [] }
    {
        SureLink {
            left: VecDeque::from_vec(messages.into_vec()),
            sent: List::new(alloc),
        }
    }

    /// The messages that were sent, in order.
    pub fn sent(&self) -> &List<List<u8>>
        ensures { result.now ≡ forms_spec.sure_link_sent self.now }
    {
        &self.sent
    }
}

impl Link for SureLink {
    ghost use Rattle.dita_outside.specs.Forms as forms_spec;

    ghost told = { forms_spec.sure_link_told };

    fn receive(&mut self, _alloc: Global) -> Result<Option<List<u8>>, Stop<Failed>> {
        Ok(self.left.pop_front())
    }

    fn send(&mut self, alloc: Global, message: &[u8]) -> Result<(), Stop<Failed>> {
        push_copy(alloc, &mut self.sent, message)?;
        Ok(())
    }
}

// Appends a copy of a message.
fn push_copy(alloc: Global, messages: &mut List<List<u8>>, message: &[u8]) -> Result<(), AllocError>
    ensures { messages.new ≡ (if is_ok result then messages.old ++ message.now ∷ [] else messages.old) }
{
    messages.push(List::from_slice(alloc, message)?)?;
    Ok(())
}
