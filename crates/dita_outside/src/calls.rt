//! The calls of a form in memory.

ghost use Rattle.std.specs.Prelude.{◌≡◌, ◌≤◌, is_err};
ghost use Rattle.dita_outside.specs.Calls as calls_spec;
ghost use Rattle.dita_outside.specs.Cause as cause_spec;

use crate::Failed;
use crate::count::with_fault;
use dita_doc::List;

/// Which calls of a form fail, counted from 1, how many there were, and how many failed.
#[derive(Drop)]
pub struct Calls {
    listed: List<u32>,
    calls: u32,
    faults: u64,
}

impl Calls {
    /// No call yet.
    pub fn new(listed: List<u32>) -> Calls
        ensures { calls_spec.calls_failing result ≡ calls_spec.not_called listed }
    {
        Calls {
            listed,
            calls: 0,
            faults: 0,
        }
    }

    /// Counts a call. It fails if it is listed.
    pub fn call(&mut self) -> Result<(), Failed>
        ensures listed { is_err result ≡ calls_spec.is_listed (calls_spec.calls_failing self.old) }
        ensures counted { calls_spec.calls_failing self.new
            ≡ calls_spec.after_call (is_err result) (calls_spec.calls_failing self.old) }
        ensures cause { cause_spec.HasCause (calls_spec.calls_failing self.old).faults
            (calls_spec.calls_failing self.new).faults result }
    {
        self.calls = self.calls.saturating_add(1);
        if self.listed.as_slice().contains(&self.calls) {
            self.fail();
            return Err(Failed);
        }
        Ok(())
    }

    /// Counts a fault of the last call.
    pub fn fail(&mut self)
        ensures counted { calls_spec.calls_failing self.new
            ≡ calls_spec.failed (calls_spec.calls_failing self.old) }
        ensures later { (calls_spec.calls_failing self.old).faults
            ≤ (calls_spec.calls_failing self.new).faults }
        ensures rose { cause_spec.Rose (calls_spec.calls_failing self.old).faults
            (calls_spec.calls_failing self.new).faults }
    {
        self.faults = with_fault(self.faults);
    }
}
