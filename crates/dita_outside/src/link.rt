//! Messages that come and go.

ghost use Rattle.std.specs.Prelude.{[]};
ghost use Rattle.dita_outside.specs.Cause as cause_spec;
ghost use Rattle.dita_outside.specs.Links as links_spec;

use crate::Failed;
use dita_doc::{List, Stop};
use std::alloc::Global;

/// A link to one peer: messages come from it, and messages are sent to it.
pub trait Link {
    /// The messages that are still to come and those that were sent, if it tells them, and how often
    /// it failed. The count stands still at 2^64 - 1, the last value of a counter.
    ghost told: { Self → links_spec.LinkTold };

    /// The next message, or `None` if the peer has ended. With an `Err` none was taken.
    fn receive(&mut self, alloc: Global) -> Result<Option<List<u8>>, Stop<Failed>>
        ensures left { links_spec.Receives (told self.old).left (told self.new).left result }
        ensures sent { links_spec.HasMore (told self.old).sent (told self.new).sent [] }
        ensures cause { cause_spec.HasCauseOrNoMemory
            (told self.old).faults (told self.new).faults result };

    /// Sends a message whole. With an `Err` it was not sent.
    fn send(&mut self, alloc: Global, message: &[u8]) -> Result<(), Stop<Failed>>
        ensures sent { links_spec.Sends
            (told self.old).sent (told self.new).sent result message.now }
        ensures left { links_spec.HasFewer (told self.old).left (told self.new).left [] }
        ensures cause { cause_spec.HasCauseOrNoMemory
            (told self.old).faults (told self.new).faults result };
}
