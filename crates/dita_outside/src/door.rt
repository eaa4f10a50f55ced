//! Where connections come in.

ghost use Rattle.std.specs.Prelude.{◌≡◌, [], ◌∷◌};
ghost use Rattle.dita_outside.specs.Cause as cause_spec;
ghost use Rattle.dita_outside.specs.Links as links_spec;

use crate::Failed;
use crate::link::Link;
use dita_doc::Stop;
use std::alloc::Global;

/// A door to which peers connect.
pub trait Door {
    /// A connection: a link to the peer.
    type Connection: Link + Send + Drop;

    /// The connections as they were accepted and as they were taken back, both in order, if it tells
    /// them, and how often it failed. The count stands still at 2^64 - 1, the last value of a
    /// counter.
    ghost told: { Self → links_spec.DoorTold };

    /// No more were taken back than were accepted.
    ghost fewer: { (door : Self)
        → links_spec.NoMoreReturned (told door).accepted (told door).returned };

    /// What one door of this type tells, all of them do.
    ghost alike: { (door other : Self) → links_spec.TellAlike (told door) (told other) };

    /// Begins to listen. Port 0 is any free one.
    fn listen(&mut self, port: u16) -> Result<(), Failed>
        ensures accepted { links_spec.HasMore (told self.old).accepted (told self.new).accepted [] }
        ensures returned { links_spec.HasMore (told self.old).returned (told self.new).returned [] }
        ensures cause { cause_spec.HasCause (told self.old).faults (told self.new).faults result };

    /// The next connection. With an `Err` there is none.
    fn accept(&mut self, alloc: Global) -> Result<Self::Connection, Stop<Failed>>
        ensures accepted { links_spec.Accepts Self.Connection.told
            (told self.old).accepted (told self.new).accepted result }
        ensures returned { links_spec.HasMore (told self.old).returned (told self.new).returned [] }
        ensures cause { cause_spec.HasCauseOrNoMemory
            (told self.old).faults (told self.new).faults result };

    /// Takes a connection back. It takes no memory.
    fn end(&mut self, connection: Self::Connection)
        requires { links_spec.SomeAreOut (told self.old).accepted (told self.old).returned }
        ensures accepted { links_spec.HasMore (told self.old).accepted (told self.new).accepted [] }
        ensures returned { links_spec.HasMore (told self.old).returned (told self.new).returned
            (Self.Connection.told connection ∷ []) }
        ensures faults { (told self.new).faults ≡ (told self.old).faults };
}
