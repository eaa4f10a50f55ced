//! How a session ends.

use dita_doc::{NoMemory, Stop};
use dita_outside::Failed;
use script_text::ScriptFault;
use std::alloc::AllocError;
use version_store::Full;

/// How a session ends.
#[derive(Clone, Copy, Debug, PartialEq, Eq)]
pub enum SessionEnd {
    /// The link gave its end.
    Closed,
    /// The link failed.
    LinkFault,
    /// A line of what was received is faulty.
    Script(ScriptFault),
    /// One more request would pass a limit of the history.
    Full(Full),
    NoMemory,
}

impl From<NoMemory> for SessionEnd {
    ghost use Rattle.std.specs.Prelude.{◌≡◌};
    ghost use Rattle.desk_session.specs.declared.end.SessionEnd.TheVariants as ends;

    ghost from_gives = { λ _ end. end ≡ ends.NoMemory };

    fn from(_: NoMemory) -> Self {
        SessionEnd::NoMemory
    }
}

impl From<AllocError> for SessionEnd {
    ghost use Rattle.std.specs.Prelude.{◌≡◌};
    ghost use Rattle.desk_session.specs.declared.end.SessionEnd.TheVariants as ends;

    ghost from_gives = { λ _ end. end ≡ ends.NoMemory };

    fn from(_: AllocError) -> Self {
        SessionEnd::NoMemory
    }
}

impl From<Stop<Failed>> for SessionEnd {
    ghost use Rattle.std.specs.Prelude.{◌≡◌};
    ghost use Rattle.desk_session.specs.Saying as saying_spec;

    ghost from_gives = { λ stop end. end ≡ saying_spec.end_by stop };

    fn from(stop: Stop<Failed>) -> Self {
        match stop {
            Stop::Fault(Failed) => SessionEnd::LinkFault,
            Stop::NoMemory => SessionEnd::NoMemory,
        }
    }
}
