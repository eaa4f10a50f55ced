//! All sessions have ended: their passes are taken in, and their connections are handed back.

ghost use Rattle.std.specs.Prelude.{◌≡◌};
ghost use Rattle.desk_lock.specs.Tokens as tokens_spec;
ghost use Rattle.desk_serve.specs.Accepting as accepting_spec;
ghost use Rattle.desk_serve.specs.Ending as spec;

use crate::builds::Builds;
use crate::session::{Ended, Running};
use desk_core::Book;
use desk_lock::{Desk, Pass};
use desk_session::SessionEnd;
use dita_outside::Door;
use facts::Parts;
use std::thread::Threads;

/// Takes in the sessions, and hands their connections back in the order in which they came. Says
/// whether one ended out of memory.
pub(crate) fn end_all<R: Threads, P: Parts, B: Builds, D: Door>(
    rt: &R,
    desk: &Desk<Book<P>>,
    pass: &mut Pass<Book<P>>,
    running: Vec<Running<P, B, D::Connection>>,
    door: &mut D,
) -> bool
    requires of { tokens_spec.IsPassOf desk.now pass.old }
    requires begun { accepting_spec.AreBegun B.clean D.Connection.told desk.now
        (tokens_spec.pass_view pass.old).limits 1 running.items }
    requires out { spec.AreOut D.told door.old
        (accepting_spec.links_of D.Connection.told running.items) }
    ensures of { tokens_spec.IsPassOf desk.now pass.new }
    ensures ends { spec.EndsAll B.clean D.Connection.told
        (tokens_spec.pass_view pass.old) (D.told door.old) running.items
        (tokens_spec.pass_view pass.new) (D.told door.new) result }
{
    let mut lost = false;
    for session in running {
        let Ended {
            pass: other,
            link,
            end,
        } = session.ended(rt);
        desk.end_session(pass, other);
        door.end(link);
        lost = lost_with(lost, end);
    }
    lost
}

// Whether a session ended out of memory, or one before it did.
fn lost_with(lost: bool, end: SessionEnd) -> bool
    ensures { result ≡ spec.lost_with lost end }
{
    match end {
        SessionEnd::NoMemory => true,
        SessionEnd::Closed | SessionEnd::LinkFault | SessionEnd::Script(_) | SessionEnd::Full(_) =>
            lost,
    }
}
