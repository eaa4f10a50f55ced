//! A door in memory.

ghost use Rattle.std.specs.Prelude.{◌≡◌, ◌+◌, ◌<◌, ◌≤◌, [], ◌∷◌, ◌++◌, IfOk, IsTrue, length, vec_len, vec_capacity};
ghost use Rattle.std.specs.VecDeque.{deque_len};
ghost use Rattle.dita_outside.specs.Rooms as rooms_spec;

use crate::Failed;
use crate::calls::Calls;
use crate::door::Door;
use crate::mem_link::MemLink;
use dita_doc::{List, NoMemory, Stop};
use std::alloc::Global;
use std::collections::VecDeque;
use std::mem::replace;
use std::snapshot::Snapshot;

/// A door in memory that hands out links, and fails at the calls listed. The calls `listen` and
/// `accept` are counted together, from 1. An `accept` with no link left fails too.
///
/// Each `accept` takes the room in which the door then keeps all links that it has got back.
#[derive(Drop)]
pub struct MemDoor {
    links: VecDeque<MemLink>,
    accepted: Vec<Snapshot<MemLink>>,
    returned: List<MemLink>,
    rooms: VecDeque<Vec<MemLink>>,
    calls: Calls,
    ghost fewer: { length returned ≤ length accepted.items },
    ghost enough: { vec_len accepted ≤ length returned + deque_len rooms },
    ghost fit: { IsTrue (rooms_spec.are_rooms (length returned) rooms.items) },
}

impl MemDoor {
    ghost use Rattle.dita_outside.specs.Calls as calls_spec;
    ghost use Rattle.dita_outside.specs.Forms as forms_spec;

    /// A door that hands out these links, in order. It takes no memory.
    pub fn new(links: List<MemLink>, failing: List<u32>) -> MemDoor
        ensures links { forms_spec.door_links result ≡ links }
        ensures accepted { forms_spec.door_accepted result ≡ [] }
        ensures returned { forms_spec.door_returned result ≡ [] }
        ensures failing { forms_spec.door_failing result ≡ calls_spec.not_called failing }
    {
        let links = links.into_vec();
        let alloc = *links.allocator();
        MemDoor {
            links: VecDeque::from_vec(links),
            accepted: Vec::new(alloc),
            returned: List::new(alloc),
            rooms: VecDeque::new(alloc),
            calls: Calls::new(failing),
        }
    }

    /// The links that were taken back, in order.
    pub fn returned(&self) -> &List<MemLink>
        ensures { result.now ≡ forms_spec.door_returned self.now }
    {
        &self.returned
    }
}

impl Door for MemDoor {
    ghost use Rattle.std.specs.Prelude.{◌≡◌, ◌<◌, [], ◌∷◌, ◌++◌, IsTrue, IfErr, IfOk, OnOk, OnErr, false, is_err, length};
    ghost use Rattle.dita_doc.specs.Gives.{OnFault};
    ghost use Rattle.dita_outside.specs.Calls as calls_spec;
    ghost use Rattle.dita_outside.specs.Cause as cause_spec;
    ghost use Rattle.dita_outside.specs.Forms as forms_spec;
    ghost use Rattle.dita_outside.specs.Links as links_spec;
    ghost use Rattle.dita_outside.specs.Rooms as rooms_spec;

    type Connection = MemLink;

    ghost told = { forms_spec.door_told };

    ghost fewer = { λ door. rooms_spec.no_more_seen forms_spec.link_told
        (λ accepted. accepted.value) door.returned door.accepted.items door.fewer };

    ghost alike = { λ _ _. record { accepted = tt; returned = tt } };

    fn listen(&mut self, _port: u16) -> Result<(), Failed>
        ensures accepted { links_spec.HasMore (forms_spec.door_told self.old).accepted
            (forms_spec.door_told self.new).accepted [] }
        ensures returned { links_spec.HasMore (forms_spec.door_told self.old).returned
            (forms_spec.door_told self.new).returned [] }
        ensures cause { cause_spec.HasCause (forms_spec.door_told self.old).faults
            (forms_spec.door_told self.new).faults result }
        // It fails at the calls listed, and at no other, and the same links are left.
        ensures listed { is_err result ≡ calls_spec.is_listed (forms_spec.door_failing self.old) }
        ensures counted { forms_spec.door_failing self.new
            ≡ calls_spec.after_call (is_err result) (forms_spec.door_failing self.old) }
        ensures links { forms_spec.door_links self.new ≡ forms_spec.door_links self.old }
    {
        self.calls.call()
    }

    fn accept(&mut self, alloc: Global) -> Result<MemLink, Stop<Failed>>
        ensures accepted { links_spec.Accepts forms_spec.link_told
            (forms_spec.door_told self.old).accepted (forms_spec.door_told self.new).accepted result }
        ensures returned { links_spec.HasMore (forms_spec.door_told self.old).returned
            (forms_spec.door_told self.new).returned [] }
        ensures cause { cause_spec.HasCauseOrNoMemory (forms_spec.door_told self.old).faults
            (forms_spec.door_told self.new).faults result }
        // It fails if the call is listed or no link is left, and else never.
        ensures failed { IfErr result (λ stop. OnFault stop (IsTrue (forms_spec.accept_fails self.old))) }
        ensures taken { OnOk result (forms_spec.accept_fails self.old ≡ false) }
        // The next link is handed out, or all are left.
        ensures next { IfOk result (λ link. forms_spec.door_links self.old
            ≡ link ∷ forms_spec.door_links self.new) }
        ensures links { OnErr result (forms_spec.door_links self.new ≡ forms_spec.door_links self.old) }
        ensures counted { forms_spec.door_failing self.new ≡ calls_spec.after_call
            (cause_spec.is_fault result) (forms_spec.door_failing self.old) }
    {
        if self.calls.call().is_err() {
            return Err(Stop::Fault(Failed));
        }
        let Some(next) = self.links.front() else {
            self.calls.fail();
            return Err(Stop::Fault(Failed));
        };
        let accepted = Snapshot::of(next);
        add_room(alloc, &mut self.rooms, self.returned.len())?;
        self.accepted.push(accepted)?;
        match self.links.pop_front() {
            Some(link) => Ok(link),
            None => unreachable!(),
        }
    }

    fn end(&mut self, connection: MemLink)
        requires { length (forms_spec.door_returned self.old) < length (forms_spec.door_accepted self.old) }
        ensures accepted { links_spec.HasMore (forms_spec.door_told self.old).accepted
            (forms_spec.door_told self.new).accepted [] }
        ensures returned { links_spec.HasMore (forms_spec.door_told self.old).returned
            (forms_spec.door_told self.new).returned
            (forms_spec.link_told connection ∷ []) }
        ensures faults { (forms_spec.door_told self.new).faults ≡ (forms_spec.door_told self.old).faults }
        // The link is kept, and nothing else changes.
        ensures kept { forms_spec.door_returned self.new
            ≡ forms_spec.door_returned self.old ++ connection ∷ [] }
        ensures counted { forms_spec.door_failing self.new ≡ forms_spec.door_failing self.old }
        ensures links { forms_spec.door_links self.new ≡ forms_spec.door_links self.old }
    {
        match self.rooms.pop_front() {
            Some(room) => {
                let links = replace(&mut self.returned, List::new(*room.allocator()));
                self.returned = with_one_more(room, links, connection);
            }
            None => unreachable!(),
        }
    }
}

// Takes room for all that may be given back until then, if so many were given back already.
#[tactic(auto, using(crate::proofs::RoomLaws::are_rooms_more))]
fn add_room(
    alloc: Global,
    rooms: &mut VecDeque<Vec<MemLink>>,
    returned: usize,
) -> Result<(), NoMemory>
    requires { IsTrue (rooms_spec.are_rooms returned rooms.old.items) }
    ensures fit { IsTrue (rooms_spec.are_rooms returned rooms.new.items) }
    ensures fewer { deque_len rooms.old ≤ deque_len rooms.new }
    ensures more { IfOk result (λ _. deque_len rooms.new ≡ deque_len rooms.old + 1) }
{
    let count = returned.checked_add(rooms.len()).ok_or(NoMemory)?;
    let count = count.checked_add(1).ok_or(NoMemory)?;
    rooms.push_back(Vec::with_capacity(alloc, count)?)?;
    Ok(())
}

// The links and one more, in a room that is large enough.
fn with_one_more(mut room: Vec<MemLink>, links: List<MemLink>, link: MemLink) -> List<MemLink>
    requires empty { room.items ≡ [] }
    requires enough { length links < vec_capacity room }
    ensures { result ≡ links ++ link ∷ [] }
{
    let mut links = links.into_vec();
    if room.append(&mut links).is_err() || room.push(link).is_err() {
        unreachable!()
    }
    List::from_vec(room)
}
