//! The history of all that was asked, with what is stored after it.

ghost use Rattle.std.specs.Prelude.{◌≡◌, ◌<◌, ◌≤◌, ◌∷◌, [], ◌++◌, Some, IfOk, IfErr, OnOk, OnErr, length, option_map};
ghost use Rattle.std.specs.Arc.{arc_value};
ghost use Rattle.std.specs.List.{slice_get};
ghost use Rattle.dita_doc.specs.History as history_spec;
ghost use Rattle.dita_doc.specs.Request as request_spec;
ghost use Rattle.dita_doc.specs.Seen as seen_spec;
ghost use Rattle.version_store.specs.Change as change_spec;
ghost use Rattle.version_store.specs.Kept as kept_spec;

use crate::answer::{Decided, answer_to};
use crate::change::change;
use crate::full::Full;
use crate::reply::copy_of;
use crate::size::text_bytes;
use dita_doc::{Entry, NoMemory, Reply, Request, Sources, Stop};
use std::alloc::{AllocError, Global};
use std::marker::Model;
use std::sync::Arc;

/// The most entries of a desk's history.
pub const ENTRY_LIMIT: u64 = 65_536;

/// The most bytes of names and bodies of a desk's history.
pub const TEXT_LIMIT: u64 = 67_108_864;

/// A history, with what is stored after it.
#[derive(Drop)]
pub struct Store {
    sources: Arc<Sources>,
    entries: Vec<Entry>,
    // The bytes of the names and bodies of all entries.
    text: u64,
    entry_limit: u64,
    text_limit: u64,
}

impl Model for Store {
    ghost use Rattle.std.specs.Arc.{arc_value};
    ghost use Rattle.version_store.specs.Kept as kept_spec;

    ghost Value = { kept_spec.Kept };

    ghost view = { λ store.
        kept_spec.kept_of store.entries.items store.entry_limit store.text_limit };

    ghost invariant = { λ store. kept_spec.IsKept (arc_value store.sources) store.text
        (kept_spec.kept_of store.entries.items store.entry_limit store.text_limit) };
}

impl Store {
    /// A store of which nothing was asked yet, with the limits of a desk.
    pub fn new(alloc: Global) -> Result<Store, NoMemory>
        ensures { IfOk result (λ store. store
            ≡ kept_spec.nothing_kept kept_spec.entry_limit_of_desk kept_spec.text_limit_of_desk) }
    {
        Store::with_limits(alloc, ENTRY_LIMIT, TEXT_LIMIT)
    }

    /// A store of which nothing was asked yet, for at most so many entries, and so many bytes of
    /// their names and bodies.
    pub fn with_limits(alloc: Global, entries: u64, text_bytes: u64) -> Result<Store, NoMemory>
        ensures { IfOk result (λ store. store ≡ kept_spec.nothing_kept entries text_bytes) }
    {
        Ok(Store {
            sources: Arc::new(alloc, Sources::new(alloc))?,
            entries: Vec::new(alloc),
            text: 0,
            entry_limit: entries,
            text_limit: text_bytes,
        })
    }

    /// Answers a request of a session, puts it at the end of the history, and says at which place.
    /// A reply shares the stored bytes, and a request is kept as it is: no text is copied.
    ///
    /// # Errors
    ///
    /// What stands in the history, if one more request would pass a limit, or out of memory.
    pub fn answer(
        &mut self,
        alloc: Global,
        session: u32,
        number: u32,
        request: Request,
    ) -> Result<u64, Stop<Full>>
        requires origin { seen_spec.HasOwnOrigin request }
        requires edits { request_spec.HasFewEdits (seen_spec.request_seen request) }
        ensures place { IfOk result (λ place. place ≡ length self.old.history) }
        ensures ok { OnOk result (self.new
            ≡ kept_spec.answered session number (seen_spec.request_seen request) self.old) }
        ensures room { OnOk result (kept_spec.Fits self.old (seen_spec.request_seen request)) }
        ensures err { OnErr result (self.new ≡ self.old) }
        ensures full { IfErr result
            (kept_spec.IsFullIf self.old (seen_spec.request_seen request)) }
    {
        let Decided { reply, left } = self.answer_to(alloc, &request)?;
        let entry = Entry {
            session,
            number,
            request,
            reply,
        };
        let place = self.push(entry, left)?;
        Ok(place)
    }

    /// Answers a request as `answer` does, and hands out the reply too. It shares its bytes with
    /// the reply of the entry; a list of names is copied, before anything changes.
    ///
    /// # Errors
    ///
    /// Those of `answer`.
    pub fn answer_with_reply(
        &mut self,
        alloc: Global,
        session: u32,
        number: u32,
        request: Request,
    ) -> Result<(u64, Reply), Stop<Full>>
        requires origin { seen_spec.HasOwnOrigin request }
        requires edits { request_spec.HasFewEdits (seen_spec.request_seen request) }
        ensures place { IfOk result (λ answer. answer.0 ≡ length self.old.history) }
        ensures reply { IfOk result (λ answer. seen_spec.reply_seen answer.1
            ≡ kept_spec.reply_now self.old (seen_spec.request_seen request)) }
        ensures ok { OnOk result (self.new
            ≡ kept_spec.answered session number (seen_spec.request_seen request) self.old) }
        ensures room { OnOk result (kept_spec.Fits self.old (seen_spec.request_seen request)) }
        ensures err { OnErr result (self.new ≡ self.old) }
        ensures full { IfErr result
            (kept_spec.IsFullIf self.old (seen_spec.request_seen request)) }
    {
        let Decided { reply, left } = self.answer_to(alloc, &request)?;
        let copy = copy_of(alloc, &reply)?;
        let entry = Entry {
            session,
            number,
            request,
            reply,
        };
        let place = self.push(entry, left)?;
        Ok((place, copy))
    }

    /// The entry at a place.
    pub fn entry(&self, place: u64) -> &Entry
        requires { place < length self.now.history }
        ensures { slice_get self.now.history place ≡ Some (seen_spec.entry_seen result.now) }
    {
        &self.entries[place as usize]
    }

    /// What is stored after all that was asked. A clone of it stays what it is when more is asked.
    pub fn sources(&self) -> &Arc<Sources>
        ensures { arc_value result.now ≡ kept_spec.stored_now self.now }
    {
        &self.sources
    }

    /// How many requests were answered.
    pub fn entries(&self) -> u64
        ensures value { result ≡ length self.now.history }
        ensures legal { history_spec.IsLegal self.now.history }
        ensures within { (length self.now.history ≤ self.now.entry_limit)
            × (history_spec.history_size self.now.history ≤ self.now.text_limit) }
    {
        self.entries.len() as u64
    }

    // The answer to one more request, if there is room for it.
    fn answer_to(&self, alloc: Global, request: &Request) -> Result<Decided, Stop<Full>>
        requires origin { seen_spec.HasOwnOrigin request.now }
        requires edits { request_spec.HasFewEdits (seen_spec.request_seen request.now) }
        ensures reply { IfOk result (λ answer. seen_spec.reply_seen answer.reply
            ≡ kept_spec.reply_now self.now (seen_spec.request_seen request.now)) }
        ensures left { IfOk result (λ answer. kept_spec.IsLeft self.now
            (seen_spec.request_seen request.now) (seen_spec.reply_seen answer.reply)
            (option_map arc_value answer.left)) }
        ensures room { OnOk result
            (kept_spec.Fits self.now (seen_spec.request_seen request.now)) }
        ensures full { IfErr result
            (kept_spec.IsFullIf self.now (seen_spec.request_seen request.now)) }
    {
        let place = self.entries();
        let room = u128::from(self.text_limit - self.text);
        if place >= self.entry_limit || text_bytes(request) > room {
            return Err(Stop::Fault(Full {
                entries: place,
                bytes: self.text,
            }));
        }
        Ok(answer_to(alloc, &self.sources, place, request)?)
    }

    // Puts an entry at the end of the history, changes the sources as it says, and tells its place.
    fn push(&mut self, entry: Entry, left: Option<Arc<Sources>>) -> Result<u64, AllocError>
        requires origin { seen_spec.HasOwnOrigin entry.request }
        requires edits { request_spec.HasFewEdits (seen_spec.request_seen entry.request) }
        requires room { kept_spec.Fits self.old (seen_spec.request_seen entry.request) }
        requires reply { seen_spec.reply_seen entry.reply
            ≡ kept_spec.reply_now self.old (seen_spec.request_seen entry.request) }
        requires left { kept_spec.IsLeft self.old (seen_spec.request_seen entry.request)
            (seen_spec.reply_seen entry.reply) (option_map arc_value left) }
        ensures place { IfOk result (λ place. place ≡ length self.old.history) }
        ensures ok { OnOk result (self.new ≡ kept_spec.answered entry.session entry.number
            (seen_spec.request_seen entry.request) self.old) }
        ensures err { OnErr result (self.new ≡ self.old) }
    {
        let size = text_bytes(&entry.request);
        let place = self.entries();
        append(&mut self.entries, &mut self.sources, entry, left)?;
        self.text += size as u64;
        Ok(place)
    }
}

// Puts an entry at the end, and changes the sources as it says. Without memory nothing changes.
fn append(
    entries: &mut Vec<Entry>,
    sources: &mut Arc<Sources>,
    entry: Entry,
    left: Option<Arc<Sources>>,
) -> Result<(), AllocError>
    requires text { change_spec.StoresTextIfEdit
        (seen_spec.request_seen entry.request) (seen_spec.reply_seen entry.reply) }
    requires origin { seen_spec.HasOwnOrigin entry.request }
    ensures entries { OnOk result (entries.new.items ≡ entries.old.items ++ entry ∷ []) }
    ensures sources { OnOk result (arc_value sources.new
        ≡ change_spec.left_by (arc_value sources.old) (seen_spec.request_seen entry.request)
        (seen_spec.reply_seen entry.reply) (option_map arc_value left)) }
    ensures err { OnErr result ((entries.new.items ≡ entries.old.items)
        × (arc_value sources.new ≡ arc_value sources.old)) }
{
    // With this room the push takes no memory: it can't fail once the sources have changed.
    entries.reserve(1)?;
    change(sources, &entry.request, &entry.reply, left)?;
    entries.push(entry)?;
    Ok(())
}
