//! Objects of the outside that have no memory at one of their calls, counted from 1. Each holds a
//! form in memory, to which its other calls go.

use dita_doc::{List, Name, NoMemory, Stop};
use dita_outside::{Failed, Link, MemLink, MemOutlet, MemSink, Outlet, Sink};
use std::alloc::Global;

/// The most bytes that a `ShortSink` takes at a call.
pub const PIECE: usize = 20;

// How many calls were made, and which of them has no memory.
#[derive(Drop)]
struct Calls {
    made: u32,
    short: u32,
}

impl Calls {
    fn new(short: u32) -> Calls {
        Calls { made: 0, short }
    }

    // Counts a call.
    fn call(&mut self) -> Result<(), NoMemory> {
        self.made = self.made.saturating_add(1);
        if self.made == self.short {
            return Err(NoMemory);
        }
        Ok(())
    }
}

/// A sink that takes a few bytes at each call, and has no memory at one.
#[derive(Drop)]
pub struct ShortSink {
    inside: MemSink,
    calls: Calls,
}

impl ShortSink {
    /// The sink that has no memory at this call.
    pub fn new(inside: MemSink, short: u32) -> ShortSink {
        ShortSink {
            inside,
            calls: Calls::new(short),
        }
    }

    /// What it took.
    pub fn bytes(&self) -> &List<u8> {
        self.inside.bytes()
    }
}

impl Sink for ShortSink {
    ghost use Rattle.dita_outside.specs.Forms as forms_spec;
    ghost use Rattle.std.specs.Prelude.{Some};

    ghost taken = { λ s. Some (forms_spec.sink_bytes s.inside) };

    ghost faults = { λ s. (forms_spec.sink_failing s.inside).faults };

    fn write(&mut self, bytes: &[u8]) -> Result<usize, Stop<Failed>> {
        self.calls.call()?;
        self.inside.write(&bytes[..bytes.len().min(PIECE)])
    }
}

/// An outlet that has no memory at one call.
#[derive(Drop)]
pub struct ShortOutlet {
    inside: MemOutlet,
    calls: Calls,
}

impl ShortOutlet {
    /// The outlet that has no memory at this call.
    pub fn new(inside: MemOutlet, short: u32) -> ShortOutlet {
        ShortOutlet {
            inside,
            calls: Calls::new(short),
        }
    }

    /// The pages that it took, in order.
    pub fn pages(&self) -> &List<(Name, List<u8>)> {
        self.inside.pages()
    }
}

impl Outlet for ShortOutlet {
    ghost use Rattle.dita_outside.specs.Forms as forms_spec;
    ghost use Rattle.std.specs.Prelude.{Some};

    ghost pages = { λ o. Some (forms_spec.outlet_pages o.inside) };

    ghost faults = { λ o. (forms_spec.outlet_failing o.inside).faults };

    fn put_page(&mut self, alloc: Global, name: &Name, bytes: &[u8]) -> Result<(), Stop<Failed>> {
        self.calls.call()?;
        self.inside.put_page(alloc, name, bytes)
    }
}

/// A link that has no memory at one call. The calls `receive` and `send` are counted together.
#[derive(Drop)]
pub struct ShortLink {
    inside: MemLink,
    calls: Calls,
}

impl ShortLink {
    /// The link that has no memory at this call.
    pub fn new(inside: MemLink, short: u32) -> ShortLink {
        ShortLink {
            inside,
            calls: Calls::new(short),
        }
    }

    /// The messages that were sent, in order.
    pub fn sent(&self) -> &List<List<u8>> {
        self.inside.sent()
    }
}

impl Link for ShortLink {
    ghost use Rattle.dita_outside.specs.Forms as forms_spec;

    ghost told = { λ l. forms_spec.link_told l.inside };

    fn receive(&mut self, alloc: Global) -> Result<Option<List<u8>>, Stop<Failed>> {
        self.calls.call()?;
        self.inside.receive(alloc)
    }

    fn send(&mut self, alloc: Global, message: &[u8]) -> Result<(), Stop<Failed>> {
        self.calls.call()?;
        self.inside.send(alloc, message)
    }
}
