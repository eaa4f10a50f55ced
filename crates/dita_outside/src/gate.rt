//! What makers of parts of builds pass.

use dita_doc::FactKey;

/// What each maker of a part of a build passes before it makes the part: worker 0 is the caller of
/// the build. It may wait, through the runtime that its own type has. The gate of a desk is another
/// thing.
pub trait Gate {
    fn pass(&self, worker: u32, key: &FactKey);
}

/// It lets each maker pass at once.
#[derive(Clone, Copy, Debug)]
pub struct NoGate;

impl Gate for NoGate {
    fn pass(&self, _worker: u32, _key: &FactKey) {}
}
