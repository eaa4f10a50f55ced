//! Who makes the parts of the builds of a desk.

use desk_core::Book;
use desk_lock::{Desk, Pass};
use fact_judge::MapParts;
pub use map_makers::MapMakers;

/// A desk at which maps are built.
pub type MapDesk = Desk<Book<MapParts>>;

/// A pass of such a desk.
pub type MapPass = Pass<Book<MapParts>>;
