//! Links over WebSockets, and the door of this machine to which they come.
//!
//! These are adapters of the system: they tell no messages and no connections, and count each
//! error.
#![tactic(auto)]

mod door;
mod frames;
mod handshake;
mod link;
mod origin;

pub use door::TcpDoor;
pub use link::WsLink;
pub use origin::is_local_origin;
