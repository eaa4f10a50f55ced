//! Which pages may open a connection.

ghost use Rattle.std.specs.Prelude.{◌≡◌};
ghost use Rattle.ws_link.specs.Origin as spec;

use dita_doc::are_digits;

/// Whether a header `Origin` names this machine: the host 127.0.0.1 or localhost, by http or https,
/// at any port. A browser sends this header with each WebSocket that a page opens.
pub fn is_local_origin(origin: &[u8]) -> bool
    ensures { result ≡ spec.is_local origin.now }
{
    is_behind(origin, b"http://127.0.0.1")
        || is_behind(origin, b"http://localhost")
        || is_behind(origin, b"https://127.0.0.1")
        || is_behind(origin, b"https://localhost")
}

// Whether an origin has this beginning, and a port behind it.
fn is_behind(origin: &[u8], front: &[u8]) -> bool
    ensures { result ≡ spec.is_behind origin.now front.now }
{
    match origin.strip_prefix(front) {
        Some(port) => is_port(port),
        None => false,
    }
}

// No port, or a colon and the digits of one.
fn is_port(bytes: &[u8]) -> bool
    ensures { result ≡ spec.is_port bytes.now }
{
    match bytes {
        [] => true,
        [first, digits @ ..] => *first == b':' && !digits.is_empty() && are_digits(digits),
    }
}
