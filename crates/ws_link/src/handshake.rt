//! From a connection to a WebSocket.

use crate::frames::Frames;
use crate::origin::is_local_origin;
use http::{Request, Response, StatusCode};
use std::alloc::Global;
use std::io::{self, Read, Write};
use tungstenite::handshake::server::{ErrorResponse, start};
use tungstenite::{Callback, Error, HandshakeError, NoMask, Role, WebSocket, WebSocketConfig};

// The largest message: 8 MiB.
const MESSAGE_LIMIT: usize = 8 << 20;

// How much is read at once.
const READ_SIZE: usize = 16 << 10;

/// A WebSocket of the server.
pub type Socket<S> = WebSocket<Tracked<S>, NoMask>;

/// A stream of frames that knows whether it has ended, and where.
#[derive(Drop)]
pub struct Tracked<S> {
    stream: S,
    frames: Frames,
    has_ended: bool,
}

impl<S> Tracked<S> {
    /// Whether the stream has ended, and not within a message.
    pub fn has_ended_between_messages(&self) -> bool {
        self.has_ended && self.frames.are_between_messages()
    }

    /// The stream itself.
    pub fn into_stream(self) -> S
    where
        S: Drop,
    {
        self.stream
    }
}

impl<S: Read> Read for Tracked<S> {
    ghost remaining = { λ t. S.remaining t.stream };

    fn read(&mut self, into: &mut [u8]) -> io::Result<usize> {
        let count = self.stream.read(into)?;
        if count == 0 && !into.is_empty() {
            self.has_ended = true;
        }
        self.frames.pass(&into[..count]);
        Ok(count)
    }
}

impl<S: Write> Write for Tracked<S> {
    ghost contents = { λ t. S.contents t.stream };

    fn write(&mut self, bytes: &[u8]) -> io::Result<usize> {
        self.stream.write(bytes)
    }

    fn flush(&mut self) -> io::Result<()> {
        self.stream.flush()
    }
}

/// Does the handshake on a connection. A request with an `Origin` of another machine is refused:
/// otherwise any page in a writer's browser could write to the desk.
pub fn open<S: Read + Write + Drop>(alloc: Global, stream: S) -> Result<Socket<S>, Error> {
    match start(alloc, stream, LocalOrigin { alloc }, None).handshake() {
        Ok(socket) => {
            let stream = Tracked {
                stream: socket.into_inner(),
                frames: Frames::new(),
                has_ended: false,
            };
            let role = Role::Server;
            Ok(WebSocket::from_raw_socket(alloc, stream, NoMask, role, Some(config())))
        }
        Err(HandshakeError::Failure(error)) => Err(error),
        Err(HandshakeError::Interrupted(_)) => Err(Error::HandshakeIncomplete),
    }
}

fn config() -> WebSocketConfig {
    WebSocketConfig::default()
        .read_buffer_size(READ_SIZE)
        .max_message_size(Some(MESSAGE_LIMIT))
        .max_frame_size(Some(MESSAGE_LIMIT))
}

// Refuses what pages of other machines ask.
#[derive(Drop)]
struct LocalOrigin {
    alloc: Global,
}

impl Callback for LocalOrigin {
    fn on_request(
        self,
        request: &Request<()>,
        response: Response<()>,
    ) -> Result<Response<()>, ErrorResponse> {
        for origin in request.headers().get_all("origin") {
            if !is_local_origin(origin.as_bytes()) {
                return Err(refusal(self.alloc));
            }
        }
        Ok(response)
    }
}

fn refusal(alloc: Global) -> ErrorResponse {
    let mut response = Response::new(alloc, None);
    *response.status_mut() = StatusCode::FORBIDDEN;
    response
}
