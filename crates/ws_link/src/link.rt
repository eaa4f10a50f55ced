//! A link over a WebSocket.

ghost use Rattle.std.specs.Prelude.{◌≤◌, None};
ghost use Rattle.dita_doc.specs.Gives.{OnFault};
ghost use Rattle.dita_outside.specs.Cause as cause_spec;

use crate::handshake::{Socket, open};
use dita_doc::{List, Stop};
use dita_outside::{Failed, Link, with_fault};
use std::alloc::{AllocError, Global};
use std::io::{ErrorKind, Read, Write};
use std::mem::replace;
use std::str;
use tungstenite::{Error, Message};

/// A WebSocket of the server as a link: it tells no messages, and counts each error.
///
/// The handshake is part of the first call, so that it waits on the session's thread. Text and binary
/// messages are received. A message that is UTF-8 is sent as a text, and any other as binary. A close
/// and the end of the stream are the end, unless a message has begun.
///
/// If a call fails, or finds no memory, the link is closed, and each later call fails.
#[derive(Drop)]
pub struct WsLink<S: Read + Write + Drop> {
    state: State<S>,
    faults: u64,
    last: Option<Error>,
}

#[derive(Drop)]
enum State<S: Read + Write + Drop> {
    // The handshake is still to come.
    Connected(S),
    Open(Socket<S>),
    // The peer has ended.
    Ended,
    // A call failed.
    Broken,
}

impl<S: Read + Write + Drop> State<S> {
    // Does the handshake, if it is still to come.
    fn shake(&mut self, alloc: Global) -> Result<(), Error> {
        match replace(self, State::Broken) {
            State::Connected(stream) => *self = State::Open(open(alloc, stream)?),
            state => *self = state,
        }
        Ok(())
    }

    // The next message, or `None` if the peer has ended.
    fn next(&mut self, alloc: Global) -> Result<Option<List<u8>>, Error> {
        self.shake(alloc)?;
        match self {
            State::Open(socket) => match next_message(socket)? {
                Some(message) => Ok(Some(bytes_of(alloc, &message)?)),
                None => {
                    *self = State::Ended;
                    Ok(None)
                }
            },
            State::Ended => Ok(None),
            _ => Err(Error::AlreadyClosed),
        }
    }

    fn put(&mut self, alloc: Global, message: &[u8]) -> Result<(), Error> {
        self.shake(alloc)?;
        match self {
            State::Open(socket) => socket.send(message_of(alloc, message)?),
            _ => Err(Error::AlreadyClosed),
        }
    }
}

impl<S: Read + Write + Drop> WsLink<S> {
    /// A connection as a link. Nothing is read or written yet.
    pub fn new(stream: S) -> WsLink<S> {
        WsLink {
            state: State::Connected(stream),
            faults: 0,
            last: None,
        }
    }

    /// Why the last call that failed did so. For the reader of a message; no contract rests on it.
    pub fn last_error(&self) -> Option<&Error> {
        self.last.as_ref()
    }

    /// The stream, if the handshake was done and neither side has ended.
    pub fn into_open(self) -> Option<S> {
        let WsLink {
            state,
            faults: _,
            last: _,
        } = self;
        match state {
            State::Open(socket) => Some(socket.into_inner().into_stream()),
            _ => None,
        }
    }

    // Closes the link by an error. Out of memory is no fault.
    fn fail(&mut self, error: Error) -> Stop<Failed>
        ensures later { self.old.faults ≤ self.new.faults }
        ensures rose { OnFault result (cause_spec.Rose self.old.faults self.new.faults) }
    {
        self.state = State::Broken;
        if matches!(error, Error::OutOfMemory) {
            return Stop::NoMemory;
        }
        self.faults = with_fault(self.faults);
        self.last = Some(error);
        Stop::Fault(Failed)
    }
}

impl<S: Read + Write + Drop> Link for WsLink<S> {
    ghost told = { λ l. record { left = None; sent = None; faults = l.faults } };

    fn receive(&mut self, alloc: Global) -> Result<Option<List<u8>>, Stop<Failed>> {
        match self.state.next(alloc) {
            Ok(message) => Ok(message),
            Err(error) => Err(self.fail(error)),
        }
    }

    fn send(&mut self, alloc: Global, message: &[u8]) -> Result<(), Stop<Failed>> {
        match self.state.put(alloc, message) {
            Ok(()) => Ok(()),
            Err(error) => Err(self.fail(error)),
        }
    }
}

// The next text or binary message, or `None` at the end. Pings are answered on the way.
fn next_message<S: Read + Write + Drop>(socket: &mut Socket<S>) -> Result<Option<Message>, Error> {
    for _ in 0..u64::MAX {
        match socket.read() {
            Ok(Message::Close(_)) => {
                // The answer to a close goes out, if the peer still takes it.
                let _ = socket.flush();
                return Ok(None);
            }
            Ok(message) => {
                if message.is_text() || message.is_binary() {
                    return Ok(Some(message));
                }
            }
            Err(error) => {
                if !was_interrupted(&error) {
                    return ended(socket, error);
                }
            }
        }
    }
    Err(Error::AttackAttempt)
}

fn was_interrupted(error: &Error) -> bool {
    match error {
        Error::Io(cause) => cause.kind() == ErrorKind::Interrupted,
        _ => false,
    }
}

// The end, if an error only tells of it.
fn ended<S: Read + Write + Drop>(
    socket: &Socket<S>,
    error: Error,
) -> Result<Option<Message>, Error> {
    let is_end = match &error {
        Error::ConnectionClosed => true,
        Error::Protocol(_) => socket.get_ref().has_ended_between_messages(),
        _ => false,
    };
    if is_end { Ok(None) } else { Err(error) }
}

fn bytes_of(alloc: Global, message: &Message) -> Result<List<u8>, AllocError> {
    match message {
        Message::Text(text) => List::from_slice(alloc, text.as_str().as_bytes()),
        Message::Binary(bytes) => List::from_slice(alloc, bytes.as_slice()),
        _ => Ok(List::new(alloc)),
    }
}

fn message_of(alloc: Global, bytes: &[u8]) -> Result<Message, AllocError> {
    match str::from_utf8(bytes) {
        Ok(text) => Message::text(alloc, text),
        Err(_) => Message::binary(alloc, bytes),
    }
}
