//! The door of this machine.

ghost use Rattle.std.specs.Prelude.{◌≡◌, ◌≤◌, None};
ghost use Rattle.dita_outside.specs.Cause as cause_spec;

use crate::link::WsLink;
use dita_doc::Stop;
use dita_outside::{Door, Failed, with_fault};
use std::alloc::Global;
use std::io::{self, Eprint, ErrorKind, Write};
use std::net::{Ipv4Addr, Net, SocketAddrV4, TcpListener, TcpStream};

// How many connections in a row may be gone before they are accepted.
const GONE_LIMIT: u32 = 65536;

// A close frame of the server, with the code of a normal close.
const CLOSE: [u8; 4] = [0x88, 2, 0x03, 0xe8];

/// A door at 127.0.0.1 to which WebSockets come: it tells no connections, and counts each error of
/// the system. Once it listens, standard error says `listening on 127.0.0.1:PORT`.
///
/// `accept` takes a connection without its handshake, so that no peer can hold the others up.
#[derive(Drop)]
pub struct TcpDoor<R: Net<Listener = TcpListener, Stream = TcpStream> + Eprint + Drop> {
    rt: R,
    listener: Option<TcpListener>,
    // The port that was asked for last.
    asked: u16,
    port: Option<u16>,
    faults: u64,
    last: Option<io::Error>,
}

impl<R: Net<Listener = TcpListener, Stream = TcpStream> + Eprint + Drop> TcpDoor<R> {
    /// A door that does not listen yet.
    pub fn new(rt: R) -> TcpDoor<R> {
        TcpDoor {
            rt,
            listener: None,
            asked: 0,
            port: None,
            faults: 0,
            last: None,
        }
    }

    /// The port that was asked for last, or 0.
    pub fn asked(&self) -> u16 {
        self.asked
    }

    /// The port at which it listens.
    pub fn port(&self) -> Option<u16> {
        self.port
    }

    /// The error of the last call that failed. For the reader of a message; no contract rests on it.
    pub fn last_error(&self) -> Option<io::Error> {
        self.last
    }

    fn bind(&mut self, port: u16) -> io::Result<()>
        ensures { self.new.faults ≡ self.old.faults }
    {
        self.asked = port;
        let address = SocketAddrV4::new(Ipv4Addr::LOCALHOST, port);
        let listener = TcpListener::bind(&self.rt, address)?;
        let port = listener.local_addr()?.port();
        self.listener = Some(listener);
        self.port = Some(port);
        // If standard error can't be written, the peers still know the port.
        let _ = self
            .rt
            .eprintln(format_args!("listening on 127.0.0.1:{port}"));
        Ok(())
    }

    // The next connection that is still there.
    fn next(&self) -> io::Result<TcpStream> {
        let Some(listener) = &self.listener else {
            return Err(io::Error::from(ErrorKind::NotConnected));
        };
        for _ in 0..GONE_LIMIT {
            match listener.accept() {
                Ok((stream, _)) => return Ok(stream),
                Err(error) if is_of_peer(error.kind()) => {}
                Err(error) => return Err(error),
            }
        }
        Err(io::Error::from(ErrorKind::ConnectionAborted))
    }

    fn fail(&mut self, error: io::Error)
        ensures later { self.old.faults ≤ self.new.faults }
        ensures rose { cause_spec.Rose self.old.faults self.new.faults }
    {
        self.faults = with_fault(self.faults);
        self.last = Some(error);
    }
}

impl<R: Net<Listener = TcpListener, Stream = TcpStream> + Eprint + Drop> Door for TcpDoor<R> {
    type Connection = WsLink<TcpStream>;

    ghost told = { λ d. record { accepted = None; returned = None; faults = d.faults } };

    ghost fewer = { λ _. tt };

    ghost alike = { λ _ _. record { accepted = tt; returned = tt } };

    fn listen(&mut self, port: u16) -> Result<(), Failed> {
        match self.bind(port) {
            Ok(()) => Ok(()),
            Err(error) => {
                self.fail(error);
                Err(Failed)
            }
        }
    }

    fn accept(&mut self, _alloc: Global) -> Result<WsLink<TcpStream>, Stop<Failed>> {
        match self.next() {
            Ok(stream) => {
                // Answers are short, and none waits for the next one. If that can't be said, they
                // only come later.
                let _ = stream.set_nodelay(true);
                Ok(WsLink::new(stream))
            }
            Err(error) => {
                self.fail(error);
                Err(Stop::Fault(Failed))
            }
        }
    }

    fn end(&mut self, connection: WsLink<TcpStream>) {
        if let Some(stream) = connection.into_open() {
            close(&stream);
        }
    }
}

// An error of a connection that is gone, or of a call that was interrupted.
fn is_of_peer(kind: ErrorKind) -> bool {
    matches!(
        kind,
        ErrorKind::Interrupted | ErrorKind::ConnectionAborted | ErrorKind::ConnectionReset
    )
}

// Tells the peer that the connection closes, if that needs no waiting.
fn close(mut stream: &TcpStream) {
    if stream.set_nonblocking(true).is_ok() {
        let _ = stream.write(&CLOSE);
    }
}
