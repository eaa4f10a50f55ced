//! The door and a client in one process.

use dita_doc::{List, Stop};
use dita_outside::{Door, Failed, Link};
use std::alloc::Global;
use std::net::{Ipv4Addr, SocketAddrV4, TcpStream};
use std::test::Fail;
use std::thread;
use tungstenite::handshake::client::request_of;
use tungstenite::{Error, HandshakeError, Message, client};
use ws_link::TcpDoor;

// What the client was answered, and whether the server then ended the connection as it should.
#[derive(Drop)]
struct Heard {
    answer: Message,
    has_closed: bool,
}

// Connects, sends a text in pieces of its own, reads one answer, and closes.
fn talk(rt: &HostRuntime, alloc: Global, port: u16) -> Result<Heard, Error> {
    let stream = TcpStream::connect(rt, SocketAddrV4::new(Ipv4Addr::LOCALHOST, port))?;
    let source = rt.clone()?;
    let request = request_of(alloc, "ws://127.0.0.1/")?;
    let mut socket = match client(alloc, source, request, stream) {
        Ok((socket, _)) => socket,
        Err(HandshakeError::Failure(error)) => return Err(error),
        Err(HandshakeError::Interrupted(_)) => return Err(Error::HandshakeIncomplete),
    };
    socket.send(Message::text(alloc, "names\n")?)?;
    let answer = socket.read()?;
    socket.close(None)?;
    let has_closed = matches!(socket.read(), Ok(Message::Close(_)))
        && matches!(socket.read(), Err(Error::ConnectionClosed));
    Ok(Heard { answer, has_closed })
}

// Takes one connection, answers its message, and waits for its end. The answer of each call.
fn serve(
    alloc: Global,
    door: &mut TcpDoor<HostRuntime>,
) -> Result<(Option<List<u8>>, Option<List<u8>>), Stop<Failed>> {
    let mut link = door.accept(alloc)?;
    let first = link.receive(alloc)?;
    link.send(alloc, b"entry 0 1 1 names 0\n")?;
    let second = link.receive(alloc)?;
    door.end(link);
    Ok((first, second))
}

#[test]
fn a_client_is_answered(rt: HostRuntime) -> Result<(), Fail> {
    let alloc = rt.alloc();
    let mut door = TcpDoor::new(rt.clone()?);
    assert!(rt; door.listen(0).is_ok());
    let port = door.port().ok_or("no port")?;
    let (served, heard) = thread::join(&rt, || serve(alloc, &mut door), || talk(&rt, alloc, port));
    let (first, second) = served.map_err(|_| "not served")?;
    assert!(rt; first.as_ref().map(List::as_slice) == Some(b"names\n".as_slice()));
    assert!(rt; second.is_none());
    let heard = heard.map_err(|_| "not heard")?;
    assert!(rt;
        matches!(&heard.answer, Message::Text(text) if text.as_str() == "entry 0 1 1 names 0\n")
    );
    assert!(rt; heard.has_closed);
    Ok(())
}
