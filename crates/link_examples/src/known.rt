//! Links over bytes that are known.

use dita_doc::{List, Stop};
use dita_outside::{Failed, Link};
use std::alloc::Global;
use std::io::{Chain, Read};
use std::test::Fail;
use tungstenite::Duplex;
use ws_link::{WsLink, is_local_origin};

// A request of RFC 6455, section 1.3, up to its headers of a browser.
const HEAD: &[u8] =
    b"GET / HTTP/1.1\r\nHost: 127.0.0.1\r\nUpgrade: websocket\r\nConnection: Upgrade\r\n\
Sec-WebSocket-Key: dGhlIHNhbXBsZSBub25jZQ==\r\nSec-WebSocket-Version: 13\r\n\r\n";

const HEAD_OF_PAGE: &[u8] =
    b"GET / HTTP/1.1\r\nHost: 127.0.0.1\r\nUpgrade: websocket\r\nConnection: Upgrade\r\n\
Sec-WebSocket-Key: dGhlIHNhbXBsZSBub25jZQ==\r\nSec-WebSocket-Version: 13\r\n\
Origin: https://example.org\r\n\r\n";

// A text in two frames with a ping between them, then a binary message. The mask is 0.
const MESSAGES: &[u8] =
    b"\x01\x82\0\0\0\0na\x89\x80\0\0\0\0\x80\x84\0\0\0\0mes\n\x82\x81\0\0\0\0\xff";

// The same with a close.
const CLOSED: &[u8] = b"\x81\x81\0\0\0\0x\x88\x80\0\0\0\0";

// The first bytes of a frame.
const CUT: &[u8] = b"\x81\x85\0\0\0\0ab";

type Stream = Duplex<Chain<&'static [u8], &'static [u8]>, Vec<u8>>;

fn link(alloc: Global, head: &'static [u8], frames: &'static [u8]) -> WsLink<Stream> {
    WsLink::new(Duplex {
        reader: head.chain(frames),
        writer: Vec::new(alloc),
    })
}

// Whether a link gives this message next, or its end.
fn gives(
    link: &mut WsLink<Stream>,
    alloc: Global,
    message: Option<&[u8]>,
) -> Result<bool, Stop<Failed>> {
    let next = link.receive(alloc)?;
    Ok(next.as_ref().map(List::as_slice) == message)
}

#[test]
fn messages_are_read_to_the_end_of_the_stream(rt: HostRuntime) -> Result<(), Fail> {
    let alloc = rt.alloc();
    let mut link = link(alloc, HEAD, MESSAGES);
    assert_eq!(rt; gives(&mut link, alloc, Some(b"names\n")), Ok(true));
    assert_eq!(rt; link.send(alloc, b"yes"), Ok(()));
    assert_eq!(rt; gives(&mut link, alloc, Some(b"\xff")), Ok(true));
    assert_eq!(rt; gives(&mut link, alloc, None), Ok(true));
    assert_eq!(rt; gives(&mut link, alloc, None), Ok(true));
    assert_eq!(rt; link.send(alloc, b"late"), Err(Stop::Fault(Failed)));
    Ok(())
}

#[test]
fn what_is_sent_goes_out(rt: HostRuntime) -> Result<(), Fail> {
    let alloc = rt.alloc();
    let mut link = link(alloc, HEAD, b"\x81\x81\0\0\0\0x");
    assert_eq!(rt; link.send(alloc, b"yes"), Ok(()));
    assert_eq!(rt; link.send(alloc, b"\xff"), Ok(()));
    let stream = link.into_open().ok_or("not open")?;
    assert!(rt; stream.writer.as_slice().starts_with(b"HTTP/1.1 101 "));
    assert!(rt;
        stream
            .writer
            .as_slice()
            .ends_with(b"\r\n\r\n\x81\x03yes\x82\x01\xff")
    );
    Ok(())
}

#[test]
fn a_close_is_the_end(rt: HostRuntime) -> Result<(), Fail> {
    let alloc = rt.alloc();
    let mut link = link(alloc, HEAD, CLOSED);
    assert_eq!(rt; gives(&mut link, alloc, Some(b"x")), Ok(true));
    assert_eq!(rt; gives(&mut link, alloc, None), Ok(true));
    assert_eq!(rt; gives(&mut link, alloc, None), Ok(true));
    assert!(rt; link.last_error().is_none());
    Ok(())
}

#[test]
fn an_end_within_a_message_is_a_fault(rt: HostRuntime) -> Result<(), Fail> {
    let alloc = rt.alloc();
    let mut link = link(alloc, HEAD, CUT);
    assert_eq!(rt; gives(&mut link, alloc, None), Err(Stop::Fault(Failed)));
    assert_eq!(rt; gives(&mut link, alloc, None), Err(Stop::Fault(Failed)));
    assert!(rt; link.last_error().is_some());
    Ok(())
}

#[test]
fn a_page_of_another_machine_is_refused(rt: HostRuntime) -> Result<(), Fail> {
    let alloc = rt.alloc();
    let mut link = link(alloc, HEAD_OF_PAGE, MESSAGES);
    assert_eq!(rt; gives(&mut link, alloc, None), Err(Stop::Fault(Failed)));
    Ok(())
}

#[test]
fn what_is_no_handshake_is_a_fault(rt: HostRuntime) -> Result<(), Fail> {
    let alloc = rt.alloc();
    let mut link = link(alloc, b"names\n\r\n\r\n", b"");
    assert_eq!(rt; gives(&mut link, alloc, None), Err(Stop::Fault(Failed)));
    Ok(())
}

#[test]
fn origins_of_this_machine_are_known(rt: HostRuntime) -> Result<(), Fail> {
    assert!(rt; is_local_origin(b"http://127.0.0.1"));
    assert!(rt; is_local_origin(b"https://127.0.0.1:8443"));
    assert!(rt; is_local_origin(b"http://localhost:3000"));
    assert!(rt; !is_local_origin(b"null"));
    assert!(rt; !is_local_origin(b"http://localhost.example.org"));
    assert!(rt; !is_local_origin(b"http://127.0.0.1:"));
    assert!(rt; !is_local_origin(b"http://127.0.0.1:80@example.org"));
    assert!(rt; !is_local_origin(b"file://localhost"));
    Ok(())
}
