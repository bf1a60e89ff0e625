//! How many octets a reader uses, and whether the connection of a response may be kept.

use h1_reader::Reader;
use std::alloc::Global;
use std::test::*;

const SIZED: &[u8] = b"HTTP/1.1 200 OK\r\nContent-Length: 2\r\n\r\nhi";

/// Whether a whole text is used up to the octets behind it, and its connection is kept or isn't.
fn is_used(alloc: Global, text: &[u8], behind: usize, keeps: bool) -> bool {
    let mut reader = Reader::new(alloc, false);
    let mut pieces = Vec::new(alloc);
    match reader.feed(text, &mut pieces) {
        Ok(used) => used == text.len().saturating_sub(behind) && reader.keeps() == keeps,
        Err(_) => false,
    }
}

#[test]
fn a_response_alone_is_used_whole(rt: HostRuntime) -> Result<(), Fail> {
    assert!(rt; is_used(rt.alloc(), SIZED, 0, true));
    Ok(())
}

#[test]
fn what_follows_a_response_is_not_used(rt: HostRuntime) -> Result<(), Fail> {
    let text = b"HTTP/1.1 200 OK\r\nTransfer-Encoding: chunked\r\n\r\n2\r\nhi\r\n0\r\n\r\nHTTP";
    assert!(rt; is_used(rt.alloc(), text, 4, true));
    Ok(())
}

#[test]
fn a_head_that_says_close_is_not_kept(rt: HostRuntime) -> Result<(), Fail> {
    let text = b"HTTP/1.1 204 No Content\r\nConnection: a, CLOSE\r\n\r\n";
    assert!(rt; is_used(rt.alloc(), text, 0, false));
    Ok(())
}

#[test]
fn an_interim_head_says_nothing_of_it(rt: HostRuntime) -> Result<(), Fail> {
    let text =
        b"HTTP/1.1 103 Early Hints\r\nConnection: close\r\n\r\nHTTP/1.1 204 No Content\r\n\r\n";
    assert!(rt; is_used(rt.alloc(), text, 0, true));
    let text =
        b"HTTP/1.1 103 Early Hints\r\n\r\nHTTP/1.1 204 No Content\r\nConnection: close\r\n\r\n";
    assert!(rt; is_used(rt.alloc(), text, 0, false));
    Ok(())
}

#[test]
fn a_head_of_http_1_0_is_not_kept(rt: HostRuntime) -> Result<(), Fail> {
    let text = b"HTTP/1.0 204 No Content\r\nConnection: keep-alive\r\n\r\n";
    assert!(rt; is_used(rt.alloc(), text, 0, false));
    Ok(())
}

#[test]
fn a_body_until_the_end_is_not_kept(rt: HostRuntime) -> Result<(), Fail> {
    assert!(rt; is_used(rt.alloc(), b"HTTP/1.1 200 OK\r\n\r\nhi", 0, false));
    Ok(())
}
