//! Requests that wait for their ends or go out as they come, with ample memory.

ghost use Rattle.std.specs.Prelude.{◌≡◌, None, false, IfOk};
ghost use Rattle.request_rules.specs.Heads.{HeadParts};
ghost use Rattle.request_buffer.specs.Beginning.{IsBegun};

use crate::lines::push_fields;
use hpack_table::Field;
use request_buffer::{Begun, BufferedRequest, begin};
use request_rules::{RequestHead, check_head};
use std::alloc::{AllocError, Global};
use std::process::Abort;
use std::test::*;

const GET: &[u8] = b":method=GET|:scheme=http|:path=/|:authority=h";

const POST: &[u8] = b":method=POST|:scheme=http|:path=/|:authority=h";

/// The head of a request of these fields.
fn head_of(
    alloc: Global,
    rt: &impl Abort,
    text: &[u8],
    ended: bool,
) -> Result<RequestHead, AllocError> {
    let mut fields = Vec::new(alloc);
    push_fields(alloc, &mut fields, text)?;
    Ok(check_head(alloc, &fields, ended).expect(rt, "a head"))
}

#[test]
fn a_request_without_a_body_is_whole(rt: HostRuntime) -> Result<(), Fail> {
    let head = head_of(rt.alloc(), &rt, GET, true)?;
    assert!(rt; head.length().is_none());
    match begin(rt.alloc(), &head, true, false, 7)? {
        Begun::Whole(text) => assert_eq!(rt;
            text.as_slice(),
            b"GET / HTTP/1.1\r\nhost: h\r\nvia: 2.0 h2gw\r\nconnection: close\r\n\r\n".as_slice()
        ),
        Begun::Waits(_) => panic!(rt; "it waits"),
    }
    Ok(())
}

#[test]
fn a_request_says_nothing_of_a_close_where_its_connection_is_kept(
    rt: HostRuntime,
) -> Result<(), Fail> {
    let head = head_of(rt.alloc(), &rt, GET, true)?;
    assert!(rt; head.length().is_none());
    match begin(rt.alloc(), &head, true, true, 7)? {
        Begun::Whole(text) => assert_eq!(rt;
            text.as_slice(),
            b"GET / HTTP/1.1\r\nhost: h\r\nvia: 2.0 h2gw\r\n\r\n".as_slice()
        ),
        Begun::Waits(_) => panic!(rt; "it waits"),
    }
    Ok(())
}

/// A request of these fields, which declare this length, that waits for its body.
fn declaring(
    alloc: Global,
    rt: &impl Abort,
    fields: &[u8],
    length: Option<u64>,
) -> Result<BufferedRequest, Fail>
    ensures { IfOk result (λ request. (parts : HeadParts) × (parts.length ≡ length) × IsBegun false parts false 7 (Begun.Waits request)) }
{
    let head = head_of(alloc, rt, fields, false)?;
    if head.length() != length {
        return Err(Fail::from("another length"));
    }
    match begin(alloc, &head, false, false, 7)? {
        Begun::Waits(request) => Ok(request),
        Begun::Whole(_) => Err(Fail::from("whole")),
    }
}

/// A request that declares no length and waits for its body.
fn waiting(alloc: Global, rt: &impl Abort) -> Result<BufferedRequest, Fail>
    ensures { IfOk result (λ request. (parts : HeadParts) × (parts.length ≡ None) × IsBegun false parts false 7 (Begun.Waits request)) }
{
    declaring(alloc, rt, POST, None)
}

#[test]
fn a_body_is_written_in_one_piece(rt: HostRuntime) -> Result<(), Fail> {
    let mut request = waiting(rt.alloc(), &rt)?;
    let before = (request.route(), request.len());
    request.gather(b"hel")?;
    assert_eq!(rt; (before, request.len()), ((7, 0), 3));
    let text = request.finish(b"lo", &[])?;
    assert_eq!(rt;
        text.as_slice(),
        b"POST / HTTP/1.1\r\nhost: h\r\nvia: 2.0 h2gw\r\ntransfer-encoding: chunked\r\nconnection: close\r\n\r\n5\r\nhello\r\n0\r\n\r\n".as_slice()
    );
    Ok(())
}

/// The text of a request whose body is 255 octets and another one, in one chunk.
fn in_one_chunk(alloc: Global) -> Result<Vec<u8>, AllocError> {
    let mut wanted =
        b"POST / HTTP/1.1\r\nhost: h\r\nvia: 2.0 h2gw\r\ntransfer-encoding: chunked\r\nconnection: close\r\n\r\n100\r\n".to_vec(
            alloc,
        )?;
    wanted.extend_from_slice(&[b'a'; 255])?;
    wanted.extend_from_slice(b"b\r\n0\r\n\r\n")?;
    Ok(wanted)
}

#[test]
fn a_body_of_several_frames_stands_behind_the_line_with_its_size(
    rt: HostRuntime,
) -> Result<(), Fail> {
    let wanted = in_one_chunk(rt.alloc())?;
    let mut request = waiting(rt.alloc(), &rt)?;
    request.gather(b"")?;
    let before = request.len();
    request.gather(&[b'a'; 255])?;
    request.gather(b"b")?;
    assert_eq!(rt; [before, request.len()], [0, 256]);
    let text = request.finish(b"", &[])?;
    assert_eq!(rt; text.as_slice(), wanted.as_slice());
    Ok(())
}

#[test]
fn a_body_of_empty_frames_is_the_last_chunk_alone(rt: HostRuntime) -> Result<(), Fail> {
    let mut request = waiting(rt.alloc(), &rt)?;
    request.gather(b"")?;
    request.gather(b"")?;
    let text = request.finish(b"", &[])?;
    assert!(rt;
        text.as_slice()
            .ends_with(b"connection: close\r\n\r\n0\r\n\r\n")
    );
    Ok(())
}

const FIVE: &[u8] = b":method=PUT|:scheme=http|:path=/|:authority=h|content-length=5";

const NONE: &[u8] = b":method=PUT|:scheme=http|:path=/|:authority=h|content-length=0";

#[test]
fn a_body_goes_out_in_chunks_as_it_comes(rt: HostRuntime) -> Result<(), Fail> {
    let request = waiting(rt.alloc(), &rt)?;
    let (text, mut going) = request.go();
    let first = going.pass(rt.alloc(), b"hel", false, &[])?;
    let last = going.pass(rt.alloc(), b"lo", true, &[])?;
    let wanted: [&[u8]; 3] = [
        b"POST / HTTP/1.1\r\nhost: h\r\nvia: 2.0 h2gw\r\ntransfer-encoding: chunked\r\nconnection: close\r\n\r\n",
        b"3\r\nhel\r\n",
        b"2\r\nlo\r\n0\r\n\r\n",
    ];
    assert_eq!(rt;
        [text.as_slice(), first.as_slice(), last.as_slice()],
        wanted
    );
    Ok(())
}

/// A body of five octets goes out as it comes, the last one with its end, behind which these
/// trailers come.
fn assert_held_back(rt: &impl Abort, alloc: Global, trailers: &[Field]) -> Result<(), Fail> {
    let request = declaring(alloc, rt, FIVE, Some(5))?;
    let (text, mut going) = request.go();
    let declares = text.ends_with(b"content-length: 5\r\nconnection: close\r\n\r\n");
    let first = going.pass(alloc, b"hello", false, &[])?;
    let last = going.pass(alloc, b"", true, trailers)?;
    let wanted: [&[u8]; 2] = [b"hell", b"o"];
    assert_eq!(rt;
        (declares, [first.as_slice(), last.as_slice()]),
        (true, wanted)
    );
    Ok(())
}

#[test]
fn the_last_octet_is_held_back_until_the_end(rt: HostRuntime) -> Result<(), Fail> {
    let trailers = two_trailers(rt.alloc())?;
    assert_held_back(&rt, rt.alloc(), &trailers)
}

#[test]
fn a_head_that_declares_no_octets_is_whole_with_the_end(rt: HostRuntime) -> Result<(), Fail> {
    let request = declaring(rt.alloc(), &rt, NONE, Some(0))?;
    let (text, mut going) = request.go();
    let declares = text.ends_with(b"content-length: 0\r\nconnection: close\r\n\r");
    let last = going.pass(rt.alloc(), b"", true, &[])?;
    assert_eq!(rt; (declares, last.as_slice()), (true, b"\n".as_slice()));
    Ok(())
}

/// Two trailers, one without a value.
fn two_trailers(alloc: Global) -> Result<Vec<Field>, AllocError> {
    let mut trailers = Vec::new(alloc);
    trailers.push(Field::of(alloc, b"x-a", b"1")?)?;
    trailers.push(Field::of(alloc, b"x-b", b"")?)?;
    Ok(trailers)
}

#[test]
fn trailers_stand_behind_chunks(rt: HostRuntime) -> Result<(), Fail> {
    let trailers = two_trailers(rt.alloc())?;
    let mut request = waiting(rt.alloc(), &rt)?;
    request.gather(b"hel")?;
    let text = request.finish(b"lo", &trailers)?;
    assert!(rt;
        text.as_slice()
            .ends_with(b"\r\n\r\n5\r\nhello\r\n0\r\nx-a: 1\r\nx-b: \r\n\r\n")
    );
    Ok(())
}
