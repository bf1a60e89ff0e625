//! Requests that are held and connections to upstreams, with ample memory.

ghost use Rattle.std.specs.Prelude.{◌≡◌, ◌+◌, ◌<◌, None, OnOk};
ghost use Rattle.upstream_connections.specs.Kept.{nothing};

use hpack_table::Field;
use request_rules::{RequestHead, check_head};
use send_buffer::Outbox;
use std::alloc::{AllocError, Global};
use std::process::Abort;
use std::test::*;
use upstream_connections::{
    Due, OutgoingRequest, Progress, ResponseStage, UpstreamConnection, Upstreams,
};
use upstream_response::{Answer, Heard, ResponsePassing};

/// The text of a request without a body.
const GET: &[u8] = b"GET / HTTP/1.1\r\nhost: h\r\nvia: 2.0 h2gw\r\nconnection: close\r\n\r\n";

/// The same, on a connection that is kept for further requests.
const KEPT: &[u8] = b"GET / HTTP/1.1\r\nhost: h\r\nvia: 2.0 h2gw\r\n\r\n";

/// The text of a request whose body of five octets is whole.
const POST: &[u8] =
    b"POST / HTTP/1.1\r\nhost: h\r\nvia: 2.0 h2gw\r\ntransfer-encoding: chunked\r\nconnection: close\r\n\r\n5\r\nhello\r\n0\r\n\r\n";

/// The fields of the head of a request on `/` of `h`, by its method.
fn fields_of(alloc: Global, method: &[u8]) -> Result<Vec<Field>, AllocError> {
    let rows: [(&[u8], &[u8]); 4] = [
        (b":method", method),
        (b":scheme", b"http"),
        (b":path", b"/"),
        (b":authority", b"h"),
    ];
    let mut fields = Vec::new(alloc);
    for (name, value) in rows {
        fields.push(Field::of(alloc, name, value)?)?;
    }
    Ok(fields)
}

/// The head of a request on `/` of `h`, by its method.
fn head_of(
    alloc: Global,
    rt: &impl Abort,
    method: &[u8],
    ended: bool,
) -> Result<RequestHead, AllocError> {
    let fields = fields_of(alloc, method)?;
    Ok(check_head(alloc, &fields, ended).expect(rt, "a head"))
}

/// The number of an open connection, its stream, how far its response is, and how many octets wait for its side.
fn facts_of(connection: Option<&UpstreamConnection>) -> Option<(u32, u32, Progress, u64)> {
    match connection {
        Some(connection) => Some((
            connection.number(),
            connection.stream(),
            connection.progress(),
            connection.untaken(),
        )),
        None => None,
    }
}

/// Whether nothing is due.
fn is_nothing(due: &Due) -> bool {
    matches!(due, Due::Nothing)
}

/// What is due of a request that its head ends.
fn due_at_once(upstreams: &mut Upstreams, head: &RequestHead) -> Result<OutgoingRequest, Fail>
    requires { head.now.length ≡ None }
{
    match upstreams.begin(1, 4, head, true, false, false)? {
        Due::ToOpen(due) => Ok(due),
        _ => Err(Fail::from("it waits")),
    }
}

#[test]
fn a_request_without_a_body_is_due_at_once(rt: HostRuntime) -> Result<(), Fail> {
    let head = head_of(rt.alloc(), &rt, b"GET", true)?;
    assert!(rt; head.length().is_none());
    let mut upstreams = Upstreams::new(rt.alloc());
    let due = due_at_once(&mut upstreams, &head)?;
    assert_eq!(rt; (due.stream, due.route), (1, 4));
    assert_eq!(rt; due.text.as_slice(), GET);
    Ok(())
}

/// What is due of a request that waits for its end, once that came.
fn due_behind(
    rt: &impl Abort,
    upstreams: &mut Upstreams,
    head: &RequestHead,
    trailers: &[Field],
) -> Result<Due, Fail>
    requires { head.now.length ≡ None }
{
    assert!(rt; is_nothing(&upstreams.begin(3, 7, head, false, false, false)?));
    assert!(rt; is_nothing(&upstreams.take_body(3, b"hel", false, trailers)?));
    Ok(upstreams.take_body(3, b"lo", true, trailers)?)
}

#[test]
fn a_body_is_due_once_it_is_whole(rt: HostRuntime) -> Result<(), Fail> {
    let head = head_of(rt.alloc(), &rt, b"POST", false)?;
    assert!(rt; head.length().is_none());
    let mut upstreams = Upstreams::new(rt.alloc());
    let Due::ToOpen(due) = due_behind(&rt, &mut upstreams, &head, &[])? else {
        return Err(Fail::from("it isn't due"));
    };
    assert!(rt; due.rest.is_none());
    assert_eq!(rt; (due.stream, due.route), (3, 7));
    assert_eq!(rt; due.text.as_slice(), POST);
    Ok(())
}

/// One trailer.
fn trailers_of(alloc: Global) -> Result<Vec<Field>, AllocError> {
    let mut trailers = Vec::new(alloc);
    trailers.push(Field::of(alloc, b"x-a", b"1")?)?;
    Ok(trailers)
}

#[test]
fn trailers_are_due_with_the_end(rt: HostRuntime) -> Result<(), Fail> {
    let trailers = trailers_of(rt.alloc())?;
    let head = head_of(rt.alloc(), &rt, b"POST", false)?;
    assert!(rt; head.length().is_none());
    let mut upstreams = Upstreams::new(rt.alloc());
    let Due::ToOpen(due) = due_behind(&rt, &mut upstreams, &head, &trailers)? else {
        return Err(Fail::from("it isn't due"));
    };
    assert!(rt; due.rest.is_none());
    assert!(rt;
        due.text
            .as_slice()
            .ends_with(b"\r\n\r\n5\r\nhello\r\n0\r\nx-a: 1\r\n\r\n")
    );
    Ok(())
}

/// Opens connections for two streams, where none was opened, and answers their numbers.
fn open_two(upstreams: &mut Upstreams, first: u32, second: u32) -> Result<(u32, u32), AllocError>
    requires { upstreams.old ≡ nothing }
{
    let one = upstreams.open(first, 4, false, ResponsePassing::Streaming, None)?;
    let other = upstreams.open(second, 7, false, ResponsePassing::Streaming, None)?;
    Ok((one, other))
}

/// What is seen of the connection with this number.
fn found(upstreams: &Upstreams, k: u32) -> Option<(u32, u32, Progress, u64)> {
    facts_of(upstreams.find(k))
}

/// What is seen of the newest connection of a stream.
fn found_of_stream(upstreams: &Upstreams, id: u32) -> Option<(u32, u32, Progress, u64)> {
    facts_of(upstreams.of_stream(id))
}

/// Whether the connection with this number passes its response on as it comes.
fn is_streaming(upstreams: &Upstreams, k: u32) -> bool {
    matches!(upstreams.find(k), Some(first) if first.passing() == ResponsePassing::Streaming)
}

/// Just the first connection, for stream 5, and the second, for stream 3, are open.
fn assert_both_are_open(rt: &impl Abort, upstreams: &Upstreams) {
    let open = upstreams.connections();
    assert_eq!(rt; open.len(), 2);
    assert_eq!(rt; facts_of(open.first()), Some((1, 5, Progress::Pending, 0)));
    assert_eq!(rt; facts_of(open.last()), Some((2, 3, Progress::Pending, 0)));
}

#[test]
fn connections_are_found_by_number_and_by_stream(rt: HostRuntime) -> Result<(), Fail> {
    let mut upstreams = Upstreams::new(rt.alloc());
    assert_eq!(rt; open_two(&mut upstreams, 5, 3)?, (1, 2));
    assert_eq!(rt; found(&upstreams, 1), Some((1, 5, Progress::Pending, 0)));
    assert_eq!(rt;
        found_of_stream(&upstreams, 3),
        Some((2, 3, Progress::Pending, 0))
    );
    assert!(rt; is_streaming(&upstreams, 1));
    assert_both_are_open(&rt, &upstreams);
    upstreams.close(1);
    assert_eq!(rt; found(&upstreams, 1), None);
    assert_eq!(rt; found_of_stream(&upstreams, 5), None);
    assert_eq!(rt; found(&upstreams, 2), Some((2, 3, Progress::Pending, 0)));
    Ok(())
}

#[test]
fn octets_are_put_out_and_taken(rt: HostRuntime) -> Result<(), Fail> {
    let mut upstreams = Upstreams::new(rt.alloc());
    let k = upstreams.open(5, 4, false, ResponsePassing::Streaming, None)?;
    assert!(rt; upstreams.has_room(k, 10));
    upstreams.put(k, 10);
    assert!(rt; !upstreams.has_room(k, u64::MAX));
    assert_eq!(rt;
        facts_of(upstreams.find(k)),
        Some((1, 5, Progress::Pending, 10))
    );
    upstreams.take(k, 4);
    assert_eq!(rt;
        facts_of(upstreams.find(k)),
        Some((1, 5, Progress::Pending, 6))
    );
    Ok(())
}

#[test]
fn a_response_becomes_whole(rt: HostRuntime) -> Result<(), Fail> {
    let mut upstreams = Upstreams::new(rt.alloc());
    let (first, second) = open_two(&mut upstreams, 5, 7)?;
    upstreams.mark_heard(first, ResponseStage::Finished, 8);
    upstreams.mark_heard(second, ResponseStage::Partly, 8);
    assert_eq!(rt; found(&upstreams, first), Some((1, 5, Progress::Done, 0)));
    assert_eq!(rt;
        found(&upstreams, second),
        Some((2, 7, Progress::Pending, 0))
    );
    Ok(())
}

#[test]
fn an_idle_connection_is_given_to_another_stream(rt: HostRuntime) -> Result<(), Fail> {
    let mut upstreams = Upstreams::new(rt.alloc());
    let (first, _) = open_two(&mut upstreams, 5, 7)?;
    upstreams.mark_heard(first, ResponseStage::Keepable, 8);
    assert_eq!(rt; found(&upstreams, first), Some((1, 5, Progress::Idle, 0)));
    assert_eq!(rt; found_of_stream(&upstreams, 5), None);
    assert_eq!(rt;
        (upstreams.least_idle(4), upstreams.least_idle(7)),
        (Some(1), None)
    );
    upstreams.give(first, 9, true, ResponsePassing::Streaming, None)?;
    assert_eq!(rt;
        found_of_stream(&upstreams, 9),
        Some((1, 9, Progress::Pending, 0))
    );
    assert_eq!(rt; upstreams.least_idle(4), None);
    Ok(())
}

#[test]
fn what_was_put_out_stays_counted_behind_a_kept_connection(rt: HostRuntime) -> Result<(), Fail> {
    let mut upstreams = Upstreams::new(rt.alloc());
    let k = upstreams.open(5, 4, false, ResponsePassing::Streaming, None)?;
    assert!(rt; upstreams.has_room(k, 10));
    upstreams.put(k, 10);
    upstreams.mark_heard(k, ResponseStage::Keepable, 8);
    upstreams.give(k, 9, false, ResponsePassing::Streaming, None)?;
    assert_eq!(rt; found(&upstreams, k), Some((1, 9, Progress::Pending, 10)));
    Ok(())
}

/// Opens three connections by this route.
fn open_three(upstreams: &mut Upstreams, route: u32) -> Result<(), AllocError>
    requires { upstreams.old.count < 9000 }
    ensures { OnOk result (upstreams.new.count ≡ upstreams.old.count + 3) }
{
    upstreams.open(5, route, false, ResponsePassing::Streaming, None)?;
    upstreams.open(7, route, false, ResponsePassing::Streaming, None)?;
    upstreams.open(9, route, false, ResponsePassing::Streaming, None)?;
    Ok(())
}

/// Nine connections are open, three by each of three routes.
fn open_nine(upstreams: &mut Upstreams) -> Result<(), AllocError>
    requires { upstreams.old ≡ nothing }
{
    open_three(upstreams, 7)?;
    open_three(upstreams, 4)?;
    open_three(upstreams, 7)
}

#[test]
fn a_ninth_connection_is_not_kept(rt: HostRuntime) -> Result<(), Fail> {
    let mut upstreams = Upstreams::new(rt.alloc());
    open_nine(&mut upstreams)?;
    for k in 1..10 {
        upstreams.mark_heard(10 - k, ResponseStage::Keepable, 8);
    }
    assert_eq!(rt; found(&upstreams, 1), Some((1, 5, Progress::Done, 0)));
    assert_eq!(rt;
        (upstreams.least_idle(7), upstreams.least_idle(4)),
        (Some(2), Some(4))
    );
    upstreams.close(9);
    upstreams.mark_heard(1, ResponseStage::Keepable, 8);
    assert_eq!(rt; upstreams.least_idle(7), Some(1));
    Ok(())
}

/// The least idle connection of the route at place 7, of that at 4, and of that at 5.
fn least_ones(upstreams: &Upstreams) -> (Option<u32>, Option<u32>, Option<u32>) {
    (
        upstreams.least_idle(7),
        upstreams.least_idle(4),
        upstreams.least_idle(5),
    )
}

#[test]
fn the_least_idle_connection_is_one_of_its_route(rt: HostRuntime) -> Result<(), Fail> {
    let mut upstreams = Upstreams::new(rt.alloc());
    open_nine(&mut upstreams)?;
    for k in 1..10 {
        upstreams.mark_heard(10 - k, ResponseStage::Keepable, 9);
    }
    assert_eq!(rt; least_ones(&upstreams), (Some(1), Some(4), None));
    upstreams.give(1, 11, false, ResponsePassing::Streaming, None)?;
    upstreams.close(4);
    assert_eq!(rt; least_ones(&upstreams), (Some(2), Some(5), None));
    upstreams.give(3, 13, false, ResponsePassing::Streaming, None)?;
    upstreams.give(2, 15, false, ResponsePassing::Streaming, None)?;
    upstreams.close(6);
    upstreams.mark_heard(5, ResponseStage::Finished, 9);
    assert_eq!(rt; least_ones(&upstreams), (Some(7), None, None));
    upstreams.mark_heard(2, ResponseStage::Keepable, 9);
    assert_eq!(rt; least_ones(&upstreams), (Some(2), None, None));
    assert_eq!(rt; upstreams.idle(), [2, 7, 8, 9].as_slice());
    Ok(())
}

/// The number of the connection that a request without a body is to go out on, which is kept.
fn used_for(
    rt: &impl Abort,
    upstreams: &mut Upstreams,
    head: &RequestHead,
    route: u32,
) -> Result<Option<u32>, Fail>
    requires { head.now.length ≡ None }
{
    match upstreams.begin(11, route, head, true, true, false)? {
        Due::ToUse { number, request } => {
            assert_eq!(rt; (request.stream, request.route), (11, route));
            assert_eq!(rt; request.text.as_slice(), KEPT);
            Ok(Some(number))
        }
        _ => Ok(None),
    }
}

#[test]
fn a_request_goes_out_on_an_idle_connection_of_its_route(rt: HostRuntime) -> Result<(), Fail> {
    let head = head_of(rt.alloc(), &rt, b"GET", true)?;
    assert!(rt; head.length().is_none());
    let mut upstreams = Upstreams::new(rt.alloc());
    let (_, second) = open_two(&mut upstreams, 5, 7)?;
    upstreams.mark_heard(second, ResponseStage::Keepable, 8);
    assert_eq!(rt; used_for(&rt, &mut upstreams, &head, 7)?, Some(2));
    assert_eq!(rt; used_for(&rt, &mut upstreams, &head, 4)?, None);
    Ok(())
}

/// One connection is open, whose number is 1.
fn one(alloc: Global) -> Result<Upstreams, AllocError> {
    let mut upstreams = Upstreams::new(alloc);
    upstreams.open(5, 4, false, ResponsePassing::Streaming, None)?;
    Ok(upstreams)
}

/// Hears octets.
fn hear(answer: &mut Answer, octets: &[u8], outbox: &mut Outbox) -> Result<Heard, Fail> {
    Ok(answer.hear(octets, outbox)?)
}

/// Hears octets of a connection.
fn hear_on(
    upstreams: &mut Upstreams,
    k: u32,
    octets: &[u8],
    outbox: &mut Outbox,
) -> Result<Heard, Fail> {
    let Some(answer) = upstreams.answer_mut(k) else {
        return Err(Fail::from("it isn't open"));
    };
    hear(answer, octets, outbox)
}

/// The head of a response comes in two pieces, and it is whole with the second.
fn assert_goes_on(
    rt: &impl Abort,
    upstreams: &mut Upstreams,
    outbox: &mut Outbox,
) -> Result<(), Fail> {
    let first = hear_on(upstreams, 1, b"HTTP/1.1 204 No Content\r\n", outbox)?;
    assert_eq!(rt; first, Heard::GoesOn);
    let second = hear_on(upstreams, 1, b"\r\n", outbox)?;
    assert_eq!(rt; second, Heard::Keepable);
    assert!(rt; upstreams.answer_mut(2).is_none());
    Ok(())
}

#[test]
fn an_answer_goes_on_where_it_stands(rt: HostRuntime) -> Result<(), Fail> {
    let mut upstreams = one(rt.alloc())?;
    let mut outbox = Outbox::new(rt.alloc());
    assert_goes_on(&rt, &mut upstreams, &mut outbox)
}

/// What is due of a request that waits for its end, once that came, where nothing is held of another any more.
fn due_beside(rt: &impl Abort, upstreams: &mut Upstreams, head: &RequestHead) -> Result<Due, Fail>
    requires { head.now.length ≡ None }
{
    assert!(rt; is_nothing(&upstreams.begin(3, 7, head, false, false, false)?));
    upstreams.forget(5);
    Ok(upstreams.take_body(3, b"y", true, &[])?)
}

#[test]
fn only_the_stream_that_is_told_is_forgotten(rt: HostRuntime) -> Result<(), Fail> {
    let head = head_of(rt.alloc(), &rt, b"POST", false)?;
    assert!(rt; head.length().is_none());
    let mut upstreams = Upstreams::new(rt.alloc());
    let Due::ToOpen(due) = due_beside(&rt, &mut upstreams, &head)? else {
        return Err(Fail::from("it isn't due"));
    };
    assert_eq!(rt; due.stream, 3);
    assert!(rt; due.text.as_slice().ends_with(b"1\r\ny\r\n0\r\n\r\n"));
    Ok(())
}

/// A request goes out, and its body as it comes; these octets with its end, behind which these trailers come.
fn assert_goes_out(
    rt: &impl Abort,
    upstreams: &mut Upstreams,
    head: &RequestHead,
    trailers: &[Field],
    last: &[u8],
) -> Result<(), Fail>
    requires first { upstreams.old ≡ nothing }
    requires undeclared { head.now.length ≡ None }
{
    let Due::ToOpen(request) = upstreams.begin(3, 7, head, false, false, true)? else {
        return Err(Fail::from("it waits"));
    };
    let k = upstreams.open(
        request.stream,
        request.route,
        false,
        ResponsePassing::Streaming,
        request.rest,
    )?;
    let Due::ToSend { number, text } = upstreams.take_body(3, b"hel", false, trailers)? else {
        return Err(Fail::from("nothing goes out"));
    };
    assert_eq!(rt; (number, text.as_slice()), (k, b"3\r\nhel\r\n".as_slice()));
    let Due::ToSend { number, text } = upstreams.take_body(3, b"lo", true, trailers)? else {
        return Err(Fail::from("nothing goes out"));
    };
    assert!(rt; number == k && text.as_slice() == last);
    assert!(rt; is_nothing(&upstreams.take_body(3, b"", true, trailers)?));
    Ok(())
}

#[test]
fn a_body_goes_out_as_it_comes(rt: HostRuntime) -> Result<(), Fail> {
    let head = head_of(rt.alloc(), &rt, b"POST", false)?;
    assert!(rt; head.length().is_none());
    let mut upstreams = Upstreams::new(rt.alloc());
    assert_goes_out(&rt, &mut upstreams, &head, &[], b"2\r\nlo\r\n0\r\n\r\n")
}

#[test]
fn trailers_go_out_with_the_end(rt: HostRuntime) -> Result<(), Fail> {
    let trailers = trailers_of(rt.alloc())?;
    let head = head_of(rt.alloc(), &rt, b"POST", false)?;
    assert!(rt; head.length().is_none());
    let mut upstreams = Upstreams::new(rt.alloc());
    let last = b"2\r\nlo\r\n0\r\nx-a: 1\r\n\r\n".as_slice();
    assert_goes_out(&rt, &mut upstreams, &head, &trailers, last)
}

/// A request goes out as it comes, and the rest of it comes behind the close of its connection.
fn assert_goes_nowhere(
    rt: &impl Abort,
    upstreams: &mut Upstreams,
    head: &RequestHead,
) -> Result<(), Fail>
    requires { upstreams.old ≡ nothing }
{
    let Due::ToOpen(request) = upstreams.begin(3, 7, head, false, false, true)? else {
        return Err(Fail::from("it waits"));
    };
    let k = upstreams.open(
        request.stream,
        request.route,
        false,
        ResponsePassing::Streaming,
        request.rest,
    )?;
    upstreams.close(k);
    assert!(rt; is_nothing(&upstreams.take_body(3, b"hel", false, &[])?));
    assert!(rt; is_nothing(&upstreams.take_body(3, b"lo", true, &[])?));
    Ok(())
}

#[test]
fn what_comes_behind_a_close_goes_nowhere(rt: HostRuntime) -> Result<(), Fail> {
    let head = head_of(rt.alloc(), &rt, b"POST", false)?;
    assert!(rt; head.length().is_none());
    let mut upstreams = Upstreams::new(rt.alloc());
    assert_goes_nowhere(&rt, &mut upstreams, &head)
}
