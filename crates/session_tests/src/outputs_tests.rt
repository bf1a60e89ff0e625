//! Frames and outputs, with ample memory.

use effects::{Output, Outputs, Text, section_of};
use frames::{Split, View, split};
use h1_reader::{Piece, Reader, ResponseHead};
use std::alloc::Global;
use std::test::*;

/// The octets for the client that outputs are, where they are one piece.
fn octets_of(alloc: Global, outputs: Outputs) -> Result<Vec<u8>, Fail> {
    let mut items = Vec::new(alloc);
    outputs.append_to(&mut items)?;
    let count = items.len();
    match items.pop() {
        Some(Output::Client(octets)) if count == 1 => Ok(octets),
        _ => Err(Fail::from("not one piece")),
    }
}

/// The head of a response without a body.
fn head_of(alloc: Global, text: &[u8]) -> Result<ResponseHead, Fail> {
    let mut reader = Reader::new(alloc, true);
    let mut pieces = Vec::new(alloc);
    reader.feed(text, &mut pieces)?;
    pieces.reverse();
    match pieces.pop() {
        Some(Piece::Head(head)) => Ok(head),
        _ => Err(Fail::from("no head")),
    }
}

/// These octets for an upstream.
fn text_of(alloc: Global, octets: &[u8]) -> Result<Text, Fail> {
    Ok(Text::from_octets(Vec::from_slice(alloc, octets)?))
}

/// Puts something out for each place, for some of them twice.
fn put_out(alloc: Global, outputs: &mut Outputs) -> Result<(), Fail> {
    let view = View {
        kind: 0,
        flags: 1,
        id: 3,
        payload: b"hi",
    };
    outputs.send(&view)?;
    outputs.send(&view)?;
    outputs.open_up(1, 2)?;
    outputs.send_up(1, text_of(alloc, b"GET")?)?;
    outputs.send_up(1, text_of(alloc, b" /")?)?;
    outputs.send_up(2, text_of(alloc, b"PUT")?)?;
    outputs.close_up(1)?;
    outputs.close_client()?;
    Ok(())
}

/// Whether that stands behind an output that was there before, and what goes to one place is joined.
fn are_joined(items: &[Output]) -> bool {
    match items {
        [
            Output::Close(9),
            Output::Client(frames),
            Output::Open(1, 2),
            Output::Up(1, first),
            Output::Up(2, second),
            Output::Close(1),
            Output::CloseClient,
        ] => {
            frames.len() == 22
                && first.as_slice() == b"GET /".as_slice()
                && second.as_slice() == b"PUT".as_slice()
        }
        _ => false,
    }
}

#[test]
fn what_goes_to_one_place_is_joined(rt: HostRuntime) -> Result<(), Fail> {
    let alloc = rt.alloc();
    let mut outputs = Outputs::new(alloc);
    put_out(alloc, &mut outputs)?;
    let mut items = Vec::new(alloc);
    items.push(Output::Close(9))?;
    outputs.append_to(&mut items)?;
    assert!(rt; are_joined(&items));
    Ok(())
}

#[test]
fn settings_are_announced_and_acknowledged(rt: HostRuntime) -> Result<(), Fail> {
    let mut outputs = Outputs::new(rt.alloc());
    outputs.send_settings(0)?;
    outputs.send_settings_ack()?;
    let octets = octets_of(rt.alloc(), outputs)?;
    let expected = [
        0u8, 0, 12, 4, 0, 0, 0, 0, 0, 0, 3, 0, 0, 0, 100, 0, 6, 0, 0, 64, 0, 0, 0, 0, 4, 1, 0, 0,
        0, 0,
    ];
    assert!(rt; octets.as_slice() == expected.as_slice());
    Ok(())
}

#[test]
fn a_ping_is_answered(rt: HostRuntime) -> Result<(), Fail> {
    let mut outputs = Outputs::new(rt.alloc());
    outputs.send_ping_ack(b"12345678")?;
    let octets = octets_of(rt.alloc(), outputs)?;
    assert!(rt; octets.as_slice() == b"\0\0\x08\x06\x01\0\0\0\x0012345678".as_slice());
    Ok(())
}

#[test]
fn a_connection_is_ended(rt: HostRuntime) -> Result<(), Fail> {
    let mut outputs = Outputs::new(rt.alloc());
    outputs.send_goaway(0x01020304, 0x0a0b0c0d)?;
    let octets = octets_of(rt.alloc(), outputs)?;
    assert!(rt;
        octets.as_slice() == b"\0\0\x08\x07\0\0\0\0\0\x01\x02\x03\x04\x0a\x0b\x0c\x0d".as_slice()
    );
    Ok(())
}

#[test]
fn a_stream_is_reset(rt: HostRuntime) -> Result<(), Fail> {
    let mut outputs = Outputs::new(rt.alloc());
    outputs.send_rst_stream(259, 8)?;
    let octets = octets_of(rt.alloc(), outputs)?;
    assert!(rt; octets.as_slice() == b"\0\0\x04\x03\0\0\0\x01\x03\0\0\0\x08".as_slice());
    Ok(())
}

#[test]
fn octets_are_given_back(rt: HostRuntime) -> Result<(), Fail> {
    let mut outputs = Outputs::new(rt.alloc());
    outputs.send_window_update(0, 65535)?;
    let octets = octets_of(rt.alloc(), outputs)?;
    assert!(rt; octets.as_slice() == b"\0\0\x04\x08\0\0\0\0\0\0\0\xff\xff".as_slice());
    Ok(())
}

#[test]
fn octets_of_a_body_are_sent(rt: HostRuntime) -> Result<(), Fail> {
    let mut outputs = Outputs::new(rt.alloc());
    outputs.send_data(5, b"h", b"i", false)?;
    outputs.send_data(5, b"", b"", true)?;
    let octets = octets_of(rt.alloc(), outputs)?;
    assert!(rt; octets.as_slice() == b"\0\0\x02\0\0\0\0\0\x05hi\0\0\0\0\x01\0\0\0\x05".as_slice());
    Ok(())
}

#[test]
fn a_block_that_fits_goes_in_one_frame(rt: HostRuntime) -> Result<(), Fail> {
    let mut outputs = Outputs::new(rt.alloc());
    outputs.send_block(1, b"\x88", true)?;
    outputs.send_block(3, b"\x89", false)?;
    let octets = octets_of(rt.alloc(), outputs)?;
    assert!(rt;
        octets.as_slice()
            == b"\0\0\x01\x01\x05\0\0\0\x01\x88\0\0\x01\x01\x04\0\0\0\x03\x89".as_slice()
    );
    Ok(())
}

/// The type, the flags and the length of the frame with which octets begin, and how many octets it takes.
fn first_frame(octets: &[u8]) -> Option<(u8, u8, usize, usize)> {
    match split(octets) {
        Split::Frame(view, used) => Some((view.kind, view.flags, view.payload.len(), used)),
        _ => None,
    }
}

#[test]
fn a_longer_block_is_cut(rt: HostRuntime) -> Result<(), Fail> {
    let alloc = rt.alloc();
    let mut block = Vec::new(alloc);
    block.resize(32769, 7)?;
    let mut outputs = Outputs::new(alloc);
    outputs.send_block(1, &block, true)?;
    let octets = octets_of(alloc, outputs)?;
    assert_eq!(rt; octets.len(), 32796);
    assert_eq!(rt; first_frame(&octets), Some((1, 1, 16384, 16393)));
    assert_eq!(rt; first_frame(&octets[16393..]), Some((9, 0, 16384, 16393)));
    assert_eq!(rt; first_frame(&octets[32786..]), Some((9, 4, 1, 10)));
    Ok(())
}

#[test]
fn a_block_that_fills_a_frame_goes_in_one(rt: HostRuntime) -> Result<(), Fail> {
    let alloc = rt.alloc();
    let mut block = Vec::new(alloc);
    block.resize(16384, 7)?;
    let mut outputs = Outputs::new(alloc);
    outputs.send_block(1, &block, false)?;
    let octets = octets_of(alloc, outputs)?;
    assert_eq!(rt; octets.len(), 16393);
    assert_eq!(rt; first_frame(&octets), Some((1, 4, 16384, 16393)));
    Ok(())
}

#[test]
fn a_head_is_a_section(rt: HostRuntime) -> Result<(), Fail> {
    let alloc = rt.alloc();
    let head = head_of(alloc, b"HTTP/1.1 204 No Content\r\nServer: a\r\n\r\n")?;
    let fields = section_of(alloc, head)?;
    assert_eq!(rt; fields.len(), 2);
    assert!(rt; fields[0].name() == b":status".as_slice());
    assert!(rt; fields[0].value() == b"204".as_slice());
    assert!(rt; fields[1].name() == b"server".as_slice());
    assert!(rt; fields[1].value() == b"a".as_slice());
    Ok(())
}
