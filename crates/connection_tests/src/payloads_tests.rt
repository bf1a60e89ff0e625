//! What a frame's payload says.

use frames::{Frame, FrameFault, View};
use std::test::*;

/// A frame on stream 1.
fn view(kind: u8, flags: u8, payload: &[u8]) -> View<'_> {
    View {
        kind,
        flags,
        id: 1,
        payload,
    }
}

/// The length that a payload of this type has, where the padding and the priority aren't looked at.
fn has_length(kind: u8, flags: u8, length: usize) -> bool {
    match kind {
        2 => length == 5,
        3 | 8 => length == 4,
        4 if flags & 1 == 1 => length == 0,
        4 => length % 6 == 0,
        6 => length == 8,
        7 => length >= 8,
        _ => true,
    }
}

/// What stands behind the octets of the priority, if they are there.
fn behind_priority(kind: u8, flags: u8, octets: &[u8]) -> Result<&[u8], FrameFault> {
    if kind == 0 || flags & 32 == 0 {
        return Ok(octets);
    }
    match octets {
        [_, _, _, _, _, rest @ ..] => Ok(rest),
        _ => Err(FrameFault::Size),
    }
}

/// The content of DATA or HEADERS, taken off octet by octet.
fn plain_content(kind: u8, flags: u8, payload: &[u8]) -> Result<&[u8], FrameFault> {
    if flags & 8 == 0 {
        return behind_priority(kind, flags, payload);
    }
    let [padding, rest @ ..] = payload else {
        return Err(FrameFault::Size);
    };
    let rest = behind_priority(kind, flags, rest)?;
    let padding = *padding as usize;
    if padding > rest.len() {
        return Err(FrameFault::Protocol);
    }
    Ok(&rest[..rest.len() - padding])
}

/// A number of four octets.
fn plain_number(octets: &[u8]) -> u32 {
    match octets {
        [a, b, c, d] => u32::from_be_bytes([*a, *b, *c, *d]),
        _ => 0,
    }
}

/// What a payload says, as a plain program.
fn plain(kind: u8, flags: u8, payload: &[u8]) -> Result<Frame<'_>, FrameFault> {
    if !has_length(kind, flags, payload.len()) {
        return Err(FrameFault::Size);
    }
    match kind {
        0 => Ok(Frame::Data(plain_content(kind, flags, payload)?)),
        1 => Ok(Frame::Headers(plain_content(kind, flags, payload)?)),
        3 => Ok(Frame::RstStream(plain_number(payload))),
        4 => Ok(Frame::Settings(payload)),
        6 => Ok(Frame::Ping(payload)),
        8 => Ok(Frame::WindowUpdate(plain_number(payload) & 0x7fff_ffff)),
        9 => Ok(Frame::Continuation(payload)),
        _ => Ok(Frame::Other),
    }
}

/// The first length of payload at the front of the octets, of at most 20, that is read in another
/// way than the plain program reads it.
fn first_that_differs(kind: u8, flags: u8, octets: &[u8; 20]) -> Option<usize> {
    for length in 0..=20 {
        let payload = &octets[..length];
        if frames::parse(view(kind, flags, payload)) != plain(kind, flags, payload) {
            return Some(length);
        }
    }
    None
}

/// The first octet, type and flags with which some payload is read otherwise.
fn first_payload_that_differs(firsts: &[u8]) -> Option<(u8, u8, u8)> {
    let mut octets = [
        0u8, 0x80, 1, 2, 3, 4, 5, 6, 7, 8, 9, 10, 11, 12, 13, 14, 15, 16, 17, 18,
    ];
    for first in firsts {
        octets[0] = *first;
        for kind in 0..=11 {
            for flags in 0..64 {
                if first_that_differs(kind, flags, &octets).is_some() {
                    return Some((*first, kind, flags));
                }
            }
        }
    }
    None
}

#[test]
fn each_type_length_and_flag(rt: HostRuntime) {
    let firsts = [0u8, 1, 2, 4, 13, 14, 15, 18, 19, 20, 128, 255];
    assert_eq!(rt; first_payload_that_differs(&firsts), None);
}

/// A type, flags, a payload, and what it says.
type Row<'a> = (u8, u8, &'a [u8], Result<Frame<'a>, FrameFault>);

/// The first row that is read in another way.
fn first_row_that_differs(rows: &[Row<'_>]) -> Option<usize> {
    for (place, (kind, flags, payload, wanted)) in rows.iter().enumerate() {
        if frames::parse(view(*kind, *flags, payload)) != *wanted {
            return Some(place);
        }
    }
    None
}

/// Payloads with padding and with a priority, and numbers.
static ROWS: [Row<'static>; 13] = [
    (
        1,
        0x28,
        &[2, 0, 0, 0, 0, 15, 0x82, 0, 0],
        Ok(Frame::Headers(&[0x82])),
    ),
    (
        1,
        0x28,
        &[4, 0, 0, 0, 0, 15, 0x82, 0, 0],
        Err(FrameFault::Protocol),
    ),
    (1, 0x20, &[4, 0, 0, 0], Err(FrameFault::Size)),
    (0, 0x08, &[], Err(FrameFault::Size)),
    (0, 0x09, b"\x02hi\0\0", Ok(Frame::Data(b"hi"))),
    (0, 0x08, &[1], Err(FrameFault::Protocol)),
    (9, 0x0c, &[1, 2], Ok(Frame::Continuation(&[1, 2]))),
    (3, 0, &[0, 0, 1, 8], Ok(Frame::RstStream(264))),
    (
        3,
        0,
        &[0xff, 0xff, 0xff, 0xff],
        Ok(Frame::RstStream(4294967295)),
    ),
    (
        8,
        0,
        &[0xff, 0xff, 0, 1],
        Ok(Frame::WindowUpdate(2147418113)),
    ),
    (8, 0, &[0x80, 0, 0, 0], Ok(Frame::WindowUpdate(0))),
    (4, 1, &[], Ok(Frame::Settings(&[]))),
    (4, 1, &[0; 6], Err(FrameFault::Size)),
];

#[test]
fn payloads_are_read(rt: HostRuntime) {
    assert_eq!(rt; first_row_that_differs(&ROWS), None);
}
