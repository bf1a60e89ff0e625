//! What the type, the flags and the stream's number of a frame say.

use frames::View;
use std::test::*;

/// A frame without a payload.
fn view(kind: u8, flags: u8, id: u32) -> View<'static> {
    View {
        kind,
        flags,
        id,
        payload: &[],
    }
}

/// What a frame is: an acknowledgement, the end of its stream, the end of its header block, and SETTINGS with settings.
fn marks(kind: u8, flags: u8) -> [bool; 4] {
    [
        frames::is_ack(view(kind, flags, 0)),
        frames::ends_stream(view(kind, flags, 1)),
        frames::ends_headers(view(kind, flags, 1)),
        frames::has_settings(view(kind, flags, 0)),
    ]
}

/// The first type that has this flag in another way than these types have it.
fn first_that_differs(flags: u8, wanted: [&[u8]; 4]) -> Option<u8> {
    for kind in 0u8..=11 {
        for (mark, kinds) in marks(kind, flags).iter().zip(wanted) {
            if *mark != kinds.contains(&kind) {
                return Some(kind);
            }
        }
    }
    None
}

#[test]
fn flags_belong_to_types(rt: HostRuntime) {
    assert_eq!(rt; first_that_differs(0, [&[], &[], &[], &[4]]), None);
    assert_eq!(rt; first_that_differs(1, [&[4, 6], &[0, 1], &[], &[]]), None);
    assert_eq!(rt; first_that_differs(4, [&[], &[], &[1, 9], &[4]]), None);
}

#[test]
fn other_bits_are_no_flags(rt: HostRuntime) {
    assert_eq!(rt; first_that_differs(0xfe, [&[], &[], &[1, 9], &[4]]), None);
    assert_eq!(rt;
        first_that_differs(0xfb, [&[4, 6], &[0, 1], &[], &[]]),
        None
    );
    assert_eq!(rt;
        first_that_differs(0xff, [&[4, 6], &[0, 1], &[1, 9], &[]]),
        None
    );
}

/// The first type of which a frame on this stream is misplaced in another way than for these types.
fn first_misplaced_otherwise(id: u32, wanted: &[u8]) -> Option<u8> {
    for kind in 0u8..=11 {
        if frames::is_misplaced(view(kind, 0, id)) != wanted.contains(&kind) {
            return Some(kind);
        }
    }
    None
}

#[test]
fn types_have_their_streams(rt: HostRuntime) {
    assert_eq!(rt; first_misplaced_otherwise(0, &[0, 1, 2, 3, 5]), None);
    assert_eq!(rt; first_misplaced_otherwise(7, &[4, 5, 6, 7]), None);
    assert_eq!(rt; first_misplaced_otherwise(8, &[1, 4, 5, 6, 7]), None);
}
