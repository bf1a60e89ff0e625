//! Frames as they are split off and written.

use frames::{Split, View};
use std::alloc::{AllocError, Global};
use std::test::*;

/// Octets, and what they begin with.
type Row<'a> = (&'a [u8], Split<'a>);

/// The first row whose octets are split in another way.
fn first_that_differs(rows: &[Row<'_>]) -> Option<usize> {
    for (place, (octets, wanted)) in rows.iter().enumerate() {
        if frames::split(octets) != *wanted {
            return Some(place);
        }
    }
    None
}

/// A frame with octets behind it, fronts of frames, and lengths over the limit.
static ROWS: [Row<'static>; 15] = [
    (
        &[0, 0, 2, 0, 1, 128, 0, 1, 3, 104, 105, 0, 0],
        Split::Frame(
            View {
                kind: 0,
                flags: 1,
                id: 259,
                payload: b"hi",
            },
            11,
        ),
    ),
    (&[], Split::More),
    (&[0], Split::More),
    (&[0, 0], Split::More),
    (&[0, 0, 0], Split::More),
    (&[0, 0, 0, 4], Split::More),
    (&[0, 0, 0, 4, 1], Split::More),
    (&[0, 0, 0, 4, 1, 0], Split::More),
    (&[0, 0, 0, 4, 1, 0, 0], Split::More),
    (&[0, 0, 0, 4, 1, 0, 0, 0], Split::More),
    (&[0, 0, 1, 0, 1, 0, 0, 0, 1], Split::More),
    (&[0, 64, 0, 0, 0, 0, 0, 0, 1], Split::More),
    (&[0, 64, 1, 0, 0, 0, 0, 0, 1], Split::TooLong),
    (&[1, 0, 0, 0, 0, 0, 0, 0, 1, 7], Split::TooLong),
    (&[0, 64, 1, 0, 0, 0, 0, 0], Split::More),
];

#[test]
fn octets_are_split_into_frames(rt: HostRuntime) {
    assert_eq!(rt; first_that_differs(&ROWS), None);
}

/// The octets of these frames, one behind another.
fn written(alloc: Global, views: &[View<'_>]) -> Result<Vec<u8>, AllocError> {
    let mut out = Vec::new(alloc);
    for view in views {
        if view.payload.len() <= 16384 && view.id < 2147483648 {
            frames::write(view, &mut out)?;
        }
    }
    Ok(out)
}

#[test]
fn writes_frames(rt: HostRuntime) -> Result<(), Fail> {
    let ack = View {
        kind: 4,
        flags: 1,
        id: 0,
        payload: &[],
    };
    let data = View {
        kind: 0,
        flags: 1,
        id: 16909060,
        payload: b"hi",
    };
    let wanted = [
        0u8, 0, 0, 4, 1, 0, 0, 0, 0, 0, 0, 2, 0, 1, 1, 2, 3, 4, 104, 105,
    ];
    assert_eq!(rt;
        written(rt.alloc(), &[ack, data])?.as_slice(),
        wanted.as_slice()
    );
    Ok(())
}
