//! What became of requests so far.

use crate::streams_seen::BEGUN;
use std::test::*;
use streams::{Cause, Course, Reply};

/// What happens to a request.
#[derive(Clone, Copy)]
enum Step {
    /// A header block that declares so many octets or none, and ends it or doesn't.
    Block(Option<u64>, bool),
    /// So many octets of the body, which end it or don't; the most octets that a body may have; and
    /// whether a final head is out.
    Content(u32, bool, u64, bool),
    /// A reply of the gateway's own for this cause, with a final head out or not.
    Reply(Cause, bool),
}

fn behind(course: Course, step: Step) -> Course {
    match step {
        Step::Block(declared, ends) => course.with_block(declared, ends),
        Step::Content(count, ends, most, head_out) => {
            course.with_content(count, ends, most.min(1000), head_out)
        }
        Step::Reply(cause, head_out) => course.replied(cause, head_out),
    }
}

/// A course, what happens then, and the course behind it.
type Row = (Course, Step, Course);

fn first_that_differs(rows: &[Row]) -> Option<usize> {
    for (place, (course, step, wanted)) in rows.iter().enumerate() {
        if behind(*course, *step) != *wanted {
            return Some(place);
        }
    }
    None
}

/// A course, so many octets more, whether they end the request, and whether they make it malformed.
type Length = (Course, u32, bool, bool);

fn first_length_that_differs(rows: &[Length]) -> Option<usize> {
    for (place, (course, count, ends, wanted)) in rows.iter().enumerate() {
        if course.is_malformed_with(*count, *ends) != *wanted {
            return Some(place);
        }
    }
    None
}

/// A head that declares five octets.
const HEAD: Course = Course {
    begun: true,
    declared: Some(5),
    octets: 0,
    over: false,
    reply: None,
};

/// Three octets behind it.
const THREE: Course = Course {
    begun: true,
    declared: Some(5),
    octets: 3,
    over: false,
    reply: None,
};

/// The end behind them.
const ENDED: Course = Course {
    begun: true,
    declared: Some(5),
    octets: 3,
    over: true,
    reply: None,
};

static DECLARED: [Row; 4] = [
    (NEW, Step::Block(Some(5), false), HEAD),
    (HEAD, Step::Content(3, false, 5, false), THREE),
    (THREE, Step::Block(None, true), ENDED),
    (ENDED, Step::Content(2, false, 5, false), ENDED),
];

/// Nothing came.
const NEW: Course = Course {
    begun: false,
    declared: None,
    octets: 0,
    over: false,
    reply: None,
};

static LENGTHS: [Length; 7] = [
    (HEAD, 5, false, false),
    (HEAD, 6, false, true),
    (HEAD, 5, true, false),
    (HEAD, 4, true, true),
    (BEGUN, 16384, true, false),
    (THREE, 2, true, false),
    (THREE, 3, true, true),
];

#[test]
fn bodies_keep_to_their_lengths(rt: HostRuntime) {
    assert_eq!(rt; Course::new(), NEW);
    assert_eq!(rt; first_that_differs(&DECLARED), None);
    assert_eq!(rt; first_length_that_differs(&LENGTHS), None);
}

/// Three octets of a body of which nothing is declared.
const SOME: Course = Course {
    begun: true,
    declared: None,
    octets: 3,
    over: false,
    reply: None,
};

/// As many as a body may have.
const MOST: Course = Course {
    begun: true,
    declared: None,
    octets: 10,
    over: true,
    reply: None,
};

/// One more.
const PAST: Course = Course {
    begun: true,
    declared: None,
    octets: 3,
    over: true,
    reply: Some(Reply {
        cause: Cause::LargeBody,
        head_out: true,
    }),
};

static LARGE: [Row; 5] = [
    (BEGUN, Step::Content(3, false, 10, true), SOME),
    (SOME, Step::Content(7, true, 10, true), MOST),
    (SOME, Step::Content(8, true, 10, true), PAST),
    (PAST, Step::Content(8, true, 10, false), PAST),
    (PAST, Step::Reply(Cause::BadAnswer, false), PAST),
];

#[test]
fn bodies_end_at_the_most(rt: HostRuntime) {
    assert_eq!(rt; first_that_differs(&LARGE), None);
    assert!(rt; !PAST.is_malformed_with(9, true));
}
