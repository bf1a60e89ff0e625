//! Whose turn it is.

use scheduler::Turn;
use std::test::*;

/// The stream whose turn was last, those that are ready, and whose turn is next.
type Row = (u32, &'static [u32], Option<u32>);

/// The first row whose next turn is another one.
fn first_that_differs(rows: &[Row]) -> Option<usize> {
    for (place, (last, ready, next)) in rows.iter().enumerate() {
        if Turn::next(*last, ready) != *next {
            return Some(place);
        }
    }
    None
}

static IN_TURN: [Row; 11] = [
    (0, &[3, 5], Some(3)),
    (3, &[3, 5], Some(5)),
    (5, &[3, 5], Some(3)),
    (5, &[], None),
    (0, &[5, 1, 3], Some(1)),
    (1, &[5, 1, 3], Some(3)),
    (3, &[5, 1, 3], Some(5)),
    (5, &[5, 1, 3], Some(1)),
    (4, &[3, 1], Some(1)),
    (4294967295, &[7], Some(7)),
    (2, &[], None),
];

#[test]
fn turns_go_round(rt: HostRuntime) {
    assert_eq!(rt; first_that_differs(&IN_TURN), None);
}
