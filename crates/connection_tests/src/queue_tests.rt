//! Octets that wait until so many are taken.

use std::alloc::{AllocError, Global};
use std::test::*;
use window_credit::CreditQueue;

/// Octets of three marks, two of which are the same.
fn waiting(alloc: Global) -> Result<CreditQueue, AllocError> {
    let mut waiting = CreditQueue::new(alloc);
    waiting.wait(10, 4)?;
    waiting.wait(10, 2)?;
    waiting.wait(25, 9)?;
    Ok(waiting)
}

/// How many are taken, and how many octets no longer wait.
type Row = (u64, u64);

/// The first row at which as many don't wait any longer as another number says.
fn first_that_differs(waiting: &mut CreditQueue, rows: &[Row]) -> Option<usize> {
    for (place, (taken, released)) in rows.iter().enumerate() {
        if waiting.reach(*taken) != *released {
            return Some(place);
        }
    }
    None
}

static REACHED: [Row; 5] = [(9, 0), (10, 6), (24, 0), (40, 9), (50, 0)];

#[test]
fn marks_are_reached_in_turn(rt: HostRuntime) -> Result<(), Fail> {
    let mut waiting = waiting(rt.alloc())?;
    assert_eq!(rt; first_that_differs(&mut waiting, &REACHED), None);
    Ok(())
}

#[test]
fn what_is_reached_waits_no_longer(rt: HostRuntime) -> Result<(), Fail> {
    let mut waiting = waiting(rt.alloc())?;
    assert_eq!(rt; waiting.total(), 15);
    assert_eq!(rt; waiting.reach(24), 6);
    assert_eq!(rt; waiting.total(), 9);
    Ok(())
}
