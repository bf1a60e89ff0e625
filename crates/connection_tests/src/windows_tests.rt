//! Windows of flow control.

use flow_control::Window;
use std::test::*;

/// What is done with a window, and how many octets it has left then.
#[derive(Clone, Copy)]
enum Step {
    /// Octets are taken, of which there are at most as many as it has.
    Take(u32, i64),
    /// Octets are spent.
    Spend(u32, i64),
    /// An increment is granted or refused.
    Grant(u32, bool, i64),
    /// The window shifts by a difference, or that is refused.
    Shift(i64, bool, i64),
}

/// Takes octets, if there are so many, and says whether there were.
fn takes(window: &mut Window, octets: u32) -> bool {
    if i64::from(octets) > window.left() {
        return false;
    }
    window.take(octets);
    true
}

/// Spends octets, if that leaves the window above the least, and says whether it does.
fn spends(window: &mut Window, octets: u32) -> bool {
    if window.left() - i64::from(octets) < -2147483647 {
        return false;
    }
    window.spend(octets);
    true
}

fn answers(window: &mut Window, step: Step) -> bool {
    match step {
        Step::Take(octets, left) => takes(window, octets) && window.left() == left,
        Step::Spend(octets, left) => spends(window, octets) && window.left() == left,
        Step::Grant(increment, granted, left) => {
            window.grant(increment).is_ok() == granted && window.left() == left
        }
        Step::Shift(difference, shifted, left) => {
            window.shift(difference).is_ok() == shifted && window.left() == left
        }
    }
}

/// The first of these steps of the window that comes to something else.
fn first_that_differs(window: &mut Window, steps: &[Step]) -> Option<usize> {
    for (place, step) in steps.iter().enumerate() {
        if !answers(window, *step) {
            return Some(place);
        }
    }
    None
}

static TAKEN: [Step; 3] = [
    Step::Take(0, 65535),
    Step::Take(65535, 0),
    Step::Grant(16384, true, 16384),
];

static GREATEST: [Step; 4] = [
    Step::Grant(2147418113, false, 65535),
    Step::Grant(2147418112, true, 2147483647),
    Step::Grant(0, true, 2147483647),
    Step::Shift(1, false, 2147483647),
];

static BELOW_ZERO: [Step; 3] = [
    Step::Take(20000, 45535),
    Step::Shift(-65525, true, -19990),
    Step::Grant(19991, true, 1),
];

#[test]
fn windows_of_65535_octets(rt: HostRuntime) {
    assert_eq!(rt; first_that_differs(&mut Window::new(65535), &TAKEN), None);
    assert_eq!(rt;
        first_that_differs(&mut Window::new(65535), &GREATEST),
        None
    );
    assert_eq!(rt;
        first_that_differs(&mut Window::new(65535), &BELOW_ZERO),
        None
    );
}

static LEAST: [Step; 7] = [
    Step::Shift(-2147483649, false, 1),
    Step::Shift(i64::MIN, false, 1),
    Step::Shift(i64::MAX, false, 1),
    Step::Shift(-2147483648, true, -2147483647),
    Step::Shift(-1, false, -2147483647),
    Step::Shift(4294967295, false, -2147483647),
    Step::Shift(4294967294, true, 2147483647),
];

#[test]
fn windows_end_at_the_least(rt: HostRuntime) {
    assert_eq!(rt; first_that_differs(&mut Window::new(1), &LEAST), None);
}

static SPENT: [Step; 4] = [
    Step::Spend(16384, -16384),
    Step::Spend(2147467263, -2147483647),
    Step::Spend(0, -2147483647),
    Step::Grant(2147483647, true, 0),
];

#[test]
fn octets_are_spent(rt: HostRuntime) {
    assert_eq!(rt; first_that_differs(&mut Window::new(0), &SPENT), None);
}
