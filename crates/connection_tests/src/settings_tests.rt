//! Settings of a peer, as their entries are checked and applied.

use settings::{Change, Checked, SettingFault, Settings};
use std::test::*;

/// What is done with settings: what it answers, and the first size of windows that stands then.
#[derive(Clone, Copy)]
enum Step {
    /// Entries are applied.
    Apply(&'static [u8], Result<Change, SettingFault>, u32),
    /// Entries are checked alone.
    Check(&'static [u8], Result<Checked, SettingFault>, u32),
    /// What entries leave is accepted.
    Accept(&'static [u8], u32),
}

/// Accepts what entries leave, if they have no fault.
fn accept(settings: &mut Settings, entries: &[u8]) {
    if let Ok(checked) = settings.check(entries) {
        if checked.initial_window <= 2147483647 {
            settings.accept(checked);
        }
    }
}

fn answers(settings: &mut Settings, step: Step) -> bool {
    match step {
        Step::Apply(entries, wanted, window) => {
            settings.apply(entries) == wanted && settings.initial_window() == window
        }
        Step::Check(entries, wanted, window) => {
            settings.check(entries) == wanted && settings.initial_window() == window
        }
        Step::Accept(entries, window) => {
            accept(settings, entries);
            settings.initial_window() == window
        }
    }
}

/// The first of these steps of the first settings that comes to something else.
fn first_that_differs(steps: &[Step]) -> Option<usize> {
    let mut settings = Settings::default();
    for (place, step) in steps.iter().enumerate() {
        if !answers(&mut settings, *step) {
            return Some(place);
        }
    }
    None
}

const NOTHING: Change = Change {
    difference: 0,
    smallest: None,
    last: None,
};

/// The least limit of 0, and the last of 4,096.
const LIMITS: Change = Change {
    difference: 0,
    smallest: Some(0),
    last: Some(4096),
};

const SMALLER: Change = Change {
    difference: -65525,
    smallest: None,
    last: None,
};

const LARGER: Change = Change {
    difference: 5,
    smallest: None,
    last: None,
};

static FAULTY: [Step; 7] = [
    Step::Apply(&[], Ok(NOTHING), 65535),
    Step::Apply(
        &[0, 5, 0, 0, 0x3f, 0xff],
        Err(SettingFault::FrameSize),
        65535,
    ),
    Step::Apply(&[0, 5, 1, 0, 0, 0], Err(SettingFault::FrameSize), 65535),
    Step::Apply(
        &[0, 2, 0, 0, 0, 2, 0, 4, 0x80, 0, 0, 0],
        Err(SettingFault::Push),
        65535,
    ),
    Step::Apply(&[0, 4, 0x80, 0, 0, 0], Err(SettingFault::Window), 65535),
    Step::Apply(&[0, 2, 0, 0, 0], Err(SettingFault::Size), 65535),
    Step::Apply(
        &[0, 2, 0, 0, 0, 2, 0, 4, 0x80, 0, 0],
        Err(SettingFault::Size),
        65535,
    ),
];

#[test]
fn refuses_the_first_faulty_entry(rt: HostRuntime) {
    assert_eq!(rt; first_that_differs(&FAULTY), None);
}

static IN_ORDER: [Step; 3] = [
    Step::Apply(&[0, 1, 0, 0, 0, 0, 0, 1, 0, 0, 0x10, 0], Ok(LIMITS), 65535),
    Step::Apply(&[0, 4, 0, 0, 0, 10], Ok(SMALLER), 10),
    Step::Apply(
        &[0, 4, 0x7f, 0xff, 0xff, 0xff, 0, 4, 0, 0, 0, 15],
        Ok(LARGER),
        15,
    ),
];

#[test]
fn applies_entries_in_order(rt: HostRuntime) {
    assert_eq!(rt; first_that_differs(&IN_ORDER), None);
}

static OTHERS: [Step; 2] = [
    Step::Apply(
        &[
            0, 3, 0, 0, 0, 0, 0, 6, 0xff, 0xff, 0xff, 0xff, 0x12, 0x34, 0xff, 0xff, 0xff, 0xff, 0,
            2, 0, 0, 0, 1, 0, 5, 0, 0xff, 0xff, 0xff,
        ],
        Ok(NOTHING),
        65535,
    ),
    Step::Apply(&[], Ok(NOTHING), 65535),
];

#[test]
fn passes_over_other_settings(rt: HostRuntime) {
    assert_eq!(rt; first_that_differs(&OTHERS), None);
}

const GREATEST: &[u8] = &[0, 4, 0x7f, 0xff, 0xff, 0xff, 0, 1, 0, 0, 0, 7];

const WITH_THE_GREATEST: Checked = Checked {
    initial_window: 2147483647,
    change: Change {
        difference: 2147418112,
        smallest: Some(7),
        last: Some(7),
    },
};

const WITH_NONE: Checked = Checked {
    initial_window: 0,
    change: Change {
        difference: -2147483647,
        smallest: None,
        last: None,
    },
};

static CHECKED: [Step; 4] = [
    Step::Check(GREATEST, Ok(WITH_THE_GREATEST), 65535),
    Step::Accept(GREATEST, 2147483647),
    Step::Check(&[0, 4, 0, 0, 0, 0], Ok(WITH_NONE), 2147483647),
    Step::Check(&[0, 4, 0, 0, 0], Err(SettingFault::Size), 2147483647),
];

#[test]
fn checks_before_it_accepts(rt: HostRuntime) {
    assert_eq!(rt; first_that_differs(&CHECKED), None);
}
