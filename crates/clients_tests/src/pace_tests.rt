//! Rounds of turns by a clock that is set by hand.

use clients::Pace;
use sockets::Portion;
use std::io;
use std::test::*;
use std::time::{Clock, Duration, Instant};

/// A clock that stands at so many nanoseconds.
#[derive(Drop)]
struct Stands(u64);

impl Clock for Stands {
    fn monotonic(&self) -> io::Result<Duration> {
        Ok(Duration::from_nanos(self.0))
    }

    fn since_1970(&self) -> io::Result<Duration> {
        Ok(Duration::from_nanos(self.0))
    }
}

/// A round that begins at 7 nanoseconds, of turns that take so many nanoseconds each.
fn round_of(turns: &[u64]) -> io::Result<Pace> {
    let mut at: u64 = 7;
    let mut pace = Pace::begin(Instant::now(&Stands(at))?);
    for turn in turns {
        at = at.saturating_add(*turn);
        pace.note(Instant::now(&Stands(at))?);
    }
    Ok(pace)
}

/// What rounds of turns come to: whether they are over, and by which portion the client is read in
/// the next round, where it was read by 2,048 octets in this one.
static ROUNDS: [(&[u64], bool, Portion); 7] = [
    (&[], false, Portion::Large),
    (&[124_999, 124_999, 124_999], false, Portion::Large),
    (&[124_999, 125_000], false, Portion::Small),
    (&[500_000], false, Portion::Small),
    (&[500_001, 1], false, Portion::Least),
    (&[500_000, 499_999], false, Portion::Small),
    (&[500_000, 500_000], true, Portion::Small),
];

#[test]
fn rounds_end_by_what_they_took(rt: HostRuntime) -> Result<(), Fail> {
    for (turns, is_over, portion) in &ROUNDS {
        let pace = round_of(turns)?;
        assert_eq!(rt;
            (pace.is_over(), pace.portion(Portion::Small)),
            (*is_over, *portion)
        );
    }
    Ok(())
}

/// By which portions a client is read behind rounds that took long, and behind brief ones.
static PORTIONS: [(Portion, Portion, Portion); 4] = [
    (Portion::Least, Portion::Least, Portion::Small),
    (Portion::Small, Portion::Least, Portion::Large),
    (Portion::Large, Portion::Small, Portion::Large),
    (Portion::Whole, Portion::Large, Portion::Whole),
];

#[test]
fn portions_go_by_the_longest_turn(rt: HostRuntime) -> Result<(), Fail> {
    let (long, brief) = (round_of(&[10, 2_000_000, 10])?, round_of(&[10, 20])?);
    for (portion, smaller, larger) in &PORTIONS {
        assert_eq!(rt;
            (long.portion(*portion), brief.portion(*portion)),
            (*smaller, *larger)
        );
    }
    Ok(())
}
