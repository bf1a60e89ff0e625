//! What a kept connection still has to be read comes before the client's next request, which would
//! go out on it: that stream has its own answer, on a connection of its own.

use crate::meeting::{Trial, assert_right, meet};
use crate::peers::{ALL, Behind, Case, pair, quiet_listener};
use gateway::Passing;
use std::net::Ipv4Addr;
use std::process::Abort;
use std::test::*;

/// Where a read ends at 65,536 octets, before it and behind it; and last where a read has room for
/// 1,043, since 64,493 wait for the client, and the response ends with those.
const SIZES: [(usize, u32); 7] = [
    (100, ALL),
    (16_384, ALL),
    (65_535, ALL),
    (65_536, ALL),
    (65_537, ALL),
    (131_072, ALL),
    (66_579, 1_000),
];

const BEHIND: [Behind; 4] = [
    Behind::Response,
    Behind::Octet,
    Behind::Interim,
    Behind::End,
];

/// So it is in a world alone and in one under a reactor.
fn assert_right_so(
    rt: &impl Abort,
    host: &HostRuntime,
    passing: Passing,
    case: Case,
) -> Result<(), Fail> {
    for is_told in [false, true] {
        let trial = Trial {
            passing,
            is_told,
            case,
        };
        let listener = quiet_listener(host, Ipv4Addr::LOCALHOST)?;
        let address = listener.local_addr()?;
        let seen = meet(host, trial, listener, address, pair(host)?)?;
        assert_right(rt, &trial, &seen);
    }
    Ok(())
}

/// So it is for each size, and all that may stand behind it.
fn assert_all_right(rt: &impl Abort, host: &HostRuntime, passing: Passing) -> Result<(), Fail> {
    for (size, window) in SIZES {
        for behind in BEHIND {
            let case = Case {
                size,
                window,
                behind,
            };
            assert_right_so(rt, host, passing, case)?;
        }
    }
    Ok(())
}

#[test]
fn a_stray_response_reaches_no_other_stream(rt: HostRuntime) -> Result<(), Fail> {
    assert_all_right(&rt, &rt, Passing::Whole)
}

#[test]
fn nor_where_bodies_pass_as_they_come(rt: HostRuntime) -> Result<(), Fail> {
    assert_all_right(&rt, &rt, Passing::Streaming)
}

#[test]
fn a_connection_that_was_reset_has_no_further_request(rt: HostRuntime) -> Result<(), Fail> {
    for passing in [Passing::Whole, Passing::Streaming] {
        let case = Case {
            size: 100,
            window: ALL,
            behind: Behind::Reset,
        };
        assert_right_so(&rt, &rt, passing, case)?;
    }
    Ok(())
}
