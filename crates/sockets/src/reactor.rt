//! One poll for the sockets of a world, or of many.

ghost use Rattle.std.specs.Prelude.{◌≡◌, ◌≢◌, ◌==◌, [], length, IfOk, IfErr, OnErr};
ghost use Rattle.std.specs.IoError.{error_kind};
ghost use Rattle.mio.specs.Events.{items, capacity};

use mio::{Events, Poll, Registry};
use std::alloc::Global;
use std::io;
use std::io::ErrorKind;
use std::net::Net;
use std::time::Duration;

/// How many sockets may be reported at once: of many worlds, and of one, which are all that it has.
const REPORTS: usize = 1024;

const REPORTS_OF_ONE: usize = 512;

/// One poll for the sockets of a world, or of many: it waits for all of them, and has what was
/// reported, by tokens that say whose it is (`client_in`).
#[derive(Drop)]
pub struct Reactor {
    poll: Poll,
    reports: Events,
}

impl Reactor {
    /// A reactor without sources, for many worlds. An error says that too many files are open, or
    /// that memory was refused.
    pub fn new<N: Net>(alloc: Global, net: &N) -> io::Result<Reactor>
        ensures { IfOk result (λ reactor. items reactor.reports ≡ []) }
    {
        Reactor::with_room(alloc, net, REPORTS)
    }

    /// Such a one for a single world.
    pub(crate) fn of_one<N: Net>(alloc: Global, net: &N) -> io::Result<Reactor> {
        Reactor::with_room(alloc, net, REPORTS_OF_ONE)
    }

    /// One that is told of so many sockets at once.
    fn with_room<N: Net>(alloc: Global, net: &N, reports: usize) -> io::Result<Reactor>
        ensures { IfOk result (λ reactor. items reactor.reports ≡ []) }
    {
        Ok(Reactor {
            poll: Poll::new(net)?,
            reports: Events::with_capacity(alloc, reports)?,
        })
    }

    /// Its sources.
    pub(crate) fn registry(&self) -> &Registry {
        self.poll.registry()
    }

    /// Another owner of its sources, which worlds are lent. It takes a file more.
    pub fn sources(&self) -> io::Result<Registry> {
        self.poll.registry().try_clone()
    }

    /// Waits until a socket is reported, at most so long where that is said. What was reported
    /// before is forgotten. Where a signal comes it ends at once, and nothing was reported.
    pub fn wait(&mut self, most: Option<Duration>) -> io::Result<()>
        ensures signal { IfErr result (λ error. error_kind error ≢ ErrorKind.Interrupted) }
        ensures failed { OnErr result (items self.new.reports ≡ []) }
    {
        match self.poll.poll(&mut self.reports, most) {
            Ok(()) => Ok(()),
            Err(error) if error.kind() == ErrorKind::Interrupted => Ok(()),
            Err(error) => Err(error),
        }
    }

    /// Whether so many sockets were reported last that others may have something to report, too.
    pub fn may_have_more(&self) -> bool
        ensures { result ≡ (length (items self.now.reports) == capacity self.now.reports) }
    {
        self.reports.iter().count() == self.reports.capacity()
    }

    /// What was reported last.
    pub fn reports(&self) -> &Events
        ensures { result.now ≡ self.now.reports }
    {
        &self.reports
    }
}
