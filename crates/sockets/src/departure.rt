//! A client that is being left.

ghost use Rattle.std.specs.Prelude.{◌≡◌, ◌==◌, IfOk, IfSome, IfNone, if◌then◌else◌};
ghost use Rattle.sockets.specs.Departing.{departing, is_left, IsOver, IsOverBy, MayWait, MayWaitBy};
ghost use Rattle.sockets.specs.Sides.{lost_news, noted, Goes};
ghost use Rattle.sockets.specs.Tokens.{number_reported};

use crate::buffer::Buffer;
use crate::leaving::Leaving;
use crate::reporting::number_in;
use crate::side::Side;
use crate::wire::Wire;
use mio::Registry;
use mio::event::Event as Report;
use std::alloc::Global;
use std::io;
use std::time::{Duration, Instant};

/// A client that is being left beside others: its socket, and how long it is waited for.
#[derive(Drop)]
pub struct Departure<S> {
    client: Side<S>,
    leaving: Leaving,
}

impl<S: Wire> Departure<S> {
    /// A client begins to be left now.
    pub fn begin(client: Side<S>, now: Instant) -> Departure<S>
        ensures { result ≡ departing now client }
    {
        let leaving = Leaving::begin(now, client.waiting());
        Departure { client, leaving }
    }

    /// Notes what was reported of its socket. A report of a connection to an upstream, which is
    /// closed by now, changes nothing.
    pub fn hear(&mut self, report: &Report)
        ensures { self.new ≡ (if number_reported report.now == 0 then record self.old { client = noted report.now self.old.client } else self.old) }
    {
        if number_in(report.token()) == 0 {
            self.client.note(report);
        }
    }

    /// Goes on without waiting: writes what its socket takes of what waits for it, tells it that
    /// nothing more is written once nothing waits, and reads and drops what is there, in one read.
    /// The answer is how long it is waited for yet, where nothing is reported of it, or not at all
    /// where more may be read; or nothing where it is left: its end was read behind all, or it was
    /// waited for long enough by now. An error is the socket's, or says that memory was refused:
    /// then it is left too.
    pub fn go_on(
        &mut self,
        alloc: Global,
        now: Instant,
        registry: &Registry,
        buffer: &mut Buffer,
    ) -> io::Result<Option<Duration>>
        ensures goes { Goes S.left S.held lost_news self.old.client self.new.client }
        ensures left { IfOk result (λ most. IfNone most (IsOver now self.new)) }
        ensures waits { IfOk result (λ most. IfSome most (MayWait now self.new)) }
    {
        leave_on(
            alloc,
            now,
            registry,
            &mut self.client,
            &mut self.leaving,
            buffer,
        )
    }
}

/// Goes on leaving a client without waiting, as `Departure::go_on` does, and `SocketWorld::finish`
/// between its waits.
pub fn leave_on<S: Wire>(
    alloc: Global,
    now: Instant,
    registry: &Registry,
    client: &mut Side<S>,
    leaving: &mut Leaving,
    buffer: &mut Buffer,
) -> io::Result<Option<Duration>>
    ensures goes { Goes S.left S.held lost_news client.old client.new }
    ensures left { IfOk result (λ most. IfNone most (IsOverBy now client.new leaving.new)) }
    ensures waits { IfOk result (λ most. IfSome most (MayWaitBy now client.new leaving.new)) }
{
    if write_rest(client, leaving, registry, now)? {
        return Ok(None);
    }
    let Some(most) = leaving.remaining(now) else {
        return Ok(None);
    };
    if !client.is_readable() {
        return Ok(Some(most));
    }
    drop_piece(alloc, now, client, leaving, buffer)?;
    Ok(Some(Duration::ZERO))
}

/// Reads and drops what is there of a client, in one read, now.
fn drop_piece<S: Wire>(
    alloc: Global,
    now: Instant,
    client: &mut Side<S>,
    leaving: &mut Leaving,
    buffer: &mut Buffer,
) -> io::Result<()>
    ensures { Goes S.left S.held lost_news client.old client.new }
{
    let _ = buffer.read(alloc, client)?;
    leaving.note_heard(now);
    Ok(())
}

/// Writes what a client's socket takes of what waits for it, and tells it that nothing more is
/// written once nothing waits. The answer is whether it is left: all is written, and its end was
/// read.
fn write_rest<S: Wire>(
    client: &mut Side<S>,
    leaving: &mut Leaving,
    registry: &Registry,
    now: Instant,
) -> io::Result<bool>
    ensures goes { Goes S.left S.held lost_news client.old client.new }
    ensures left { IfOk result (λ left. left ≡ is_left client.new) }
{
    client.flush(registry)?;
    leaving.note_waiting(now, client.waiting());
    if client.waiting() > 0 {
        return Ok(false);
    }
    if client.is_ended() {
        return Ok(true);
    }
    client.shut()?;
    Ok(false)
}
