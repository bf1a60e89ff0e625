//! A frame beside responses is sent: all of them here, so that it is asked once whether too many
//! octets are untaken for it.

ghost use Rattle.std.specs.Prelude.{◌≡◌, ◌+◌, ◌≤◌, ◌∷◌, List, length, false, nat_lt, IfErr, OnOk};
ghost use Rattle.model.specs.Limits.{most_untaken};
ghost use Rattle.model.specs.Frames.{Frame, spell};
ghost use Rattle.model.specs.Setup.{Setup};
ghost use Rattle.model.specs.Logs.Output.{ToClient};
ghost use Rattle.model.specs.Tapes.{put};
ghost use Rattle.refinement.specs.View.{Pending};
ghost use Rattle.refinement.specs.Bringing.{PerformsOwn};
ghost use Rattle.event_handlers.specs.Stopping.{IfOver, IsCalmed};
ghost use Rattle.event_handlers.specs.paying.Controls.{frame_of, IsOwed, IsShort, MayPay};

use crate::crowding::is_crowded;
use crate::ending::calm;
use crate::halt::Halt;
use crate::paying::counting::count_untaken;
use effects::Outputs;
use refinement::Session;
use std::alloc::AllocError;

/// A frame beside responses (RFC 9113, sections 6.4, 6.5, 6.7, 6.8 and 6.9).
#[derive(Clone, Copy)]
pub(crate) enum Control<'a> {
    /// The gateway's settings.
    Settings {
        /// By how many octets the windows in which it receives are larger than 65,535.
        more_room: u32,
    },
    /// An acknowledgement of the client's.
    SettingsAck,
    /// The answer to a PING, with its octets, of which there are at most 16,384.
    PingAck(&'a [u8]),
    /// GOAWAY.
    Goaway {
        /// The last stream that may have been acted on.
        last: u32,
        /// The error code.
        code: u32,
    },
    /// RST_STREAM.
    Reset {
        /// The stream, below 2^31.
        stream: u32,
        /// The error code.
        code: u32,
    },
    /// WINDOW_UPDATE.
    Update {
        /// The stream, below 2^31, or 0 for the connection.
        stream: u32,
        /// How many octets are given back.
        octets: u32,
    },
}

/// How many octets its frame is spelled with (RFC 9113, section 4.1).
fn spelled_length(control: Control<'_>) -> u64
    requires { IsShort control }
    ensures is { result ≡ length (spell (frame_of control.entry)) }
    ensures few { result ≤ 16393 }
{
    match control {
        Control::Settings { more_room: 0 } => 21,
        Control::Settings { .. } => 27,
        Control::SettingsAck => 9,
        Control::PingAck(octets) => 9 + octets.len() as u64,
        Control::Goaway { .. } => 17,
        Control::Reset { .. } | Control::Update { .. } => 13,
    }
}

/// Puts its frame out.
fn put_out(control: Control<'_>, out: &mut Outputs) -> Result<(), AllocError>
    requires { IsShort control }
    ensures { OnOk result (out.new ≡ put out.old (ToClient (spell (frame_of control.entry)))) }
{
    match control {
        Control::Settings { more_room } => out.send_settings(more_room),
        Control::SettingsAck => out.send_settings_ack(),
        Control::PingAck(octets) => out.send_ping_ack(octets),
        Control::Goaway { last, code } => out.send_goaway(last, code),
        Control::Reset { stream, code } => out.send_rst_stream(stream, code),
        Control::Update { stream, octets } => out.send_window_update(stream, octets),
    }
}

/// Sends a frame beside responses; nothing is due to an upstream then, unless it is a GOAWAY. Where
/// more than 1,048,576 octets for the client are untaken, the connection is ended in its place,
/// with a GOAWAY that asks the client to be calm (RFC 9113, section 7).
///
/// # Errors
/// [`Halt::Over`] where it was ended so, [`Halt::Memory`] where memory was refused.
pub(crate) fn pay(
    session: &mut Session,
    control: Control<'_>,
    out: &mut Outputs,
) -> Result<(), Halt>
    requires short { IsShort control }
    ensures performs { OnOk result ((setup : Setup) (rest : List Frame) (pending : Pending) → IsOwed control.entry
        → pending.owed ≡ frame_of control.entry ∷ rest → MayPay pending.due (frame_of control.entry)
        → PerformsOwn setup session.old pending out.old session.new (record pending { owed = rest }) out.new) }
    ensures puts { OnOk result (out.new ≡ put out.old (ToClient (spell (frame_of control.entry)))) }
    ensures counts { OnOk result (session.new ≡ record session.old { untaken = session.old.untaken + length (spell (frame_of control.entry)) }) }
    ensures few { OnOk result (nat_lt most_untaken session.old.untaken ≡ false) }
    ensures over { IfErr result (λ stop. IfOver stop (IsCalmed session.old out.old out.new)) }
{
    if is_crowded(session) {
        calm(session, out)?;
        return Err(Halt::Over);
    }
    count_untaken(session, spelled_length(control));
    put_out(control, out)?;
    Ok(())
}
