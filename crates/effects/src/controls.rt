//! Frames of the connection, and those that are no part of a response.

ghost use Rattle.std.specs.Prelude.{◌≡◌, ◌<◌, ◌≤◌, ◌++◌, length, OnOk};
ghost use Rattle.model.specs.Frames.{spell, spell_number, setting, settings_frame, settings_ack, goaway};
ghost use Rattle.model.specs.ErrorClause.{rst_stream, ping_ack};
ghost use Rattle.model.specs.Logs.Output.{ToClient};
ghost use Rattle.model.specs.Tapes.{put};
ghost use Rattle.effects.specs.Sent.{window_update};

use crate::outputs::Outputs;
use frames::View;
use protocol::flags::ACK;
use protocol::frame_types::{GOAWAY, PING, RST_STREAM, SETTINGS, WINDOW_UPDATE};
use protocol::limits::{FIRST_WINDOW, LARGEST_FIELDS, MOST_ACTIVE};
use protocol::setting_ids::{INITIAL_WINDOW_SIZE, MAX_CONCURRENT_STREAMS, MAX_HEADER_LIST_SIZE};
use std::alloc::AllocError;

/// What the gateway announces: SETTINGS_MAX_CONCURRENT_STREAMS (3) 100, SETTINGS_MAX_HEADER_LIST_SIZE (6) 16,384
/// (RFC 9113, section 6.5.2).
const ANNOUNCED: [u8; 12] = [
    0,
    MAX_CONCURRENT_STREAMS as u8,
    0,
    0,
    0,
    MOST_ACTIVE as u8,
    0,
    MAX_HEADER_LIST_SIZE as u8,
    0,
    0,
    (LARGEST_FIELDS / 256) as u8,
    (LARGEST_FIELDS % 256) as u8,
];

/// The same, with SETTINGS_INITIAL_WINDOW_SIZE (4), where windows begin with this size.
fn announced(window: u32) -> [u8; 18]
    ensures { result ≡ setting 3 100 ++ (setting 6 16384 ++ setting 4 window) }
{
    let [a, b, c, d] = window.to_be_bytes();
    [
        0,
        MAX_CONCURRENT_STREAMS as u8,
        0,
        0,
        0,
        MOST_ACTIVE as u8,
        0,
        MAX_HEADER_LIST_SIZE as u8,
        0,
        0,
        (LARGEST_FIELDS / 256) as u8,
        (LARGEST_FIELDS % 256) as u8,
        0,
        INITIAL_WINDOW_SIZE as u8,
        a,
        b,
        c,
        d,
    ]
}

/// The octets of GOAWAY's payload (RFC 9113, section 6.8): the last stream, and the error code.
fn goaway(last: u32, code: u32) -> [u8; 8]
    ensures { result ≡ spell_number last ++ spell_number code }
{
    let [a, b, c, d] = last.to_be_bytes();
    let [e, f, g, h] = code.to_be_bytes();
    [a, b, c, d, e, f, g, h]
}

/// A number as four octets, the highest first.
fn spelled(number: u32) -> [u8; 4]
    ensures { result ≡ spell_number number }
{
    number.to_be_bytes()
}

/// Frames of the connection, and those that are no part of a response (RFC 9113, sections 6.4, 6.5
/// and 6.7 to 6.9). An `Err` says that memory was refused.
impl Outputs {
    /// Puts a frame without stream out, by its type and its flags.
    fn send_control(&mut self, kind: u8, flags: u8, payload: &[u8]) -> Result<(), AllocError>
        requires { length payload.now ≤ 16384 }
        ensures { OnOk result (self.new ≡ put self.old (ToClient (spell (record { kind = kind; flags = flags; id = 0; payload = payload.now })))) }
    {
        let view = View {
            kind,
            flags,
            id: 0,
            payload,
        };
        self.send(&view)
    }

    /// Announces the gateway's settings (RFC 9113, section 6.5): at most 100 concurrent streams,
    /// header lists of at most 16,384 octets, and the size with which the windows begin in which it
    /// receives, where that is by so many octets more than 65,535 (RFC 9113, section 6.9.2).
    pub fn send_settings(&mut self, more_room: u32) -> Result<(), AllocError>
        requires { more_room < 2147418113 }
        ensures { OnOk result (self.new ≡ put self.old (ToClient (spell (settings_frame more_room)))) }
    {
        if more_room == 0 {
            return self.send_control(SETTINGS, 0, &ANNOUNCED);
        }
        self.send_control(SETTINGS, 0, &announced(FIRST_WINDOW + more_room))
    }

    /// Acknowledges the client's settings (RFC 9113, section 6.5.3).
    pub fn send_settings_ack(&mut self) -> Result<(), AllocError>
        ensures { OnOk result (self.new ≡ put self.old (ToClient (spell settings_ack))) }
    {
        self.send_control(SETTINGS, ACK, &[])
    }

    /// Answers a PING with its eight octets (RFC 9113, section 6.7).
    pub fn send_ping_ack(&mut self, octets: &[u8]) -> Result<(), AllocError>
        requires { length octets.now ≤ 16384 }
        ensures { OnOk result (self.new ≡ put self.old (ToClient (spell (ping_ack octets.now)))) }
    {
        self.send_control(PING, ACK, octets)
    }

    /// Ends the connection with an error code (RFC 9113, sections 6.8 and 7); `last` is the last
    /// stream that may have been acted on.
    pub fn send_goaway(&mut self, last: u32, code: u32) -> Result<(), AllocError>
        ensures { OnOk result (self.new ≡ put self.old (ToClient (spell (goaway last code)))) }
    {
        self.send_control(GOAWAY, 0, &goaway(last, code))
    }

    /// Resets a stream with an error code (RFC 9113, sections 6.4 and 7).
    pub fn send_rst_stream(&mut self, stream: u32, code: u32) -> Result<(), AllocError>
        requires { stream < 2147483648 }
        ensures { OnOk result (self.new ≡ put self.old (ToClient (spell (rst_stream stream code)))) }
    {
        let view = View {
            kind: RST_STREAM,
            flags: 0,
            id: stream,
            payload: &spelled(code),
        };
        self.send(&view)
    }

    /// Gives octets of DATA back, one to 2,147,483,647 of them, on a stream, or on the connection
    /// where `id` is 0 (RFC 9113, section 6.9).
    pub fn send_window_update(&mut self, id: u32, increment: u32) -> Result<(), AllocError>
        requires { id < 2147483648 }
        ensures { OnOk result (self.new ≡ put self.old (ToClient (spell (window_update id increment)))) }
    {
        let view = View {
            kind: WINDOW_UPDATE,
            flags: 0,
            id,
            payload: &spelled(increment),
        };
        self.send(&view)
    }
}
