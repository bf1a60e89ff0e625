//! What is kept of a connection for its client's frames.

ghost use Rattle.std.specs.Prelude.{◌≡◌, ◌<◌, ◌≤◌, ◌==◌, ◌&&◌, [], ◌∷◌, length, false, true, None, Some, IfOk, IfErr};
ghost use Rattle.std.specs.Prelude.{IfSome, IfNone, OnOk, OnErr, option_map, pos, ◌+ℤ◌, ◌-ℤ◌, int_lt};
ghost use Rattle.model.specs.Setup.{Setup};
ghost use Rattle.model.specs.Tables.{first_table};
ghost use Rattle.model.specs.Errors.{first_of};
ghost use Rattle.model.specs.Errors.Fault.{Connection as Fatal, Stream as StreamFault};
ghost use Rattle.model.specs.FrameErrors.{fault_if};
ghost use Rattle.model.specs.Windows.{IsSize};
ghost use Rattle.model.specs.WindowsOnTape.{is_past};
ghost use Rattle.theory_errors.specs.Judging.{window_in, room_in};
ghost use Rattle.theory_errors.specs.Rows.{find, slot_of};
ghost use Rattle.theory_errors.specs.Rows.Slot.{Live as Active};
ghost use Rattle.stream_state.specs.Views.{kind_in, verdict_in};
ghost use Rattle.streams.specs.Asked.{is_active, verdict, changed, MayOpen, AllowsOpening};
ghost use Rattle.streams.specs.Steps.{taken};
ghost use Rattle.streams.specs.Views.{outline_of};
ghost use Rattle.model.specs.WindowsOnTape.{has_settings};
ghost use Rattle.model.specs.Frames.{ends_stream, content};
ghost use Rattle.frames.specs.Views.{frame_of};
ghost use Rattle.frames.specs.Parsed.{Says};
ghost use Rattle.frames.specs.declared.parts.Frame.TheVariants.{Settings as Entries, Ping as Octets, Other as Unused};
ghost use Rattle.theory_errors.specs.Judging.{frame_rows_in};
ghost use Rattle.theory_errors.specs.Book.{first_ledger};
ghost use Rattle.connection_state.specs.Inbound.{Outside, book_of, told_of};
ghost use Rattle.model.specs.WindowsOnTape.{increment as increment_of};
ghost use Rattle.theory_errors.specs.Owing.{fault_in};
ghost use Rattle.theory_errors.specs.Quiet.{IsQuiet, coming, heard};
ghost use Rattle.model.specs.ErrorClause.{is_fatal};
ghost use Rattle.theory_errors.specs.Tidy.{IsTidy, AreKept};
ghost use Rattle.connection_state.specs.Admission.{IsRefused, IsAdmitted};
ghost use Rattle.connection_state.specs.Judgement.{IsPlain, IsJudged, fault_told, is_of_stream, behind, update, reset, data_frame};

use crate::answers::{FrameError, Judged};
use crate::bodies::{body_code, is_past_room, is_replied_now};
use crate::codes::{fault_of, join_code, payload_code, setting_code};
use flow_control::Window;
use frames::{Frame, View, ends_stream, has_settings, is_ack, is_misplaced, parse};
use header_blocks::{Decoder, Joiner};
use protocol::error_codes::{ENHANCE_YOUR_CALM, FLOW_CONTROL_ERROR, PROTOCOL_ERROR};
use protocol::limits::{FIRST_TABLE_SIZE, FIRST_WINDOW, GREATEST_WINDOW, MOST_RESETS};
use settings::Settings;
use std::alloc::{AllocError, Global};
use std::marker::Model;
use stream_state::{Kind, Verdict};
use streams::{Course, Live, StreamTable};

/// The greatest size that a window may have (RFC 9113, section 6.9.1).
const GREATEST: i64 = GREATEST_WINDOW as i64;

/// What is kept of a connection for its client's frames. A clause sees the book of `theory_errors`,
/// but for what these frames neither look at nor change.
#[derive(Drop)]
pub struct Connection {
    pub(crate) has_come: bool,
    pub(crate) joiner: Joiner,
    pub(crate) continuations: u32,
    pub(crate) settings: Settings,
    pub(crate) window: Window,
    pub(crate) own: u32,
    pub(crate) room: Window,
    pub(crate) drained: bool,
    pub(crate) streams: StreamTable,
    pub(crate) resets: u32,
    pub(crate) last: u32,
    pub(crate) decoder: Decoder,
    pub(crate) alloc: Global,
}

impl Model for Connection {
    ghost use Rattle.connection_state.specs.Inbound.{Inbound, IsWhole};

    ghost Value = { Inbound };

    ghost view = { λ c. record {
      has_come = c.has_come;
      block = c.joiner.begun;
      continuations = c.continuations;
      first_size = c.settings;
      own = c.own;
      window = c.window;
      room = c.room;
      drained = c.drained;
      rows = c.streams;
      resets = c.resets;
      last = c.last;
      table = c.decoder.table;
    } };

    ghost invariant = { λ c. IsWhole c.own c.streams c.joiner c.continuations c.decoder.fault };
}

impl Connection {
    /// A connection on which nothing came, where the windows in which the gateway receives have so
    /// many octets more than 65,535 (RFC 9113, section 6.9.2).
    pub fn new(alloc: Global, more_room: u32) -> Self
        requires { more_room < 2147418113 }
        ensures book { (setup : Setup) → setup.more_room ≡ more_room → book_of (record { given = []; untaken = 0 }) result ≡ (first_ledger setup).book }
        ensures table { result.table ≡ first_table }
    {
        Connection {
            has_come: false,
            joiner: Joiner::new(alloc),
            continuations: 0,
            settings: Settings::default(),
            window: Window::new(FIRST_WINDOW),
            own: FIRST_WINDOW + more_room,
            room: Window::new(FIRST_WINDOW),
            drained: false,
            streams: StreamTable::new(alloc),
            resets: 0,
            last: 0,
            decoder: Decoder::new(alloc, FIRST_TABLE_SIZE),
            alloc,
        }
    }

    /// Opens a stream that the client may open (RFC 9113, section 5.1). An `Err` says that memory
    /// was refused; it changes nothing.
    pub fn open(&mut self, id: u32, live: Live) -> Result<(), AllocError>
        requires may { MayOpen self.old.rows id }
        requires tidy { IsTidy (Active live) }
        ensures ok { OnOk result (self.new ≡ record self.old { rows = record { id = id; slot = Active live } ∷ self.old.rows }) }
        ensures err { OnErr result (self.new ≡ self.old) }
    {
        self.streams.open(id, live)
    }

    /// How many streams the client opened, whatever became of them (RFC 9113, section 5.1); at most 10,000.
    pub fn opened(&self) -> u32
        ensures { result ≡ length self.now.rows }
    {
        self.streams.count()
    }

    /// What comes of a type of frame on an id by the state of its stream (RFC 9113, section 5.1).
    /// Where the answer is `Open`, the stream may be opened.
    pub fn verdict(&self, id: u32, kind: Kind) -> Verdict
        ensures is { verdict_in result ≡ verdict self.now.drained self.now.rows id (kind_in kind) }
        ensures allows { AllowsOpening result self.now.rows id }
    {
        self.streams.verdict(self.drained, id, kind)
    }

    /// What a frame says, if nothing is wrong with it by itself and by the header block that is
    /// begun; else the code of the connection error that it is (RFC 9113, sections 3.4, 4 and 6).
    pub(crate) fn parts<'a>(&self, view: View<'a>) -> Result<Frame<'a>, u32>
        requires { length view.payload.now ≤ 16384 }
        ensures says { IfOk result (λ frame. Says frame (frame_of view.entry)) }
        ensures sound { IfOk result (λ frame. (outside : Outside) → first_of (frame_rows_in (told_of outside self.now) (frame_of view.entry)) ≡ None) }
        ensures refused { IfErr result (λ code. (outside : Outside)
            → first_of (frame_rows_in (told_of outside self.now) (frame_of view.entry)) ≡ Some (Fatal code)) }
    {
        if !self.has_come && !has_settings(view) {
            return Err(PROTOCOL_ERROR);
        }
        if let Some(fault) = self.joiner.fault(view.kind, view.id, view.payload) {
            return Err(join_code(fault));
        }
        if is_misplaced(view) {
            return Err(PROTOCOL_ERROR);
        }
        match parse(view) {
            Ok(frame) => Ok(frame),
            Err(fault) => Err(payload_code(fault)),
        }
    }

    /// Notes that a frame without a fragment came, and on which stream.
    fn hear(&mut self, id: u32)
        requires { self.old.block ≡ None }
        ensures is { self.new ≡ record self.old { has_come = true; continuations = 0; last = id } }
        ensures kept { AreKept self.new.rows }
    {
        self.has_come = true;
        self.continuations = 0;
        self.last = id;
    }

    /// Takes a frame that changes no stream, no window and no setting.
    fn take_quiet(&mut self, view: View<'_>)
        requires quiet { IsQuiet (frame_of view) }
        requires sound { (outside : Outside) → first_of (frame_rows_in (told_of outside self.old) (frame_of view)) ≡ None }
        ensures faultless { (outside : Outside) → fault_in (told_of outside self.old) (coming (frame_of view.entry)) ≡ None }
        ensures left { (setup : Setup) (outside : Outside) → book_of outside self.new ≡ behind setup (book_of outside self.old) (frame_of view.entry) }
        ensures table { self.new.table ≡ self.old.table }
    {
        self.hear(view.id);
    }

    /// Takes settings that are no acknowledgement (RFC 9113, section 6.5). Their values are judged
    /// first, then the windows that they leave.
    fn take_settings<'a>(&mut self, view: View<'a>, entries: &'a [u8]) -> Judged<'a>
        requires settings { has_settings (frame_of view) ≡ true }
        requires entries { entries.now ≡ view.payload.now }
        requires sound { (outside : Outside) → first_of (frame_rows_in (told_of outside self.old) (frame_of view)) ≡ None }
        ensures judged { (setup : Setup) (outside : Outside)
            → IsJudged setup (book_of outside self.old) (frame_of view.entry) (book_of outside self.new) result }
        ensures table { self.new.table ≡ self.old.table }
    {
        let checked = match self.settings.check(entries) {
            Ok(checked) => checked,
            Err(fault) => return Judged::Failed(FrameError::Connection(setting_code(fault))),
        };
        if self.streams.shifts_past(checked.initial_window) {
            return Judged::Failed(FrameError::Connection(FLOW_CONTROL_ERROR));
        }
        self.settings.accept(checked);
        self.hear(view.id);
        Judged::Settings(checked.change)
    }

    /// Takes an increment of the connection's window (RFC 9113, section 6.9).
    fn take_update<'a>(&mut self, view: View<'a>, increment: u32) -> Judged<'a>
        requires kind { frame_of view ≡ update view.flags 0 view.payload.now }
        requires counted { increment ≡ increment_of (frame_of view) }
        requires sound { (outside : Outside) → first_of (frame_rows_in (told_of outside self.old) (frame_of view)) ≡ None }
        ensures judged { (setup : Setup) (outside : Outside)
            → IsJudged setup (book_of outside self.old) (frame_of view.entry) (book_of outside self.new) result }
        ensures table { self.new.table ≡ self.old.table }
    {
        if increment == 0 {
            return Judged::Failed(FrameError::Connection(PROTOCOL_ERROR));
        }
        let Ok(()) = self.window.grant(increment) else {
            return Judged::Failed(FrameError::Connection(FLOW_CONTROL_ERROR));
        };
        self.hear(view.id);
        Judged::Granted
    }

    /// Takes a SETTINGS frame; an acknowledgement is ignored (RFC 9113, section 6.5).
    fn take_settings_or_ack<'a>(&mut self, view: View<'a>, entries: &'a [u8]) -> Judged<'a>
        requires says { Says (Entries entries) (frame_of view) }
        requires sound { (outside : Outside) → first_of (frame_rows_in (told_of outside self.old) (frame_of view)) ≡ None }
        ensures judged { (setup : Setup) (outside : Outside)
            → IsJudged setup (book_of outside self.old) (frame_of view.entry) (book_of outside self.new) result }
        ensures table { self.new.table ≡ self.old.table }
    {
        if !has_settings(view) {
            self.take_quiet(view);
            return Judged::Ignored;
        }
        self.take_settings(view, entries)
    }

    /// Takes a PING; an acknowledgement is ignored (RFC 9113, section 6.7).
    fn take_ping<'a>(&mut self, view: View<'a>, octets: &'a [u8]) -> Judged<'a>
        requires says { Says (Octets octets) (frame_of view) }
        requires sound { (outside : Outside) → first_of (frame_rows_in (told_of outside self.old) (frame_of view)) ≡ None }
        ensures judged { (setup : Setup) (outside : Outside)
            → IsJudged setup (book_of outside self.old) (frame_of view.entry) (book_of outside self.new) result }
        ensures table { self.new.table ≡ self.old.table }
    {
        self.take_quiet(view);
        if is_ack(view) {
            return Judged::Ignored;
        }
        Judged::Ping(octets)
    }

    /// Takes a frame of a type that isn't used: PRIORITY, GOAWAY, or one that isn't known.
    fn take_other<'a>(&mut self, view: View<'a>) -> Judged<'a>
        requires says { Says Unused (frame_of view) }
        requires sound { (outside : Outside) → first_of (frame_rows_in (told_of outside self.old) (frame_of view)) ≡ None }
        ensures judged { (setup : Setup) (outside : Outside)
            → IsJudged setup (book_of outside self.old) (frame_of view.entry) (book_of outside self.new) result }
        ensures table { self.new.table ≡ self.old.table }
    {
        self.take_quiet(view);
        Judged::Ignored
    }

    /// Passes over a frame whose stream isn't active: nothing comes of it, or it is an error of the
    /// connection (RFC 9113, section 5.1).
    fn pass_over<'a>(&mut self, view: View<'a>, fault: FrameError) -> Judged<'a>
        requires none_begun { self.old.block ≡ None }
        requires is { (outside : Outside) → fault_in (told_of outside self.old) (coming (frame_of view)) ≡ Some (fault_told fault) }
        requires mild { is_of_stream (Some (fault_told fault)) ≡ false }
        requires left { is_fatal (Some (fault_told fault)) ≡ false → (setup : Setup) (outside : Outside)
            → behind setup (book_of outside self.old) (frame_of view) ≡ heard (book_of outside self.old) (frame_of view) }
        ensures judged { (setup : Setup) (outside : Outside)
            → IsJudged setup (book_of outside self.old) (frame_of view.entry) (book_of outside self.new) result }
        ensures table { self.new.table ≡ self.old.table }
    {
        match fault {
            FrameError::Discarded => {
                self.hear(view.id);
                Judged::Failed(FrameError::Discarded)
            }
            _ => Judged::Failed(fault),
        }
    }

    /// Takes a RST_STREAM (RFC 9113, section 6.4). Of active streams it resets at most a thousand;
    /// one more is an error of the connection.
    fn take_reset<'a>(&mut self, view: View<'a>) -> Judged<'a>
        requires kind { frame_of view ≡ reset view.flags view.id view.payload.now }
        requires of_stream { (view.id == 0) ≡ false }
        requires sound { (outside : Outside) → first_of (frame_rows_in (told_of outside self.old) (frame_of view)) ≡ None }
        ensures judged { (setup : Setup) (outside : Outside)
            → IsJudged setup (book_of outside self.old) (frame_of view.entry) (book_of outside self.new) result }
        ensures table { self.new.table ≡ self.old.table }
    {
        if let Some(fault) = fault_of(
            self.streams.verdict(self.drained, view.id, Kind::RstStream),
        ) {
            return self.pass_over(view, fault);
        }
        if self.resets >= MOST_RESETS {
            return Judged::Failed(FrameError::Connection(ENHANCE_YOUR_CALM));
        }
        self.streams.close(view.id, false);
        self.resets += 1;
        self.hear(view.id);
        Judged::Reset
    }

    /// Takes an increment of a stream's window (RFC 9113, section 6.9).
    fn take_stream_update<'a>(&mut self, view: View<'a>, increment: u32) -> Judged<'a>
        requires kind { frame_of view ≡ update view.flags view.id view.payload.now }
        requires counted { increment ≡ increment_of (frame_of view) }
        requires of_stream { (view.id == 0) ≡ false }
        requires sound { (outside : Outside) → first_of (frame_rows_in (told_of outside self.old) (frame_of view)) ≡ None }
        ensures judged { (setup : Setup) (outside : Outside)
            → IsJudged setup (book_of outside self.old) (frame_of view.entry) (book_of outside self.new) result }
        ensures table { self.new.table ≡ self.old.table }
    {
        if let Some(fault) = fault_of(
            self.streams
                .verdict(self.drained, view.id, Kind::WindowUpdate),
        ) {
            return self.pass_over(view, fault);
        }
        if let Some(code) = update_code(&self.streams, &self.settings, view.id, increment) {
            self.streams.close(view.id, true);
            self.hear(view.id);
            return Judged::Failed(FrameError::Stream(code));
        }
        self.streams.grant(view.id, increment);
        self.hear(view.id);
        Judged::Granted
    }

    /// The fault of DATA that isn't one of its stream, if it has one: its stream is idle, the
    /// connection has no room for it, or its stream is closed (RFC 9113, sections 5.1 and 6.9.1).
    fn data_fault(&self, view: View<'_>) -> Option<FrameError>
        requires kind { frame_of view ≡ data_frame view.flags view.id view.payload.now }
        requires of_stream { (view.id == 0) ≡ false }
        requires sound { (outside : Outside) → first_of (frame_rows_in (told_of outside self.now) (frame_of view)) ≡ None }
        requires short { length view.payload.now ≤ 16384 }
        ensures refused { IfSome result (λ fault. IsRefused self.now (frame_of view.entry) (fault_told fault)) }
        ensures admitted { IfNone result (IsAdmitted self.now (frame_of view.entry)) }
    {
        let fault = fault_of(self.streams.verdict(self.drained, view.id, Kind::Data));
        if self.streams.standing(self.drained, view.id).is_idle() {
            return fault;
        }
        if is_past_room(&self.room, view.payload.len() as u32) {
            return Some(FrameError::Connection(FLOW_CONTROL_ERROR));
        }
        let Some(_live) = self.streams.find(view.id) else {
            return fault;
        };
        None
    }

    /// Passes over DATA whose stream isn't active, or which is an error of the connection; its
    /// octets take room of the connection (RFC 9113, sections 5.1 and 6.9).
    fn discard<'a>(&mut self, view: View<'a>, fault: FrameError) -> Judged<'a>
        requires kind { frame_of view ≡ data_frame view.flags view.id view.payload.now }
        requires of_stream { (view.id == 0) ≡ false }
        requires sound { (outside : Outside) → first_of (frame_rows_in (told_of outside self.old) (frame_of view)) ≡ None }
        requires short { length view.payload.now ≤ 16384 }
        requires refused { IsRefused self.old (frame_of view) (fault_told fault) }
        ensures judged { (setup : Setup) (outside : Outside)
            → IsJudged setup (book_of outside self.old) (frame_of view.entry) (book_of outside self.new) result }
        ensures table { self.new.table ≡ self.old.table }
    {
        match fault {
            FrameError::Discarded => {
                self.room.take(view.payload.len() as u32);
                self.hear(view.id);
                Judged::Failed(FrameError::Discarded)
            }
            _ => Judged::Failed(fault),
        }
    }

    /// Resets an active stream on which DATA is an error with this code (RFC 9113, section 5.4.2);
    /// the octets take room of the connection.
    fn refuse<'a>(&mut self, view: View<'a>, code: u32) -> Judged<'a>
        requires kind { frame_of view ≡ data_frame view.flags view.id view.payload.now }
        requires of_stream { (view.id == 0) ≡ false }
        requires sound { (outside : Outside) → first_of (frame_rows_in (told_of outside self.old) (frame_of view)) ≡ None }
        requires short { length view.payload.now ≤ 16384 }
        requires admitted { IsAdmitted self.old (frame_of view) }
        requires is { (outside : Outside) → fault_in (told_of outside self.old) (coming (frame_of view)) ≡ Some (StreamFault code) }
        ensures judged { (setup : Setup) (outside : Outside)
            → IsJudged setup (book_of outside self.old) (frame_of view.entry) (book_of outside self.new) result }
        ensures table { self.new.table ≡ self.old.table }
    {
        self.room.take(view.payload.len() as u32);
        self.streams.close(view.id, true);
        self.hear(view.id);
        Judged::Failed(FrameError::Stream(code))
    }

    /// Notes DATA without a fault on an active stream, behind which this is the course of its
    /// request: the whole payload, padding and all, takes room of both windows (RFC 9113, section
    /// 6.9.1).
    fn hear_content(&mut self, view: View<'_>, next: Course)
        requires none_begun { self.old.block ≡ None }
        requires short { length view.payload.now ≤ 16384 }
        requires admitted { IsAdmitted self.old (frame_of view) }
        requires fits { int_lt (room_in self.old.own (find self.old.rows view.id)) (pos (length view.payload.now)) ≡ false }
        ensures { self.new ≡ record self.old {
          has_come = true;
          continuations = 0;
          last = view.entry.id;
          room = self.old.room -ℤ pos (length view.entry.payload.now);
          rows = changed view.entry.id (slot_of (taken (length view.entry.payload.now) (outline_of next) (ends_stream (frame_of view.entry))
              (find self.old.rows view.entry.id))) self.old.rows;
        } }
    {
        let length = view.payload.len() as u32;
        self.room.take(length);
        self.streams.take(view.id, length, next, ends_stream(view));
        self.hear(view.id);
    }

    /// Takes DATA (RFC 9113, section 6.1).
    fn take_data<'a>(&mut self, view: View<'a>, octets: &'a [u8], max_body: u64) -> Judged<'a>
        requires kind { frame_of view ≡ data_frame view.flags view.id view.payload.now }
        requires of_stream { (view.id == 0) ≡ false }
        requires content { octets.now ≡ content (frame_of view) }
        requires sound { (outside : Outside) → first_of (frame_rows_in (told_of outside self.old) (frame_of view)) ≡ None }
        requires short { length view.payload.now ≤ 16384 }
        requires bounded { max_body ≤ 1073741824 }
        ensures judged { (setup : Setup) (outside : Outside) → setup.max_body ≡ max_body
            → IsJudged setup (book_of outside self.old) (frame_of view.entry) (book_of outside self.new) result }
        ensures table { self.new.table ≡ self.old.table }
    {
        if let Some(fault) = self.data_fault(view) {
            return self.discard(view, fault);
        }
        let Some(live) = self.streams.find(view.id) else {
            unreachable!();
        };
        let (count, ends) = (octets.len() as u32, ends_stream(view));
        let code = body_code(live, self.own, view.payload.len() as u32, count, ends);
        let before = live.course();
        let next = before.with_content(count, ends, max_body, live.head_out());
        if let Some(code) = code {
            return self.refuse(view, code);
        }
        self.hear_content(view, next);
        if is_replied_now(before, next) {
            return Judged::LargeBody;
        }
        Judged::Content(octets, ends)
    }

    /// Takes a frame that is right by itself.
    fn take<'a>(&mut self, view: View<'a>, frame: Frame<'a>, max_body: u64) -> Judged<'a>
        requires plain { IsPlain (frame_of view) }
        requires says { Says frame (frame_of view) }
        requires sound { (outside : Outside) → first_of (frame_rows_in (told_of outside self.old) (frame_of view)) ≡ None }
        requires short { length view.payload.now ≤ 16384 }
        requires bounded { max_body ≤ 1073741824 }
        ensures judged { (setup : Setup) (outside : Outside) → setup.max_body ≡ max_body
            → IsJudged setup (book_of outside self.old) (frame_of view.entry) (book_of outside self.new) result }
        ensures table { self.new.table ≡ self.old.table }
    {
        match frame {
            Frame::Data(octets) => self.take_data(view, octets, max_body),
            Frame::Settings(entries) => self.take_settings_or_ack(view, entries),
            Frame::Ping(octets) => self.take_ping(view, octets),
            Frame::WindowUpdate(increment) if view.id == 0 => self.take_update(view, increment),
            Frame::WindowUpdate(increment) => self.take_stream_update(view, increment),
            Frame::RstStream(_) => self.take_reset(view),
            Frame::Other => self.take_other(view),
            Frame::Headers(_) | Frame::Continuation(_) => unreachable!(),
        }
    }

    /// Judges a frame that has no fragment of a header block: any but HEADERS and CONTINUATION; and
    /// does what it says. A body may have `max_body` octets, at most 1,073,741,824. Where the frame
    /// isn't as it should be, its fault is the first row of the error table that applies (RFC 9113,
    /// section 5.4). An error of the connection changes nothing; behind one of a stream that stream
    /// is reset.
    pub fn judge<'a>(&mut self, view: View<'a>, max_body: u64) -> Judged<'a>
        requires plain { IsPlain (frame_of view) }
        requires short { length view.payload.now ≤ 16384 }
        requires bounded { max_body ≤ 1073741824 }
        ensures judged { (setup : Setup) (outside : Outside) → setup.max_body ≡ max_body
            → IsJudged setup (book_of outside self.old) (frame_of view.entry) (book_of outside self.new) result }
        ensures table { self.new.table ≡ self.old.table }
    {
        match self.parts(view) {
            Ok(frame) => self.take(view, frame, max_body),
            Err(code) => Judged::Failed(FrameError::Connection(code)),
        }
    }
}

/// The code of the error of an active stream that an increment of its window is, if it is one (RFC
/// 9113, sections 6.9 and 6.9.1): one of 0, or past the greatest size.
fn update_code(streams: &StreamTable, settings: &Settings, id: u32, increment: u32) -> Option<u32>
    requires { is_active streams.now id ≡ true }
    ensures is { option_map StreamFault result ≡ first_of (fault_if (increment == 0) (StreamFault 1)
        ∷ fault_if (is_past (window_in settings.now (find streams.now id) +ℤ pos increment)) (StreamFault 3) ∷ []) }
    ensures fits { IfNone result (IsSize ((find streams.now id).balance +ℤ pos increment)) }
{
    if increment == 0 {
        return Some(PROTOCOL_ERROR);
    }
    let Some(live) = streams.find(id) else {
        unreachable!();
    };
    let window = i64::from(settings.initial_window()) + live.balance();
    if window + i64::from(increment) > GREATEST {
        return Some(FLOW_CONTROL_ERROR);
    }
    None
}
