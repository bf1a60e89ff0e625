//! What is kept of an active stream.

ghost use Rattle.std.specs.Prelude.{◌≡◌, ◌==◌, ◌||◌, false, pos, ◌+ℤ◌, ◌≤ℤ◌, is_some};
ghost use Rattle.model.specs.Windows.{IsSize};
ghost use Rattle.streams.specs.Steps.{granted, taken};
ghost use Rattle.streams.specs.Sending.{head_sent, data_sent, given_back, failed, stepped, AreSendable, AreTakable, AreReturnable, HasRoom};
ghost use Rattle.streams.specs.Views.{outline_of};
ghost use Rattle.theory_errors.specs.Judging.{state_in as state_kept, is_over_in};
ghost use Rattle.theory_errors.specs.Rows.{fresh};
ghost use Rattle.stream_state.specs.Views.{state_in};

use crate::course::Course;
use crate::steps::StreamStep;
use flow_control::Window;
use local_replies::Cause;
use std::marker::Model;
use stream_state::State;

/// An active stream (RFC 9113, section 5.1). A clause sees all that `theory_errors` keeps of one.
#[derive(Debug, Drop)]
pub struct Live {
    ended_by_client: bool,
    ended_by_gateway: bool,
    balance: Window,
    room: Window,
    head_out: bool,
    course: Course,
}

impl Model for Live {
    ghost use Rattle.theory_errors.specs.Summary.{Stream as Kept};

    ghost Value = { Kept };

    ghost use Rattle.streams.specs.Views.{kept_of};

    ghost view = { kept_of };
}

impl Live {
    /// A stream that was just opened, with this course, and which the client has ended or not (RFC
    /// 9113, section 5.1). Nothing was granted to it or sent on it yet.
    pub fn opened(course: Course, ended: bool) -> Live
        ensures { result ≡ record fresh { ended_by_client = ended; outline = outline_of course } }
    {
        Live {
            ended_by_client: ended,
            ended_by_gateway: false,
            balance: Window::new(0),
            room: Window::new(0),
            head_out: false,
            course,
        }
    }

    /// What was granted to the stream without what was sent on it, in octets: its sending window
    /// less the first size that holds for all streams (RFC 9113, sections 6.9.1 and 6.9.2).
    pub fn balance(&self) -> i64
        ensures is { result ≡ self.now.balance }
        ensures in_range { IsSize self.now.balance }
    {
        self.balance.left()
    }

    /// What was given back on it without what came, in octets: its receiving window less the size
    /// with which all such windows begin (RFC 9113, sections 6.9.1 and 6.9.2).
    pub fn room(&self) -> i64
        ensures is { result ≡ self.now.room }
        ensures in_range { IsSize self.now.room }
    {
        self.room.left()
    }

    /// Whether its client has ended it (RFC 9113, section 5.1).
    pub fn ended_by_client(&self) -> bool
        ensures { result ≡ self.now.ended_by_client }
    {
        let Live {
            ended_by_client,
            ..
        } = self;
        *ended_by_client
    }

    /// Whether the gateway has ended it (RFC 9113, section 5.1).
    pub fn ended_by_gateway(&self) -> bool
        ensures { result ≡ self.now.ended_by_gateway }
    {
        let Live {
            ended_by_gateway,
            ..
        } = self;
        *ended_by_gateway
    }

    /// Whether the final head of a response was sent on it (RFC 9113, section 8.1).
    pub fn head_out(&self) -> bool
        ensures { result ≡ self.now.head_out }
    {
        let Live { head_out, .. } = self;
        *head_out
    }

    /// What became of its request so far.
    pub fn course(&self) -> Course
        ensures { outline_of result ≡ self.now.outline }
    {
        let Live { course, .. } = self;
        *course
    }

    /// The state of the stream, which no side has reset (RFC 9113, section 5.1).
    pub fn state(&self) -> State
        ensures { state_in result ≡ state_kept self.now }
    {
        match (self.ended_by_client, self.ended_by_gateway) {
            (false, false) => State::Open,
            (true, false) => State::HalfClosedRemote,
            (false, true) => State::HalfClosedLocal,
            (true, true) => State::Closed,
        }
    }

    /// Adds the increment of a WINDOW_UPDATE, in octets (RFC 9113, section 6.9.1).
    pub(crate) fn grant(&mut self, increment: u32)
        requires { IsSize (self.old.balance +ℤ pos increment) }
        ensures { self.new ≡ granted increment self.old }
    {
        let _ = self.balance.grant(increment);
    }
    /// Whether it is over where its client ends it now, or ended it before, or not (RFC 9113, section 5.1).
    pub(crate) fn is_over_with(&self, ended: bool) -> bool
        ensures { result ≡ is_over_in (record self.now { ended_by_client = ended || self.now.ended_by_client }) }
    {
        (ended || self.ended_by_client) && self.ended_by_gateway
    }

    /// Takes so many octets of DATA, which its receiving window has (RFC 9113, section 6.9.1), or trailers
    /// of none, behind which this is its course, and with which its client ends it or doesn't.
    pub(crate) fn take(&mut self, octets: u32, course: Course, ended: bool)
        requires { (octets == 0) ≡ false → AreTakable octets self.old }
        ensures { self.new ≡ taken octets (outline_of course) ended self.old }
    {
        if octets > 0 {
            self.room.spend(octets);
        }
        self.course = course;
        self.ended_by_client = ended || self.ended_by_client;
    }

    /// Whether the gateway replies to it itself.
    pub fn is_replied(&self) -> bool
        ensures { result ≡ is_some self.now.outline.cause }
    {
        self.course.reply.is_some()
    }

    /// Whether it is over behind a step (RFC 9113, section 5.1).
    pub(crate) fn is_over_behind(&self, step: StreamStep) -> bool
        ensures { result ≡ is_over_in (stepped step self.now) }
    {
        self.ended_by_client && (step.ends() || self.ended_by_gateway)
    }

    /// Does a step, for which its numbers have room.
    pub(crate) fn step(&mut self, step: StreamStep)
        requires { HasRoom step self.old }
        ensures { self.new ≡ stepped step self.old }
    {
        match step {
            StreamStep::Head { is_final, ends } => self.send_head(is_final, ends),
            StreamStep::Data { octets, ends } => self.send_data(octets, ends),
            StreamStep::GivenBack { octets } => self.give_back(octets),
            StreamStep::Failed => self.fail(),
        }
    }

    /// Notes a header block that went out, a final head or not, with which the gateway ends it or doesn't.
    fn send_head(&mut self, is_final: bool, ends: bool)
        ensures { self.new ≡ head_sent is_final ends self.old }
    {
        self.head_out = self.head_out || is_final;
        self.ended_by_gateway = ends || self.ended_by_gateway;
    }

    /// Notes octets of DATA that went out, with which the gateway ends it or doesn't.
    fn send_data(&mut self, octets: u32, ends: bool)
        requires { AreSendable octets self.old }
        ensures { self.new ≡ data_sent octets ends self.old }
    {
        if octets > 0 {
            self.balance.spend(octets);
        }
        self.ended_by_gateway = ends || self.ended_by_gateway;
    }

    /// Notes octets that were given back.
    fn give_back(&mut self, octets: u32)
        requires { AreReturnable octets self.old }
        ensures { self.new ≡ given_back octets self.old }
    {
        let _ = self.room.grant(octets);
    }

    /// Notes that its upstream's answer failed.
    fn fail(&mut self)
        ensures { self.new ≡ failed self.old }
    {
        self.course = self.course.replied(Cause::BadAnswer, self.head_out);
    }
}
