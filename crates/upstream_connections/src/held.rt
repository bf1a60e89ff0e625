//! What is held of requests that aren't whole.

ghost use Rattle.std.specs.Prelude.{◌≡◌, ◌==◌, true, false, [], map, reverse, Some, None, is_some, MatchBool, IfSome, IfNone, OnOk, OnErr, IfOk};
ghost use Rattle.theory_requests.specs.Held.{AreApart};
ghost use Rattle.theory_requests.specs.Lines.{without};
ghost use Rattle.theory_requests.specs.State.{id_of, held_of, held_with, to_send, dropped, drop_from, unless_whole};
ghost use Rattle.theory_requests.specs.State.Way.{Going as GoingOn, Dropped};
ghost use Rattle.upstream_connections.specs.Ways.{way_of};
ghost use Rattle.upstream_connections.specs.Requests.{stage_of, due_by, MayTake, MayTakeOf, GoesBy, Takes, IsHeldAt, IsHeldNowhere};

use h1_writer::Text;
use hpack_table::Field;
use request_buffer::{BufferedRequest, Going};
use std::alloc::{AllocError, Global};
use std::marker::Model;

/// A request that goes out, by the route at this place: its text goes out on a connection that is
/// to be opened for its stream, or given to it.
#[derive(Drop)]
pub struct OutgoingRequest {
    /// The stream's id.
    pub stream: u32,
    /// The place of its route, from 0.
    pub route: u32,
    /// The text (RFC 9112, section 2.1), or as much of it as goes out now.
    pub text: Text,
    /// What goes out as it comes, where the text isn't whole.
    pub rest: Option<Going>,
}

/// What is due behind octets of a request's body.
#[derive(Drop)]
pub enum Due {
    /// Nothing.
    Nothing,
    /// The request goes out on a connection that is to be opened.
    ToOpen(OutgoingRequest),
    /// The request goes out on an idle connection (RFC 9112, section 9.3).
    ToUse {
        /// The number of the connection.
        number: u32,
        /// The request.
        request: OutgoingRequest,
    },
    /// More of it goes out where it goes.
    ToSend {
        /// The number of its connection.
        number: u32,
        /// The octets, one or more.
        text: Vec<u8>,
    },
}

/// How far a request is that isn't whole.
#[derive(Drop)]
pub(crate) enum Way {
    /// It waits for its end.
    Waiting(BufferedRequest),
    /// It goes out on the connection with this number, as it comes.
    Going(u32, Going),
    /// Its connection is closed: what comes of it goes nowhere.
    Dropped,
}

impl Way {
    /// What goes out on a connection that is closed is dropped.
    fn drop_from(&mut self, k: u32)
        ensures { way_of self.new ≡ dropped k (way_of self.old) }
    {
        let on_it = match self {
            Way::Going(number, _) => *number == k,
            _ => false,
        };
        if on_it {
            *self = Way::Dropped;
        }
    }
}

/// A stream whose request isn't whole. A clause sees it as the rule of requests does.
#[derive(Drop)]
pub struct Held {
    id: u32,
    way: Way,
}

impl Model for Held {
    ghost use Rattle.theory_requests.specs.State.{Held};
    ghost use Rattle.upstream_connections.specs.Ways.{way_of};

    ghost Value = { Held };

    ghost view = { λ h. record { id = h.id; way = way_of h.way } };
}

/// Octets that are due on a connection, if there are any.
fn to_send(number: u32, text: Vec<u8>) -> Due
    ensures { due_by result ≡ to_send number text.items }
{
    if text.is_empty() {
        Due::Nothing
    } else {
        Due::ToSend { number, text }
    }
}

impl Held {
    /// More octets of its body come, which goes on behind them, so that trailers don't count yet.
    /// An `Err` says that memory was refused.
    fn go_on(&mut self, alloc: Global, octets: &[u8], trailers: &[Field]) -> Result<Due, AllocError>
        requires { MayTake octets.now false self.old.way }
        ensures goes { IfOk result (λ due. GoesBy [] self.old.id octets.now trailers.now false self.old.way (due_by due) (Some self.new.way)) }
        ensures same { self.new.id ≡ self.old.id }
    {
        match &mut self.way {
            Way::Waiting(request) => {
                request.gather(octets)?;
                Ok(Due::Nothing)
            }
            Way::Going(number, going) => {
                let text = going.pass(alloc, octets, false, trailers)?;
                Ok(to_send(*number, text))
            }
            Way::Dropped => Ok(Due::Nothing),
        }
    }

    /// The last octets of its body come, with these trailers; it isn't dropped. An `Err` says that memory was refused.
    fn finish(self, alloc: Global, octets: &[u8], trailers: &[Field]) -> Result<Due, AllocError>
        requires may { MayTake octets.now true self.way }
        requires on { self.way ≡ Dropped → ⊥ }
        ensures { IfOk result (λ due. GoesBy [] self.id octets.now trailers.now true self.way (due_by due) None) }
    {
        let Held { id, way } = self;
        match way {
            Way::Waiting(request) => {
                let route = request.route();
                let text = request.finish(octets, trailers)?;
                Ok(Due::ToOpen(OutgoingRequest {
                    stream: id,
                    route,
                    text,
                    rest: None,
                }))
            }
            Way::Going(number, mut going) => {
                let text = going.pass(alloc, octets, true, trailers)?;
                Ok(to_send(number, text))
            }
            Way::Dropped => unreachable!(),
        }
    }

    /// Whether it is dropped.
    fn is_dropped(&self) -> bool
        ensures { MatchBool result (self.now.way ≡ Dropped) (self.now.way ≡ Dropped → ⊥) }
    {
        matches!(self.way, Way::Dropped)
    }

    /// What goes out on a connection that is closed is dropped.
    fn drop_from(&mut self, k: u32)
        ensures { self.new ≡ drop_from k self.old }
    {
        self.way.drop_from(k);
    }

    /// The id of the stream.
    fn id(&self) -> u32
        ensures { result ≡ self.now.id }
    {
        self.id
    }
}

/// The place of what is held of a stream.
fn place_of(held: &[Held], id: u32) -> Option<usize>
    ensures found { IfSome result (IsHeldAt held.now id) }
    ensures absent { IfNone result (IsHeldNowhere held.now id) }
{
    held.iter().position(|h| h.id() == id)
}

/// Whether something is held of a stream.
pub(crate) fn holds(held: &[Held], id: u32) -> bool
    requires { AreApart (reverse held.now) }
    ensures { result ≡ is_some (held_of id (reverse held.now)) }
{
    place_of(held, id).is_some()
}

/// Holds a request on this way, in the place of what was held of its stream, or behind all. An
/// `Err` says that memory was refused; it changes nothing.
pub(crate) fn hold(held: &mut Vec<Held>, id: u32, way: Way) -> Result<(), AllocError>
    requires { AreApart (reverse held.old.items) }
    ensures ok { OnOk result (reverse held.new.items ≡ held_with id (Some (way_of way)) (reverse held.old.items)) }
    ensures err { OnErr result (held.new.items ≡ held.old.items) }
{
    match place_of(held, id) {
        Some(place) => held[place] = Held { id, way },
        None => held.push(Held { id, way })?,
    }
    Ok(())
}

/// Holds the rest of a request that goes out on a connection, if there is one; else nothing of its
/// stream. An `Err` says that memory was refused; it changes nothing.
pub fn hold_rest(
    held: &mut Vec<Held>,
    id: u32,
    k: u32,
    rest: Option<Going>,
) -> Result<(), AllocError>
    requires { AreApart (reverse held.old.items) }
    ensures ok { OnOk result (reverse held.new.items ≡ held_with id (unless_whole (stage_of rest) (GoingOn k (stage_of rest))) (reverse held.old.items)) }
    ensures err { OnErr result (held.new.items ≡ held.old.items) }
{
    let Some(going) = rest else {
        let _none = take(held, id);
        return Ok(());
    };
    if going.is_whole() {
        let _none = take(held, id);
        return Ok(());
    }
    hold(held, id, Way::Going(k, going))
}

/// Octets of the body of a stream's request come, and end it, with these trailers, or don't: what
/// is due behind them, where no connection is idle. An `Err` says that memory was refused.
pub fn take_body(
    alloc: Global,
    held: &mut Vec<Held>,
    id: u32,
    octets: &[u8],
    ends: bool,
    trailers: &[Field],
) -> Result<Due, AllocError>
    requires apart { AreApart (reverse held.old.items) }
    requires may { MayTakeOf octets.now ends (held_of id (reverse held.old.items)) }
    ensures takes { IfOk result (λ due. Takes [] id octets.now trailers.now ends (reverse held.old.items) (held_of id (reverse held.old.items)) (due_by due)
        (reverse held.new.items)) }
    ensures apart { AreApart (reverse held.new.items) }
{
    let Some(place) = place_of(held, id) else {
        return Ok(Due::Nothing);
    };
    if !ends {
        return held[place].go_on(alloc, octets, trailers);
    }
    if held[place].is_dropped() {
        return Ok(Due::Nothing);
    }
    held.remove(place).finish(alloc, octets, trailers)
}

/// What goes out on a connection that is closed is dropped.
pub fn drop_from(held: &mut Vec<Held>, k: u32)
    ensures { reverse held.new.items ≡ map (drop_from k) (reverse held.old.items) }
{
    for h in held.iter_mut() {
        h.drop_from(k);
    }
}

/// Takes out what is held of a stream, if something is.
pub fn take(held: &mut Vec<Held>, id: u32) -> Option<Held>
    requires { AreApart (reverse held.old.items) }
    ensures is { result ≡ held_of id (reverse held.old.items) }
    ensures rest { reverse held.new.items ≡ without id_of id (reverse held.old.items) }
{
    let Some(place) = place_of(held, id) else {
        return None;
    };
    Some(held.remove(place))
}
