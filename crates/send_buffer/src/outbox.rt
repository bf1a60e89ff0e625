//! The outbox of a stream.

ghost use Rattle.std.specs.Prelude.{◌≡◌, ◌<◌, ◌-◌, ◌&&◌, [], ◌∷◌, true, false, None, Some, option_map, length, MatchOption, IfNone, OnOk, OnErr};
ghost use Rattle.model.specs.Octets.{is_empty};
ghost use Rattle.theory_responses.specs.Outbox.{silent, grown, first_end, is_plain, can_go, part_of, left, rest_of};
ghost use Rattle.theory_responses.specs.Outbox as rule;
ghost use Rattle.h1_reader.specs.HeadSizes.{CanTrail};
ghost use Rattle.theory_responses.specs.Held.{body_waiting};
ghost use Rattle.send_buffer.specs.Views.{end_in, outbox_in, part_in, is_begun, IsHead, AreOctets, IsBehindHead, AreNoTrailers, HasNoOctets};

use crate::octets::Octets;
use crate::part::Part;
use h1_reader::{ResponseHead, Trailers};
use hpack_table::Field;
use std::alloc::{AllocError, Global};
use std::collections::VecDeque;
use std::marker::Model;
use std::mem;

/// How far a response was sent.
#[derive(Drop)]
enum Place {
    /// No final head was sent: interim heads, the final head if it is on offer, octets behind it,
    /// and, once the response is whole, its trailers, if it has some.
    Before(VecDeque<ResponseHead>, Option<ResponseHead>, Octets, Option<Option<Trailers>>),
    /// The final head was sent: octets behind it, and, once the response is whole, its trailers, if it has some.
    Behind(Octets, Option<Option<Trailers>>),
    /// All was sent, with the end.
    Over,
}

/// What is on offer for a stream and wasn't sent yet. A clause sees it as the rule of responses
/// does: interim heads, the final head and octets of its body, whether the response is whole with
/// them, and its trailers.
#[derive(Drop)]
pub struct Outbox {
    place: Place,
}

impl Model for Outbox {
    ghost use Rattle.theory_responses.specs.Outbox.{Outbox};
    ghost use Rattle.send_buffer.specs.Views.{outbox_in};

    ghost Value = { Outbox };

    ghost view = { λ outbox. outbox_in outbox.place };
}

/// Whether a response is whole and has no trailers.
#[tactic(auto, using(crate::proofs::Sent::plain_is))]
fn is_plain(whole: &Option<Option<Trailers>>) -> bool
    ensures { result ≡ is_plain (end_in whole.now) }
{
    match whole {
        Some(Some(trailers)) => trailers.fields().is_empty(),
        Some(None) => true,
        None => false,
    }
}

/// How a response ends is known with this, if it wasn't.
fn set_end(whole: &mut Option<Option<Trailers>>, ends: Option<Option<Trailers>>)
    ensures { end_in whole.new ≡ first_end (end_in whole.old) (end_in ends) }
{
    if whole.is_none() {
        *whole = ends;
    }
}

/// What is left behind a final head.
fn behind(body: Octets, whole: Option<Option<Trailers>>) -> Place
    ensures { outbox_in result ≡ rest_of body (end_in whole) (is_plain (end_in whole) && is_empty body) }
{
    if is_plain(&whole) && body.is_empty() {
        Place::Over
    } else {
        Place::Behind(body, whole)
    }
}

impl Outbox {
    /// Nothing is on offer yet.
    pub fn new(alloc: Global) -> Outbox
        ensures { result ≡ silent }
    {
        Outbox {
            place: Place::Before(VecDeque::new(alloc), None, Octets::new(alloc), None),
        }
    }

    /// One interim head more is on offer, where the final head wasn't sent. An `Err` says that
    /// memory was refused; it changes nothing.
    pub fn add_interim(&mut self, head: ResponseHead) -> Result<(), AllocError>
        ensures added { OnOk result (self.new ≡ grown self.old (record { interims = head ∷ []; head = None; body = []; ends = None })) }
        ensures unchanged { OnErr result (self.new ≡ self.old) }
    {
        match &mut self.place {
            Place::Before(interims, _, _, _) => interims.push_back(head)?,
            _ => {}
        }
        Ok(())
    }

    /// More of a response is on offer: its final head, where none was, octets of its body, and its
    /// end, with its trailers, if it has some. An `Err` says that memory was refused; it changes
    /// nothing.
    pub fn add(
        &mut self,
        head: Option<ResponseHead>,
        body: Vec<u8>,
        ends: Option<Option<Trailers>>,
    ) -> Result<(), AllocError>
        ensures added { OnOk result (self.new ≡ grown self.old (record { interims = []; head = head; body = body.items; ends = end_in ends })) }
        ensures unchanged { OnErr result (self.new ≡ self.old) }
    {
        match &mut self.place {
            Place::Before(_, first, octets, whole) => {
                octets.add(body)?;
                if first.is_none() {
                    *first = head;
                }
                set_end(whole, ends);
            }
            Place::Behind(waiting, whole) => {
                waiting.add(body)?;
                set_end(whole, ends);
            }
            Place::Over => {}
        }
        Ok(())
    }

    /// The gateway answers the stream itself, with this head and nothing behind it: it takes the
    /// place of all that is on offer.
    pub fn reply(&mut self, alloc: Global, head: ResponseHead)
        ensures { self.new ≡ rule.Outbox.Before [] (Some head) [] (Some []) }
    {
        self.place = Place::Before(
            VecDeque::new(alloc),
            Some(head),
            Octets::new(alloc),
            Some(None),
        );
    }

    /// Whether the final head of a response was sent.
    pub fn is_begun(&self) -> bool
        ensures { result ≡ is_begun self.now }
    {
        !matches!(self.place, Place::Before(_, _, _, _))
    }

    /// Whether something can go; octets only where both of the stream's windows are open (RFC 9113, section 6.9.1).
    #[tactic(auto, using(crate::proofs::Sent::goes_on, crate::proofs::Sent::goes_at_end, crate::proofs::Sent::some_end))]
    pub fn can_go(&self, windows_open: bool) -> bool
        ensures { result ≡ can_go windows_open self.now }
    {
        match &self.place {
            Place::Before(interims, head, _, _) => !interims.is_empty() || head.is_some(),
            Place::Behind(body, whole) => {
                if body.is_empty() {
                    whole.is_some()
                } else {
                    windows_open
                }
            }
            Place::Over => false,
        }
    }

    /// The part that goes next, where so many octets of the body may; it has the end where nothing
    /// is held behind it. There is none just where nothing is on offer that can go, whatever the
    /// windows are.
    pub fn next(&self, most: usize) -> Option<Part<'_>>
        ensures { option_map part_in result ≡ part_of most self.now }
    {
        match &self.place {
            Place::Before(interims, head, body, whole) => match interims.front() {
                Some(first) => Some(Part::Early(first)),
                None => head.as_ref().map(|head| Part::Final(
                    head,
                    is_plain(whole) && body.is_empty(),
                )),
            },
            Place::Behind(body, whole) => part_at(body, most, whole),
            Place::Over => None,
        }
    }

    /// How many octets of the body are on offer and weren't sent.
    pub fn held(&self) -> usize
        ensures { result ≡ length (body_waiting self.now) }
    {
        match &self.place {
            Place::Before(_, _, body, _) => body.len(),
            Place::Behind(body, _) => body.len(),
            Place::Over => 0,
        }
    }

    /// Takes the head that goes next, and leaves what is behind it. There is none where octets or trailers are next, or
    /// nothing is.
    pub fn take_head(&mut self) -> Option<ResponseHead>
        ensures head { MatchOption result (self.new ≡ self.old) (λ head. (part : rule.Part) × (part_of 1 self.old ≡ Some part) × IsHead head part
            × (self.new ≡ left self.old part)) }
        ensures none { IfNone result ((part : rule.Part) → part_of 1 self.old ≡ Some part → IsBehindHead part) }
    {
        match mem::replace(&mut self.place, Place::Over) {
            Place::Before(mut interims, head, body, whole) => {
                if let Some(first) = interims.pop_front() {
                    self.place = Place::Before(interims, head, body, whole);
                    return Some(first);
                }
                let Some(head) = head else {
                    self.place = Place::Before(interims, None, body, whole);
                    return None;
                };
                self.place = behind(body, whole);
                Some(head)
            }
            place => {
                self.place = place;
                None
            }
        }
    }

    /// Takes the trailers that go next, of which there are some; nothing is left behind them. There
    /// are none where another part is next, or nothing is.
    pub fn take_trailers(&mut self) -> Option<Vec<Field>>
        ensures trailers { MatchOption result (self.new ≡ self.old) (λ trailers. (part_of 1 self.old ≡ Some (rule.Part.Trailing trailers.items))
            × (self.new ≡ rule.Outbox.Over) × CanTrail trailers.items) }
        ensures none { IfNone result ((part : rule.Part) → part_of 1 self.old ≡ Some part → AreNoTrailers part) }
    {
        match mem::replace(&mut self.place, Place::Over) {
            Place::Behind(body, whole) => {
                if !body.is_empty() {
                    self.place = Place::Behind(body, whole);
                    return None;
                }
                match whole {
                    Some(Some(trailers)) => Some(trailers.into_fields()),
                    other => {
                        self.place = Place::Behind(body, other);
                        None
                    }
                }
            }
            place => {
                self.place = place;
                None
            }
        }
    }

    /// The octets that `next` answers for `most` were sent, or the end alone. Where another part is
    /// next, or nothing is, nothing changes.
    #[tactic(auto, using(crate::proofs::Sent::some_end))]
    pub fn drop_octets(&mut self, most: usize)
        ensures octets { (part : rule.Part) → part_of most self.old ≡ Some part → AreOctets part → self.new ≡ left self.old part }
        ensures others { HasNoOctets (part_of most self.old) → self.new ≡ self.old }
    {
        if let Place::Behind(body, whole) = &mut self.place {
            if most < body.len() {
                body.pass(most);
            } else if is_plain(whole) {
                let _sent = mem::replace(&mut self.place, Place::Over);
            } else {
                body.clear();
            }
        }
    }
}

/// So many octets of a body at most, or its end.
fn part_at<'a>(
    body: &'a Octets,
    most: usize,
    whole: &'a Option<Option<Trailers>>,
) -> Option<Part<'a>>
    ensures { option_map part_in result ≡ part_of most (rule.Outbox.Behind body.now (end_in whole.now)) }
{
    let (front, back) = body.front(most);
    if most < body.len() {
        return Some(Part::Octets(front, back, false));
    }
    if !body.is_empty() {
        return Some(Part::Octets(front, back, is_plain(whole)));
    }
    match whole {
        Some(Some(trailers)) => Some(Part::Trailing(trailers.fields())),
        Some(None) => Some(Part::Octets(front, back, true)),
        None => None,
    }
}
