//! The trailers behind the last chunk (RFC 9112, section 7.1.2).

ghost use Rattle.std.specs.Prelude.{◌≢◌, ◌<◌, ◌≤◌, ◌++◌, length, MatchOption, MatchResult};
ghost use Rattle.httparse.specs.Grammar.{HasNoSection};
ghost use Rattle.httparse.specs.Spans.{IsSectionOf, IsSectionWithin};
ghost use Rattle.model.specs.ResponseHeads.{named_by_connection};
ghost use Rattle.response_texts.specs.Trailers.{AreTrailersAt, AreTrailersRead};
ghost use Rattle.response_texts.specs.SectionFaults.{TrailerFault};

use crate::fault::ResponseFault;
use crate::fields::trailing;
use crate::front::LONGEST_SECTION;
use crate::head::{MOST_FIELDS, fields_at};
use crate::room::{ALL_FIELDS, SOME_FIELDS, make_room};
use hpack_table::Field;
use httparse::spans::{HeaderSpan, parse_headers};
use httparse::{Error, Status};
use std::alloc::Global;

/// What stands in octets behind those that were held.
#[derive(Drop)]
pub enum TrailersRead {
    /// Less than trailers: the octets so far.
    OnGoing(Vec<u8>),
    /// Trailers, of which these are passed back, and which end behind so many of the octets.
    WholeAt(Vec<Field>, usize),
}

/// Trailers at the front of octets.
#[derive(Drop)]
pub struct FoundTrailers {
    /// Those that are passed back.
    pub trailers: Vec<Field>,
    /// The octets that all of them take.
    pub used: usize,
}

/// The trailers that were found: those of so many lines, and behind so many octets they end.
fn take_trailers(
    alloc: Global,
    connections: &[Field],
    text: &[u8],
    spans: &[HeaderSpan],
    used: usize,
    count: usize,
) -> Result<Option<FoundTrailers>, ResponseFault>
    requires short { length text.now ≤ 16384 }
    requires within { IsSectionWithin text.now spans.now used count }
    requires are { IsSectionOf text.now 0 spans.now (used, count) }
    ensures { MatchResult result (AreTrailersAt (named_by_connection connections.now) text.now) (λ fault. fault ≢ ResponseFault.Memory
        → TrailerFault fault text.now) }
{
    if count > MOST_FIELDS {
        return Err(ResponseFault::Chunk);
    }
    let all = fields_at(alloc, text, &spans[..count])?;
    let trailers = trailing(alloc, connections, all)?;
    Ok(Some(FoundTrailers { trailers, used }))
}

/// The trailers at the front of at most 16,384 octets, none where they may still become trailers;
/// nothing where there is too little room for their fields.
fn trailers_at(
    alloc: Global,
    connections: &[Field],
    text: &[u8],
    spans: &mut [HeaderSpan],
) -> Option<Result<Option<FoundTrailers>, ResponseFault>>
    requires { length text.now ≤ 16384 }
    ensures { MatchOption result (length spans.old < 5462) (λ found. MatchResult found (AreTrailersAt (named_by_connection connections.now) text.now)
        (λ fault. fault ≢ ResponseFault.Memory → TrailerFault fault text.now)) }
{
    match parse_headers(text, spans) {
        Ok(Status::Complete((used, count))) => {
            Some(take_trailers(alloc, connections, text, spans, used, count))
        }
        Ok(Status::Partial) => Some(Ok(None)),
        Err(error) => match error {
            Error::TooManyHeaders => None,
            _ => Some(Err(ResponseFault::Chunk)),
        },
    }
}

/// The same, with room for some fields, and for all where these are too few.
fn trailers_in(
    alloc: Global,
    connections: &[Field],
    text: &[u8],
    spans: &mut Vec<HeaderSpan>,
) -> Result<Option<FoundTrailers>, ResponseFault>
    requires { length text.now ≤ 16384 }
    ensures { MatchResult result (AreTrailersAt (named_by_connection connections.now) text.now) (λ fault. fault ≢ ResponseFault.Memory
        → TrailerFault fault text.now) }
{
    make_room(alloc, spans, SOME_FIELDS)?;
    if let Some(found) = trailers_at(alloc, connections, text, spans) {
        return found;
    }
    make_room(alloc, spans, ALL_FIELDS)?;
    match trailers_at(alloc, connections, text, spans) {
        Some(found) => found,
        None => unreachable!(),
    }
}

/// Reads the trailers at the front of the octets that were held and those that follow them, by the
/// fields Connection of their head.
pub fn read_trailers(
    alloc: Global,
    connections: &[Field],
    held: Vec<u8>,
    octets: &[u8],
    spans: &mut Vec<HeaderSpan>,
) -> Result<TrailersRead, ResponseFault>
    requires short { length held.items ≤ 16384 }
    requires none { HasNoSection held.items }
    ensures { MatchResult result (AreTrailersRead (named_by_connection connections.now) held.items octets.now) (λ fault. fault ≢ ResponseFault.Memory
        → TrailerFault fault (held.items ++ octets.now)) }
{
    let before = held.len();
    let taken = octets.len().min(LONGEST_SECTION - before);
    let mut text = held;
    text.extend_from_slice(&octets[..taken])?;
    match trailers_in(alloc, connections, &text, spans) {
        Ok(None) => {
            if taken < octets.len() {
                return Err(ResponseFault::TooLong);
            }
            Ok(TrailersRead::OnGoing(text))
        }
        Ok(Some(found)) => Ok(TrailersRead::WholeAt(found.trailers, found.used - before)),
        Err(fault) => Err(fault),
    }
}
