//! The head at the front of octets.

ghost use Rattle.std.specs.Prelude.{◌≡◌, ◌≢◌, ◌<◌, ◌≤◌, map, length, All, IfOk, MatchOption, MatchResult};
ghost use Rattle.httparse.specs.Spans.{IsHeaderWithin, IsResponseWithin, IsResponseOf};
ghost use Rattle.response_texts.specs.Heads.{field_from, IsHeadRead};
ghost use Rattle.response_texts.specs.SectionFaults.{HeadFault};

use crate::fault::ResponseFault;
use crate::framing::{Framing, framing_of};
use crate::passed::ResponseHead;
use crate::{fields, octets};
use hpack_table::Field;
use httparse::spans::{HeaderSpan, ResponseSpans, parse_response};
use httparse::{Error, Status};
use std::alloc::{AllocError, Global};

/// The most fields of a head, and of a trailer section (this project's profile).
pub const MOST_FIELDS: usize = 100;

/// What stands at the front, with how many octets it takes.
#[derive(Drop)]
pub enum HeadRead {
    /// No head.
    More,
    /// An interim head.
    Interim(ResponseHead, usize),
    /// A final head, how its body is framed, its fields Connection, and whether it lets its connection stay open.
    Final(ResponseHead, Framing, Vec<Field>, bool, usize),
}

/// The field of a line.
fn field_at(alloc: Global, text: &[u8], line: HeaderSpan) -> Result<Field, AllocError>
    requires { IsHeaderWithin (length text.now) line }
    ensures { IfOk result (λ field. field ≡ field_from text.now line) }
{
    let value = line.value.of(text);
    let name = octets::lowered(alloc, line.name.of(text), value.len())?;
    Field::new(name, value)
}

/// The fields of lines.
pub fn fields_at(alloc: Global, text: &[u8], lines: &[HeaderSpan]) -> Result<Vec<Field>, AllocError>
    requires { All (IsHeaderWithin (length text.now)) lines.now }
    ensures { IfOk result (λ fields. fields.items ≡ map (field_from text.now) lines.now) }
{
    let mut fields = Vec::with_capacity(alloc, lines.len())?;
    for line in lines {
        fields.push(field_at(alloc, text, *line)?)?;
    }
    Ok(fields)
}

/// Reads the head at the front of at most 16,384 octets, of a response to HEAD or to another
/// method; none where there is too little room for its fields.
pub fn read_head(
    alloc: Global,
    to_head: bool,
    text: &[u8],
    spans: &mut [HeaderSpan],
) -> Option<Result<HeadRead, ResponseFault>>
    requires { length text.now ≤ 16384 }
    ensures { MatchOption result (length spans.old < 5462) (λ found. MatchResult found (IsHeadRead to_head text.now) (λ fault. fault ≢ ResponseFault.Memory
        → HeadFault fault to_head 0 text.now)) }
{
    match parse_response(text, spans) {
        Ok(Status::Complete(found)) => Some(take_head(alloc, to_head, text, spans, found)),
        Ok(Status::Partial) => Some(Ok(HeadRead::More)),
        Err(error) => match error {
            Error::TooManyHeaders => None,
            _ => Some(Err(ResponseFault::Head)),
        },
    }
}

/// Takes the head that was found, or refuses it.
fn take_head(
    alloc: Global,
    to_head: bool,
    text: &[u8],
    spans: &[HeaderSpan],
    found: ResponseSpans,
) -> Result<HeadRead, ResponseFault>
    requires short { length text.now ≤ 16384 }
    requires within { IsResponseWithin text.now spans.now found }
    requires is_head { IsResponseOf text.now spans.now found }
    ensures { MatchResult result (IsHeadRead to_head text.now) (λ fault. fault ≢ ResponseFault.Memory → HeadFault fault to_head 0 text.now) }
{
    if found.headers > MOST_FIELDS {
        return Err(ResponseFault::Head);
    }
    if found.code < 100 {
        return Err(ResponseFault::Head);
    }
    if found.code == 101 {
        return Err(ResponseFault::Upgrade);
    }
    let all = fields_at(alloc, text, &spans[..found.headers])?;
    let connections = fields::connections(alloc, &all)?;
    if found.code < 200 {
        let passed = fields::passed_back(alloc, found.code, all, &connections)?;
        let head = ResponseHead::new(found.code, passed);
        return Ok(HeadRead::Interim(head, found.len));
    }
    let framing = match framing_of(to_head, found.version, found.code, &all) {
        Ok(framing) => framing,
        Err(fault) => return Err(fault),
    };
    let passed = fields::passed_back(alloc, found.code, all, &connections)?;
    let head = ResponseHead::new(found.code, passed);
    let stays = fields::leave_open(found.version, &connections);
    Ok(HeadRead::Final(head, framing, connections, stays, found.len))
}
