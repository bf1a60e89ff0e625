//! The head that octets end, behind those that were held.

ghost use Rattle.std.specs.Prelude.{◌≢◌, ◌≤◌, ◌++◌, [], length, MatchResult};
ghost use Rattle.httparse.specs.Grammar.{HasNoResponse};
ghost use Rattle.response_texts.specs.Heads.{IsHeadRead, IsFrontRead};
ghost use Rattle.response_texts.specs.SectionFaults.{HeadFault};

use crate::fault::ResponseFault;
use crate::framing::Framing;
use crate::head::{HeadRead, read_head};
use crate::passed::ResponseHead;
use crate::room::{ALL_FIELDS, SOME_FIELDS, make_room};
use hpack_table::Field;
use httparse::spans::HeaderSpan;
use std::alloc::Global;

/// The longest head, and the longest trailer section (this project's profile).
pub const LONGEST_SECTION: usize = 16384;

/// What stands in octets behind those that were held, with how many of them it takes.
#[derive(Drop)]
pub enum FrontRead {
    /// Less than a head: the octets so far.
    OnGoing(Vec<u8>),
    /// An interim head.
    InterimAt(ResponseHead, usize),
    /// A final head, how its body is framed, its fields Connection, and whether it lets its connection stay open.
    FinalAt(ResponseHead, Framing, Vec<Field>, bool, usize),
}

/// Reads the head at the front of at most 16,384 octets, with room for some fields, and for all
/// where these are too few.
fn read_text(
    alloc: Global,
    to_head: bool,
    text: &[u8],
    spans: &mut Vec<HeaderSpan>,
) -> Result<HeadRead, ResponseFault>
    requires { length text.now ≤ 16384 }
    ensures { MatchResult result (IsHeadRead to_head text.now) (λ fault. fault ≢ ResponseFault.Memory → HeadFault fault to_head 0 text.now) }
{
    make_room(alloc, spans, SOME_FIELDS)?;
    if let Some(found) = read_head(alloc, to_head, text, spans) {
        return found;
    }
    make_room(alloc, spans, ALL_FIELDS)?;
    match read_head(alloc, to_head, text, spans) {
        Some(found) => found,
        None => unreachable!(),
    }
}

/// Reads the head at the front of octets, where they stand.
fn read_there(
    alloc: Global,
    to_head: bool,
    octets: &[u8],
    spans: &mut Vec<HeaderSpan>,
) -> Result<FrontRead, ResponseFault>
    ensures { MatchResult result (IsFrontRead to_head [] octets.now) (λ fault. fault ≢ ResponseFault.Memory → HeadFault fault to_head 0 octets.now) }
{
    let taken = octets.len().min(LONGEST_SECTION);
    let text = &octets[..taken];
    match read_text(alloc, to_head, text, spans) {
        Ok(HeadRead::More) => {
            if taken < octets.len() {
                return Err(ResponseFault::TooLong);
            }
            Ok(FrontRead::OnGoing(Vec::from_slice(alloc, text)?))
        }
        Ok(HeadRead::Interim(head, used)) => Ok(FrontRead::InterimAt(head, used)),
        Ok(HeadRead::Final(head, framing, connections, stays, used)) => {
            Ok(FrontRead::FinalAt(head, framing, connections, stays, used))
        }
        Err(fault) => Err(fault),
    }
}

/// Reads the head at the front of the octets that were held and those that follow them.
fn read_behind(
    alloc: Global,
    to_head: bool,
    held: Vec<u8>,
    octets: &[u8],
    spans: &mut Vec<HeaderSpan>,
) -> Result<FrontRead, ResponseFault>
    requires short { length held.items ≤ 16384 }
    requires none { HasNoResponse held.items }
    ensures { MatchResult result (IsFrontRead to_head held.items octets.now) (λ fault. fault ≢ ResponseFault.Memory
        → HeadFault fault to_head 0 (held.items ++ octets.now)) }
{
    let before = held.len();
    let taken = octets.len().min(LONGEST_SECTION - before);
    let mut text = held;
    text.extend_from_slice(&octets[..taken])?;
    match read_text(alloc, to_head, &text, spans) {
        Ok(HeadRead::More) => {
            if taken < octets.len() {
                return Err(ResponseFault::TooLong);
            }
            Ok(FrontRead::OnGoing(text))
        }
        Ok(HeadRead::Interim(head, used)) => Ok(FrontRead::InterimAt(head, used - before)),
        Ok(HeadRead::Final(head, framing, connections, stays, used)) => {
            Ok(FrontRead::FinalAt(head, framing, connections, stays, used - before))
        }
        Err(fault) => Err(fault),
    }
}

/// Reads the head at the front of the octets that were held and those that follow them. Where none
/// were held it is read where it stands, and only less than a head is copied.
pub fn read_front(
    alloc: Global,
    to_head: bool,
    held: Vec<u8>,
    octets: &[u8],
    spans: &mut Vec<HeaderSpan>,
) -> Result<FrontRead, ResponseFault>
    requires short { length held.items ≤ 16384 }
    requires none { HasNoResponse held.items }
    ensures { MatchResult result (IsFrontRead to_head held.items octets.now) (λ fault. fault ≢ ResponseFault.Memory
        → HeadFault fault to_head 0 (held.items ++ octets.now)) }
{
    if held.is_empty() {
        return read_there(alloc, to_head, octets, spans);
    }
    read_behind(alloc, to_head, held, octets, spans)
}
