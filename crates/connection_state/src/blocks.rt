//! What comes of a whole header block on its stream (RFC 9113, sections 5.1 and 8.1).

ghost use Rattle.std.specs.Prelude.{◌≡◌, ◌≤◌, Bool, List, length, true, false, None, Some, IfOk, OnOk, ◌==◌, is_some, if◌then◌else◌};
ghost use Rattle.model.specs.Messages.{Field as Line};
ghost use Rattle.model.specs.Setup.{Setup};
ghost use Rattle.model.specs.Errors.Fault.{Stream as StreamFault};
ghost use Rattle.model.specs.Http2.{passed_trailers};
ghost use Rattle.model.specs.Malformed.{are_trailers};
ghost use Rattle.model.specs.Tables.{total_size};
ghost use Rattle.model.specs.Limits.{largest_fields};
ghost use Rattle.model.specs.ErrorTable.{fault_of as fault_by};
ghost use Rattle.theory_errors.specs.Rows.{find, slot_of};
ghost use Rattle.theory_errors.specs.Rows.Slot.{Over};
ghost use Rattle.theory_errors.specs.Tidy.{AreKept};
ghost use Rattle.theory_header_tables.specs.Answers.{IsNoteFor};
ghost use Rattle.streams.specs.Asked.{verdict};
ghost use Rattle.streams.specs.Views.{outline_of};
ghost use Rattle.connection_state.specs.Judgement.{fault_told, is_of_stream};
ghost use Rattle.model.specs.Tapes.Note.{Fields};
ghost use Rattle.model.specs.Courses.{cause_of_block};
ghost use Rattle.theory_errors.specs.Summary.{carried_in};
ghost use Rattle.local_replies.specs.Views.{cause_of};
ghost use Rattle.local_replies.specs.Openings.{GoesOn};
ghost use Rattle.connection_state.specs.Blocks.{IsOpenOrIdle, AreFitting, IsFor, placed, kept_so, fault_on, fault_with, Settles, SettlesBy};

use crate::answers::{BlockJudged, FrameError};
use crate::codes::fault_of;
use crate::terms::Terms;
use header_blocks::{Decoded, Field};
use local_replies::{Cause, Opening, are_malformed_trailers, judge_head};
use protocol::error_codes::{ENHANCE_YOUR_CALM, PROTOCOL_ERROR};
use protocol::limits::MOST_STREAMS;
use request_rules::{RequestHead, Rule, check_trailers};
use std::alloc::{AllocError, Global};
use stream_state::Kind;
use streams::{Course, Live, StreamTable};

/// Keeps this course of a stream that is active or is opened with it, and whether its client ends
/// it. An `Err` says that memory was refused.
fn keep(streams: &mut StreamTable, id: u32, course: Course, ends: bool) -> Result<(), AllocError>
    requires wanted { IsOpenOrIdle streams.old id }
    ensures is { OnOk result (streams.new ≡ placed streams.old id (slot_of (kept_so (find streams.old id) (outline_of course) ends))) }
    ensures kept { AreKept streams.new }
{
    if streams.find(id).is_some() {
        streams.take(id, 0, course, ends);
        return Ok(());
    }
    streams.open(id, Live::opened(course, ends))
}

/// Resets a stream that is active or is opened with it (RFC 9113, section 5.4.2). An `Err` says
/// that memory was refused.
fn reset(streams: &mut StreamTable, id: u32) -> Result<(), AllocError>
    requires wanted { IsOpenOrIdle streams.old id }
    ensures is { OnOk result (streams.new ≡ placed streams.old id (Over true)) }
    ensures kept { AreKept streams.new }
{
    if streams.find(id).is_some() {
        streams.close(id, true);
        return Ok(());
    }
    streams.open(id, Live::opened(Course::new(), false))?;
    streams.close(id, true);
    Ok(())
}

/// Refuses a block by the state of its stream (RFC 9113, section 5.1).
fn refuse(streams: &mut StreamTable, id: u32, fault: FrameError) -> Result<BlockJudged, AllocError>
    requires is { fault_by (verdict false streams.old id 1) ≡ Some (fault_told fault) }
    requires wanted { is_of_stream (Some (fault_told fault)) ≡ true → IsOpenOrIdle streams.old id }
    requires kept { AreKept streams.old }
    ensures settled { IfOk result (λ answer. (setup : Setup) (fields : List Line) (ends : Bool) → Settles setup streams.old id fields ends streams.new answer) }
    ensures kept { AreKept streams.new }
{
    let FrameError::Stream(_) = fault else {
        return Ok(BlockJudged::Failed(fault));
    };
    reset(streams, id)?;
    Ok(BlockJudged::Failed(fault))
}

/// Resets the stream of a block that is malformed (RFC 9113, section 8.1.1).
fn fail(streams: &mut StreamTable, id: u32) -> Result<BlockJudged, AllocError>
    requires wanted { IsOpenOrIdle streams.old id }
    ensures settled { IfOk result (λ answer. (setup : Setup) (fields : List Line) (ends : Bool) → fault_on streams.old id fields ends ≡ Some (StreamFault 1)
        → Settles setup streams.old id fields ends streams.new answer) }
    ensures kept { AreKept streams.new }
{
    reset(streams, id)?;
    Ok(BlockJudged::Failed(FrameError::Stream(PROTOCOL_ERROR)))
}

/// What is kept of a stream that matters to a block.
#[derive(Clone, Copy)]
struct Before {
    course: Course,
    head_out: bool,
}

/// What is kept of a stream that is active or may be opened.
fn kept_before(streams: &StreamTable, id: u32) -> Before
    requires wanted { IsOpenOrIdle streams.now id }
    ensures course { outline_of result.course ≡ (find streams.now id).outline }
    ensures head_out { result.head_out ≡ (find streams.now id).head_out }
{
    let Some(live) = streams.find(id) else {
        return Before {
            course: Course::new(),
            head_out: false,
        };
    };
    Before {
        course: live.course(),
        head_out: live.head_out(),
    }
}

/// Answers a request in place of an upstream from a block on.
fn answer(
    streams: &mut StreamTable,
    id: u32,
    ends: bool,
    before: Before,
    cause: Cause,
) -> Result<BlockJudged, AllocError>
    requires wanted { IsOpenOrIdle streams.old id }
    requires course { outline_of before.course ≡ (find streams.old id).outline }
    requires head_out { before.head_out ≡ (find streams.old id).head_out }
    requires none_yet { before.course.reply ≡ None }
    ensures settled { IfOk result (λ answer. (setup : Setup) (fields : List Line) → fault_on streams.old id fields ends ≡ None
        → cause_of_block setup (carried_in (find streams.old id).outline) (Fields fields) ≡ Some (cause_of cause)
        → Settles setup streams.old id fields ends streams.new answer) }
    ensures kept { AreKept streams.new }
{
    let course = before.course.replied(cause, before.head_out);
    keep(streams, id, course, ends)?;
    Ok(BlockJudged::Answered(cause))
}

/// Takes a block behind the gateway's own reply: it changes nothing but that the client may end the stream with it.
fn pass_over(
    streams: &mut StreamTable,
    id: u32,
    ends: bool,
    course: Course,
) -> Result<BlockJudged, AllocError>
    requires passes { fault_by (verdict false streams.old id 1) ≡ None }
    requires wanted { IsOpenOrIdle streams.old id }
    requires course { outline_of course ≡ (find streams.old id).outline }
    requires replied { is_some course.reply ≡ true }
    ensures settled { IfOk result (λ answer. (setup : Setup) (fields : List Line) → Settles setup streams.old id fields ends streams.new answer) }
    ensures kept { AreKept streams.new }
{
    keep(streams, id, course, ends)?;
    Ok(BlockJudged::Ignored)
}

/// Those of a request's trailers that are passed on, where they keep the rules of trailers. An
/// `Err` says that memory was refused.
fn passed(alloc: Global, fields: &[Field]) -> Result<Vec<Field>, AllocError>
    requires { are_trailers fields.now ≡ true }
    ensures { IfOk result (λ trailers. trailers.items ≡ passed_trailers fields.now) }
{
    match check_trailers(alloc, fields) {
        Ok(trailers) => Ok(trailers),
        Err(Rule::Memory) => Err(AllocError),
        Err(_) => unreachable!(),
    }
}

/// Takes a block behind a request's head (RFC 9113, section 8.1).
fn take_trailers(
    alloc: Global,
    streams: &mut StreamTable,
    id: u32,
    ends: bool,
    course: Course,
    fields: &[Field],
) -> Result<BlockJudged, AllocError>
    requires passes { fault_by (verdict false streams.old id 1) ≡ None }
    requires wanted { IsOpenOrIdle streams.old id }
    requires course { outline_of course ≡ (find streams.old id).outline }
    requires begun { course.begun ≡ true }
    requires none_yet { course.reply ≡ None }
    requires fits { total_size fields.now ≤ largest_fields }
    ensures settled { IfOk result (λ answer. (setup : Setup) → Settles setup streams.old id fields.now ends streams.new answer) }
    ensures kept { AreKept streams.new }
{
    if are_malformed_trailers(fields, ends, course.declared, u64::from(course.octets)) {
        return fail(streams, id);
    }
    keep(streams, id, course.with_block(None, ends), ends)?;
    if course.over {
        return Ok(BlockJudged::Ignored);
    }
    let trailers = passed(alloc, fields)?;
    Ok(BlockJudged::Trailers(trailers))
}

/// Begins a request with its head, for the route at this place.
fn begin(
    streams: &mut StreamTable,
    id: u32,
    ends: bool,
    course: Course,
    head: RequestHead,
    route: u32,
) -> Result<BlockJudged, AllocError>
    requires wanted { IsOpenOrIdle streams.old id }
    requires course { outline_of course ≡ (find streams.old id).outline }
    requires begun { course.begun ≡ false }
    requires none_yet { course.reply ≡ None }
    ensures settled { IfOk result (λ answer. (setup : Setup) (fields : List Line) → fault_on streams.old id fields ends ≡ None
        → GoesOn setup fields ends head route → Settles setup streams.old id fields ends streams.new answer) }
    ensures kept { AreKept streams.new }
{
    let next = course.with_block(head.length(), ends);
    keep(streams, id, next, ends)?;
    if course.over {
        return Ok(BlockJudged::Ignored);
    }
    Ok(BlockJudged::Begins { head, route })
}

/// Takes the first block of a stream (RFC 9113, section 8.1).
fn take_head(
    alloc: Global,
    streams: &mut StreamTable,
    id: u32,
    ends: bool,
    before: Before,
    fields: &[Field],
    terms: Terms<'_>,
) -> Result<BlockJudged, AllocError>
    requires passes { fault_by (verdict false streams.old id 1) ≡ None }
    requires wanted { IsOpenOrIdle streams.old id }
    requires course { outline_of before.course ≡ (find streams.old id).outline }
    requires head_out { before.head_out ≡ (find streams.old id).head_out }
    requires begun { before.course.begun ≡ false }
    requires none_yet { before.course.reply ≡ None }
    requires fits { total_size fields.now ≤ largest_fields }
    requires kept { AreKept streams.old }
    requires few { length terms.routes.now ≤ u32.MAX }
    ensures settled { IfOk result (λ answer. (setup : Setup) → IsFor setup terms.entry → Settles setup streams.old id fields.now ends streams.new answer) }
    ensures kept { AreKept streams.new }
{
    match judge_head(alloc, terms.routes, terms.max_body, fields, ends)? {
        Opening::Malformed => fail(streams, id),
        Opening::Answered { cause, .. } => answer(streams, id, ends, before, cause),
        Opening::Forwarded { head, route } => {
            begin(streams, id, ends, before.course, head, route)
        }
    }
}

/// Takes a block whose fields fit, on a stream that allows it.
fn take_fields(
    alloc: Global,
    streams: &mut StreamTable,
    id: u32,
    ends: bool,
    before: Before,
    fields: &[Field],
    terms: Terms<'_>,
) -> Result<BlockJudged, AllocError>
    requires passes { fault_by (verdict false streams.old id 1) ≡ None }
    requires wanted { IsOpenOrIdle streams.old id }
    requires course { outline_of before.course ≡ (find streams.old id).outline }
    requires head_out { before.head_out ≡ (find streams.old id).head_out }
    requires none_yet { before.course.reply ≡ None }
    requires fits { total_size fields.now ≤ largest_fields }
    requires kept { AreKept streams.old }
    requires few { length terms.routes.now ≤ u32.MAX }
    ensures settled { IfOk result (λ answer. (setup : Setup) → IsFor setup terms.entry → Settles setup streams.old id fields.now ends streams.new answer) }
    ensures kept { AreKept streams.new }
{
    if before.course.begun {
        return take_trailers(alloc, streams, id, ends, before.course, fields);
    }
    take_head(alloc, streams, id, ends, before, fields, terms)
}

/// What comes of a whole header block on a stream (RFC 9113, sections 5.1 and 8.1), where its
/// GOAWAY may go out if it opens the last.
fn judge_block(
    alloc: Global,
    streams: &mut StreamTable,
    id: u32,
    ends: bool,
    decoded: Decoded,
    terms: Terms<'_>,
) -> Result<BlockJudged, AllocError>
    requires of_stream { (id == 0) ≡ false }
    requires fits { AreFitting decoded }
    requires few { length terms.routes.now ≤ u32.MAX }
    ensures settled { IfOk result (λ answer. (setup : Setup) (fields : List Line) → IsFor setup terms.entry → IsNoteFor largest_fields decoded fields
        → Settles setup streams.old id fields ends streams.new answer) }
    ensures kept { AreKept streams.new }
{
    if let Some(fault) = fault_of(streams.verdict(false, id, Kind::Headers)) {
        return refuse(streams, id, fault);
    }
    let before = kept_before(streams, id);
    if before.course.reply.is_some() {
        return pass_over(streams, id, ends, before.course);
    }
    match decoded {
        Decoded::TooLarge => answer(streams, id, ends, before, Cause::LargeFields),
        Decoded::Fields(fields) => take_fields(alloc, streams, id, ends, before, &fields, terms),
    }
}

/// All but one of the streams that a connection may have (RFC 9113, section 5.1.1).
const ALL_BUT_ONE: u32 = MOST_STREAMS - 1;

/// Whether a block that is no error by the state of its stream opens the last that a connection may have.
fn is_last(streams: &StreamTable, id: u32) -> bool
    requires of_stream { (id == 0) ≡ false }
    ensures is { (fields : List Line) (ends : Bool) → fault_with true streams.now id fields ends ≡ (if result then Some (StreamFault 11)
        else fault_on streams.now id fields ends) }
    ensures wanted { result ≡ true → IsOpenOrIdle streams.now id }
{
    if streams.count() != ALL_BUT_ONE {
        return false;
    }
    if fault_of(streams.verdict(false, id, Kind::Headers)).is_some() {
        return false;
    }
    streams.find(id).is_none()
}

/// What comes of a whole header block on a stream (RFC 9113, sections 5.1 and 8.1), which `ends` it
/// where its HEADERS has END_STREAM. Where the connection is `crowded`, one that opens the last
/// stream is an error of it: the GOAWAY that it calls for can't go out. An `Err` says that memory
/// was refused.
pub fn settle(
    alloc: Global,
    streams: &mut StreamTable,
    id: u32,
    ends: bool,
    decoded: Decoded,
    crowded: bool,
    terms: Terms<'_>,
) -> Result<BlockJudged, AllocError>
    requires of_stream { (id == 0) ≡ false }
    requires fits { AreFitting decoded }
    requires few { length terms.routes.now ≤ u32.MAX }
    ensures settled { IfOk result (λ answer. (setup : Setup) (fields : List Line) → IsFor setup terms.entry → IsNoteFor largest_fields decoded fields
        → SettlesBy (fault_with crowded streams.old id fields ends) setup streams.old id fields ends streams.new answer) }
    ensures kept { AreKept streams.new }
{
    if crowded && is_last(streams, id) {
        reset(streams, id)?;
        return Ok(BlockJudged::Failed(FrameError::Stream(ENHANCE_YOUR_CALM)));
    }
    judge_block(alloc, streams, id, ends, decoded, terms)
}
