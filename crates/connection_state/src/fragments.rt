//! Frames with a fragment of a header block: HEADERS and CONTINUATION (RFC 9113, sections 4.3, 6.2 and 6.10).

ghost use Rattle.std.specs.Prelude.{◌≡◌, ◌≤◌, ◌==◌, true, false, length, None, Some, OnOk, OnErr, IfOk, IfSome, IfNone};
ghost use Rattle.model.specs.Decoding.{Partial};
ghost use Rattle.model.specs.Limits.{largest_fields};
ghost use Rattle.theory_header_tables.specs.Answers.{IsReadAs};
ghost use Rattle.connection_state.specs.Blocks.{IsFor};
ghost use Rattle.connection_state.specs.Fragments.{IsOfBlock, Completes, IsUndecodable, IsFragmentJudged, is_memory};
ghost use Rattle.model.specs.Setup.{Setup};
ghost use Rattle.model.specs.Errors.{first_of};
ghost use Rattle.model.specs.Frames.{ends_headers as closes, headers_kind, continuation_kind, content};
ghost use Rattle.frames.specs.Views.{frame_of};
ghost use Rattle.theory_errors.specs.Judging.{frame_rows_in, is_crowded_in};
ghost use Rattle.theory_errors.specs.Owing.{fault_in};
ghost use Rattle.theory_errors.specs.Quiet.{coming};
ghost use Rattle.connection_state.specs.Inbound.{Inbound, Outside, book_of, told_of};
ghost use Rattle.connection_state.specs.Judgement.{behind};
ghost use Rattle.connection_state.specs.Draining.{is_beyond, AreAsEver};
ghost use Rattle.stream_state.specs.Views.{standing_in};
ghost use Rattle.streams.specs.Asked.{standing};
ghost use Rattle.model.specs.StreamStates.Standing.{Beyond};

use crate::answers::{BlockJudged, FrameError};
use crate::blocks::settle;
use crate::connection::Connection;
use crate::tables::read_block;
use crate::terms::Terms;
use frames::{Frame, View, ends_headers, ends_stream};
use header_blocks::{DecodeFault, Decoded, Decoder};
use protocol::error_codes::COMPRESSION_ERROR;
use protocol::limits::{FIRST_TABLE_SIZE, LARGEST_FIELDS};
use std::alloc::AllocError;
use stream_state::Standing;
use streams::StreamTable;

impl Connection {
    /// Keeps the fragment of a HEADERS whose block goes on. An `Err` says that memory was refused.
    pub(crate) fn keep_first(&mut self, view: View<'_>, fragment: &[u8]) -> Result<(), AllocError>
        requires kind { (frame_of view).kind ≡ headers_kind }
        requires goes_on { closes (frame_of view) ≡ false }
        requires fragment { fragment.now ≡ content (frame_of view) }
        requires short { length view.payload.now ≤ 16384 }
        requires sound { (outside : Outside) → first_of (frame_rows_in (told_of outside self.old) (frame_of view)) ≡ None }
        ensures faultless { OnOk result ((outside : Outside) → fault_in (told_of outside self.old) (coming (frame_of view.entry)) ≡ None) }
        ensures left { OnOk result ((setup : Setup) (outside : Outside)
            → book_of outside self.new ≡ behind setup (book_of outside self.old) (frame_of view.entry)) }
        ensures table { OnOk result (self.new.table ≡ self.old.table) }
        ensures unchanged { OnErr result (self.new ≡ self.old) }
    {
        self.joiner.first(view.id, ends_stream(view), fragment)?;
        self.has_come = true;
        self.continuations = 0;
        self.last = view.id;
        Ok(())
    }

    /// Keeps the fragment of a CONTINUATION whose block goes on. An `Err` says that memory was refused.
    pub(crate) fn keep_more(&mut self, view: View<'_>, fragment: &[u8]) -> Result<(), AllocError>
        requires kind { (frame_of view).kind ≡ continuation_kind }
        requires goes_on { closes (frame_of view) ≡ false }
        requires fragment { fragment.now ≡ content (frame_of view) }
        requires short { length view.payload.now ≤ 16384 }
        requires sound { (outside : Outside) → first_of (frame_rows_in (told_of outside self.old) (frame_of view)) ≡ None }
        ensures faultless { OnOk result ((outside : Outside) → fault_in (told_of outside self.old) (coming (frame_of view.entry)) ≡ None) }
        ensures left { OnOk result ((setup : Setup) (outside : Outside)
            → book_of outside self.new ≡ behind setup (book_of outside self.old) (frame_of view.entry)) }
        ensures table { OnOk result (self.new.table ≡ self.old.table) }
        ensures unchanged { OnErr result (self.new ≡ self.old) }
    {
        self.joiner.more(fragment)?;
        self.has_come = true;
        self.continuations += 1;
        self.last = view.id;
        Ok(())
    }

    /// What a whole block says, read over the table of the client's blocks, or nothing where its
    /// octets are no block (RFC 9113, section 4.3): no other can be read then. An `Err` says that
    /// memory was refused.
    fn read(&mut self, octets: &[u8]) -> Result<Option<Decoded>, AllocError>
        ensures read { IfOk result (λ found. IfSome found (λ decoded. IsReadAs self.old.table octets.now largest_fields decoded self.new.table)) }
        ensures unread { IfOk result (λ found. IfNone found (IsUndecodable self.old.table octets.now)) }
        ensures rest { self.new ≡ record self.old { table = self.new.table } }
    {
        match read_block(&mut self.decoder, self.alloc, octets, LARGEST_FIELDS) {
            Ok(decoded) => Ok(Some(decoded)),
            Err(fault) => {
                self.decoder = Decoder::new(self.alloc, FIRST_TABLE_SIZE);
                if is_of_memory(fault) {
                    return Err(AllocError);
                }
                Ok(None)
            }
        }
    }

    /// Takes a whole block, which a frame completes (RFC 9113, section 4.3), where the connection
    /// is `crowded` or isn't.
    fn take_block(
        &mut self,
        view: View<'_>,
        ends: bool,
        octets: &[u8],
        crowded: bool,
        terms: Terms<'_>,
    ) -> Result<BlockJudged, AllocError>
        requires none_begun { self.old.block ≡ None }
        requires of_stream { (view.id == 0) ≡ false }
        requires few { length terms.routes.now ≤ u32.MAX }
        ensures { IfOk result (λ answer. (setup : Setup) (outside : Outside) (before : Inbound) (block : Partial) → IsFor setup terms.entry
            → is_crowded_in (told_of outside before) ≡ crowded → Completes before self.old (frame_of view.entry) block → block.ends ≡ ends
            → block.fragments ≡ octets.now → IsFragmentJudged setup outside before (frame_of view.entry) self.new answer) }
    {
        let Some(decoded) = self.read(octets)? else {
            return Ok(BlockJudged::Failed(FrameError::Connection(COMPRESSION_ERROR)));
        };
        self.has_come = true;
        self.last = view.id;
        if is_beyond(self.drained, &self.streams, view.id) {
            return Ok(BlockJudged::Failed(FrameError::Discarded));
        }
        settle(
            self.alloc,
            &mut self.streams,
            view.id,
            ends,
            decoded,
            crowded,
            terms,
        )
    }

    /// Takes a HEADERS that is right by itself (RFC 9113, section 6.2).
    pub(crate) fn take_headers(
        &mut self,
        view: View<'_>,
        fragment: &[u8],
        crowded: bool,
        terms: Terms<'_>,
    ) -> Result<BlockJudged, AllocError>
        requires kind { (frame_of view).kind ≡ headers_kind }
        requires fragment { fragment.now ≡ content (frame_of view) }
        requires short { length view.payload.now ≤ 16384 }
        requires sound { (outside : Outside) → first_of (frame_rows_in (told_of outside self.old) (frame_of view)) ≡ None }
        requires few { length terms.routes.now ≤ u32.MAX }
        ensures { IfOk result (λ answer. (setup : Setup) (outside : Outside) → IsFor setup terms.entry → is_crowded_in (told_of outside self.old) ≡ crowded
            → IsFragmentJudged setup outside self.old (frame_of view.entry) self.new answer) }
    {
        if !ends_headers(view) {
            self.keep_first(view, fragment)?;
            return Ok(BlockJudged::GoesOn);
        }
        self.continuations = 0;
        self.take_block(view, ends_stream(view), fragment, crowded, terms)
    }

    /// Takes a CONTINUATION that is right by itself (RFC 9113, section 6.10).
    pub(crate) fn take_continuation(
        &mut self,
        view: View<'_>,
        fragment: &[u8],
        crowded: bool,
        terms: Terms<'_>,
    ) -> Result<BlockJudged, AllocError>
        requires kind { (frame_of view).kind ≡ continuation_kind }
        requires fragment { fragment.now ≡ content (frame_of view) }
        requires short { length view.payload.now ≤ 16384 }
        requires sound { (outside : Outside) → first_of (frame_rows_in (told_of outside self.old) (frame_of view)) ≡ None }
        requires few { length terms.routes.now ≤ u32.MAX }
        ensures { IfOk result (λ answer. (setup : Setup) (outside : Outside) → IsFor setup terms.entry → is_crowded_in (told_of outside self.old) ≡ crowded
            → IsFragmentJudged setup outside self.old (frame_of view.entry) self.new answer) }
    {
        if !ends_headers(view) {
            self.keep_more(view, fragment)?;
            return Ok(BlockJudged::GoesOn);
        }
        self.joiner.more(fragment)?;
        let Some(block) = self.joiner.finish() else {
            unreachable!();
        };
        self.continuations += 1;
        self.take_block(view, block.ends(), block.fragments(), crowded, terms)
    }

    /// Judges a HEADERS or a CONTINUATION, and does what it says. Where it isn't as it should be,
    /// its fault is the first row of the error table that applies (RFC 9113, section 5.4); the
    /// block that it completes is read all the same, unless the connection ends with the fault.
    /// Behind an error of a stream that stream is reset. `crowded` says that more octets are
    /// untaken than any but parts of responses may wait behind. An `Err` says that memory was
    /// refused, and nothing else then.
    pub fn judge_fragment(
        &mut self,
        view: View<'_>,
        crowded: bool,
        terms: Terms<'_>,
    ) -> Result<BlockJudged, AllocError>
        requires kind { IsOfBlock (frame_of view) }
        requires short { length view.payload.now ≤ 16384 }
        requires few { length terms.routes.now ≤ u32.MAX }
        ensures { IfOk result (λ answer. (setup : Setup) (outside : Outside) → IsFor setup terms.entry → is_crowded_in (told_of outside self.old) ≡ crowded
            → IsFragmentJudged setup outside self.old (frame_of view.entry) self.new answer) }
    {
        match self.parts(view) {
            Ok(Frame::Headers(fragment)) => self.take_headers(view, fragment, crowded, terms),
            Ok(Frame::Continuation(fragment)) => self.take_continuation(
                view, fragment, crowded, terms,
            ),
            Ok(_) => unreachable!(),
            Err(code) => Ok(BlockJudged::Failed(FrameError::Connection(code))),
        }
    }
}

/// Whether an id is above all that were opened on a connection that is drained: what comes on it is
/// discarded (RFC 9113, section 6.8).
fn is_beyond(drained: bool, streams: &StreamTable, id: u32) -> bool
    ensures beyond { result ≡ true → (drained ≡ true) × (standing true streams.now id ≡ Beyond) }
    ensures as_ever { result ≡ false → AreAsEver drained streams.now id }
{
    if !drained {
        return false;
    }
    is_above_last(streams.standing(true, id))
}

/// Whether an id stands above the last that a GOAWAY named.
fn is_above_last(standing: Standing) -> bool
    ensures { result ≡ is_beyond (standing_in standing) }
{
    match standing {
        Standing::Beyond => true,
        _ => false,
    }
}

/// Whether a fault says that memory was refused.
fn is_of_memory(fault: DecodeFault) -> bool
    ensures { result ≡ is_memory fault }
{
    match fault {
        DecodeFault::Memory => true,
        _ => false,
    }
}
