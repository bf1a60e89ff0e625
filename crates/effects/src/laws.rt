//! What the frames that are sent mean to those who decide which may be sent.

ghost use Rattle.std.specs.Prelude.{◌≡◌, ℕ, ◌+◌, ◌<◌, ◌≤◌, Bool, true, false, not, ◌&&◌, ◌||◌, ◌==◌, if◌then◌else◌, List, [], ◌∷◌, length, None};
ghost use Rattle.model.specs.Octets.{is_empty};
ghost use Rattle.model.specs.Frames.{Frame, content, ends_stream};
ghost use Rattle.model.specs.Limits.{high_water};
ghost use Rattle.model.specs.WindowsOnTape.{increment};
ghost use Rattle.theory_errors.specs.Summary.{Summary};
ghost use Rattle.theory_errors.specs.Judging.{is_active_in, is_crowded_in};
ghost use Rattle.theory_errors.specs.Owing.{is_rightly_sent_in};
ghost use Rattle.effects.specs.Sent.{data_frame, window_update};
ghost use Rattle.effects.specs.Blocks.{block_frames, IsFragment, Complete};

/// The frames of a block that isn't empty are its fragments in their order (RFC 9113, section 4.3):
/// each goes where that is begun which those before it leave, and only the last completes the
/// block, of this stream, with its END_STREAM and its octets. A block that fits one frame goes in
/// one.
pub fn blocks_are_completed()
    ensures one { (stream : ℕ) (ends : Bool) (block : List ℕ) → length block ≤ 16384
        → block_frames stream ends block ≡ record { kind = 1; flags = (if ends then 1 else 0) + 4; id = stream; payload = block } ∷ [] }
    ensures completed { (stream : ℕ) (ends : Bool) (block : List ℕ) → stream < 2147483648 → 0 < length block
        → Complete (record { id = stream; ends = ends; fragments = block }) None (block_frames stream ends block) }
{}

/// Such a frame may be sent on an active stream that the gateway hasn't ended; the first one while
/// fewer octets than the high water are untaken.
pub fn fragments_may_go()
    ensures { (s : Summary) (stream : ℕ) (frame : Frame) → IsFragment stream s.block_out frame → is_active_in stream s ≡ true
        → (s.stream stream).ended_by_gateway ≡ false → (s.block_out ≡ None → s.untaken < high_water) → is_rightly_sent_in s frame ≡ true }
{}

/// DATA has its octets as its content, and ends its stream as was said. It may be sent on an active
/// stream that the gateway hasn't ended, where it has octets or ends the stream, while fewer octets
/// than the high water are untaken.
pub fn data_is_told()
    ensures content { (stream : ℕ) (octets : List ℕ) (ends : Bool) → content (data_frame stream ends octets) ≡ octets }
    ensures ends { (stream : ℕ) (octets : List ℕ) (ends : Bool) → ends_stream (data_frame stream ends octets) ≡ ends }
    ensures may_go { (s : Summary) (stream : ℕ) (octets : List ℕ) (ends : Bool) → is_active_in stream s ≡ true → (s.stream stream).ended_by_gateway ≡ false
        → (not (is_empty octets) || ends) ≡ true → s.untaken < high_water → is_rightly_sent_in s (data_frame stream ends octets) ≡ true }
{}

/// WINDOW_UPDATE grants the octets that were said, and may be sent where these are one or more, for
/// the connection, and for an active stream that the client hasn't ended; unless too many octets
/// are untaken.
pub fn updates_are_told()
    ensures grants { (id : ℕ) (number : ℕ) → number < 2147483648 → increment (window_update id number) ≡ number }
    ensures may_go { (s : Summary) (id : ℕ) (number : ℕ) → 0 < number → number < 2147483648 → is_crowded_in s ≡ false
        → (id == 0 || is_active_in id s && not (s.stream id).ended_by_client) ≡ true → is_rightly_sent_in s (window_update id number) ≡ true }
{}
