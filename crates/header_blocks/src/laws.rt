//! Laws: what a joiner keeps is what the frames of a direction say, and a block has one fault.

ghost use Rattle.std.specs.Prelude.{◌≡◌, ◌≤◌, ℕ, true, false, List, [], ◌∷◌, None, length};
ghost use Rattle.model.specs.Frames.{Frame, headers_kind, continuation_kind, ends_headers, ends_stream, content};
ghost use Rattle.model.specs.Tapes.{Noted};
ghost use Rattle.model.specs.Decoding.{joined, completed};
ghost use Rattle.model.specs.FrameErrors.{is_between, last_continuations};
ghost use Rattle.model.specs.Tables.{Table, total_size};
ghost use Rattle.header_blocks.specs.Joining.{Joining, nothing_begun, continuations_with, fault_at, begins, continues, HasRoom};
ghost use Rattle.header_blocks.specs.Following.{IsKeptOf};
ghost use Rattle.header_blocks.specs.Faults.{IsFaultOf};
ghost use Rattle.header_blocks.specs.HeldInside.{octets_begun, in_block, in_joiner, in_decoder, in_encoder};
ghost use Rattle.header_blocks.specs.declared.fault.DecodeFault.{DecodeFault};
ghost use Rattle.header_blocks.specs.declared.block.Block.TheInside.{Inside as BlockInside};
ghost use Rattle.header_blocks.specs.declared.block.Block.TheView.{view as block_seen};
ghost use Rattle.header_blocks.specs.declared.joiner.Joiner.TheInside.{Inside as JoinerInside};
ghost use Rattle.header_blocks.specs.declared.joiner.Joiner.TheView.{view as joiner_seen};
ghost use Rattle.header_blocks.specs.declared.decoder.Decoder.TheInside.{Inside as DecoderInside};
ghost use Rattle.header_blocks.specs.declared.decoder.Decoder.TheView.{view as decoder_seen, invariant as IsSoundDecoder};
ghost use Rattle.header_blocks.specs.declared.encoder.Encoder.TheInside.{Inside as EncoderInside};
ghost use Rattle.header_blocks.specs.declared.encoder.Encoder.TheView.{view as encoder_seen};

/// The fragment of a frame in which `Joiner::fault` finds none may be joined, and what
/// `Joiner::first` and `Joiner::more` keep then is the block that the frame begins or goes on with
/// (RFC 9113, section 4.3). Any other frame comes outside a block, and begins none.
pub fn fragments_are_joined()
    ensures first { (joining : Joining) (frame : Frame) → fault_at joining frame ≡ None → frame.kind ≡ headers_kind → (joining.begun ≡ None)
        × (joined joining.begun frame ≡ (begins frame.id (ends_stream frame) (content frame)).begun) }
    ensures more { (joining : Joining) (frame : Frame) → fault_at joining frame ≡ None → frame.kind ≡ continuation_kind → HasRoom joining (content frame)
        × (joined joining.begun frame ≡ (continues joining (content frame)).begun) }
    ensures other { (joining : Joining) (frame : Frame) → fault_at joining frame ≡ None → (frame.kind ≡ headers_kind → ⊥)
        → (frame.kind ≡ continuation_kind → ⊥) → (joining.begun ≡ None) × (joined joining.begun frame ≡ None) }
{}

/// What a joiner keeps is what the frames of its direction begin and don't complete, from the first
/// frame on: a frame that doesn't end its block leaves what it is joined to, and one that ends it
/// completes that and leaves nothing. The CONTINUATION frames are counted as the newest ones are.
pub fn blocks_are_kept()
    ensures nothing { IsKeptOf [] nothing_begun }
    ensures count { (before : List Noted) (noted : Noted) (joining : Joining) → IsKeptOf before joining → is_between joining.begun noted.frame ≡ false
        → continuations_with joining noted.frame ≡ last_continuations (noted ∷ before) }
    ensures goes_on { (before : List Noted) (noted : Noted) (joining : Joining) → IsKeptOf before joining → fault_at joining noted.frame ≡ None
        → ends_headers noted.frame ≡ false → IsKeptOf (noted ∷ before) (record {
          begun = joined joining.begun noted.frame;
          continuations = continuations_with joining noted.frame;
        }) × (completed before noted.frame ≡ None) }
    ensures whole { (before : List Noted) (noted : Noted) (joining : Joining) → IsKeptOf before joining → ends_headers noted.frame ≡ true
        → IsKeptOf (noted ∷ before) nothing_begun × (completed before noted.frame ≡ joined joining.begun noted.frame) }
{}

/// A table and a block determine the fault that `Decoder::decode` answers, if it isn't want of
/// memory: there is one first place that can't be read, and what stands there has one fault (RFC
/// 7541, sections 5 and 6).
pub fn one_fault()
    ensures { (table : Table) (block : List ℕ) (fault other : DecodeFault) → IsFaultOf table block fault → IsFaultOf table block other → fault ≡ other }
{}

/// What lies in a block, a joiner, a decoder and an encoder between calls is what a clause sees of
/// them, and no octet more: each field is counted (`specs/HeldInside`). So whoever bounds what is
/// seen bounds what is held. Of a decoder less may lie there than is seen, since behind a fault no
/// table is kept. Lengths of lists are counted, and not the room that they have.
pub fn what_is_held_is_seen()
    ensures block { (block : BlockInside) → in_block block ≡ length (block_seen block).fragments }
    ensures joiner { (joiner : JoinerInside) → in_joiner joiner ≡ octets_begun (joiner_seen joiner).begun }
    ensures decoder { (decoder : DecoderInside) → IsSoundDecoder decoder → in_decoder decoder ≤ total_size (decoder_seen decoder).table.fields }
    ensures encoder { (encoder : EncoderInside) → in_encoder encoder ≡ total_size (encoder_seen encoder).table.fields }
{}
