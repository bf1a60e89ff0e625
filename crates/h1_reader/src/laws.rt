//! What it means to stand for octets and pieces.

ghost use Rattle.std.specs.Prelude.{◌≡◌, ◌≤◌, ◌++◌, ◌&&◌, ◌==◌, ℕ, Bool, true, false, List, [], length, is_some};
ghost use Rattle.model.specs.ResponseHeads.{Head, Framing, Interim, Final};
ghost use Rattle.model.specs.Responses.{IsComplete, IsSpoilt, Seen};
ghost use Rattle.model.specs.Noticing.{IsPlainlyBad};
ghost use Rattle.h1_reader.specs.Parts.{Part};
ghost use Rattle.response_texts.specs.HeadSizes.{field_octets};
ghost use Rattle.h1_reader.specs.PartSizes.{HeadsAreShort};
ghost use Rattle.h1_reader.specs.Standing.{State, Stands, Hears, IsInBody, Tells, TellsWhole, is_done};
ghost use Rattle.model.specs.Idle.{LeavesOpen};
ghost use Rattle.h1_reader.specs.Uses.{NoneShorter, Uses};
ghost use Rattle.h1_reader.specs.Keeps.{Knows, Learns};
ghost use Rattle.h1_reader.specs.Told.{interims_of, head_of, body_of, IsWholeOf};
ghost use Rattle.h1_reader.specs.Faults.{FaultStands};
ghost use Rattle.response_texts.specs.declared.fault.ResponseFault.{ResponseFault};

/// What was told are the interim heads, the final head and the
/// octets of its body that stand in the octets so far; and the last piece is told just where a whole response stands
/// there, however the connection goes on (RFC 9112, section 6.3).
pub fn what_stands()
    ensures told { (text : List ℕ) (parts : List Part) (state : State) → Stands text parts state → Tells text state.to_head parts }
    ensures done { (text : List ℕ) (parts : List Part) (state : State) → Stands text parts state → is_done parts ≡ true → IsComplete text false state.to_head }
    ensures not_done { (text : List ℕ) (parts : List Part) (state : State) → Stands text parts state → is_done parts ≡ false
        → IsComplete text false state.to_head → ⊥ }
{}

/// Once the last piece is told, the pieces are those of the whole response that stands in the octets so far.
pub fn what_is_whole()
    ensures { (text : List ℕ) (parts : List Part) (state : State) → Stands text parts state → is_done parts ≡ true → TellsWhole text state.to_head parts }
{}

/// What was told, put together, is what is seen in the octets so far. Once the last piece is told,
/// or where the end of the connection makes a whole response of the octets, it is that response. No
/// interim head is told behind the final one.
pub fn what_is_told()
    ensures seen { (text : List ℕ) (parts : List Part) (state : State) → Stands text parts state
        → Seen text state.to_head (interims_of parts) (head_of parts) (body_of parts) }
    ensures whole { (text : List ℕ) (parts : List Part) (state : State) → Stands text parts state → is_done parts ≡ true
        → IsWholeOf text false state.to_head parts }
    ensures ended { (text : List ℕ) (parts : List Part) (state : State) → Stands text parts state → IsComplete text true state.to_head
        → IsWholeOf text true state.to_head parts }
    ensures in_order { (text longer : List ℕ) (parts added : List Part) (old new : State) → Stands text parts old → Stands longer (parts ++ added) new
        → is_some (head_of parts) ≡ true → interims_of added ≡ [] }
{}

/// A text has one fault at most, and nothing that follows makes a whole response of a text that has
/// one. So a reader that answers a fault answers the only one that its contract allows.
pub fn one_fault()
    ensures one { (first second : ResponseFault) (text : List ℕ) (to_head : Bool) → FaultStands first text to_head → FaultStands second text to_head
        → first ≡ second }
    ensures spoils { (fault : ResponseFault) (text : List ℕ) (to_head : Bool) → FaultStands fault text to_head → IsSpoilt text to_head }
{}

/// The names and values of a head, as it is passed back, have at most as many octets as its text. So each head that was
/// told has at most 16,384 (this project's profile), where the 32 that HPACK counts for each field aren't counted.
pub fn head_sizes()
    ensures interim { (text : List ℕ) (head : Head) → Interim text head → field_octets head.fields ≤ length text }
    ensures last { (to_head : Bool) (text : List ℕ) (head : Head) (framing : Framing) → Final to_head text head framing
        → field_octets head.fields ≤ length text }
    ensures told { (text : List ℕ) (parts : List Part) (state : State) → Stands text parts state → HeadsAreShort parts }
{}

/// No fault that has to be noticed stands in the octets so far: each was answered when its first
/// octet came, in a chunk's line or end at the octet with which none goes on, in a head or in
/// trailers at the first octet with which the grammar can't go on, at its end, or at the 16,385th
/// octet (RFC 9112, sections 4 to 7; this project's profile). In a body, but not in its trailers,
/// some continuation is a whole response: no fault there is noticed late.
pub fn faults_are_noticed()
    ensures noticed { (text : List ℕ) (parts : List Part) (state : State) → Stands text parts state → IsPlainlyBad text state.to_head → ⊥ }
    ensures early { (text : List ℕ) (parts : List Part) (state : State) → Stands text parts state → IsInBody state.place → IsSpoilt text state.to_head → ⊥ }
{}

/// A reader that knows of the final head whether it lets its connection stay open tells so of a
/// whole response: where no octet stands behind it (`feed` uses none), the connection may be kept
/// just where `keeps` is told (RFC 9112, sections 9.3 and 9.6).
pub fn what_is_kept()
    ensures may { (text : List ℕ) (parts : List Part) (state : State) → Stands text parts state → Knows text state → is_done parts ≡ true
        → NoneShorter text state.to_head → state.held.keeps ≡ true → LeavesOpen text state.to_head }
    ensures must { (text : List ℕ) (state : State) → Knows text state → LeavesOpen text state.to_head → state.held.keeps ≡ true }
{}

/// So what `feed` answers tells whether the connection may be kept behind a response that becomes
/// whole with the octets: where all of them were used, and `keeps` is told, it may; and else it may
/// not, whatever stands in the text (RFC 9112, sections 9.3 and 9.6).
pub fn what_may_be_kept()
    ensures kept { (text octets : List ℕ) (parts added : List Part) (used : ℕ) (old new : State) → Stands text parts old → Knows text old
        → is_done parts ≡ false → Hears old octets added new → Learns old octets new → Uses old octets used → is_done added ≡ true
        → (used == length octets && new.held.keeps) ≡ true → LeavesOpen (text ++ octets) old.to_head }
    ensures not_kept { (text octets : List ℕ) (parts added : List Part) (used : ℕ) (old new : State) → Stands text parts old → Knows text old
        → Hears old octets added new → Learns old octets new → Uses old octets used → (used == length octets && new.held.keeps) ≡ false
        → LeavesOpen (text ++ octets) old.to_head → ⊥ }
{}
