//! Laws of frames (RFC 9113, sections 3.4 and 4.1).

ghost use Rattle.std.specs.Prelude.{◌≡◌, ◌<◌, List, ℕ, ◌++◌, length, slice_index};
ghost use Rattle.model.specs.Frames.{Frame, Spells, Reading, BeginsNoFrame, IsTooLong, IsConnection};

/// A text has one reading: no spelled frame begins another, so the frames of a text and what is left behind them are
/// determined, and so are those of a whole connection.
pub fn one_reading()
    ensures frame { (a b x y : List ℕ) (f g : Frame) → Spells a f → Spells b g → a ++ x ≡ b ++ y → (a ≡ b) × (f ≡ g) }
    ensures text { (text : List ℕ) (fs gs : List Frame) (x y : List ℕ) → Reading text fs x → BeginsNoFrame x → Reading text gs y → BeginsNoFrame y
        → (fs ≡ gs) × (x ≡ y) }
    ensures connection { (text : List ℕ) (fs gs : List Frame) (x y : List ℕ) → IsConnection text fs x → IsConnection text gs y → (fs ≡ gs) × (x ≡ y) }
{}

/// What isn't a frame: a text whose header is too long begins with none, and a text that begins
/// with neither a frame nor such a header is shorter than the longest frame, of 16,393 octets.
pub fn unread_rest()
    ensures too_long { (text : List ℕ) → IsTooLong text → BeginsNoFrame text }
    ensures short { (text : List ℕ) → ((i : ℕ) → slice_index text i < 256) → BeginsNoFrame text → (IsTooLong text → ⊥) → length text < 16393 }
{}
