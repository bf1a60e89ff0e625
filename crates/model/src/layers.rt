//! Laws of what looks at one payload, one stream, one window or the turns (RFC 9113, sections 5 and 6).

ghost use Rattle.std.specs.Prelude.{◌≡◌, ◌≢◌, map, ◌<◌, ◌≤◌, ℕ, ◌+◌, ◌∷◌, ◌++◌, pos, ◌+ℤ◌, ◌-ℤ◌, List, Option, None};
ghost use Rattle.model.specs.Frames.{Frame, setting};
ghost use Rattle.model.specs.Payloads.{payload_fault, IsPadded};
ghost use Rattle.model.specs.SettingValues.{Setting, settings_in, initial_window_after};
ghost use Rattle.model.specs.StreamStates.{OpenedStream, Change, after, state_of, changed};
ghost use Rattle.std.specs.Option.{option_map};
ghost use Rattle.model.specs.Turns.{IsNextTurn, Turn, AreTurns, IsPassedOver, turns_of};
ghost use Rattle.model.specs.Windows.{sending_window, size_difference};

/// A sending window may be kept as one number: what is sent is taken from it, what is granted is added, and a new first
/// size shifts it by the difference (RFC 9113, sections 6.9.1 and 6.9.2).
pub fn running_window()
    ensures taken { (first granted sent n : ℕ) → sending_window first granted (sent + n) ≡ sending_window first granted sent -ℤ pos n }
    ensures granted { (first granted sent n : ℕ) → sending_window first (granted + n) sent ≡ sending_window first granted sent +ℤ pos n }
    ensures shifted { (old new granted sent : ℕ) → sending_window new granted sent ≡ sending_window old granted sent +ℤ size_difference old new }
{}

/// A payload without a fault has just the padding that its pad length says, behind its content (RFC 9113, sections 6.1
/// and 6.2).
pub fn padded_payload()
    ensures { (frame : Frame) → payload_fault frame ≡ None → IsPadded frame }
{}

/// Behind a turn one id alone may be next.
pub fn one_next_turn()
    ensures { (last : ℕ) (ready : List ℕ) (a b : Option ℕ) → IsNextTurn last ready a → IsNextTurn last ready b → a ≡ b }
{}

/// While a stream that is ready waits for its turn, no other has two.
pub fn no_second_turn()
    ensures { (last waiting other : ℕ) (turns : List Turn) → AreTurns last turns → IsPassedOver waiting turns → turns_of other turns ≤ 1 }
{}

/// Settings are read as they are spelled, and those of two frames leave the window that they leave
/// as one (RFC 9113, sections 6.5.1 and 6.5.3).
pub fn settings_in_order()
    ensures read_back { (s : Setting) (more : List ℕ) → s.identifier < 65536 → s.value < 4294967296
        → settings_in (setting s.identifier s.value ++ more) ≡ s ∷ settings_in more }
    ensures applied { (before : ℕ) (earlier later : List Setting)
        → initial_window_after before (earlier ++ later) ≡ initial_window_after (initial_window_after before earlier) later }
{}

/// A change of one stream leaves the ids as they were, and the states of all others (RFC 9113, section 5.1).
pub fn one_stream_changes()
    ensures this { (change : Change) (id : ℕ) (streams : List OpenedStream)
        → state_of id (changed change id streams) ≡ option_map (after change) (state_of id streams) }
    ensures others { (change : Change) (id other : ℕ) (streams : List OpenedStream) → other ≢ id
        → state_of other (changed change id streams) ≡ state_of other streams }
    ensures ids { (change : Change) (id : ℕ) (streams : List OpenedStream)
        → map (λ stream. stream.id) (changed change id streams) ≡ map (λ stream. stream.id) streams }
{}
