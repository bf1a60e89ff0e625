//! What the session keeps of octets is bounded wherever the gateway rests: in what the code
//! keeps, seen as a `View`, and so with the answers of upstreams that are still being read, of
//! which the rule keeps nothing.
#![tactic(auto)]

pub mod inside;

ghost use Rattle.std.specs.Prelude.{◌≡◌, ◌<◌, ◌^◌, List};
ghost use Rattle.model.specs.Setup.{Setup};
ghost use Rattle.model.specs.Setup.Passing.{Streaming};
ghost use Rattle.theory_errors.specs.Rule.{known_of};
ghost use Rattle.theory_responses.specs.Held.{FitRooms};
ghost use Rattle.theory.specs.Moves.{Move};
ghost use Rattle.theory.specs.State.{State, conducts, tape_of};
ghost use Rattle.theory.specs.Rule.{RestsBehind};
ghost use Rattle.refinement.specs.View.{View, balanced, Leads};
ghost use Rattle.theory_memory_bound.specs.Held.{IsSmall};

/// Where moves led to what the session keeps, nothing is pending and the gateway rests, little is kept
/// (`IsSmall`):
/// - at most 100 streams have an outbox, at most 100 requests aren't whole, and at most
///   `100 + most_idle` connections are open, of which at most `most_idle` are idle;
/// - for each stream at most `max_body + max_response + 400000` octets are kept: what is on offer
///   for it, what is held of its request, and the answers that are being read for it, each with
///   what its reader holds unread and the head and the body that wait for its end;
/// - beside that at most 150,000: the client's header block that isn't complete, and both header
///   tables;
/// - so in all at most 150,000 and 100 times as much as for a stream;
/// - of each stream's DATA at most `own_window` octets wait for its upstream's side, since the client may
///   send no more before some go back, and where it does the connection is to end (RFC 9113,
///   section 6.9.1).
///
/// Where bodies are passed on whole no stream holds two bodies of a response: a connection that is
/// open at rest isn't done with, so its response isn't whole, and the outbox of its stream has
/// interim heads alone; or it is idle, and nothing is kept of its answer, which was handed on.
///
/// The premises, and where each comes from:
/// - `Leads`: by each part of a step (`refinement`); `RestsBehind`: by the step;
/// - that `max_body` fits 64 bits: by the configuration;
/// - where bodies are passed on as they come, that what upstreams send fits their rooms
///   (`FitRooms`): it is asked of each event before it is taken.
pub fn little_is_kept()
    ensures { (setup : Setup) (run : List Move) (kept : View) (s : State) → Leads setup run kept balanced s → RestsBehind setup run
        → setup.max_body < 2 ^ 64 → (setup.passing ≡ Streaming → FitRooms (known_of setup (conducts run)) (tape_of run)) → IsSmall setup kept }
{}
