//! Laws: what lies in what is held of requests, and in connections, is what a clause sees of them;
//! what changes of them changes as the rule of requests has it.

ghost use Rattle.std.specs.Prelude.{◌≡◌, ℕ, ◌+◌, suc, Bool, List, map};
ghost use Rattle.model.specs.Setup.{Setup};
ghost use Rattle.model.specs.Logs.Act.{Open, ToUp, Close};
ghost use Rattle.h1_writer.specs.Sending.{Stage};
ghost use Rattle.theory_requests.specs.Lines.{Heard, without, lines_heard};
ghost use Rattle.theory_requests.specs.State.{drop_from, after};
ghost use Rattle.theory_requests.specs.State.Due.{Nothing, ToOpen, ToUse, ToSend};
ghost use Rattle.theory_requests.specs.State.Move.{Acts};
ghost use Rattle.theory_requests.specs.Told.{Told};
ghost use Rattle.upstream_response.specs.declared.answer.ResponsePassing.{ResponsePassing};
ghost use Rattle.upstream_connections.specs.Connections.{Connection, number_of, lives, heard_at};
ghost use Rattle.upstream_connections.specs.Kept.{State, with_due, opened_for, given_for};
ghost use Rattle.theory_requests.specs.Held.{held_by, held_of_all};
ghost use Rattle.upstream_response.specs.HeldInside.{octets_of};
ghost use Rattle.upstream_connections.specs.HeldInside.{in_connection, in_held, in_upstreams, answers_in};
ghost use Rattle.upstream_connections.specs.declared.connection.UpstreamConnection.TheInside.{Inside as ConnectionInside};
ghost use Rattle.upstream_connections.specs.declared.connection.UpstreamConnection.TheView.{view as connection_seen};
ghost use Rattle.upstream_connections.specs.declared.held.Held.TheInside.{Inside as HeldInside};
ghost use Rattle.upstream_connections.specs.declared.held.Held.TheView.{view as held_seen};
ghost use Rattle.upstream_connections.specs.declared.upstreams.Upstreams.TheInside.{Inside as UpstreamsInside};
ghost use Rattle.upstream_connections.specs.declared.upstreams.Upstreams.TheView.{view as upstreams_seen};

/// What lies in a connection, in what is held of a request, and in all of both between calls is
/// what a clause sees of them, and no octet more: each field is counted (`specs/HeldInside`). So
/// whoever bounds what is seen bounds what is held.
pub fn what_is_held_is_seen()
    ensures connection { (connection : ConnectionInside) → in_connection connection ≡ octets_of (connection_seen connection).answer }
    ensures held { (held : HeldInside) → in_held held ≡ held_by (held_seen held).way }
    ensures upstreams { (upstreams : UpstreamsInside) → in_upstreams upstreams ≡ held_of_all (upstreams_seen upstreams).held
        + answers_in (upstreams_seen upstreams).live }
{}

/// What calls do to what is kept is what the rule of requests does to its state: with what was
/// heard of a response, with a connection that is opened or an idle one that is given to a stream
/// where that is due, and with one that is closed.
pub fn changes_are_the_rules()
    ensures heard { (most k : ℕ) (heard : Heard) (cs : List Connection) → lives (heard_at most k heard cs) ≡ lines_heard most k heard (lives cs) }
    ensures opened { (setup : Setup) (told : Told) (s : State) (stream route : ℕ) (text : List ℕ) (stage : Stage) (to_head : Bool)
        (passing : ResponsePassing) → with_due (opened_for stream route to_head passing stage s) (ToSend (suc s.count) text)
        ≡ after setup told (with_due s (ToOpen stream route text stage)) (Acts (Open (suc s.count) route)) }
    ensures given { (setup : Setup) (told : Told) (s : State) (k stream : ℕ) (text : List ℕ) (stage : Stage) (to_head : Bool) (passing : ResponsePassing)
        → with_due (given_for k stream to_head passing stage s) Nothing ≡ after setup told (with_due s (ToUse k stream text stage)) (Acts (ToUp k text)) }
    ensures closed { (setup : Setup) (told : Told) (s : State) (k : ℕ)
        → with_due (record s { held = map (drop_from k) s.held; live = without number_of k s.live }) Nothing
        ≡ after setup told (with_due s Nothing) (Acts (Close k)) }
{}
