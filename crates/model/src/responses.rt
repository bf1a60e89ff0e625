//! Responses by HTTP/1.1 are read in one way.

ghost use Rattle.std.specs.Prelude.{◌≡◌, ℕ, Bool, List, Option};
ghost use Rattle.model.specs.ResponseHeads.{Head};
ghost use Rattle.model.specs.Responses.{Response, H1Response, Seen};

/// A text has at most one whole response (RFC 9112, sections 2.1 and 6.3).
pub fn one_response()
    ensures { (text : List ℕ) (ended to_head : Bool) (r s : Response) → H1Response text ended to_head r → H1Response text ended to_head s → r ≡ s }
{}

/// What stands in a text that begins a response is determined (RFC 9112, sections 2.1, 6.3 and
/// 7.1): its interim heads, its final head, and the octets of its body.
pub fn one_seen()
    ensures interims { (text : List ℕ) (to_head : Bool) (hs ks : List Head) (h k : Option Head) (b c : List ℕ) → Seen text to_head hs h b
        → Seen text to_head ks k c → hs ≡ ks }
    ensures head { (text : List ℕ) (to_head : Bool) (hs ks : List Head) (h k : Option Head) (b c : List ℕ) → Seen text to_head hs h b
        → Seen text to_head ks k c → h ≡ k }
    ensures octets { (text : List ℕ) (to_head : Bool) (hs ks : List Head) (h k : Option Head) (b c : List ℕ) → Seen text to_head hs h b
        → Seen text to_head ks k c → b ≡ c }
{}
