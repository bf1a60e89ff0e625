//! Requests by HTTP/1.1 are read in one way.

ghost use Rattle.std.specs.Prelude.{◌≡◌, ℕ, List, ◌++◌};
ghost use Rattle.model.specs.Messages.{Request};
ghost use Rattle.model.specs.Http1.{Head, H1Head, H1Request, H1Requests};

/// No request's text begins another's, and a text has one request (RFC 9112, section 2.1).
pub fn one_request()
    ensures { (a b x y : List ℕ) (r s : Request) → H1Request a r → H1Request b s → a ++ x ≡ b ++ y → (a ≡ b) × (r ≡ s) }
{}

/// What was sent on a connection is one list of requests and one rest that begins with none.
pub fn one_list()
    ensures { (text : List ℕ) (rs ss : List Request) (rest other : List ℕ) → H1Requests text rs rest → H1Requests text ss other → (rs ≡ ss) × (rest ≡ other) }
{}

/// No request's head begins another's, and a text has one head (RFC 9112, section 3).
pub fn one_head()
    ensures { (a b x y : List ℕ) (h k : Head) → H1Head a h → H1Head b k → a ++ x ≡ b ++ y → (a ≡ b) × (h ≡ k) }
{}
