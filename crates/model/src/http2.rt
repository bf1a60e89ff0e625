//! A stream of HTTP/2 means one request.

ghost use Rattle.std.specs.Prelude.{◌≡◌, List};
ghost use Rattle.model.specs.Messages.{Item, Request};
ghost use Rattle.model.specs.Http2.{H2Request};

/// The items of a stream mean at most one request (RFC 9113, section 8.1).
pub fn one_meaning()
    ensures { (items : List Item) (r s : Request) → H2Request items r → H2Request items s → r ≡ s }
{}
