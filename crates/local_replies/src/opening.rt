//! What the head of a request comes to.

ghost use Rattle.std.specs.Prelude.{◌≡◌, ◌≤◌, length, codes, IfOk, option_map};
ghost use Rattle.model.specs.Setup.{Setup};
ghost use Rattle.model.specs.Tables.{total_size};
ghost use Rattle.model.specs.Causes.{has_field, declares_past, first_cause};
ghost use Rattle.model.specs.Limits.{largest_fields};
ghost use Rattle.request_rules.specs.Heads.{parts_of};
ghost use Rattle.local_replies.specs.Views.{cause_of};
ghost use Rattle.local_replies.specs.Openings.{ComesTo, causes_without_routes};

use crate::cause::Cause;
use crate::route::{RoutePattern, find_route};
use hpack_table::Field;
use request_rules::{RequestHead, Rule, check_head};
use std::alloc::{AllocError, Global};

/// What the head of a request comes to.
#[derive(Drop)]
pub enum Opening {
    /// It is malformed, an error of its stream (RFC 9113, section 8.1.1).
    Malformed,
    /// The gateway answers it itself: why, and the length in octets that it declares of its body,
    /// if it does (RFC 9113, section 8.1.1).
    Answered { cause: Cause, declared: Option<u64> },
    /// It goes to an upstream: what it says, and the place of the first route that it matches, from 0.
    Forwarded { head: RequestHead, route: u32 },
}

/// What the head of a request comes to (RFC 9113, section 8); `ended` where it ends its stream. The
/// sizes of its fields (RFC 7541, section 4.1) sum to at most 16,384: a head that is larger is
/// answered unread, as too large. A body of more octets than `max_body` is too long. An `Err` says
/// that memory was refused.
pub fn judge_head(
    alloc: Global,
    routes: &[RoutePattern],
    max_body: u64,
    fields: &[Field],
    ended: bool,
) -> Result<Opening, AllocError>
    requires few { length routes.now ≤ u32.MAX }
    requires fits { total_size fields.now ≤ largest_fields }
    ensures { IfOk result (λ opening. (setup : Setup) → setup.routes ≡ routes.now → setup.max_body ≡ max_body → ComesTo setup fields.now ended opening) }
{
    let head = match check_head(alloc, fields, ended) {
        Ok(head) => head,
        Err(Rule::Memory) => return Err(AllocError),
        Err(_) => return Ok(Opening::Malformed),
    };
    let declared = head.length();
    if let Some(cause) = cause_without_routes(&head, max_body, fields) {
        return Ok(Opening::Answered { cause, declared });
    }
    let Some(route) = find_route(routes, head.authority(), head.path()) else {
        return Ok(Opening::Answered {
            cause: Cause::NoRoute,
            declared,
        });
    };
    Ok(Opening::Forwarded { head, route })
}

/// Why the gateway answers a request with this head, whatever its routes are, if it does.
fn cause_without_routes(head: &RequestHead, max_body: u64, fields: &[Field]) -> Option<Cause>
    requires { head.now ≡ parts_of fields.now }
    ensures { option_map cause_of result ≡ first_cause (causes_without_routes max_body fields.now) }
{
    if head.method() == b"CONNECT".as_slice() {
        return Some(Cause::Tunnel);
    }
    if expects(fields) {
        return Some(Cause::Expects);
    }
    if is_past(max_body, head.length()) {
        return Some(Cause::LargeBody);
    }
    None
}

/// Whether the client expects something of who answers it (RFC 9110, section 10.1.1).
fn expects(fields: &[Field]) -> bool
    ensures { result ≡ has_field (codes "expect") fields.now }
{
    fields
        .iter()
        .any(|field| field.name() == b"expect".as_slice())
}

/// Whether more than so many octets are declared.
fn is_past(most: u64, declared: Option<u64>) -> bool
    ensures { result ≡ declares_past most declared }
{
    declared.is_some_and(|octets| octets > most)
}
