//! The routes of requests.

ghost use Rattle.std.specs.Prelude.{◌≡◌, ◌≤◌, ◌↔◌, ◌&&◌, ◌||◌, IsTrue, MatchOption, false, codes, bytes_eq, length, position};
ghost use Rattle.std.specs.List.{list_any};
ghost use Rattle.model.specs.Octets.{is_empty, lower};
ghost use Rattle.model.specs.Setup.{Matches, IsFirstMatch};
ghost use Rattle.model.specs.Causes.{is_front_of, is_match};

use std::marker::Model;

/// A route: which requests go to an upstream. A clause sees the texts of both.
#[derive(Debug, Drop)]
pub struct RoutePattern {
    /// The authority of the requests, in letters of either case (RFC 9110, section 4.2.3); empty for any.
    pub authority: Vec<u8>,
    /// What their paths begin with.
    pub prefix: Vec<u8>,
}

impl Model for RoutePattern {
    ghost use Rattle.model.specs.Setup.{Route as Meaning};

    ghost Value = { Meaning };

    ghost view = { λ route. record { authority = route.authority.items; path = route.prefix.items } };
}

impl RoutePattern {
    /// Whether requests with this authority and this path go by the route. The path `*` of a
    /// request on the whole server goes by one for all paths, `/` (RFC 9110, section 9.3.7).
    pub fn matches(&self, authority: &[u8], path: &[u8]) -> bool
        ensures is { IsTrue result ↔ Matches self.now authority.now path.now }

        // The same by the test of a route.
        ensures test { result ≡ is_match authority.now path.now self.now }
    {
        is_for_authority(&self.authority, authority) && is_for_path(&self.prefix, path)
    }
}

/// Whether a route for one authority is for another, which is the same but for the case of its
/// letters; the empty one is for any.
fn is_for_authority(own: &[u8], authority: &[u8]) -> bool
    ensures { result ≡ (is_empty own.now || bytes_eq (lower own.now) (lower authority.now)) }
{
    own.is_empty() || own.eq_ignore_ascii_case(authority)
}

/// Whether a route for the paths with a front is for a path.
fn is_for_path(prefix: &[u8], path: &[u8]) -> bool
    ensures { result ≡ (is_front_of prefix.now path.now || bytes_eq path.now (codes "*") && bytes_eq prefix.now (codes "/")) }
{
    begins_with(path, prefix) || path == b"*".as_slice() && prefix == b"/".as_slice()
}

/// Whether a text begins with a front.
fn begins_with(text: &[u8], front: &[u8]) -> bool
    ensures { result ≡ is_front_of front.now text.now }
{
    text.starts_with(front)
}

/// The place of the first route that matches, from 0, if one does.
pub(crate) fn find_route(routes: &[RoutePattern], authority: &[u8], path: &[u8]) -> Option<u32>
    requires { length routes.now ≤ u32.MAX }
    ensures { MatchOption result (list_any (is_match authority.now path.now) routes.now ≡ false) (IsFirstMatch routes.now authority.now path.now) }
{
    let Some(place) = first_match(routes, authority, path) else {
        return None;
    };
    Some(place as u32)
}

/// The first place at which a route matches.
fn first_match(routes: &[RoutePattern], authority: &[u8], path: &[u8]) -> Option<usize>
    ensures { result ≡ position (is_match authority.now path.now) routes.now }
{
    routes
        .iter()
        .position(|route| route.matches(authority, path))
}
