//! By what requests are judged.

use local_replies::RoutePattern;

/// By what requests are judged: where they may go, and how many octets their bodies may have.
#[derive(Clone, Copy)]
pub struct Terms<'a> {
    /// The routes; a request takes the first that matches.
    pub routes: &'a [RoutePattern],
    /// The most octets of a request's body.
    pub max_body: u64,
}
