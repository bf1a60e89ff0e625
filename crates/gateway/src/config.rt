//! What a gateway is set up with.

ghost use Rattle.std.specs.Prelude.{◌≡◌, ◌≤◌, false, map, IfOk};
ghost use Rattle.theory_header_tables.specs.State.{inserts};
ghost use Rattle.header_blocks.specs.Encoding.{is_indexing};
ghost use Rattle.event_handlers.specs.Resting.{IsPassedBy};
ghost use Rattle.gateway.specs.Held.{held_bound};
ghost use Rattle.gateway.specs.Setups.{route_of, policy_of, setup_of};
ghost use Rattle.gateway.specs.declared.config.Policy.TheVariants.{Plain};
ghost use Rattle.gateway.specs.declared.config.Passing.TheVariants.{Whole};

use protocol::limits::FIRST_WINDOW;
use std::alloc::{AllocError, Global};
use std::string::String;

/// One route: where requests for an authority and a front of the paths go.
#[derive(Drop)]
pub struct Route {
    /// The authority of the requests, in letters of either case; empty for any.
    pub authority: Vec<u8>,
    /// What their paths begin with.
    pub prefix: Vec<u8>,
    /// The address of the upstream, which the gateway itself doesn't read.
    pub upstream: String,
}

/// How header blocks are written.
#[derive(Clone, Copy)]
pub enum Policy {
    /// Without the dynamic table.
    Plain,
    /// With the dynamic table and the Huffman code.
    Indexing,
}

/// How bodies are passed on.
#[derive(Clone, Copy)]
pub enum Passing {
    /// Each when it is whole.
    Whole,
    /// As their octets come.
    Streaming,
}

/// What a gateway is set up with.
#[derive(Drop)]
pub struct Config {
    /// The routes; a request takes the first that matches.
    pub routes: Vec<Route>,
    /// How header blocks are written.
    pub policy: Policy,
    /// How bodies are passed on.
    pub passing: Passing,
    /// The most octets of a request's body, at most 1,073,741,824.
    pub max_body: u64,
    /// The most octets of the body of a response that is passed on whole, at most 1,073,741,824.
    pub max_response: u64,
    /// Whether upstream connections are kept for further requests (RFC 9112, section 9.3).
    pub keep: bool,
    /// The most of them that are idle at once, beside those that serve a request. With none each
    /// is closed behind its response.
    pub idle: u8,
    /// The octets that receiving windows have at first, those of streams and that of the connection
    /// (RFC 9113, section 6.9.2): at most 1,048,576; fewer than 65,535 count as that.
    pub window: u32,
}

impl Config {
    /// What the configuration of these routes is where it says nothing else: blocks are written
    /// without the dynamic table, bodies are passed on whole, those of requests and of responses
    /// have at most 1,048,576 octets, and no upstream connection is kept. Where they are, eight may
    /// be idle. Receiving windows have 65,535 octets at first.
    pub fn new(routes: Vec<Route>) -> Config
        ensures { result ≡ record { routes = routes; policy = Plain; passing = Whole; max_body = 1048576; max_response = 1048576; keep = false; idle = 8; window = 65535 } }
    {
        Config {
            routes,
            policy: Policy::Plain,
            passing: Passing::Whole,
            max_body: 1_048_576,
            max_response: 1_048_576,
            keep: false,
            idle: 8,
            window: FIRST_WINDOW,
        }
    }

    /// The most octets that a gateway with this configuration holds between two steps, the configuration itself aside.
    pub fn held_bound(&self) -> u64
        requires body { self.now.max_body ≤ 1073741824 }
        requires response { self.now.max_response ≤ 1073741824 }
        ensures { result ≡ held_bound (setup_of self.now) }
    {
        200000 + 100 * (self.max_body + self.max_response + 400000)
    }

    /// The routes without their addresses, once more.
    pub(crate) fn copy_routes(
        &self,
        alloc: Global,
    ) -> Result<Vec<local_replies::RoutePattern>, AllocError>
        ensures { IfOk result (λ routes. routes.items ≡ map route_of self.now.routes.items) }
    {
        let mut routes = Vec::new(alloc);
        for route in &self.routes {
            let copied = local_replies::RoutePattern {
                authority: Vec::from_slice(alloc, &route.authority)?,
                prefix: Vec::from_slice(alloc, &route.prefix)?,
            };
            routes.push(copied)?;
        }
        Ok(routes)
    }

    /// How bodies are passed on, those of responses that are passed on whole with so many octets at most.
    pub(crate) fn passing_on(&self) -> upstream_response::ResponsePassing
        ensures { IsPassedBy (setup_of self.now) result }
    {
        match self.passing {
            Passing::Whole => upstream_response::ResponsePassing::Whole(self.max_response),
            Passing::Streaming => upstream_response::ResponsePassing::Streaming,
        }
    }

    /// By how many octets receiving windows are larger at first than 65,535.
    pub(crate) fn more_room(&self) -> u32
        ensures { result ≡ (setup_of self.now).more_room }
    {
        self.window.saturating_sub(FIRST_WINDOW)
    }

    /// How blocks are encoded.
    pub(crate) fn encoding(&self) -> header_blocks::Policy
        ensures { is_indexing result ≡ inserts (policy_of self.now.policy) }
    {
        match self.policy {
            Policy::Plain => header_blocks::Policy::Plain,
            Policy::Indexing => header_blocks::Policy::Indexing,
        }
    }
}
