//! By what the sockets of a world are reported.

ghost use Rattle.std.specs.Prelude.{◌≡◌, ◌↔◌, ◌^◌, ◌/◌, ◌%◌, IsTrue};
ghost use Rattle.sockets.specs.Tokens.{number_of_client, token_number};

use crate::reactor::Reactor;
use mio::{Registry, Token};

/// By what the sockets of a world are reported.
#[derive(Drop)]
pub enum Reporting<'a> {
    /// A reactor of its own, for which the world waits.
    Own(Reactor),
    /// A reactor of many worlds, which tells this one what is reported.
    Shared(Shared<'a>),
}

/// The sources of a reactor, and the number of a client among those that it has.
#[derive(Drop)]
pub struct Shared<'a> {
    pub registry: &'a Registry,
    pub client: u32,
}

impl<'a> Reporting<'a> {
    /// The sources that are reported.
    pub fn registry(&self) -> &Registry {
        match self {
            Reporting::Own(own) => own.registry(),
            Reporting::Shared(shared) => shared.registry,
        }
    }

    /// Whether it is a reactor of many worlds.
    pub fn is_shared(&self) -> bool {
        matches!(self, Reporting::Shared(_))
    }

    /// The number of the client among those of its reactor.
    fn client(&self) -> u32
        ensures { result ≡ number_of_client self.now }
    {
        match self {
            Reporting::Own(_) => 0,
            Reporting::Shared(shared) => shared.client,
        }
    }

    /// The token under which the socket with this number is reported.
    pub fn token_of(&self, number: u32) -> Token
        ensures { result.0 ≡ token_number (number_of_client self.now) number }
    {
        token_in(self.client(), number)
    }

    /// Whether a token is of one of its client's sockets.
    pub fn has(&self, token: Token) -> bool
        ensures { IsTrue result ↔ (token.0 / 2 ^ 32 ≡ number_of_client self.now) }
    {
        client_in(token) == self.client()
    }
}

/// The token under which a socket of a client is reported: no other socket of any client has it.
pub fn token_in(client: u32, number: u32) -> Token
    ensures { result.0 ≡ token_number client number }
{
    Token(client as usize * 4_294_967_296 + number as usize)
}

/// The number of the client of whose socket a token is.
pub fn client_in(token: Token) -> u32
    ensures { result ≡ token.0 / 2 ^ 32 }
{
    (token.0 / 4_294_967_296) as u32
}

/// The number of a socket among those of its client.
pub fn number_in(token: Token) -> u32
    ensures { result ≡ token.0 % 2 ^ 32 }
{
    (token.0 % 4_294_967_296) as u32
}
