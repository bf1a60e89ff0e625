//! What serving clients by a configuration can come to.

ghost use Rattle.std.specs.Prelude.{◌≡◌, ◌≤◌};
ghost use Rattle.gateway.specs.Setups.{setup_of, IsServable};
ghost use Rattle.h2gw_setup.specs.Figures.{most_connections, most_files, most_octets, most_upstreams};

use gateway::Config;

/// How many active streams a client may have.
const MOST_ACTIVE: u64 = 100;

/// How many files the program itself has open, at most.
const OWN_FILES: u64 = 10;

/// The most that is held and open at once, for so many clients.
#[derive(Clone, Copy, Debug, PartialEq, Eq, Drop)]
pub struct Figures {
    /// Octets of messages that gateways hold between their steps.
    pub octets: u64,
    /// Connections to servers.
    pub connections: u64,
    /// Open files, those of sockets among them.
    pub files: u64,
}

impl Figures {
    /// What serving so many clients at once by a configuration can come to.
    pub fn new(config: &Config, clients: u32) -> Figures
        requires servable { IsServable (setup_of config.now) }
        requires few { clients ≤ 1024 }
        ensures octets { result.octets ≡ most_octets config.now clients }
        ensures connections { result.connections ≡ most_connections config.now clients }
        ensures files { result.files ≡ most_files config.now clients }
    {
        let clients = u64::from(clients);
        let upstreams = upstreams_of_client(config);
        Figures {
            octets: clients * config.held_bound(),
            connections: clients * upstreams,
            files: OWN_FILES + clients * (1 + upstreams),
        }
    }
}

/// How many connections to servers a client has at once: one for each active stream, and, where
/// they are kept, those that are idle.
fn upstreams_of_client(config: &Config) -> u64
    ensures value { result ≡ most_upstreams config.now }
    ensures few { result ≤ 355 }
{
    if config.keep {
        MOST_ACTIVE + u64::from(config.idle)
    } else {
        MOST_ACTIVE
    }
}
