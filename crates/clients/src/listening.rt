//! The connections of clients.

ghost use Rattle.std.specs.Prelude.{◌≡◌, ◌+◌, ◌≤◌, ◌↔◌, IfErr, IsTrue, false};
ghost use Rattle.gateway.specs.Setups.{setup_of, IsServable};
ghost use Rattle.h2gw_setup.specs.Stops.{status_of};
ghost use Rattle.sockets.specs.Moves.{seen_in};
ghost use Rattle.theory_sockets.specs.Passed.{IsNew, IsServedBy};

use crate::crowd::serve_crowd;
use crate::waits::has_limits;
use driver::{ServeFault, ServiceEnd, serve};
use gateway::Config;
use h2gw_setup::setting::Setting;
use h2gw_setup::stops::Stop;
use mio::net::TcpStream as Socket;
use sockets::{SocketWorld, Wire};
use std::alloc::Global;
use std::io::ErrorKind;
use std::net::{Net, TcpListener, TcpStream};
use std::time::Clock;

/// Says where clients connect to, and serves their connections, so many at once as the setting
/// says.
pub fn serve_clients(rt: &HostRuntime, setting: &Setting) -> Result<(), Stop>
    requires { IsServable (setup_of setting.now.config) }
    ensures { IfErr result (λ stop. 2 ≤ status_of stop) }
{
    let listener = TcpListener::bind(rt, setting.listen).map_err(|error| Stop::Bind(error))?;
    let address = listener.local_addr().map_err(|error| Stop::Bind(error))?;
    println!(rt; "listening {address}").map_err(|_| Stop::Print)?;
    if is_plain(setting) {
        serve_at(rt, setting, &listener)
    } else {
        serve_crowd(rt, setting, listener)
    }
}

/// Whether one client is served after another, however long anything takes, and none is told of.
/// This is the default, and has a way of its own (`serve_at`), which is the program's as it was
/// first described: one client waits for another, an error of accept ends the program, and there is
/// no reactor.
fn is_plain(setting: &Setting) -> bool
    ensures { IsTrue result ↔ (setting.now.clients ≡ 1) × (setting.now.idle + setting.now.keep_idle + setting.now.connect + setting.now.answer ≡ 0)
        × (setting.now.is_logged ≡ false) }
{
    setting.clients == 1 && !has_limits(setting) && !setting.is_logged
}

/// Serves the connections of clients at a listener, one after another.
pub fn serve_at(rt: &HostRuntime, setting: &Setting, listener: &TcpListener) -> Result<(), Stop>
    requires { IsServable (setup_of setting.now.config) }
    ensures { IfErr result (λ stop. 2 ≤ status_of stop) }
{
    for _connection in 0..setting.connections {
        match listener.accept() {
            Ok((client, _address)) => serve_client(rt, setting, client)?,
            // The client went before its connection was accepted.
            Err(error) if error.kind() == ErrorKind::ConnectionAborted => {}
            Err(_) => return Err(Stop::Accept),
        }
    }
    Ok(())
}

/// Serves the connection of a client. That one fails ends it alone, unless no memory was left.
fn serve_client(rt: &HostRuntime, setting: &Setting, client: TcpStream) -> Result<(), Stop>
    requires { IsServable (setup_of setting.now.config) }
    ensures { IfErr result (λ stop. 2 ≤ status_of stop) }
{
    if client.set_nonblocking(true).is_err() {
        return Ok(());
    }
    let client = Socket::from_std(client);
    let mut world = match SocketWorld::new(rt.alloc(), rt, &setting.addresses, client) {
        Ok(world) => world,
        Err(error) if error.kind() == ErrorKind::OutOfMemory => return Err(Stop::Memory),
        Err(_) => return Ok(()),
    };
    let turns = u64::from(setting.turns);
    let ended = serve_world(rt.alloc(), &setting.config, &mut world, turns);
    // Where that fails the client has gone.
    let _ = world.finish();
    match ended {
        Err(ServeFault::Memory) => Err(Stop::Memory),
        Ok(_) | Err(ServeFault::World | ServeFault::NotAdmitted(_)) => Ok(()),
    }
}

/// Serves a new world of sockets for so many turns at most. There is a log of which what is
/// promised holds, and what passed through the sockets is what it tells, whichever kind they are.
fn serve_world<N: Net + Clock, S: Wire>(
    alloc: Global,
    config: &Config,
    world: &mut SocketWorld<'_, N, S>,
    turns: u64,
) -> Result<ServiceEnd, ServeFault>
    requires servable { IsServable (setup_of config.now) }
    requires counts { (world.old.calls ≡ 0) × (world.old.failures ≡ 0) }
    requires new { IsNew (seen_in world.old.sockets) }
    ensures { IsServedBy S.left S.held (setup_of config.now) result (seen_in world.old.sockets) (seen_in world.new.sockets) }
{
    serve(alloc, config, world, turns)
}
