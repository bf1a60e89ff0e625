//! The sockets of a world.

ghost use Rattle.std.specs.Prelude.{◌≡◌};

use mio::net::TcpStream;
use mio::{Interest, Registry, Token};
use socket_io::Socket;
use std::io;
use std::net::{Net, Shutdown, SocketAddr};

/// A socket that can be connected, reported and shut. What passes through it stays as it is then.
pub trait Wire: Socket + Drop {
    /// Begins to connect to an address, and returns at once.
    fn connect<N: Net>(net: &N, address: SocketAddr) -> io::Result<Self>;

    /// Has it reported under a token from now on. What is written to it goes out at once.
    fn begin(&mut self, registry: &Registry, token: Token, interests: Interest) -> io::Result<()>
        ensures left { Self.left self.new ≡ Self.left self.old }
        ensures held { Self.held self.new ≡ Self.held self.old };

    /// Has it reported for other interests.
    fn change(&mut self, registry: &Registry, token: Token, interests: Interest) -> io::Result<()>
        ensures left { Self.left self.new ≡ Self.left self.old }
        ensures held { Self.held self.new ≡ Self.held self.old };

    /// Tells its peer that nothing more is written.
    fn shut(&mut self) -> io::Result<()>
        ensures left { Self.left self.new ≡ Self.left self.old }
        ensures held { Self.held self.new ≡ Self.held self.old };

    /// Ends what its peer sends: what came before is still read, and then its end, which is
    /// reported.
    fn end(&mut self) -> io::Result<()>
        ensures left { Self.left self.new ≡ Self.left self.old }
        ensures held { Self.held self.new ≡ Self.held self.old };
}

impl Wire for TcpStream {
    fn connect<N: Net>(net: &N, address: SocketAddr) -> io::Result<TcpStream> {
        TcpStream::connect(net, address)
    }

    fn begin(&mut self, registry: &Registry, token: Token, interests: Interest) -> io::Result<()> {
        self.set_nodelay(true)?;
        registry.register(self, token, interests)
    }

    fn change(&mut self, registry: &Registry, token: Token, interests: Interest) -> io::Result<()> {
        registry.reregister(self, token, interests)
    }

    fn shut(&mut self) -> io::Result<()> {
        self.shutdown(Shutdown::Write)
    }

    fn end(&mut self) -> io::Result<()> {
        self.shutdown(Shutdown::Read)
    }
}
