ghost use Rattle.std.specs.Prelude.{◌≡◌};

use crate::link::LinkOver;
use outside::Failed;
use outside_serving::{Count, Port};
use std::io;
use std::io::ErrorKind;
use std::marker::Model;
use std::net::{Net, OpenListener, SocketAddr, TcpListener};
use std::sync::Wait;
use std::time::Clock;

/// A port of a network, which also has the clock of its links.
#[derive(Drop)]
pub struct PortOver<N: Net + Drop> {
    net: N,
    listener: Option<N::Listener>,
    faults: Count,
    given: Count,
}

/// A port of the machine. One that couldn't be bound fails at each call. A peer that gave up before it was accepted is passed over.
pub type TcpPort = PortOver<HostRuntime>;

impl<N: Net + Drop> Model for PortOver<N> {
    ghost use Rattle.outside_real.specs.Ports.{Accepts};

    ghost Value = { Accepts };

    ghost view = { λ s. record { faults = s.faults; given = s.given } };
}

impl<N: Net + Clock + Copy + Drop> PortOver<N> {
    /// The port at this address, such as `127.0.0.1:8080`: an address of the machine or a host's name, and a number, where 0 stands for any that is free.
    pub fn bind(net: &N, listen: &str) -> PortOver<N>
        ensures { result ≡ record { faults = 0; given = 0 } }
    {
        PortOver {
            net: *net,
            listener: TcpListener::bind(net, listen).ok(),
            faults: Count::zero(),
            given: Count::zero(),
        }
    }

    /// Where it listens. None where it couldn't be bound.
    pub fn address(&self) -> Option<SocketAddr> {
        match &self.listener {
            Some(listener) => listener.local_addr().ok(),
            None => None,
        }
    }
}

/// Whether an accept failed for what became of the peer, and not of the port.
fn is_of_peer(kind: ErrorKind) -> bool {
    matches!(
        kind,
        ErrorKind::Interrupted | ErrorKind::ConnectionAborted | ErrorKind::ConnectionReset
    )
}

/// The stream to the next peer. One that gave up before is passed over.
fn next_stream<L: OpenListener>(listener: &L) -> io::Result<L::Stream> {
    for _ in 0..u64::MAX {
        match listener.accept() {
            Ok((stream, _)) => return Ok(stream),
            Err(error) => {
                if !is_of_peer(error.kind()) {
                    return Err(error);
                }
            }
        }
    }
    Err(ErrorKind::Other.into())
}

impl<N: Net + Clock + Copy + Drop> Port for PortOver<N> {
    type Joined = LinkOver<N::Stream, N>;

    ghost faults = { λ s. s.faults };

    ghost given = { λ s. s.given };

    fn accept<R: Wait>(&mut self, _rt: &R) -> Result<LinkOver<N::Stream, N>, Failed> {
        if let Some(listener) = &self.listener {
            if let Ok(stream) = next_stream(listener) {
                self.given.rise();
                return Ok(LinkOver::new(stream, self.net));
            }
        }
        self.faults.rise();
        Err(Failed)
    }
}
