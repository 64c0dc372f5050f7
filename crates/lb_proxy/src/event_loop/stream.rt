//! A connection that doesn't block: over TCP, or over a Unix socket to a backend.

use lb_select_base::backend::{Backend, SocketAddr};
use mio::event::Source;
use mio::net::{TcpStream, UnixStream};
use mio::{Interest, Registry, Token};
use std::io;
use std::io::{Read, Write};
use std::net::{Net, Shutdown};

/// A connection whose reads and writes answer `WouldBlock` where they would wait.
pub enum Stream {
    Inet(TcpStream),
    Unix(UnixStream),
}

impl Drop for Stream {
    fn drop(self) {
        match self {
            Stream::Inet(_) => {}
            Stream::Unix(_) => {}
        }
    }
}

impl Stream {
    /// Begins to connect to the backend, and returns at once.
    pub fn connect<N: Net>(net: &N, backend: &Backend) -> io::Result<Stream> {
        if let SocketAddr::Unix(path) = &backend.addr {
            return Ok(Stream::Unix(UnixStream::connect(net, path.as_str())?));
        }
        let Ok(mut addresses) = backend.to_socket_addrs(net) else {
            return Err(io::ErrorKind::InvalidInput.into());
        };
        match addresses.next() {
            Some(address) => {
                let stream = TcpStream::connect(net, address)?;
                stream.set_nodelay(true)?;
                Ok(Stream::Inet(stream))
            }
            None => Err(io::ErrorKind::InvalidInput.into()),
        }
    }

    /// Returns whether the connection that was begun has come about; to be asked once it is reported as writable.
    pub fn is_connected(&self) -> bool {
        match self {
            Stream::Inet(stream) => {
                matches!(stream.take_error(), Ok(None)) && stream.peer_addr().is_ok()
            }
            Stream::Unix(stream) => {
                matches!(stream.take_error(), Ok(None)) && stream.peer_addr().is_ok()
            }
        }
    }

    /// Tells the other end that no more comes.
    pub fn end_writes(&self) -> io::Result<()> {
        match self {
            Stream::Inet(stream) => stream.shutdown(Shutdown::Write),
            Stream::Unix(stream) => stream.shutdown(Shutdown::Write),
        }
    }

    /// Has the poll of this registry report when the connection can be read or written.
    pub fn register(&mut self, registry: &Registry, token: Token) -> io::Result<()> {
        let both = Interest::READABLE | Interest::WRITABLE;
        match self {
            Stream::Inet(stream) => registry.register(stream, token, both),
            Stream::Unix(stream) => registry.register(stream, token, both),
        }
    }
}

impl Read for Stream {
    fn read(&mut self, buf: &mut [u8]) -> io::Result<usize> {
        match self {
            Stream::Inet(stream) => stream.read(buf),
            Stream::Unix(stream) => stream.read(buf),
        }
    }
}

impl Write for Stream {
    fn write(&mut self, buf: &[u8]) -> io::Result<usize> {
        match self {
            Stream::Inet(stream) => stream.write(buf),
            Stream::Unix(stream) => stream.write(buf),
        }
    }

    fn flush(&mut self) -> io::Result<()> {
        Ok(())
    }
}
