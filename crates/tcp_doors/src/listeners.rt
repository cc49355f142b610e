//! Listeners at each address of a name.

use std::alloc::Global;
use std::io;
use std::io::ErrorKind;
use std::net::{Net, SocketAddr, TcpListener, TcpStream, ToSocketAddrs};

/// The listeners at the addresses of a name, of which none blocks. Each address that this machine has is
/// listened at once. Where the port is 0 the system chooses one, the same for all.
pub(crate) fn listen_at<R: Net<Listener = TcpListener, Stream = TcpStream>>(
    rt: &R,
    alloc: Global,
    name: &str,
) -> io::Result<Vec<TcpListener>> {
    let mut listeners = Vec::new(alloc);
    let mut failed = io::Error::from(ErrorKind::InvalidInput);
    for address in name.to_socket_addrs(rt)? {
        let address = with_port_of(&listeners, address)?;
        if is_listened_at(&listeners, address)? {
            continue;
        }
        match bind_one(rt, address) {
            Ok(listener) => listeners.push(listener)?,
            Err(error) if is_elsewhere(&error) => failed = error,
            Err(error) => return Err(error),
        }
    }
    if listeners.is_empty() {
        Err(failed)
    } else {
        Ok(listeners)
    }
}

/// A listener at one address, which does not block.
fn bind_one<R: Net<Listener = TcpListener, Stream = TcpStream>>(
    rt: &R,
    address: SocketAddr,
) -> io::Result<TcpListener> {
    let listener = TcpListener::bind(rt, address)?;
    listener.set_nonblocking(true)?;
    Ok(listener)
}

/// The address, with the port that the system chose for the first listener where it was to choose.
fn with_port_of(listeners: &[TcpListener], address: SocketAddr) -> io::Result<SocketAddr> {
    let mut address = address;
    if address.port() == 0 {
        if let Some(first) = listeners.first() {
            address.set_port(first.local_addr()?.port());
        }
    }
    Ok(address)
}

/// Whether one of the listeners is at this address.
fn is_listened_at(listeners: &[TcpListener], address: SocketAddr) -> io::Result<bool> {
    for listener in listeners {
        if listener.local_addr()? == address {
            return Ok(true);
        }
    }
    Ok(false)
}

/// Whether the error says that this machine has no such address, or not its kind: EAFNOSUPPORT and
/// EADDRNOTAVAIL on Linux.
fn is_elsewhere(error: &io::Error) -> bool {
    matches!(error.raw_os_error(), Some(97 | 99))
}
