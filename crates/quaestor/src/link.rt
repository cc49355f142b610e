//! Links to servers over TCP: one connection for all that a link asks.
ghost use Rattle.std.specs.Prelude.{◌≡◌, IfOk};

use client_wire::WireLink;
use q_base::Text;
use q_outside::{BufferedSource, ReadSource, WriteSink};
use std::io;
use std::io::ErrorKind;
use std::net::{Net, TcpStream};
use std::time::Duration;

/// For how many seconds the next bytes of a reply are waited for, and room for those of a request.
const PATIENCE_SECONDS: u64 = 30;

/// What comes over TCP, in a buffer, so that a reply is seldom more than one call of the system.
pub(crate) type TcpReader = BufferedSource<ReadSource<TcpStream>>;

/// A link over TCP.
pub(crate) type TcpLink = WireLink<TcpReader, WriteSink<TcpStream>>;

/// The two ends of a connection to a server, and what its requests name as their host.
#[derive(Drop)]
pub(crate) struct Ends {
    pub source: TcpReader,
    pub writer: TcpStream,
    pub host: Text,
}

/// Connects to an address, such as `127.0.0.1:8080`, `[::1]:8080` or `localhost:8080`; of a name that the
/// system resolves to several addresses, to the first that answers.
pub(crate) fn connect<R>(rt: &R, address: &str) -> io::Result<Ends>
where
    R: Net<Stream = TcpStream> + AllocGlobal,
    ensures { IfOk result (λ ends. ends.source.source.faults ≡ 0) }
{
    let host = Text::of(Vec::from_slice(rt.alloc(), address.as_bytes())?);
    let writer = TcpStream::connect(rt, address)?;
    let patience = Some(Duration::from_secs(PATIENCE_SECONDS));
    writer.set_nodelay(true)?;
    writer.set_read_timeout(patience)?;
    writer.set_write_timeout(patience)?;
    let reader = ReadSource::new(writer.try_clone()?);
    let Ok(source) = BufferedSource::new(rt.alloc(), reader) else {
        return Err(io::Error::from(ErrorKind::OutOfMemory));
    };
    Ok(Ends {
        source,
        writer,
        host,
    })
}
