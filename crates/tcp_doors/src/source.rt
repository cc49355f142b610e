//! The source of a connection over TCP.
ghost use Rattle.std.specs.Prelude.{◌≡◌, None};

use crate::stream::Shared;
use q_outside::{Failed, Source};
use std::rt::Clock;

/// The source over a connection. It shows no bytes.
///
/// A client that is later than its limits allow is taken as one that has ended. At the greatest count of
/// faults, 2^64 - 1, a further fault is reported as the end too.
#[derive(Drop)]
pub struct TcpSource<R: Clock + Drop> {
    shared: Shared<R>,
    faults: u64,
}

impl<R: Clock + Drop> TcpSource<R> {
    /// The source over this connection, with no fault yet.
    pub(crate) fn new(shared: Shared<R>) -> TcpSource<R>
        ensures { result.faults ≡ 0 }
    {
        TcpSource { shared, faults: 0 }
    }
}

impl<R: Clock + Drop> Source for TcpSource<R> {
    ghost at = { λ s. record { bytes = None; faults = s.faults } };

    fn held(&self) -> &[u8] {
        &[]
    }

    fn take(&mut self, into: &mut [u8]) -> Result<usize, Failed> {
        match self.shared.read(into) {
            Ok(count) => Ok(count),
            Err(_) if self.faults < u64::MAX => {
                self.faults += 1;
                Err(Failed)
            }
            Err(_) => Ok(0),
        }
    }

    fn begin(&mut self, held: bool) {
        self.shared.begin(held);
    }

    fn is_ready(&mut self) -> bool {
        self.shared.is_ready()
    }

    fn wait(&mut self) {
        self.shared.wait();
    }

    fn is_stopping(&mut self) -> bool {
        self.shared.is_stopping()
    }
}
