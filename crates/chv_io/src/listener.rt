// Listeners.
ghost use Rattle.std.specs.Prelude.{◌≡◌, ℕ, Option, None, Some, IsSome, IfOk, OnOk, OnErr};
ghost use Rattle.chv_io.specs.Outside.{HasCause};
ghost use Rattle.chv_io.specs.Links.{IsNew};

use crate::{Failed, Link};

/// What gives the connections that come in at a port, and counts its faults.
pub trait Listener {
    /// A connection that it gives.
    type Conn: Link + Drop;

    /// The port that it was told to listen on, if it listens.
    ghost listens_on: { Self → Option ℕ };

    /// How many faults there were.
    ghost listen_faults: { Self → ℕ };

    /// Listens on a port, as it has to before every `accept`, and once, and leaves the count of faults. After `Failed` that
    /// rose, it does not listen, and may be told to again.
    fn listen(&mut self, port: u16) -> Result<(), Failed>
        requires { listens_on self.old ≡ None }
        ensures ok { OnOk result (listens_on self.new ≡ Some port) }
        ensures err { OnErr result (listens_on self.new ≡ None) }
        ensures cause { HasCause (listen_faults self.old) (listen_faults self.new) result };

    /// The next connection, which is new. Whatever it answers, it keeps listening on its port. A connection that it gives
    /// is no fault, and leaves the count.
    fn accept(&mut self) -> Result<Self::Conn, Failed>
        requires { IsSome (listens_on self.old) }
        ensures fresh { IfOk result (λ conn. IsNew (Self.Conn.gave conn) (Self.Conn.written conn)
            (Self.Conn.closed conn)) }
        ensures port { listens_on self.new ≡ listens_on self.old }
        ensures cause { HasCause (listen_faults self.old) (listen_faults self.new) result };

    /// How many faults there were. The count stands still at its type's end.
    fn listen_faults(&self) -> u64
        ensures { result ≡ listen_faults self.now };
}
