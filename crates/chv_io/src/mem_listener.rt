// A listener in memory.
ghost use Rattle.std.specs.Prelude.{◌≡◌, ◌∷◌, ◌↔◌, length, false, None, Some, All, IsSome, IsOk, IfOk, OnOk, OnErr};
ghost use Rattle.chv_io.specs.Outside.{HasCause};
ghost use Rattle.chv_io.specs.FailingCalls.{no_calls, is_listed};
ghost use Rattle.chv_io.specs.MemListener.{IsFresh, after_listen, accept_fails, after_accept};

use crate::{Calls, Failed, Listener, MemLink};
use chv_defs_base::Row;
use std::marker::Model;

/// A listener in memory, which gives connections in memory in their order. The listed ones of its calls `listen` and
/// `accept` fail, and an `accept` where no connection is left, and no others. A failing call gives no connection away.
#[derive(Drop)]
pub struct MemListener {
    links: Vec<MemLink>,
    port: Option<u16>,
    calls: Calls,
}

impl Model for MemListener {
    ghost use Rattle.std.specs.Prelude.{All};
    ghost use Rattle.chv_io.specs.MemListener.{Door, IsFresh};

    ghost Value = { Door };

    ghost view = { λ l. record { links = l.links.items; port = l.port; calls = l.calls } };

    ghost invariant = { λ l. All IsFresh l.links.items };
}

impl MemListener {
    /// A listener that has these connections to give, in this order, and does not listen yet. Each of them gave nothing
    /// so far, has nothing put into it, and is not closed. `fail` has the numbers of those calls `listen` and `accept`,
    /// counted together from 1, that fail. Takes no memory.
    pub fn new(links: Vec<MemLink>, fail: Row<u64>) -> MemListener
        requires { All IsFresh links.items }
        ensures { result ≡ record { links = links.items; port = None; calls = no_calls fail } }
    {
        MemListener {
            links,
            port: None,
            calls: Calls::new(fail),
        }
    }

    /// How many connections are left to give.
    pub fn links_left(&self) -> usize
        ensures { result ≡ length self.now.links }
    {
        self.links.len()
    }
}

impl Listener for MemListener {
    type Conn = MemLink;

    ghost listens_on = { λ l. l.port };

    ghost listen_faults = { λ l. l.calls.faults };

    fn listen(&mut self, port: u16) -> Result<(), Failed>
        requires { self.old.port ≡ None }
        ensures ok { OnOk result (self.new.port ≡ Some port) }
        ensures err { OnErr result (self.new.port ≡ None) }
        ensures cause { HasCause self.old.calls.faults self.new.calls.faults result }

        // Exactly the listed calls fail.
        ensures answered { IsOk result ↔ (is_listed self.old.calls ≡ false) }
        ensures after { self.new ≡ after_listen self.old port }
    {
        self.calls.answer()?;
        self.port = Some(port);
        Ok(())
    }

    fn accept(&mut self) -> Result<MemLink, Failed>
        requires { IsSome self.old.port }
        ensures fresh { IfOk result IsFresh }
        ensures port { self.new.port ≡ self.old.port }
        ensures cause { HasCause self.old.calls.faults self.new.calls.faults result }

        // Exactly the listed calls fail, and those where no connection is left.
        ensures answered { IsOk result ↔ (accept_fails self.old ≡ false) }
        ensures first { IfOk result (λ link. self.old.links ≡ link ∷ self.new.links) }
        ensures after { self.new ≡ after_accept self.old }
    {
        let failed = self.calls.is_listed() || self.links.is_empty();
        self.calls.count(failed);
        if failed {
            return Err(Failed);
        }
        Ok(self.links.remove(0))
    }

    fn listen_faults(&self) -> u64 {
        self.calls.faults()
    }
}
