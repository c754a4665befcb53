//! What time brings.
ghost use Rattle.std.specs.Prelude.{◌≡◌, [], Option, IfOk, IfNone, IfSome, OnOk, Ok, false, true};
ghost use Rattle.spk_clients.specs.Client.{is_due};
ghost use Rattle.spk_clients.specs.Data.{IsSettled, NobodyIsDue, client_at};
ghost use Rattle.std.specs.Option.{option_map_or};
ghost use Rattle.spk_server.specs.Step.{is_quiet};
ghost use Rattle.spk_server.specs.Data.{Slow};
ghost use Rattle.spk_server.specs.Calls.{IsDone, IsTold, is_told};
ghost use Rattle.spk_server.specs.Calls as call;
ghost use Rattle.spk_server.specs.Log.{HasClient, Reaches, calls, follows};
ghost use Rattle.spk_server.specs.Rooms.{amid, due_of, room_of};

use crate::fault::ServerFault;
use crate::server::Server;
use spk_broker::Conn;
use spk_clients::{Cause, Phase};

/// How often the broker is told of the time, in milliseconds (own rule).
const TICK: u64 = 1_000;

impl Server {
    /// Tells the broker of the time, where it has gone on. Whether the broker knows it now: where memory is refused it is told later.
    pub(crate) fn tick(&mut self) -> Result<bool, ServerFault>
        ensures ticks { OnOk result (IsSettled self.old.clients → (before : Option Slow)
            → Reaches follows (amid self.old [] [] before) (amid self.new [] [] before)) }
        ensures told { result ≡ Ok true → IsSettled self.old.clients → IsTold (room_of self.new) }
        ensures settled { OnOk result (IsSettled self.old.clients → IsSettled self.new.clients) }
    {
        if self.now <= self.ticked {
            return Ok(true);
        }
        let Ok(out) = self.noted.tick(self.now) else {
            return Ok(false);
        };
        self.ticked = self.now;
        self.hand_on(Some(out), None, Cause::KeepAlive)?;
        self.tell_all()?;
        Ok(true)
    }

    /// Whether a client sent no packet yet.
    fn is_quiet(&self, conn: Conn) -> bool
        ensures { result ≡ option_map_or (λ c. is_quiet c.phase) (client_at self.entry.now.clients conn) false }
    {
        match self.clients.get(conn) {
            Some(client) => matches!(client.phase, Phase::Quiet),
            None => false,
        }
    }

    /// A client's moment has come: one without CONNECT is ended, and the socket of one whose end came is shut.
    fn call(&mut self, conn: Conn) -> Result<(), ServerFault>
        ensures calls { OnOk result (IsSettled self.old.clients
            → HasClient (λ c. is_due self.old.now c ≡ true) conn (room_of self.old)
            → Reaches calls (room_of self.old) (room_of self.new)) }
        ensures settled { OnOk result (IsSettled self.old.clients → IsSettled self.new.clients) }
    {
        if self.is_quiet(conn) {
            self.give_up(conn, Cause::Silent)?;
            return Ok(());
        }
        self.clients.give_up(conn)?;
        Ok(())
    }

    /// Calls those whose moment has come, until nobody's has. All are looked at once to name them, and once behind the last of them.
    fn call_all(&mut self) -> Result<(), ServerFault>
        ensures calls { OnOk result (IsSettled self.old.clients
            → Reaches calls (room_of self.old) (room_of self.new)) }
        ensures nobody { OnOk result (NobodyIsDue self.new.now (client_at self.new.clients)) }
        ensures settled { OnOk result (IsSettled self.old.clients → IsSettled self.new.clients) }
    {
        for _ in 0..u64::MAX {
            if !self.call_next()? {
                self.note_soonest();
                return Ok(());
            }
        }
        Err(ServerFault::NoMemory)
    }

    /// Looks for the first moment of a client.
    fn note_soonest(&mut self)
        ensures same { room_of self.new ≡ room_of self.old }
        ensures settled { IsSettled self.old.clients → IsSettled self.new.clients }
    {
        self.clients.note_soonest();
    }

    /// The next one whose moment has come.
    fn next_due(&mut self) -> Option<Conn>
        ensures due { IfSome result (λ k. HasClient (λ c. is_due self.new.now c ≡ true) k (room_of self.new)) }
        ensures none { IfNone result (NobodyIsDue self.new.now (client_at self.new.clients)) }
        ensures same { room_of self.new ≡ room_of self.old }
        ensures settled { IsSettled self.old.clients → IsSettled self.new.clients }
    {
        self.clients.next_due(self.now)
    }

    /// Calls the next one whose moment has come. Whether there was one: where there is none, nobody is called.
    fn call_next(&mut self) -> Result<bool, ServerFault>
        ensures calls { OnOk result (IsSettled self.old.clients
            → Reaches calls (room_of self.old) (room_of self.new)) }
        ensures none { result ≡ Ok false → NobodyIsDue self.new.now (client_at self.new.clients) }
        ensures settled { OnOk result (IsSettled self.old.clients → IsSettled self.new.clients) }
    {
        let Some(conn) = self.next_due() else {
            return Ok(false);
        };
        self.call(conn)?;
        Ok(true)
    }

    /// Calls those whose moment has come, where one has.
    fn call_due(&mut self) -> Result<(), ServerFault>
        ensures calls { OnOk result (IsSettled self.old.clients
            → Reaches calls (room_of self.old) (room_of self.new)) }
        ensures nobody { OnOk result (IsSettled self.old.clients
            → NobodyIsDue self.new.now (client_at self.new.clients)) }
        ensures settled { OnOk result (IsSettled self.old.clients → IsSettled self.new.clients) }
    {
        if self.now < self.clients.soonest() {
            return Ok(());
        }
        self.call_all()?;
        Ok(())
    }

    /// Tells the broker of the time, once a second.
    fn tick_due(&mut self) -> Result<(), ServerFault>
        ensures calls { OnOk result (IsSettled self.old.clients
            → Reaches calls (room_of self.old) (room_of self.new)) }
        ensures settled { OnOk result (IsSettled self.old.clients → IsSettled self.new.clients) }
    {
        if self.is_told() {
            return Ok(());
        }
        self.tick()?;
        Ok(())
    }

    /// Whether the broker was told of the time within the last second.
    fn is_told(&self) -> bool
        ensures { result ≡ is_told (room_of self.entry.now) }
    {
        self.now.saturating_sub(self.ticked) < TICK
    }

    /// Time has passed: it is to be called when `due` says, and may be called at any time. Behind it nobody's moment has come. Exactly
    /// whether the broker was told of the time within the last second: where memory was refused it is told at the next call.
    pub fn moment(&mut self, now: u64) -> Result<bool, ServerFault>
        ensures done { OnOk result (IsSettled self.old.clients
            → IsDone (call.Moment now) (room_of self.old) (room_of self.new)) }
        ensures told { result ≡ Ok true → IsSettled self.old.clients → IsTold (room_of self.new) }
        ensures exact { IfOk result (λ told. told ≡ is_told (room_of self.new)) }
        ensures settled { OnOk result (IsSettled self.old.clients → IsSettled self.new.clients) }
    {
        self.at(now);
        self.tick_due()?;
        self.call_due()?;
        Ok(self.is_told())
    }

    /// When `moment` and `go_on` are to be called next, if no socket does anything: a second behind the last tick, or at the first
    /// moment of a client, or where the first wait ends. None exactly where no client is here.
    pub fn due(&self) -> Option<u64>
        ensures { result ≡ due_of self.entry.now }
    {
        if self.clients.len() == 0 {
            return None;
        }
        let tick = self.ticked.saturating_add(TICK);
        Some(tick.min(self.clients.soonest()).min(self.held_until()))
    }
}
