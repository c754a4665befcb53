//! Who waits for whom: a client whose own PUBLISH goes to one for whom many packets wait isn't read for a while.
ghost use Rattle.std.specs.Prelude.{◌≡◌, ◌==◌, [], length, take, IfOk, OnOk, IfSome, Ok, None, is_some, not, false, true};
ghost use Rattle.std.specs.Option.{option_map_or};
ghost use Rattle.spk_clients.specs.Client.{waiting_for};
ghost use Rattle.spk_clients.specs.Data.{AreNoted, IsSettled, client_at};
ghost use Rattle.spk_server.specs.Calls.{IsDone, IsTakenUp};
ghost use Rattle.spk_server.specs.Calls as call;
ghost use Rattle.spk_server.specs.Step.{changed, counted, freed_from, first_wait, slow_of, still_waits, wait_of, wait_until, waits_until};
ghost use Rattle.spk_server.specs.Log.{LooksAt, Reaches, takes};
ghost use Rattle.spk_server.specs.Rooms.{amid, room_of, slow_for};

use crate::fault::ServerFault;
use crate::server::Server;
use spk_broker::Conn;

impl Server {
    /// Whether a client whose packet was taken is to wait for this one, to whom it went.
    pub(crate) fn holds(&mut self, conn: Conn, slow: Option<Conn>) -> Result<bool, ServerFault>
        ensures takes { IfOk result (λ held. IsSettled self.old.clients
            → Reaches (takes conn) (amid self.old [] [] (slow_for conn slow)) (room_of self.new)) }
        ensures waits { result ≡ Ok true → IsTakenUp (client_at self.new.clients conn) }
        ensures settled { OnOk result (IsSettled self.old.clients → IsSettled self.new.clients) }
    {
        let Some(slow) = slow else {
            return Ok(false);
        };
        if !self.clients.begin_waiting(slow, slow == conn, self.now) {
            return Ok(false);
        }
        self.clients.wait(conn, Some(slow));
        self.held.push_back(conn)?;
        self.tally.stall();
        Ok(true)
    }

    /// For whom a client waits.
    fn slow_of(&self, conn: Conn) -> Option<Conn>
        ensures { result ≡ slow_of (client_at self.entry.now.clients) conn }
    {
        match self.clients.get(conn) {
            Some(client) => client.waits_for,
            None => None,
        }
    }

    /// Until when others wait for this client at most. None where they need not.
    fn slow_until(&self, slow: Conn, own: bool) -> Option<u64>
        ensures { result ≡ option_map_or (wait_until own) (client_at self.entry.now.clients slow) None }
    {
        match self.clients.get(slow) {
            Some(client) if client.has_some(own) => client.patience.until(),
            _ => None,
        }
    }

    /// Until when a client waits at most. None where it may go on.
    fn waits_until(&self, conn: Conn) -> Option<u64>
        ensures { result ≡ waits_until (client_at self.entry.now.clients) conn }
    {
        let slow = self.slow_of(conn)?;
        self.slow_until(slow, slow == conn)
    }

    /// Whether a client is to wait still.
    fn still_waits(&self, conn: Conn) -> bool
        ensures { result ≡ still_waits self.entry.now.now (client_at self.entry.now.clients) conn }
    {
        match self.waits_until(conn) {
            Some(until) => self.now < until,
            None => false,
        }
    }

    /// When the wait for a client ended, as far as it counts: never began, where fewer packets are left of it. Such a wait did what
    /// it was for, and may have been the server's own delay.
    fn counted(&self, slow: Conn, own: bool) -> u64
        ensures { IfSome (client_at self.entry.now.clients slow)
            (λ c. result ≡ counted self.entry.now.now own c) }
    {
        match self.slow_until(slow, own) {
            Some(_) => self.now,
            None => 0,
        }
    }

    /// Nobody waits any more for whom this client waits.
    fn free(&mut self, conn: Conn)
        ensures freed { room_of self.new
            ≡ freed_from (slow_of (client_at self.old.clients) conn) conn (room_of self.old) }
        ensures settled { IsSettled self.old.clients → IsSettled self.new.clients }
    {
        let Some(slow) = self.slow_of(conn) else {
            return;
        };
        let ended = self.counted(slow, slow == conn);
        self.clients.end_waiting(slow, ended);
    }

    /// A client waits no more, and takes its packets.
    fn release(&mut self, conn: Conn) -> Result<(), ServerFault>
        ensures takes { OnOk result (IsSettled self.old.clients → Reaches (takes conn)
            (changed (waiting_for None) conn
            (freed_from (slow_of (client_at self.old.clients) conn) conn (room_of self.old)))
            (room_of self.new)) }
        ensures settled { OnOk result (IsSettled self.old.clients → IsSettled self.new.clients) }
    {
        self.free(conn);
        self.clients.wait(conn, None);
        self.take_packets(conn)?;
        Ok(())
    }

    /// Takes the packets of the next client, where it need not wait any more.
    fn go_on_with_next(&mut self) -> Result<(), ServerFault>
        ensures goes { OnOk result (IsSettled self.old.clients
            → LooksAt (take 1 self.old.held.items) (room_of self.old) (room_of self.new)) }
        ensures settled { OnOk result (IsSettled self.old.clients → IsSettled self.new.clients) }
    {
        let Some(conn) = self.held.pop_front() else {
            return Ok(());
        };
        if self.still_waits(conn) {
            self.held.push_back(conn)?;
            return Ok(());
        }
        self.release(conn)?;
        Ok(())
    }

    /// Looks at each who waits for another, once, in the order in which they stand, and takes the packets of those who need not wait
    /// any more.
    pub fn go_on(&mut self, now: u64) -> Result<(), ServerFault>
        ensures done { OnOk result (IsSettled self.old.clients
            → IsDone (call.GoOn now) (room_of self.old) (room_of self.new)) }
        ensures settled { OnOk result (IsSettled self.old.clients → IsSettled self.new.clients) }
    {
        self.at(now);
        for _ in 0..self.held_count() {
            self.go_on_with_next()?;
        }
        Ok(())
    }

    /// How many wait for another.
    fn held_count(&self) -> usize
        ensures { result ≡ length self.entry.now.held.items }
    {
        self.held.len()
    }

    /// Whether somebody waits for another.
    pub fn is_waiting(&self) -> bool
        ensures { result ≡ not (length self.entry.now.held.items == 0) }
    {
        !self.held.is_empty()
    }

    /// Whether a client isn't to be read, since it waits for another.
    pub fn is_held(&self, conn: Conn) -> bool
        ensures { result ≡ is_some (slow_of (client_at self.entry.now.clients) conn) }
    {
        self.slow_of(conn).is_some()
    }

    /// When the first wait ends; at once where somebody need not wait.
    pub(crate) fn held_until(&self) -> u64
        ensures { result ≡ first_wait (client_at self.entry.now.clients) self.entry.now.held.items }
    {
        let mut first = u64::MAX;
        for conn in self.held.iter() {
            first = first.min(self.wait_of(*conn));
        }
        first
    }

    /// Until when a client waits at most; 0 where it need not.
    fn wait_of(&self, conn: Conn) -> u64
        ensures { result ≡ wait_of (client_at self.entry.now.clients) conn }
    {
        match self.waits_until(conn) {
            Some(until) => until,
            None => 0,
        }
    }
}
