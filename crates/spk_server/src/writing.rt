//! What is to be written, and whose sockets are to be shut.

ghost use Rattle.std.specs.Prelude.{◌≡◌, ◌++◌, ◌∷◌, [], ◌-◌, OnOk, length, take, IfSome, IfNone, Some, true};
ghost use Rattle.spk_outbox.specs.Data.{rest_of_first};
ghost use Rattle.spk_clients.specs.Data.{IsSettled, client_at};
ghost use Rattle.spk_server.specs.Calls.{IsDone};
ghost use Rattle.spk_server.specs.Calls as call;
ghost use Rattle.spk_server.specs.Log.{is_all_kept};
ghost use Rattle.spk_server.specs.Rooms.{room_of, waiting_of};

use crate::fault::ServerFault;
use crate::server::Server;
use spk_broker::Conn;
use spk_clients::Cause;

impl Server {
    /// The next client to whom something is to be written: each that is named, once. None exactly where nobody is named, or something that was noted isn't kept.
    pub fn next_to_write(&mut self) -> Option<Conn>
        ensures done { IsDone (call.NextToWrite result) (room_of self.old) (room_of self.new) }
        ensures first { IfSome result
            (λ k. self.old.clients.touched.items ≡ k ∷ self.new.clients.touched.items) }
        ensures kept { IfSome result (λ k. is_all_kept (room_of self.old) ≡ true) }
        ensures nobody { IfNone result (is_all_kept (room_of self.old) ≡ true → self.old.clients.touched.items ≡ []) }
        ensures settled { IsSettled self.old.clients → IsSettled self.new.clients }
    {
        if !self.is_all_kept() {
            return None;
        }
        self.clients.next_to_write()
    }

    /// Joins a front of what waits for a client behind these bytes, up to 65,536 bytes; nothing where something that was noted isn't kept.
    pub fn gather(&self, conn: Conn, batch: &mut Vec<u8>)
        ensures { batch.new.items ≡ batch.old.items
            ++ take (length batch.new.items - length batch.old.items) (waiting_of self.entry.now conn) }
    {
        if self.is_all_kept() {
            self.clients.gather(conn, batch);
        }
    }

    /// What is left of the first packet that waits for a client, in two pieces of which the second stands behind the first. None exactly where nothing
    /// waits, or something that was noted isn't kept.
    pub fn first(&self, conn: Conn) -> Option<(&[u8], &[u8])>
        ensures some { IfSome result (λ s. IfSome (client_at self.entry.now.clients conn)
            (λ c. s.0.now ++ s.1.now ≡ rest_of_first c.outbox)) }
        ensures kept { IfSome result (λ s. is_all_kept (room_of self.entry.now) ≡ true) }
        ensures none { IfNone result (is_all_kept (room_of self.entry.now) ≡ true
            → IfSome (client_at self.entry.now.clients conn) (λ c. length c.outbox.packets ≡ 0)) }
    {
        if self.is_all_kept() {
            return self.clients.first(conn);
        }
        None
    }

    /// So many bytes of what waits for a client were written. The socket of one whose end came is to be shut where nothing is
    /// left. Nothing happens where something that was noted isn't kept: then nothing was to be written.
    pub fn wrote(&mut self, conn: Conn, count: usize) -> Result<(), ServerFault>
        ensures done { OnOk result
            (IsDone (call.Wrote conn count) (room_of self.old) (room_of self.new)) }
        ensures settled { OnOk result (IsSettled self.old.clients → IsSettled self.new.clients) }
    {
        if !self.is_all_kept() {
            return Ok(());
        }
        self.clients.wrote(conn, count)?;
        Ok(())
    }

    /// A client's socket takes no more: once its end comes it is to be shut.
    pub fn cut(&mut self, conn: Conn) -> Result<(), ServerFault>
        ensures done { OnOk result (IsDone (call.Cut conn) (room_of self.old) (room_of self.new)) }
        ensures settled { OnOk result (IsSettled self.old.clients → IsSettled self.new.clients) }
    {
        self.clients.cut(conn)?;
        Ok(())
    }

    /// The next client whose socket is to be shut, and why its end came. It is forgotten. None exactly where no client's is.
    pub fn next_to_shut(&mut self) -> Option<(Conn, Cause)>
        ensures done { IsSettled self.old.clients
            → IsDone (call.NextToShut result) (room_of self.old) (room_of self.new) }
        ensures some { IfSome result
            (λ shut. IsDone (call.NextToShut (Some shut)) (room_of self.old) (room_of self.new)) }
        ensures none { IfNone result (room_of self.new ≡ room_of self.old) }
        ensures settled { IsSettled self.old.clients → IsSettled self.new.clients }
    {
        self.clients.next_to_shut()
    }
}
