//! What is noted of what comes to the broker, and kept by the caller before what came of it is written.
ghost use Rattle.std.specs.Prelude.{◌≡◌};
ghost use Rattle.spk_broker_notes.specs.Noted.{bytes_of};
ghost use Rattle.spk_clients.specs.Data.{IsSettled};
ghost use Rattle.spk_server.specs.Calls.{IsDone};
ghost use Rattle.spk_server.specs.Calls as call;
ghost use Rattle.spk_server.specs.Log.{is_all_kept};
ghost use Rattle.spk_server.specs.Rooms.{room_of};

use crate::server::Server;
use spk_broker::Broker;

impl Server {
    /// What the broker keeps.
    pub fn broker(&self) -> &Broker
        ensures { result.now ≡ self.entry.now.noted.broker }
    {
        self.noted.broker()
    }

    /// The greatest moment so far, in milliseconds: that of the next call is to be no less.
    pub fn now(&self) -> u64
        ensures { result ≡ self.entry.now.now }
    {
        self.now
    }

    /// The records of what came to the broker and isn't kept yet, in order. They are to be appended to its journal; until `kept` says so, nothing is
    /// given out that could be written.
    pub fn notes(&self) -> &[u8]
        ensures { result.now ≡ bytes_of self.entry.now.noted.notes }
    {
        self.noted.notes()
    }

    /// Whether all that was noted is kept.
    pub fn is_all_kept(&self) -> bool
        ensures { result ≡ is_all_kept (room_of self.entry.now) }
    {
        self.notes().is_empty()
    }

    /// The `notes` are kept now.
    pub fn kept(&mut self)
        ensures done { IsDone (call.Kept (bytes_of self.old.noted.notes)) (room_of self.old) (room_of self.new) }
        ensures settled { IsSettled self.old.clients → IsSettled self.new.clients }
    {
        self.noted.kept();
    }

    /// What the broker keeps now is kept as a whole, and notes begin behind that.
    pub fn begin(&mut self)
        ensures done { IsDone call.Begun (room_of self.old) (room_of self.new) }
        ensures settled { IsSettled self.old.clients → IsSettled self.new.clients }
    {
        self.noted.begin();
    }
}
