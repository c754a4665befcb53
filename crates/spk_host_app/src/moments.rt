//! How a connection begins and ends, moments, and what is written and printed.
ghost use Rattle.std.specs.Prelude.{◌≡◌, ◌⊎◌, [], map, take, true, false, Err, IfOk, IfErr, OnOk, OnErr, MatchOption};
ghost use Rattle.spk_connection.specs.Step.{is_open};
ghost use Rattle.spk_host_app.specs.Data.{Began, Connected, Over, Printed, Stopped, Whole, Wrote};
ghost use Rattle.spk_host_app.specs.Log.{IsAnswered, IsBegun, IsGivenUp, IsReason, IsStopped, IsTicked, May};
ghost use Rattle.spk_host_app.specs.Step.{after, answered, is_within, join, pinged, ticked, with_login};
ghost use Rattle.spk_host_app.specs.View.{word};

use crate::app::HostApp;
use crate::fault::HostAppFault;
use crate::joining::{joined, lost_words};
use crate::said::Said;
use spk_host::{HostFault, Out};
use spk_link::Due;
use spk_login::{LoginFault, with_login};

impl HostApp {
    /// CONNECT, with the user name and the password where there are any.
    fn hello(&self, packets: Vec<Vec<u8>>) -> Result<Vec<u8>, HostAppFault>
        ensures bytes { IfOk result (λ v. v.items
            ≡ with_login self.now.login (join (map (λ b. b.items) packets.items))) }
        ensures reason { IfErr result (λ e. IsReason e self.now) }
    {
        let connect = joined(self.alloc, packets)?;
        let Some(login) = &self.login else {
            return Ok(connect);
        };
        match with_login(
            self.alloc,
            connect.as_slice(),
            login.user.as_str(),
            &login.password,
        ) {
            Ok(bytes) => Ok(bytes),
            Err(LoginFault::NoMemory) => Err(HostAppFault::NoMemory),
            Err(_) => Err(HostAppFault::BadLogin),
        }
    }

    /// CONNECT is sent.
    fn greet(&mut self, packets: Vec<Vec<u8>>) -> Result<(), HostAppFault>
        ensures answered { IsAnswered []
            (with_login self.old.login (join (map (λ b. b.items) packets.items))) self.old self.new
            ⊎ IsGivenUp self.old self.new }
        ensures ok { OnOk result (self.new ≡ answered Whole []
            (with_login self.old.login (join (map (λ b. b.items) packets.items))) self.old) }
        ensures err { OnErr result (self.new.closing ≡ true) }
    {
        match self.hello(packets) {
            Ok(bytes) => self.answer(Vec::new(self.alloc), bytes.as_slice()),
            Err(fault) => Err(self.give_up(fault)),
        }
    }

    /// A connection begins, and with it a session of the host: its CONNECT waits to be written, with the user name and the password where there are any.
    ///
    /// Refused with WrongPhase (75) where there is a connection, or with NoMemory (1), and then nothing has changed. Where it fails otherwise, the
    /// connection is to be closed: with BadLogin (121) for a user name or a password that can't stand in CONNECT, with WrongPhase (75) within a
    /// session, with NoMemory (1).
    pub fn opened(&mut self, now: u64) -> Result<(), HostAppFault>
        ensures done { OnOk result ((is_open self.old.connection ≡ false) × (is_within self.old ≡ false)
            × (self.new ≡ after (Connected now Whole) (after (Began now) self.old))) }
        ensures within { is_open self.old.connection ≡ true → self.new ≡ self.old }
        ensures failed { OnErr result ((self.new ≡ self.old) ⊎ ((self.new.closing ≡ true)
            × (is_open self.old.connection ≡ false) × IsBegun now self.old self.new)) }
    {
        if self.connection.is_open() {
            return Err(HostAppFault::WrongPhase);
        }
        self.words.begin()?;
        self.connection.opened(now);
        match self.host.connected(now) {
            Ok(out) => self.greet(out.packets),
            Err(HostFault::WrongPhase) => Err(self.give_up(HostAppFault::WrongPhase)),
            Err(_) => Err(self.give_up(HostAppFault::NoMemory)),
        }
    }

    /// PINGREQ is sent where it is due.
    fn ping(&mut self, now: u64) -> Result<(), HostAppFault>
        ensures ok { OnOk result (self.new ≡ pinged now self.old) }
        ensures err { OnErr result ((self.new.closing ≡ true) × IsGivenUp self.old self.new) }
    {
        if self.closing || self.connection.due(now) != Due::Ping {
            return Ok(());
        }
        if self.connection.ask(now).is_err() {
            return Err(self.give_up(HostAppFault::NoMemory));
        }
        Ok(())
    }

    /// A moment comes to the host.
    fn tick(&mut self, now: u64) -> Result<(), HostAppFault>
        ensures ok { OnOk result (self.new ≡ ticked now self.old) }
        ensures failed { OnErr result ((self.new.closing ≡ true) × IsTicked now self.old self.new) }
    {
        if self.closing || self.is_full() || !self.connection.is_open() {
            return Ok(());
        }
        let Ok(first) = lost_words(self.alloc, self.host.losing(now), now) else {
            return Err(self.give_up(HostAppFault::NoMemory));
        };
        match self.host.tick(now) {
            Ok(out) => self.hand(first, out),
            Err(HostFault::WrongPhase) => Ok(()),
            Err(_) => Err(self.give_up(HostAppFault::NoMemory)),
        }
    }

    /// A moment: PINGREQ waits to be written where it is due, and the moment comes to the host, within a session and while fewer than 1,024 words wait
    /// to be printed: what is lost, its gaps and its rebirth requests are said, and the requests wait to be written. Where the connection is to be closed, nothing
    /// is done. Fails with NoMemory (1), and then the connection is to be closed.
    pub fn moment(&mut self, now: u64) -> Result<(), HostAppFault>
        ensures done { OnOk result (self.new ≡ ticked now (pinged now self.old)) }
        ensures failed { OnErr result ((self.new.closing ≡ true)
            × (IsGivenUp self.old self.new ⊎ IsTicked now (pinged now self.old) self.new)) }
    {
        self.ping(now)?;
        self.tick(now)
    }

    /// The host leaves: STATE offline and DISCONNECT wait to be written, and then the socket is to be closed. Where it is to be closed already, nothing
    /// changes.
    ///
    /// Refused with NotOpen (112) exactly where there is no connection; nothing has changed then. Where it fails with NoMemory (1), or with WrongPhase
    /// (75) outside a session, the connection is to be closed.
    pub fn stop(&mut self, now: u64) -> Result<(), HostAppFault>
        ensures done { is_open self.old.connection ≡ true → self.old.closing ≡ false → OnOk result
            ((is_within self.old ≡ true) × (self.new ≡ after (Stopped now Whole) self.old)) }
        ensures over { self.old.closing ≡ true → self.new ≡ self.old }
        ensures shut { is_open self.old.connection ≡ false → (self.new ≡ self.old)
            × (result ≡ Err HostAppFault.NotOpen) }
        ensures failed { IfErr result (λ e. ((e ≡ HostAppFault.NotOpen) × (self.new ≡ self.old))
            ⊎ ((self.new.closing ≡ true) × IsStopped now self.old self.new)) }
    {
        if !self.connection.is_open() {
            return Err(HostAppFault::NotOpen);
        }
        if self.closing {
            return Ok(());
        }
        match self.host.stop(now) {
            Ok(out) => {
                self.closing = true;
                self.hand(Vec::new(self.alloc), out)
            }
            Err(HostFault::WrongPhase) => Err(self.give_up(HostAppFault::WrongPhase)),
            Err(_) => Err(self.give_up(HostAppFault::NoMemory)),
        }
    }

    /// The connection is over, or a try came to none: the host's session ends, what was read and isn't taken and what waits to be written is dropped, and
    /// the end of a connection that began is said.
    pub fn over(&mut self, now: u64)
        ensures { self.new ≡ after (Over now) self.old }
    {
        self.host.ended();
        self.connection.over(now);
        self.words.end();
        self.closing = false;
    }

    /// So many bytes of what waits were written. More than wait are all.
    pub fn wrote(&mut self, count: usize, now: u64)
        ensures { self.new ≡ after (Wrote (take count self.old.connection.unwritten) now) self.old }
    {
        let count = count.min(self.connection.unwritten().len());
        self.connection.wrote(count, now);
    }

    /// The oldest of what is to be printed, which waits no longer.
    pub fn next_said(&mut self) -> Option<Said>
        ensures { MatchOption result ((self.old.words.said ≡ []) × (self.new ≡ self.old))
            (λ said. May (Printed (word said)) self.old
            × (self.new ≡ after (Printed (word said)) self.old)) }
    {
        self.words.next()
    }
}
