//! The program of a host application.
ghost use Rattle.std.specs.Prelude.{◌≡◌, ◌↔◌, ℕ, ◌<◌, ◌-◌, ◌^◌, [], false, IfNone, IfSome};
ghost use Rattle.std.specs.Option.{option_map};
ghost use Rattle.spk_link.specs.Step.{due_at};
ghost use Rattle.spk_host_app.specs.Step.{is_full};
ghost use Rattle.spk_host_app.specs.View.{login_view};

use crate::login::Login;
use crate::words::Words;
use spk_connection::Connection;
use spk_host::Host;
use spk_link::Due;
use std::alloc::Global;
use std::fmt;
use std::marker::Model;

/// The most words that may wait to be printed before a packet is taken (own rule).
const MOST_SAID: usize = 1_024;

/// The program of a host application, without its socket: its host, its connection with a broker, and what is to be printed. Contracts see the `App` of
/// `specs/Data.antt`. Moments are in milliseconds since 1970.
#[derive(Drop)]
pub struct HostApp {
    pub(crate) alloc: Global,
    pub(crate) host: Host,
    pub(crate) connection: Connection,
    pub(crate) login: Option<Login>,
    pub(crate) words: Words,
    pub(crate) closing: bool,
}

impl fmt::Debug for HostApp {
    fn fmt<W: fmt::Write>(&self, f: &mut fmt::Formatter<W>) -> fmt::Result {
        f.write_str("HostApp { .. }")
    }
}

impl Model for HostApp {
    ghost use Rattle.std.specs.Option.{option_map};
    ghost use Rattle.spk_host_app.specs.Data.{App};
    ghost use Rattle.spk_host_app.specs.View.{login_view};

    ghost Value = { App };

    ghost view = { λ a. record { host = a.host; connection = a.connection; login = option_map login_view a.login; words = a.words; closing = a.closing } };
}

impl HostApp {
    /// Nothing is to be printed yet. Who has a user name gives it, and a password.
    pub fn new(alloc: Global, host: Host, connection: Connection, login: Option<Login>) -> HostApp
        ensures { result ≡ record {
          host = host;
          connection = connection;
          login = option_map login_view login;
          words = record { said = []; begun = false };
          closing = false;
        } }
    {
        HostApp {
            alloc,
            host,
            connection,
            login,
            words: Words::new(alloc),
            closing: false,
        }
    }

    /// What is to be done at a moment (`Connection::due`): a try to connect, PINGREQ, which `moment` puts in, or the end of a connection on which nothing
    /// is heard.
    pub fn due(&self, now: u64) -> Due
        ensures { result ≡ due_at self.now.connection.link now }
    {
        self.connection.due(now)
    }

    /// When something of the connection is due next, if nothing is done until then (`Connection::next_due`). While there is a connection `moment` is to
    /// be called each 100 ms besides: the host waits for messages.
    pub fn next_due(&self) -> Option<u64>
        ensures some { IfSome result (λ at. (now : ℕ) → now < 2 ^ 64 - 1
            → (due_at self.now.connection.link now ≡ Due.Nothing) ↔ (now < at)) }
        ensures none { IfNone result ((now : ℕ) → due_at self.now.connection.link now
            ≡ Due.Nothing) }
    {
        self.connection.next_due()
    }

    /// Whether 1,024 words or more wait to be printed: no packet is taken, and no moment comes to the host (own rule).
    pub fn is_full(&self) -> bool
        ensures { result ≡ is_full self.now }
    {
        self.words.len() >= MOST_SAID
    }

    /// Whether the socket is to be closed, once what waits is written.
    pub fn is_closing(&self) -> bool
        ensures { result ≡ self.now.closing }
    {
        self.closing
    }

    /// All that waits to be written.
    pub fn unwritten(&self) -> &[u8]
        ensures { result.now ≡ self.now.connection.unwritten }
    {
        self.connection.unwritten()
    }

    /// The host: its nodes and what is shown of them.
    pub fn host(&self) -> &Host
        ensures { result.now ≡ self.now.host }
    {
        &self.host
    }
}
