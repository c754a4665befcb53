//! What the program of a host asks of what it runs, so that its own proof doesn't write out what a host, a board and a page are.

use spk_host_app::HostAppFault;
use spk_link::Due;
use spk_network::Seen;
use spk_page::{Asked, Client};
use spk_sequence::Step;
use std::io::{self, Write};

/// What a word of the core is to the program itself.
#[derive(Clone, Copy, Debug, PartialEq, Eq)]
pub enum Heard {
    /// A message was consumed.
    Consumed,
    /// What became of a message, or a gap.
    Step(Step),
    /// The subscription is granted.
    Granted,
    /// A message was refused.
    Refused,
    /// Something else.
    Other,
}

/// Hosts' cores, each of a group, by their numbers, which is what `at` is, and what shows their nodes: lines or a board, a page, and histories.
pub trait HostCore: Drop {
    /// A word of a core.
    type Said: Drop;

    /// How many hosts there are.
    fn hosts(&self) -> usize;

    /// What is due of a connection.
    fn due(&self, at: usize, now: u64) -> Due;

    /// When something of it is due next.
    fn next_due(&self, at: usize) -> Option<u64>;

    /// A connection stands.
    fn opened(&mut self, at: usize, now: u64) -> Result<(), HostAppFault>;

    /// The connection is over.
    fn over(&mut self, at: usize, now: u64);

    /// The session ends, where there is one.
    fn stop(&mut self, at: usize, now: u64);

    /// A moment comes.
    fn moment(&mut self, at: usize, now: u64) -> Result<(), HostAppFault>;

    /// These bytes were read.
    fn feed(&mut self, at: usize, piece: &[u8], now: u64) -> Result<(), HostAppFault>;

    /// Takes the next packet of what was read, if there is one.
    fn hear(&mut self, at: usize, now: u64) -> Result<bool, HostAppFault>;

    /// The next word.
    fn next_said(&mut self, at: usize) -> Option<Self::Said>;

    /// A node is asked for a rebirth, if it can be.
    fn ask(&mut self, at: usize, group: &str, node: &str, now: u64) -> Result<bool, HostAppFault>;

    /// The bytes that are to be written.
    fn unwritten(&self, at: usize) -> &[u8];

    /// So many of them were written.
    fn wrote(&mut self, at: usize, count: usize, now: u64);

    /// Whether the connection is to be closed.
    fn is_closing(&self, at: usize) -> bool;

    /// What a word is to the program.
    fn heard(said: &Self::Said) -> Heard;

    /// A word comes to the page, if there is one.
    fn tell_page(&mut self, at: usize, said: &Self::Said, now: u64) -> io::Result<()>;

    /// A word comes to the host's history, if it keeps one.
    fn keep(&mut self, at: usize, said: &Self::Said, now: u64) -> io::Result<()>;

    /// A connection stands, and with it begins a session of the host: that comes to its history, if it keeps one.
    fn keep_session(&mut self, at: usize, now: u64) -> io::Result<()>;

    /// A moment comes to the histories that are kept: whether what is to be written of them could be, as far as it was tried.
    fn turn_history(&mut self, now: u64) -> bool;

    /// When something is to be done next of the histories, if anything is.
    fn next_history(&self) -> Option<u64>;

    /// The histories that are kept are over: whether all of them is on the disk.
    fn close_history(&mut self) -> bool;

    /// A word is printed as lines, or comes to the board, if there is one.
    fn tell<W: Write>(
        &mut self,
        out: &mut W,
        at: usize,
        said: &Self::Said,
        now: u64,
    ) -> io::Result<()>;

    /// Prints which nodes are silent from now on, where lines are printed and somebody may be silent.
    fn tell_silence<W: Write>(&mut self, out: &mut W, now: u64) -> io::Result<()>;

    /// Tells the board and the page whether each connection stands.
    fn connect(&mut self, are_open: bool, now: u64) -> io::Result<()>;

    /// Whether there is a board in place of lines.
    fn has_board(&self) -> bool;

    /// When the board is drawn next, if there is one.
    fn next_board(&self) -> Option<u64>;

    /// Draws the board, if there is one.
    fn draw<W: Write>(&mut self, out: &mut W, now: u64) -> io::Result<()>;

    /// A moment comes to the page, if there is one.
    fn turn_page(&mut self, now: u64);

    /// When the page is to have a moment next, if it is.
    fn next_page(&self) -> Option<u64>;

    /// The page's port, if there is a page.
    fn page_port(&self) -> Option<u16>;

    /// Answers what a client of the page asks for.
    fn show(&mut self, asked: Asked, client: &mut Client, now: u64);

    /// Whether there is something that a client of the page wasn't told.
    fn has_news(&self, seen: &Seen) -> bool;

    /// Tells a client of the page what it wasn't told. Whether it may go on.
    fn tell_client(&mut self, client: &mut Client, seen: &mut Seen, now: u64) -> bool;
}
