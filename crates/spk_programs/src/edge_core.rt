//! What the program of an edge node asks of what it runs, so that its own proof doesn't write out what a node and its registry are.

use spk_edge_app::EdgeAppFault;
use spk_link::Due;
use std::io::{self, Write};

/// An edge node's core, with its record and the file in which its values survive.
pub trait EdgeCore: Drop {
    /// What is due of the connection.
    fn due(&self, now: u64) -> Due;

    /// When something of it is due next.
    fn next_due(&self) -> Option<u64>;

    /// A connection stands.
    fn opened(&mut self, now: u64) -> Result<(), EdgeAppFault>;

    /// The connection is over.
    fn over(&mut self, now: u64);

    /// A moment comes.
    fn moment(&mut self, now: u64);

    /// The session ends. Whether it can.
    fn stop(&mut self, now: u64) -> bool;

    /// These bytes were read.
    fn read(&mut self, piece: &[u8], now: u64) -> Result<(), EdgeAppFault>;

    /// The bytes that are to be written.
    fn unwritten(&self) -> &[u8];

    /// So many of them were written.
    fn wrote(&mut self, count: usize, now: u64);

    /// Whether the connection is to be closed.
    fn is_closing(&self) -> bool;

    /// Whether the births were given.
    fn is_born(&self) -> bool;

    /// How many changes are kept.
    fn kept(&self) -> usize;

    /// How many of them were lost.
    fn lost(&self) -> u64;

    /// Whether a record is to be kept before anything is written.
    fn wants(&self) -> bool;

    /// Keeps that record. Whether it is kept.
    fn keep(&mut self) -> bool;

    /// Keeps the record of what the node did, and no more: a next run needn't wait.
    fn settle(&mut self);

    /// Does what a line says, and tells what is refused of it: how many items.
    fn tell<N: Write>(&mut self, notes: &mut N, number: u64, text: &str, now: u64) -> u64;

    /// Prints the writes that commands asked for.
    fn print<O: Write, N: Write>(&mut self, out: &mut O, notes: &mut N) -> io::Result<()>;

    /// Whether values and kept changes survive in a file.
    fn has_file(&self) -> bool;

    /// What was told is said, and no longer waits in the file, if there is one.
    fn say(&mut self);

    /// Writes into the file what is to survive. Whether nothing failed.
    fn keep_lines(&mut self, now: u64) -> bool;

    /// When the file is tried again, where that failed.
    fn next_file(&self) -> Option<u64>;
}
