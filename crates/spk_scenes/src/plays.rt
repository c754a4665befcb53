//! Who plays, as the hall asks of it.

use crate::seat::Seat;
use crate::serves::Serves;
use crate::shelf::Shelf;
use std::alloc::Global;

/// A program that is run, another client, or nobody any more.
pub(crate) trait Plays {
    /// What `sparkplug` does with these words, whose output comes on the page behind the name: a program that begins, or None where it is over at once.
    /// None besides where it can't be played.
    fn begun<R: AllocGlobal>(
        rt: &R,
        name: &str,
        words: &str,
        shelf: &mut Shelf,
        page: &mut Vec<u8>,
    ) -> Option<Option<Self>>;

    /// Another client, which has sent nothing yet.
    fn client(alloc: Global) -> Self;

    /// Nobody.
    fn gone() -> Self;

    fn is_gone(&self) -> bool;

    /// A round of the loop: whether something moved. None where the broker refused a call.
    fn round<S: Serves>(
        &mut self,
        seats: &mut [Seat],
        server: &mut S,
        most: usize,
        now: u64,
    ) -> Option<bool>;

    /// A round of the loop while there is no broker.
    fn round_alone(&mut self, now: u64) -> bool;

    /// Seats for its connections.
    fn seats(&self, alloc: Global) -> Option<Vec<Seat>>;

    /// A connection of it is over.
    fn over(&mut self, at: usize, now: u64);

    /// Whether it is to end once there is no connection.
    fn is_done(&self) -> bool;

    /// Its end, and the status.
    fn finish(&mut self) -> u8;

    /// What it printed.
    fn out(&self) -> &[u8];

    /// What it told on standard error.
    fn notes(&self) -> &[u8];

    /// The files that it had are on the shelf again.
    fn put_back(&self, shelf: &mut Shelf) -> Option<()>;

    /// A client is to send these bytes. None where it is none.
    fn send(&mut self, bytes: &[u8]) -> Option<()>;

    /// A line of its standard input, or the end of it. None where it has none.
    fn input(&mut self, line: Option<&str>, now: u64) -> Option<()>;
}
