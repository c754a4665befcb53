//! Standard input, beside a socket.

use crate::app::App;
use mio::unix::SourceFd;
use mio::{Interest, Poll, Token};
use std::io::{ErrorKind, Read};
use std::os::fd::RawFd;

/// The token of standard input.
pub(crate) const INPUT: usize = 1;

/// Its descriptor.
const FD: RawFd = 0;

/// How far standard input is.
#[derive(Clone, Copy, Debug, PartialEq, Eq)]
enum Stand {
    /// It has something where the loop is told so.
    Watched,
    /// A file, which never waits.
    Always,
    /// It is over, or not read at all.
    Over,
}

/// Standard input, beside a socket.
#[derive(Drop)]
pub(crate) struct Door<I: Read + Drop> {
    input: I,
    stand: Stand,
    ready: bool,
}

impl<I: Read + Drop> Door<I> {
    /// Standard input, if it is to be read. A file can't be watched, and never waits.
    pub(crate) fn new(poll: &Poll, input: I, reads: bool) -> Door<I> {
        let fd: RawFd = FD;
        let mut source = SourceFd(&fd);
        let stand = if !reads {
            Stand::Over
        } else if poll
            .registry()
            .register(&mut source, Token(INPUT), Interest::READABLE)
            .is_ok()
        {
            Stand::Watched
        } else {
            Stand::Always
        };
        Door {
            input,
            stand,
            ready: stand == Stand::Always,
        }
    }

    /// It may have something.
    pub(crate) fn note(&mut self) {
        self.ready = true;
    }

    /// Whether it is to be read in the next round.
    pub(crate) fn is_ready<A: App>(&self, app: &A) -> bool {
        self.stand != Stand::Over && self.ready && app.takes_input()
    }

    /// It is over.
    fn end<A: App>(&mut self, poll: &Poll, app: &mut A, now: u64) {
        if self.stand == Stand::Watched {
            let fd: RawFd = FD;
            let _ = poll.registry().deregister(&mut SourceFd(&fd));
        }
        self.stand = Stand::Over;
        app.input_over(now);
    }

    /// It is watched again: what is there already is told, too.
    fn watch(&mut self, poll: &Poll) {
        if self.stand == Stand::Watched {
            let fd: RawFd = FD;
            let mut source = SourceFd(&fd);
            let watched = poll
                .registry()
                .reregister(&mut source, Token(INPUT), Interest::READABLE);
            self.ready = watched.is_err();
        }
    }

    /// Reads once, if it has something and the program takes it.
    pub(crate) fn read<A: App>(&mut self, poll: &Poll, app: &mut A, piece: &mut [u8], now: u64) {
        if !self.is_ready(app) {
            return;
        }
        match self.input.read(piece) {
            Ok(0) => self.end(poll, app, now),
            Ok(count) => {
                if let Some(bytes) = piece.get(..count) {
                    app.input(bytes, now);
                }
                self.watch(poll);
            }
            Err(error) => match error.kind() {
                ErrorKind::WouldBlock | ErrorKind::Interrupted => self.watch(poll),
                _ => self.end(poll, app, now),
            },
        }
    }
}
