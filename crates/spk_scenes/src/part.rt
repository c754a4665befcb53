//! The programs that play.

use crate::binder::Binder;
use crate::client::Client;
use crate::plays::Plays;
use crate::runs::begun;
use crate::seat::{Seat, refused, round_at, seats_of};
use crate::serves::Serves;
use crate::shelf::{Paper, Shelf};
use spk_network::App;
use spk_programs::{EdgeParts, EdgeProgram, HostParts, HostProgram};
use std::alloc::Global;

/// An edge node's program, whose files are in memory.
pub(crate) type Edge = EdgeProgram<EdgeParts<Paper>, Vec<u8>, Vec<u8>>;

/// A host's program.
pub(crate) type Host = HostProgram<HostParts<Binder>, Vec<u8>, Vec<u8>>;

/// A program that is run.
#[derive(Drop)]
pub(crate) enum Program {
    Edge(Edge),
    Host(Host),
    Client(Client),
    /// It was killed, or has ended.
    Gone,
}

/// The files of an edge node are on the shelf again.
fn put_edge_back(app: &Edge, shelf: &mut Shelf) -> Option<()> {
    shelf.put_back(app.disk())?;
    match app.kept_disk() {
        Some(kept) => shelf.put_back(kept),
        None => Some(()),
    }
}

/// The parts of hosts' histories are on the shelf.
fn put_history_back(app: &Host, shelf: &mut Shelf) -> Option<()> {
    for at in 0..app.connections() {
        if let Some(history) = app.core().history(at) {
            shelf.put_parts(history.disk())?;
        }
    }
    Some(())
}

/// A line comes to an edge node, or the end of its input.
fn edge_input(app: &mut Edge, line: Option<&str>, now: u64) {
    match line {
        Some(text) => {
            app.input(text.as_bytes(), now);
            app.input(b"\n", now);
        }
        None => app.input_over(now),
    }
}

impl Plays for Program {
    fn begun<R: AllocGlobal>(
        rt: &R,
        name: &str,
        words: &str,
        shelf: &mut Shelf,
        page: &mut Vec<u8>,
    ) -> Option<Option<Program>> {
        begun(rt, name, words, shelf, page)
    }

    fn client(alloc: Global) -> Program {
        Program::Client(Client::new(alloc))
    }

    fn gone() -> Program {
        Program::Gone
    }

    fn is_gone(&self) -> bool {
        matches!(self, Program::Gone)
    }

    fn round<S: Serves>(
        &mut self,
        seats: &mut [Seat],
        server: &mut S,
        most: usize,
        now: u64,
    ) -> Option<bool> {
        match self {
            Program::Edge(app) => round_at(seats, app, server, most, now),
            Program::Host(app) => round_at(seats, app, server, most, now),
            Program::Client(app) => round_at(seats, app, server, most, now),
            Program::Gone => Some(false),
        }
    }

    fn seats(&self, alloc: Global) -> Option<Vec<Seat>> {
        match self {
            Program::Edge(app) => seats_of(alloc, app),
            Program::Host(app) => seats_of(alloc, app),
            Program::Client(app) => seats_of(alloc, app),
            Program::Gone => Some(Vec::new(alloc)),
        }
    }

    fn round_alone(&mut self, now: u64) -> bool {
        match self {
            Program::Edge(app) => refused(app, now),
            Program::Host(app) => refused(app, now),
            Program::Client(app) => refused(app, now),
            Program::Gone => false,
        }
    }

    fn over(&mut self, at: usize, now: u64) {
        match self {
            Program::Edge(app) => app.over(at, now),
            Program::Host(app) => app.over(at, now),
            Program::Client(app) => app.over(at, now),
            Program::Gone => {}
        }
    }

    fn is_done(&self) -> bool {
        match self {
            Program::Edge(app) => app.is_done(),
            Program::Host(app) => app.is_done(),
            Program::Client(_) | Program::Gone => false,
        }
    }

    fn finish(&mut self) -> u8 {
        match self {
            Program::Edge(app) => app.finish(Ok(())),
            Program::Host(app) => app.finish(Ok(())),
            Program::Client(_) | Program::Gone => 0,
        }
    }

    fn out(&self) -> &[u8] {
        match self {
            Program::Edge(app) => app.out().as_slice(),
            Program::Host(app) => app.out().as_slice(),
            Program::Client(_) | Program::Gone => &[],
        }
    }

    fn notes(&self) -> &[u8] {
        match self {
            Program::Edge(app) => app.notes().as_slice(),
            Program::Host(app) => app.notes().as_slice(),
            Program::Client(_) | Program::Gone => &[],
        }
    }

    fn put_back(&self, shelf: &mut Shelf) -> Option<()> {
        match self {
            Program::Edge(app) => put_edge_back(app, shelf),
            Program::Host(app) => put_history_back(app, shelf),
            Program::Client(_) | Program::Gone => Some(()),
        }
    }

    fn send(&mut self, bytes: &[u8]) -> Option<()> {
        match self {
            Program::Client(client) => client.send(bytes),
            Program::Edge(_) | Program::Host(_) | Program::Gone => None,
        }
    }

    fn input(&mut self, line: Option<&str>, now: u64) -> Option<()> {
        match self {
            Program::Edge(app) => {
                edge_input(app, line, now);
                Some(())
            }
            Program::Host(_) | Program::Client(_) | Program::Gone => None,
        }
    }
}
