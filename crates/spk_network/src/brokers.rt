//! The brokers' names, and the addresses that they have.

use std::alloc::Global;
use std::net::{Net, SocketAddr, ToSocketAddrs};

/// The brokers, each as HOST:PORT, and how far they were tried.
#[derive(Drop)]
pub(crate) struct Brokers<'a> {
    names: &'a [String],
    /// The broker that is looked up next.
    next: usize,
    /// The addresses of the one looked up last that weren't tried yet, the last first.
    addresses: Vec<SocketAddr>,
}

impl<'a> Brokers<'a> {
    pub(crate) fn new(alloc: Global, names: &'a [String]) -> Brokers<'a> {
        Brokers {
            names,
            next: 0,
            addresses: Vec::new(alloc),
        }
    }

    /// The number of the broker that is looked up next, which is moved on by one.
    fn turn(&mut self) -> usize {
        let count = self.names.len();
        let turn = if self.next < count { self.next } else { 0 };
        self.next = turn.saturating_add(1);
        turn
    }

    /// Looks the next broker up. Answers its number. A name without an address has none.
    pub(crate) fn look_up<R: Net>(&mut self, rt: &R) -> usize {
        self.addresses.clear();
        let turn = self.turn();
        let Some(name) = self.names.get(turn) else {
            return turn;
        };
        if let Ok(found) = name.as_str().to_socket_addrs(rt) {
            for address in found {
                if self.addresses.push(address).is_err() {
                    break;
                }
            }
        }
        self.addresses.as_mut_slice().reverse();
        turn
    }

    /// The next address of the broker looked up last.
    pub(crate) fn next(&mut self) -> Option<SocketAddr> {
        self.addresses.pop()
    }

    /// Whether it has no further address.
    pub(crate) fn is_empty(&self) -> bool {
        self.addresses.is_empty()
    }
}
