//! Three clients whose packets come in each of the 560 orders, cut anywhere, over sockets that take one to three bytes at a time: each gets,
//! in the order in which they came, what is due to it, and nothing else. Where memory is refused once, a client may be ended, and what it would have
//! published isn't there; nobody gets anything else, and a new server does all.

use crate::pressure::PATIENT;
use crate::serve::{PING, PONG, WATCH, WATCHED, WELCOME, WILL};
use spk_server::{Conn, Server};
use std::alloc::{AllocError, Global};
use std::test::Fail;

/// What each client sends, packet by packet: the first two watch and ping, the third publishes.
static PACKETS: [&[&[u8]]; 3] = [
    &[PATIENT, WATCH, PING],
    &[PATIENT, WATCH, PING],
    &[PATIENT, WILL],
];

/// A server without sockets, as the test asks of it.
trait Sockets {
    /// A client comes; where memory was refused nobody came, and it comes again.
    fn come(&mut self) -> Result<Conn, AllocError>;

    fn say(&mut self, conn: Conn, bytes: &[u8]) -> Result<(), AllocError>;

    fn named(&mut self) -> Option<Conn>;

    fn front(&self, conn: Conn, batch: &mut Vec<u8>);

    fn took(&mut self, conn: Conn, count: usize) -> Result<(), AllocError>;
}

impl Sockets for Server {
    fn come(&mut self) -> Result<Conn, AllocError> {
        match self.accepted(0) {
            Ok(conn) => Ok(conn),
            Err(_) => self.accepted(0).map_err(|_| AllocError),
        }
    }

    fn say(&mut self, conn: Conn, bytes: &[u8]) -> Result<(), AllocError> {
        self.read(conn, bytes, 0).map_err(|_| AllocError)
    }

    fn named(&mut self) -> Option<Conn> {
        self.next_to_write()
    }

    fn front(&self, conn: Conn, batch: &mut Vec<u8>) {
        batch.clear();
        self.gather(conn, batch);
    }

    fn took(&mut self, conn: Conn, count: usize) -> Result<(), AllocError> {
        self.wrote(conn, count).map_err(|_| AllocError)
    }
}

/// A client: how many of its packets came, what its socket got, and what is due to it.
#[derive(Drop)]
struct Client {
    conn: Conn,
    came: usize,
    got: Vec<u8>,
    due: Vec<u8>,
}

/// Whether each client sends all of its packets in an order: the order's digits, lowest first, name who is next.
pub(crate) fn is_order(order: usize) -> bool {
    let mut counts = [0u8; 3];
    let mut rest = order;
    for _ in 0..8 {
        counts[rest % 3] = counts[rest % 3].saturating_add(1);
        rest /= 3;
    }
    counts == [3, 3, 2]
}

/// What is due once the next packet of a client came.
fn note(clients: &mut Vec<Client>, who: usize) -> Result<(), AllocError> {
    for (at, client) in clients.iter_mut().enumerate() {
        if at == who {
            let answer = match client.came {
                0 => WELCOME,
                1 if who < 2 => WATCHED,
                2 => PONG,
                _ => b"",
            };
            client.due.extend_from_slice(answer)?;
            client.came = client.came.saturating_add(1);
        }
    }
    Ok(())
}

/// What was published is due to those who watch.
fn spread(clients: &mut Vec<Client>) -> Result<(), AllocError> {
    for (at, client) in clients.iter_mut().enumerate() {
        if at < 2 && client.came > 1 {
            client.due.extend_from_slice(WILL)?;
        }
    }
    Ok(())
}

/// The sockets take what waits, so many bytes at a time.
fn write_all(
    server: &mut impl Sockets,
    clients: &mut Vec<Client>,
    batch: &mut Vec<u8>,
    most: usize,
) -> Result<(), AllocError> {
    for _ in 0..64 {
        let Some(conn) = server.named() else {
            return Ok(());
        };
        for client in clients.iter_mut() {
            if client.conn == conn {
                take(server, client, batch, most)?;
            }
        }
    }
    Ok(())
}

fn take(
    server: &mut impl Sockets,
    client: &mut Client,
    batch: &mut Vec<u8>,
    most: usize,
) -> Result<(), AllocError> {
    for _ in 0..64 {
        server.front(client.conn, batch);
        let count = batch.len().min(most);
        if count == 0 {
            return Ok(());
        }
        client.got.extend_from_slice(&batch[..count])?;
        server.took(client.conn, count)?;
    }
    Ok(())
}

/// The next packet of a client, cut somewhere.
fn send(
    server: &mut impl Sockets,
    clients: &mut Vec<Client>,
    who: usize,
    cut: usize,
) -> Result<(), AllocError> {
    let Some(client) = clients.get(who) else {
        return Ok(());
    };
    let Some(packet) = PACKETS[who % 3].get(client.came) else {
        return Ok(());
    };
    let (front, rest) = packet.split_at(cut % (packet.len() + 1));
    server.say(client.conn, front)?;
    server.say(client.conn, rest)?;
    if who == 2 && client.came == 1 {
        spread(clients)?;
    }
    note(clients, who)
}

/// Whether these bytes are some of the others, in their order.
fn is_within(got: &[u8], due: &[u8]) -> bool {
    let mut at = 0;
    for byte in due {
        if got.get(at) == Some(byte) {
            at += 1;
        }
    }
    at == got.len()
}

/// Whether each got what is due to it, in this order, and whether nobody got anything else.
fn ends(
    alloc: Global,
    server: &mut impl Sockets,
    order: usize,
) -> Result<(bool, bool), AllocError> {
    let mut clients = Vec::new(alloc);
    for _ in 0..3 {
        clients.push(Client {
            conn: server.come()?,
            came: 0,
            got: Vec::new(alloc),
            due: Vec::new(alloc),
        })?;
    }
    let mut batch = Vec::new(alloc);
    let mut rest = order;
    for turn in 0..8usize {
        send(server, &mut clients, rest % 3, order)?;
        rest /= 3;
        if (order >> turn) & 1 == 1 {
            write_all(server, &mut clients, &mut batch, 1 + turn % 3)?;
        }
    }
    write_all(server, &mut clients, &mut batch, 1 + order % 3)?;
    let all = clients.iter().all(|client| client.got == client.due);
    let some = clients
        .iter()
        .all(|client| is_within(&client.got, &client.due));
    Ok((all, some))
}

/// The same of a new server.
fn ends_anew(alloc: Global, order: usize) -> Result<(bool, bool), AllocError> {
    let mut server = Server::new(alloc);
    ends(alloc, &mut server, order)
}

#[test]
fn each_client_gets_what_is_due_to_it_in_every_order(rt: HostRuntime) -> Result<(), Fail> {
    let alloc = rt.alloc();
    let mut orders = 0u32;
    for order in 0..6_561usize {
        if is_order(order) {
            let (mut all, some) = ends_anew(alloc, order)?;
            assert!(rt; some, "order {order}");
            if !all {
                all = ends_anew(alloc, order)?.0;
            }
            assert!(rt; all, "order {order}");
            orders = orders.saturating_add(1);
        }
    }
    assert_eq!(rt; orders, 560);
    Ok(())
}
