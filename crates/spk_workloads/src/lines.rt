//! The clients of a broker: edge nodes, each on a line of a plant, and hosts.

use crate::packets::{connect, publish, subscribe, subscribe_to};
use crate::serving::{Room, Serves};
use crate::texts::{joined, numbered};
use spk_server::Conn;
use std::alloc::Global;

/// An edge node as a client.
#[derive(Drop)]
pub(crate) struct Line {
    pub(crate) conn: Conn,
    name: String,
    /// Where it publishes its data, and its device's.
    data: String,
    device_data: String,
    /// The last identifier of its messages of QoS 1.
    id: u16,
}

/// An identifier behind this one.
fn id_after(id: u16) -> u16 {
    if id >= 60_000 {
        1
    } else {
        id.saturating_add(1)
    }
}

/// The node of a number, which isn't connected.
fn line_of(alloc: Global, number: usize) -> Option<Line> {
    let name = numbered(alloc, "Line ", number)?;
    let data = joined(alloc, "spBv1.0/Plant 7/NDATA/", name.as_str(), "")?;
    let device_data = joined(alloc, "spBv1.0/Plant 7/DDATA/", name.as_str(), "/Drive 3")?;
    Some(Line {
        conn: 0,
        name,
        data,
        device_data,
        id: 0,
    })
}

/// So many nodes, which aren't connected.
pub(crate) fn lines(alloc: Global, count: usize) -> Option<Vec<Line>> {
    let mut lines = Vec::new(alloc);
    for number in 0..count {
        lines.push(line_of(alloc, number)?).ok()?;
    }
    Some(lines)
}

impl Line {
    /// It connects with its will. One of 30 has a session that is kept.
    pub(crate) fn come<S: Serves>(&mut self, server: &mut S, room: &mut Room) -> Option<()> {
        self.conn = server.come(room.now)?;
        let topic = joined(
            room.alloc,
            "spBv1.0/Plant 7/NDEATH/",
            self.name.as_str(),
            "",
        )?;
        let message = room.payload(40)?;
        let will = Some((topic.as_str(), message.as_slice()));
        let clean = !room.random.is_one_of(30);
        let bytes = connect(room.alloc, self.name.as_str(), clean, will)?;
        room.send(server, self.conn, bytes.as_slice())
    }

    /// It subscribes to its commands, its devices' and its host's STATE.
    pub(crate) fn subscribe<S: Serves>(&mut self, server: &mut S, room: &mut Room) -> Option<()> {
        let name = self.name.as_str();
        let mut filters = Vec::new(room.alloc);
        let commands = joined(room.alloc, "spBv1.0/Plant 7/NCMD/", name, "")?;
        filters.push(commands).ok()?;
        let device_commands = joined(room.alloc, "spBv1.0/Plant 7/DCMD/", name, "/+")?;
        filters.push(device_commands).ok()?;
        let state = String::from_str(room.alloc, "spBv1.0/STATE/Host 1").ok()?;
        filters.push(state).ok()?;
        let bytes = subscribe(room.alloc, filters, 1)?;
        room.send(server, self.conn, bytes.as_slice())
    }

    /// It hears alarms.
    pub(crate) fn watch<S: Serves>(&mut self, server: &mut S, room: &mut Room) -> Option<()> {
        let bytes = subscribe_to(room.alloc, "site/alarm", 0)?;
        room.send(server, self.conn, bytes.as_slice())
    }

    /// It publishes its birth, some 2,000 bytes.
    pub(crate) fn bear<S: Serves>(&mut self, server: &mut S, room: &mut Room) -> Option<()> {
        let topic = joined(
            room.alloc,
            "spBv1.0/Plant 7/NBIRTH/",
            self.name.as_str(),
            "",
        )?;
        let size = room.random.place(800).saturating_add(1_600);
        let payload = room.payload(size)?;
        let bytes = publish(room.alloc, topic.as_str(), payload.as_slice(), None, false)?;
        room.send(server, self.conn, bytes.as_slice())
    }

    /// The bytes of a message of data, its own or of its device.
    fn message(&self, room: &mut Room) -> Option<Vec<u8>> {
        let topic = if room.random.is_one_of(2) {
            self.data.as_str()
        } else {
            self.device_data.as_str()
        };
        let payload = room.message()?;
        publish(room.alloc, topic, payload.as_slice(), None, false)
    }

    /// It publishes data.
    pub(crate) fn say<S: Serves>(&self, server: &mut S, room: &mut Room) -> Option<()> {
        let bytes = self.message(room)?;
        room.send(server, self.conn, bytes.as_slice())
    }

    /// It publishes two to six messages of data at once.
    pub(crate) fn burst<S: Serves>(&self, server: &mut S, room: &mut Room) -> Option<()> {
        let mut bytes = Vec::new(room.alloc);
        for _ in 0..room.random.below(5).saturating_add(2) {
            let message = self.message(room)?;
            bytes.extend_from_slice(message.as_slice()).ok()?;
        }
        room.send(server, self.conn, bytes.as_slice())
    }

    /// It publishes to others of the site, at QoS 1.
    pub(crate) fn record<S: Serves>(&mut self, server: &mut S, room: &mut Room) -> Option<()> {
        self.id = id_after(self.id);
        let topic = joined(room.alloc, "site/record/", self.name.as_str(), "/shift")?;
        let payload = room.message()?;
        let id = Some(self.id);
        let bytes = publish(room.alloc, topic.as_str(), payload.as_slice(), id, false)?;
        room.send(server, self.conn, bytes.as_slice())
    }

    /// It asks whether the server is there.
    pub(crate) fn ping<S: Serves>(&self, server: &mut S, room: &mut Room) -> Option<()> {
        room.send(server, self.conn, &[0xc0, 0])
    }

    /// Its socket is gone.
    pub(crate) fn lose<S: Serves>(&self, server: &mut S, room: &mut Room) -> Option<()> {
        server.lose(self.conn, room.now)?;
        room.pass(server)
    }
}

/// A client without a will that follows these filters, as hosts do.
#[derive(Drop)]
pub(crate) struct Follower {
    pub(crate) conn: Conn,
    name: &'static str,
    filter: &'static str,
    qos: u8,
    /// Whether its session ends with its connection.
    clean: bool,
    id: u16,
}

/// Those of a plant, the last of them with a session that is kept.
pub(crate) fn followers(alloc: Global) -> Option<Vec<Follower>> {
    let mut followers = Vec::new(alloc);
    for (name, filter, qos, clean) in [
        ("Host 1", "spBv1.0/Plant 7/#", 0, true),
        ("Host 2", "spBv1.0/Plant 7/#", 0, true),
        ("Host 3", "spBv1.0/Plant 7/#", 1, true),
        ("Historian", "site/#", 1, false),
    ] {
        followers
            .push(Follower {
                conn: 0,
                name,
                filter,
                qos,
                clean,
                id: 0,
            })
            .ok()?;
    }
    Some(followers)
}

impl Follower {
    /// It connects and subscribes.
    pub(crate) fn come<S: Serves>(&mut self, server: &mut S, room: &mut Room) -> Option<()> {
        self.conn = server.come(room.now)?;
        let bytes = connect(room.alloc, self.name, self.clean, None)?;
        room.send(server, self.conn, bytes.as_slice())?;
        let bytes = subscribe_to(room.alloc, self.filter, self.qos)?;
        room.send(server, self.conn, bytes.as_slice())
    }

    /// It disconnects.
    pub(crate) fn leave<S: Serves>(&self, server: &mut S, room: &mut Room) -> Option<()> {
        room.send(server, self.conn, &[0xe0, 0])
    }

    /// It sends a command to a node, at QoS 1 where it is acknowledged.
    pub(crate) fn command<S: Serves>(
        &mut self,
        server: &mut S,
        room: &mut Room,
        number: usize,
    ) -> Option<()> {
        let topic = numbered(room.alloc, "spBv1.0/Plant 7/NCMD/Line ", number)?;
        self.id = id_after(self.id);
        let id = if room.random.is_one_of(2) {
            Some(self.id)
        } else {
            None
        };
        let payload = room.payload(60)?;
        let bytes = publish(room.alloc, topic.as_str(), payload.as_slice(), id, false)?;
        room.send(server, self.conn, bytes.as_slice())
    }

    /// It publishes its STATE, retained.
    pub(crate) fn state<S: Serves>(&mut self, server: &mut S, room: &mut Room) -> Option<()> {
        self.id = id_after(self.id);
        let payload = room.payload(42)?;
        let id = Some(self.id);
        let bytes = publish(
            room.alloc,
            "spBv1.0/STATE/Host 1",
            payload.as_slice(),
            id,
            true,
        )?;
        room.send(server, self.conn, bytes.as_slice())
    }

    /// It publishes an alarm.
    pub(crate) fn alarm<S: Serves>(&self, server: &mut S, room: &mut Room) -> Option<()> {
        let payload = room.payload(90)?;
        let bytes = publish(room.alloc, "site/alarm", payload.as_slice(), None, false)?;
        room.send(server, self.conn, bytes.as_slice())
    }

    /// It publishes a setting of a line, retained.
    pub(crate) fn settle<S: Serves>(
        &self,
        server: &mut S,
        room: &mut Room,
        number: usize,
    ) -> Option<()> {
        let topic = numbered(room.alloc, "setting/line/", number)?;
        let payload = room.payload(120)?;
        let bytes = publish(room.alloc, topic.as_str(), payload.as_slice(), None, true)?;
        room.send(server, self.conn, bytes.as_slice())
    }
}
