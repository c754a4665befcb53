//! What a host was handed of a node.
ghost use Rattle.std.specs.Prelude.{◌≡◌, ◌+◌, ◌≤◌, ◌<◌, length, map, vec_len, vec_capacity, OnOk, ◌++◌};
ghost use Rattle.spk_reading.specs.View.{numbered_view};
ghost use Rattle.spk_world_run.specs.Data.{no_track};
ghost use Rattle.spk_world_run.specs.Step.{handed_track, placed};
ghost use Rattle.spk_world_run.specs.Tests as test;

use crate::records::Consumed;
use spk_host::Taken;
use std::alloc::{AllocError, Global};

/// How many messages are consumed by one that is handed, at most.
pub(crate) const MOST: usize = 256;

/// What a host was handed of a node in its present session, and what it consumed of it.
#[derive(Drop)]
pub(crate) struct Track {
    /// One past the greatest position.
    pub(crate) reach: u64,
    /// The session of the birth taken last.
    pub(crate) session: Option<u64>,
    /// The positions of the NBIRTHs.
    pub(crate) births: Vec<u64>,
    pub(crate) consumed: Vec<Consumed>,
}

impl Track {
    ghost use Rattle.spk_world.specs.Parts.{HasPlaces};
    ghost use Rattle.spk_world.specs.View.{track_view};

    /// Nothing yet.
    pub(crate) fn new(alloc: Global) -> Track
        ensures { track_view result ≡ no_track }
    {
        Track {
            reach: 0,
            session: None,
            births: Vec::new(alloc),
            consumed: Vec::new(alloc),
        }
    }

    /// Room for what one message that is handed may add.
    pub(crate) fn reserve(&mut self) -> Result<(), AllocError>
        ensures room { OnOk result (HasPlaces self.new) }
        ensures unchanged { track_view self.new ≡ track_view self.old }
    {
        self.births.reserve(1)?;
        self.consumed.reserve(MOST)
    }

    /// Whether a position is too far behind the greatest one or, where the host follows the node, too far ahead of it.
    pub(crate) fn is_outside(&self, width: u8, follows: bool, position: u64) -> bool
        requires { width ≤ 96 }
        ensures { result ≡ test.is_outside_at width follows (track_view self.now) position }
    {
        let width = u64::from(width);
        self.reach.saturating_sub(position) > width
            || (follows && position.saturating_sub(self.reach) >= 256 - 2 * width)
    }

    /// Whether a session is 256 or more from that of the birth taken last.
    pub(crate) fn is_far(&self, session: u64) -> bool
        ensures { result ≡ test.is_far_at self.now.session session }
    {
        match self.session {
            Some(taken) => taken.abs_diff(session) >= 256,
            None => false,
        }
    }

    /// Messages that were consumed, from a position on, for which there is room.
    fn consume(&mut self, position: u64, taken: Vec<Taken>)
        requires room { vec_len self.old.consumed + length taken.items
            ≤ vec_capacity self.old.consumed }
        requires fits { position + length taken.items < 18446744073709551616 }
        ensures { track_view self.new ≡ record (track_view self.old) {
          consumed = (track_view self.old).consumed ++ placed position
              (map numbered_view taken.items);
        } }
    {
        let mut position = position;
        for message in taken {
            self.consumed.push_reserved(Consumed {
                position,
                topic: message.topic,
                payload: message.payload,
            });
            position += 1;
        }
    }

    /// The message of a position was handed, which is the NBIRTH of a session or not; and these were consumed.
    pub(crate) fn take(&mut self, position: u64, opens: bool, session: u64, taken: Vec<Taken>)
        requires room { HasPlaces self.old }
        requires few { length taken.items ≤ 256 }
        requires fits { position + 256 < 18446744073709551616 }
        ensures { track_view self.new
            ≡ handed_track (track_view self.old) position opens session
            (map numbered_view taken.items) }
    {
        self.reach = self.reach.max(position + 1);
        if opens {
            self.births.push_reserved(position);
            if !taken.is_empty() {
                self.session = Some(session);
            }
        }
        self.consume(position, taken);
    }

    /// A new session of the host begins.
    pub(crate) fn clear(&mut self)
        ensures { track_view self.new ≡ no_track }
    {
        self.reach = 0;
        self.session = None;
        self.births.clear();
        self.consumed.clear();
    }
}
