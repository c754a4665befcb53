//! What a page told of a node last, and when its values were given.

use crate::ages::Ages;
use spk_host::{Entry, Taken};
use spk_page::{Look, What};
use spk_reading::Subject;
use spk_story::{Hole, Stand, Story};
use spk_view::DeviceView;
use std::alloc::{AllocError, Global};

/// What the page told of a node last.
#[derive(Drop)]
pub(crate) struct Told {
    stand: Stand,
    births: u64,
    hole: Option<Hole>,
    pub(crate) look: Look,
    pub(crate) changed: u64,
    pub(crate) own: Ages,
    /// Of its devices, in the order in which the host shows them.
    pub(crate) devices: Vec<Ages>,
}

/// The place of a device among those that are shown.
fn place_in(devices: &[DeviceView], name: &str) -> usize {
    for (place, device) in devices.iter().enumerate() {
        if device.name() == name {
            return place;
        }
    }
    usize::MAX
}

/// The ages of the device at a place, which are made where there are none.
fn ages_at(
    alloc: Global,
    devices: &mut Vec<Ages>,
    place: usize,
    count: usize,
) -> Result<Option<&mut Ages>, AllocError> {
    for _ in devices.len()..count {
        devices.push(Ages::new(alloc))?;
    }
    Ok(devices.get_mut(place))
}

impl Told {
    /// Of a node of which nothing was told.
    pub(crate) fn new(alloc: Global, revision: u64) -> Told {
        Told {
            stand: Stand::Unborn,
            births: 0,
            hole: None,
            look: Look::Unborn,
            changed: revision,
            own: Ages::new(alloc),
            devices: Vec::new(alloc),
        }
    }

    /// What became of the node since, if it is something that is told.
    pub(crate) fn became(&self, story: &Story) -> Option<What<'static>> {
        if story.counts().births > self.births {
            return Some(match (self.hole, story.kept().first()) {
                (Some(_), Some(hole)) => What::Mended(*hole),
                _ if self.births == 0 => What::Born,
                _ => What::BornAgain,
            });
        }
        match story.stand() {
            Stand::Lost if self.stand != Stand::Lost => Some(What::Lost),
            Stand::Dead if self.stand != Stand::Dead => Some(What::Died),
            _ => None,
        }
    }

    /// The node stands so now.
    pub(crate) fn follow(&mut self, story: &Story) {
        self.stand = story.stand();
        self.births = story.counts().births;
        self.hole = story.hole();
    }

    /// The metrics that a message gave are as old as it.
    pub(crate) fn date(
        &mut self,
        alloc: Global,
        entry: &Entry,
        message: &Taken,
        now: u64,
    ) -> Result<(), AllocError> {
        let Some(view) = entry.kept().view() else {
            return Ok(());
        };
        let metrics = message.payload.metrics.as_slice();
        let devices = view.devices();
        match &message.subject {
            Subject::NodeBirth => self.own.born(alloc, view.metrics(), now),
            Subject::NodeData => {
                self.own.given(metrics, now);
                Ok(())
            }
            Subject::DeviceBirth(name) => {
                let place = place_in(devices, name.as_str());
                let ages = ages_at(alloc, &mut self.devices, place, devices.len())?;
                match (ages, devices.get(place)) {
                    (Some(ages), Some(device)) => ages.born(alloc, device.metrics(), now),
                    _ => Ok(()),
                }
            }
            Subject::DeviceData(name) => {
                let place = place_in(devices, name.as_str());
                if let Some(ages) = ages_at(alloc, &mut self.devices, place, devices.len())? {
                    ages.given(metrics, now);
                }
                Ok(())
            }
            Subject::DeviceDeath(_) => Ok(()),
        }
    }
}
