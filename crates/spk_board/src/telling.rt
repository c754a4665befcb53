//! What a board is told.
ghost use Rattle.std.specs.Prelude.{◌≡◌, ℕ, None, Some, OnOk, OnErr, slice_get};
ghost use Rattle.spk_story.specs.Events as event;
ghost use Rattle.spk_board.specs.declared.happened.What.TheVariants as what;
ghost use Rattle.spk_board.specs.Deeds.{Does, Told};
ghost use Rattle.spk_board.specs.Happening.{birth_by, birth_noted, noted, request_noted};

use crate::board::Board;
use crate::happened::What;
use spk_story::{Loss, Story};
use std::alloc::AllocError;

/// What a birth of a node is that has this story before it.
fn birth_of(story: &Story) -> What
    ensures { result ≡ birth_by story.now.hole story.now.born_at }
{
    match story.hole() {
        Some(hole) => What::Mended(hole),
        None if story.born_at().is_none() => What::Born,
        None => What::BornAgain,
    }
}

impl Board {
    /// The story of the node at a place has a birth.
    fn bear(&mut self, place: usize, now: u64)
        ensures stories { Does (Told place (event.Born now)) self.old.stories self.new.stories }
        ensures same { self.new ≡ record self.old { stories = self.new.stories } }
    {
        if place < self.stories.len() {
            self.stories[place].born(now);
        }
    }

    /// It has a gap.
    fn lose(&mut self, place: usize, now: u64)
        ensures stories { Does (Told place (event.Gap now)) self.old.stories self.new.stories }
        ensures same { self.new ≡ record self.old { stories = self.new.stories } }
    {
        if place < self.stories.len() {
            self.stories[place].gap(now);
        }
    }

    /// It has the death of its session.
    fn end(&mut self, place: usize, now: u64)
        ensures stories { Does (Told place (event.Died now)) self.old.stories self.new.stories }
        ensures same { self.new ≡ record self.old { stories = self.new.stories } }
    {
        if place < self.stories.len() {
            self.stories[place].died(now);
        }
    }

    /// It has a request.
    fn ask(&mut self, place: usize, _now: u64)
        ensures stories { Does (Told place (event.Asked _now)) self.old.stories self.new.stories }
        ensures same { self.new ≡ record self.old { stories = self.new.stories } }
    {
        if place < self.stories.len() {
            self.stories[place].asked();
        }
    }

    /// An NBIRTH of the node at a place was consumed.
    pub fn born(&mut self, place: usize, now: u64) -> Result<(), AllocError>
        ensures stories { OnOk result (Does (Told place (event.Born now))
            self.old.stories self.new.stories) }
        ensures events { OnOk result (self.new
            ≡ record (birth_noted place now (slice_get self.old.stories place) self.old) {
              stories = self.new.stories;
            }) }
        ensures err { OnErr result (self.new ≡ self.old) }
    {
        if place >= self.stories.len() {
            return Ok(());
        }
        let what = birth_of(&self.stories[place]);
        self.note(Some(place), what, now)?;
        self.bear(place, now);
        Ok(())
    }

    /// Another message of it was consumed.
    pub fn used(&mut self, place: usize, now: u64)
        ensures stories { Does (Told place (event.Used now)) self.old.stories self.new.stories }
        ensures same { self.new ≡ record self.old { stories = self.new.stories } }
    {
        if place < self.stories.len() {
            self.stories[place].used(now);
        }
    }

    /// Messages of it that were held are dropped.
    pub fn dropped(&mut self, place: usize, loss: Loss, now: u64)
        ensures stories { Does (Told place (event.Dropped loss now))
            self.old.stories self.new.stories }
        ensures same { self.new ≡ record self.old { stories = self.new.stories } }
    {
        if place < self.stories.len() {
            self.stories[place].dropped(loss, now);
        }
    }

    /// Messages of it were lost.
    pub fn gap(&mut self, place: usize, now: u64) -> Result<(), AllocError>
        ensures stories { OnOk result (Does (Told place (event.Gap now))
            self.old.stories self.new.stories) }
        ensures events { OnOk result (self.new ≡ record (noted (Some place) what.Lost now self.old) {
          stories = self.new.stories;
        }) }
        ensures err { OnErr result (self.new ≡ self.old) }
    {
        self.note(Some(place), What::Lost, now)?;
        self.lose(place, now);
        Ok(())
    }

    /// The NDEATH of its session came.
    pub fn died(&mut self, place: usize, now: u64) -> Result<(), AllocError>
        ensures stories { OnOk result (Does (Told place (event.Died now))
            self.old.stories self.new.stories) }
        ensures events { OnOk result (self.new ≡ record (noted (Some place) what.Died now self.old) {
          stories = self.new.stories;
        }) }
        ensures err { OnErr result (self.new ≡ self.old) }
    {
        self.note(Some(place), What::Died, now)?;
        self.end(place, now);
        Ok(())
    }

    /// An NDEATH of it came that changes nothing, at whatever moment.
    pub fn ignored(&mut self, place: usize)
        ensures stories { (now : ℕ) → Does (Told place (event.Ignored now))
            self.old.stories self.new.stories }
        ensures same { self.new ≡ record self.old { stories = self.new.stories } }
    {
        if place < self.stories.len() {
            self.stories[place].ignored();
        }
    }

    /// A rebirth of it was asked for. It is told once while the node stands as it does.
    pub fn asked(&mut self, place: usize, now: u64) -> Result<(), AllocError>
        ensures stories { OnOk result (Does (Told place (event.Asked now))
            self.old.stories self.new.stories) }
        ensures events { OnOk result (self.new
            ≡ record (request_noted place now (slice_get self.old.stories place) self.old) {
              stories = self.new.stories;
            }) }
        ensures err { OnErr result (self.new ≡ self.old) }
    {
        if place >= self.stories.len() {
            return Ok(());
        }
        let since = self.stories[place].since();
        if !self.is_asking(place, since) {
            self.note(Some(place), What::Asked, now)?;
        }
        self.ask(place, now);
        Ok(())
    }

    /// A message was refused, with this number.
    pub fn refused(&mut self, number: u32, now: u64) -> Result<(), AllocError>
        ensures ok { OnOk result (self.new ≡ noted None (what.Refused number) now self.old) }
        ensures err { OnErr result (self.new ≡ self.old) }
    {
        self.note(None, What::Refused(number), now)
    }

    /// The broker turned the host away, with this code.
    pub fn turned_away(&mut self, code: u8, now: u64) -> Result<(), AllocError>
        ensures ok { OnOk result (self.new ≡ noted None (what.TurnedAway code) now self.old) }
        ensures err { OnErr result (self.new ≡ self.old) }
    {
        self.note(None, What::TurnedAway(code), now)
    }

    /// The broker refused the subscription.
    pub fn not_subscribed(&mut self, now: u64) -> Result<(), AllocError>
        ensures ok { OnOk result (self.new ≡ noted None what.NotSubscribed now self.old) }
        ensures err { OnErr result (self.new ≡ self.old) }
    {
        self.note(None, What::NotSubscribed, now)
    }

    /// The host's own session is over, in which it followed the node at a place.
    pub fn away(&mut self, place: usize, now: u64)
        ensures stories { Does (Told place (event.Ended now)) self.old.stories self.new.stories }
        ensures same { self.new ≡ record self.old { stories = self.new.stories } }
    {
        if place < self.stories.len() {
            self.stories[place].ended(now);
        }
    }

    /// The host's own session is over: it is told, beside `away` of each of its nodes.
    pub fn ended(&mut self, now: u64) -> Result<(), AllocError>
        ensures ok { OnOk result (self.new ≡ noted None what.Ended now self.old) }
        ensures err { OnErr result (self.new ≡ self.old) }
    {
        self.note(None, What::Ended, now)
    }
}
