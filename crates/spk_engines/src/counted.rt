//! Readers and writers whose turns are counted.
ghost use Rattle.std.specs.Prelude.{◌≡◌, ◌+◌, ◌<◌, [], ◌∷◌, ◌++◌, None, IfSome};
ghost use Rattle.std.specs.Io.{ReadsAtMost, WritesAtMost};
ghost use Rattle.std.specs.Io.KnownBytes.{ReadConsumes, WriteAppends};
ghost use Rattle.spk_rings.specs.Ring.{SameInlet, ahead, popped};
ghost use Rattle.spk_engines.specs.Counted.{taken};

use spk_rings::{Inlet, Item};
use std::io::{Read, Write};
use std::{fmt, io};

/// A reader or writer, and how many turns the last engine took over it. A turn is one call of the reader's `read`, of the
/// writer's `write`, or of `Inlet::next`.
#[derive(Drop)]
pub struct Counted<S> {
    pub device: S,
    taken: u64,
}

impl<S> fmt::Debug for Counted<S> {
    fn fmt<W: fmt::Write>(&self, f: &mut fmt::Formatter<W>) -> fmt::Result {
        f.write_str("Counted { .. }")
    }
}

impl<S> Counted<S> {
    /// Over a device, without a turn so far.
    pub fn new(device: S) -> Counted<S>
        ensures device { result.device ≡ device }
        ensures none { taken result ≡ 0 }
    {
        Counted { device, taken: 0 }
    }

    /// How many turns the last engine took.
    pub fn taken(&self) -> u64
        ensures { result ≡ taken self.now }
    {
        self.taken
    }

    /// An engine begins.
    pub(crate) fn begin(&mut self)
        ensures device { self.new.device ≡ self.old.device }
        ensures none { taken self.new ≡ 0 }
    {
        self.taken = 0;
    }
}

impl<S: Read> Counted<S> {
    /// One read, which is one of so many turns.
    pub(crate) fn read(&mut self, buf: &mut [u8], turns: u64) -> io::Result<usize>
        requires { taken self.old < turns }
        ensures taken { taken self.new ≡ taken self.old + 1 }
        ensures bound { ReadsAtMost result buf.new }
        ensures bytes { ReadConsumes (S.remaining self.old.device) (S.remaining self.new.device)
            result buf.new }
    {
        self.taken += 1;
        self.device.read(buf)
    }
}

impl<W: Write> Counted<W> {
    /// One write, which is one of so many turns.
    pub(crate) fn write(&mut self, buf: &[u8], turns: u64) -> io::Result<usize>
        requires { taken self.old < turns }
        ensures taken { taken self.new ≡ taken self.old + 1 }
        ensures bound { WritesAtMost result buf.now }
        ensures bytes { WriteAppends (W.contents self.old.device) (W.contents self.new.device)
            result buf.now }
    {
        self.taken += 1;
        self.device.write(buf)
    }

    /// One look into a ring, which is one of so many turns.
    pub(crate) fn look(&mut self, inlet: &mut Inlet, turns: u64) -> Option<Item>
        requires { taken self.old < turns }
        ensures taken { taken self.new ≡ taken self.old + 1 }
        ensures device { self.new.device ≡ self.old.device }
        ensures end { SameInlet inlet.old inlet.new }
        ensures some { IfSome result (λ x. popped inlet.new ≡ popped inlet.old ++ x ∷ []) }
        ensures none { result ≡ None → (popped inlet.new ≡ popped inlet.old)
            × (ahead inlet.new ≡ []) }
    {
        self.taken += 1;
        inlet.next()
    }
}
