//! How much a broker keeps.
ghost use Rattle.std.specs.Prelude.{◌≡◌, length};

use crate::broker::Broker;

impl Broker {
    /// How many sessions there are, clean and kept ones, with and without a connection (section 3.1.2.4).
    pub fn sessions(&self) -> usize
        ensures { result ≡ length self.now.sessions }
    {
        self.state.sessions.len()
    }

    /// How many topics have a retained message (section 3.3.1.3).
    pub fn retained(&self) -> usize
        ensures { result ≡ length self.now.retained }
    {
        self.state.retained.len()
    }

    /// The broker's clock, in milliseconds: the greatest moment of a call so far.
    pub fn clock(&self) -> u64
        ensures { result ≡ self.now.clock }
    {
        self.state.clock
    }
}
