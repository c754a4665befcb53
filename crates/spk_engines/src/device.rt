//! Readers and writers that can fail for good.
ghost use Rattle.std.specs.Prelude.{◌≡◌, ℕ};

/// A reader or writer that counts its failures. An error without a rise of the count, as an interrupt, is passed over.
pub trait Failures {
    ghost count: { Self → ℕ };

    /// How many failures there were.
    fn failures(&self) -> u64
        ensures { result ≡ count self.now };
}
