//! Whose a metric is.
ghost use Rattle.std.specs.Prelude.{◌≡◌};
ghost use Rattle.spk_device.specs.Book.{is_owner};

/// The owner of a metric: the edge node itself, or a device by its number, which counts from 0 in order of adding.
#[derive(Clone, Copy, Debug, PartialEq, Eq)]
pub enum Owner {
    /// The edge node.
    Node,
    /// The device of this number.
    Device(usize),
}

impl Owner {
    /// Whether two owners are one.
    pub fn is_same(self, other: Owner) -> bool
        ensures { result ≡ is_owner self other }
    {
        match (self, other) {
            (Owner::Node, Owner::Node) => true,
            (Owner::Device(m), Owner::Device(n)) => m == n,
            _ => false,
        }
    }
}
