//! A client's ring, and what its frames said of it.
ghost use Rattle.std.specs.Prelude.{◌≡◌, ℕ, ◌+◌, ◌<◌, ◌^◌, Bool, List, [], true, false, None, Some, IfOk};
ghost use Rattle.std.specs.Option.{OnSome, IfSome};
ghost use Rattle.spk_rings.specs.Ring.{offered};
ghost use Rattle.spk_rings.specs.declared.item.Item.{Item};
ghost use Rattle.spk_rings.specs.declared.outlet.Outlet.{Outlet};
ghost use Rattle.spk_plant_broker.specs.Holding.{FitsLine, OfferGives};
ghost use Rattle.spk_plant_broker.specs.Done.{IsTokenOf};

use spk_rings::{Bytes, Item, Outlet, Token};

/// A client's ring.
#[derive(Drop)]
pub(crate) struct Line {
    /// None once the ring is dropped.
    pub(crate) outlet: Option<Outlet>,
    /// The token of its dropping.
    pub(crate) token: Option<Token>,
    /// How many Cut frames of the client were taken.
    pub(crate) cuts: u64,
    /// Its End was taken.
    pub(crate) ended: bool,
}

impl Line {
    /// A new ring.
    pub(crate) fn new(outlet: Outlet) -> Line
        ensures { offered outlet ≡ [] → FitsLine outlet false [] 0 false result }
    {
        Line {
            outlet: Some(outlet),
            token: None,
            cuts: 0,
            ended: false,
        }
    }

    /// Offers a packet: whether the ring took it. None where the ring was dropped.
    pub(crate) fn offer(&mut self, bytes: Bytes) -> Option<bool>
        ensures { (first : Outlet) (dropped : Bool) (got : List Item) (cuts : ℕ) (ended : Bool)
            → FitsLine first dropped got cuts ended self.old
            → OfferGives first dropped got cuts ended bytes self.new result }
    {
        let Some(outlet) = &mut self.outlet else {
            return None;
        };
        let item = Item {
            bytes,
            cuts: self.cuts,
        };
        if outlet.offer(item).is_ok() {
            return Some(true);
        }
        Some(false)
    }

    /// Drops the ring.
    pub(crate) fn finish(&mut self)
        ensures { (first : Outlet) (dropped : Bool) (got : List Item) (cuts : ℕ) (ended : Bool)
            → FitsLine first dropped got cuts ended self.old
            → FitsLine first true got cuts ended self.new }
    {
        let Some(outlet) = self.outlet.take() else {
            return;
        };
        self.token = outlet.finish();
    }

    /// A Cut frame more.
    pub(crate) fn cut(&mut self)
        requires { self.old.cuts + 1 < 2 ^ 64 }
        ensures { (first : Outlet) (dropped : Bool) (got : List Item) (cuts : ℕ) (ended : Bool)
            → FitsLine first dropped got cuts ended self.old
            → FitsLine first dropped got (cuts + 1) ended self.new }
    {
        self.cuts += 1;
    }

    /// The token of the ring's dropping, which is dropped by now.
    pub(crate) fn into_token(mut self) -> Option<Token>
        ensures { (first : Outlet) (dropped : Bool) (got : List Item) (cuts : ℕ) (ended : Bool)
            → FitsLine first dropped got cuts ended self
            → IsTokenOf first result got }
    {
        self.finish();
        let Line { token, .. } = self;
        token
    }
}
