//! The end that takes.
ghost use Rattle.std.specs.Prelude.{◌≡◌, ◌<◌, ◌∷◌, [], ◌++◌, length, IfSome, None, IsSome};
ghost use Rattle.spk_rings.specs.Ring.{AreEnds, SameInlet, SameOutlet, SameToken, IsTokenOf, IsShorterBy, free, offered, popped, ahead, all_offered, StillAhead};

use crate::item::Item;
use crate::outlet::Outlet;
use crate::token::Token;
use rtrb::Consumer;
use std::fmt;

/// The end of a ring that takes items. Contracts see the list of all that it took.
#[derive(Drop)]
pub struct Inlet {
    pub(crate) end: Consumer<Item>,
}

impl fmt::Debug for Inlet {
    fn fmt<W: fmt::Write>(&self, f: &mut fmt::Formatter<W>) -> fmt::Result {
        f.write_str("Inlet { .. }")
    }
}

impl Inlet {
    /// The oldest item that is in the ring, if one is. It waits for nobody.
    pub fn next(&mut self) -> Option<Item>
        ensures end { SameInlet self.old self.new }
        ensures some { IfSome result (λ x. popped self.new ≡ popped self.old ++ x ∷ []) }
        ensures order { IfSome result (λ x. StillAhead (ahead self.old) (x ∷ ahead self.new)) }
        ensures none { result ≡ None → (popped self.new ≡ popped self.old) × (ahead self.new ≡ []) }
        ensures known { 0 < length (ahead self.old) → IsSome result }
    {
        self.end.pop().ok()
    }

    /// Whether the other end was dropped. Asked before `next`, a `true` and then `None` is the ring's end: the other order
    /// can miss the last item. No contract speaks of the answer.
    pub fn gone(&mut self) -> bool
        ensures end { SameInlet self.old self.new }
        ensures same { popped self.new ≡ popped self.old }
    {
        self.end.is_abandoned()
    }

    /// How many items are in the ring. Both must be ends of one ring.
    pub fn left(&mut self, outlet: &mut Outlet) -> usize
        requires { AreEnds outlet.old self.old }
        ensures shorter { IsShorterBy result (popped self.new) (offered outlet.new) }
        ensures ahead { result ≡ length (ahead self.new) }
        ensures inlet { SameInlet self.old self.new × (popped self.new ≡ popped self.old) }
        ensures outlet { SameOutlet outlet.old outlet.new
            × (offered outlet.new ≡ offered outlet.old) }
        ensures ends { AreEnds outlet.new self.new }
    {
        self.end.slots_beside(&mut outlet.end)
    }

    /// How many items are in the ring once its offers are ended. The token must be of the same ring.
    pub fn left_after(&mut self, token: &mut Token) -> usize
        requires { IsTokenOf token.old self.old }
        ensures shorter { IsShorterBy result (popped self.new) (all_offered token.new) }
        ensures ahead { result ≡ length (ahead self.new) }
        ensures inlet { SameInlet self.old self.new × (popped self.new ≡ popped self.old) }
        ensures token { SameToken token.old token.new }
        ensures still { IsTokenOf token.new self.new }
    {
        self.end.slots_after(&mut token.end)
    }
}
