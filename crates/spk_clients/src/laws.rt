//! What holds of any clients.

ghost use Rattle.std.specs.Prelude.{◌≡◌, ℕ, false};
ghost use Rattle.std.specs.Option.{IfSome};
ghost use Rattle.spk_clients.specs.declared.clients.Clients.{Clients};
ghost use Rattle.spk_clients.specs.Client.{is_untold};
ghost use Rattle.spk_clients.specs.Data.{IsSettled, client_at};

/// Where the broker is told of every refused packet, no client has one of which it isn't told.
pub fn settled_are_told()
    ensures { (cs : Clients) (k : ℕ) → IsSettled cs → IfSome (client_at cs k) (λ c. is_untold c ≡ false) }
{}
