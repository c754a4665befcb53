//! Laws of the definitions.
ghost use Rattle.std.specs.Prelude.{◌≡◌, ℕ, Bool, List, Option};
ghost use Rattle.spk_packets.specs.Grammar.{IsConnect, Spells};
ghost use Rattle.spk_packets.specs.Message.{Connect, WillData};
ghost use Rattle.spk_credentials.specs.Credentials.{password_of, user_of};

/// Of bytes that spell a CONNECT: what they say of a user name and a password is what stands there by the grammar of MQTT 3.1.1 (`spk_packets`), in its body.
pub fn what_a_connect_holds()
    ensures { (packet client : List ℕ) (clean : Bool) (keep : ℕ) (will : Option WillData)
        → Spells packet (Connect client clean keep will) → (body : List ℕ)
        × (c : IsConnect body client clean keep will) × (user_of packet ≡ c.user)
        × (password_of packet ≡ c.password) }
{}
