//! Laws of the definitions.
ghost use Rattle.std.specs.Prelude.{◌≡◌, ◌≢◌, ◌⊎◌, ◌==◌, ℕ, Bool, List, [], Some, true, false, map, if◌then◌else◌};
ghost use Rattle.std.specs.List.{filter, list_all, list_any};
ghost use Rattle.spk_packets.specs.Message.{Message, Subscribe};
ghost use Rattle.spk_access.specs.Rights.{RightsData, may_subscribe};
ghost use Rattle.spk_door.specs.Data.{DoorData};
ghost use Rattle.spk_door.specs.Rules.{allowed, lets};
ghost use Rattle.spk_visitor.specs.Data.{StageData, Cuts, Inside, Over};
ghost use Rattle.spk_visitor.specs.Replies.{woven};
ghost use Rattle.spk_visitor.specs.Rules.{client_of, is_bounded, outcome};

/// What goes on to the broker may be sent by what its client may do then, and the filters of a SUBSCRIBE that goes on are allowed. What a client that came in may
/// do stays so until its end.
pub fn what_goes_on_is_let()
    ensures sent { (d : DoorData) (s : StageData) (packet : List ℕ) (p q : Message)
        → (outcome d s packet p).passes ≡ Some q → (r : RightsData)
        × ((outcome d s packet p).stage ≡ Inside r) × (lets r d.guard q ≡ true) }
    ensures filters { (d : DoorData) (r : RightsData) (packet : List ℕ) (p : Message) (id : ℕ)
        (entries : List (List ℕ × ℕ))
        → (outcome d (Inside r) packet p).passes ≡ Some (Subscribe id entries)
        → list_all (λ e. may_subscribe r e.0) entries ≡ true }
    ensures stays { (d : DoorData) (r : RightsData) (packet : List ℕ) (p : Message)
        → ((outcome d (Inside r) packet p).stage ≡ Inside r)
        ⊎ ((outcome d (Inside r) packet p).stage ≡ Over) }
{
    spk_door::laws::what_passes_is_let();
}

/// Clients of two users never have one session: where no user's name has a colon, a client identifier under which the broker knows a client tells its user and
/// the identifier that it sent. An empty one isn't known to the broker, which makes one of its own (3.1.3.1).
pub fn users_have_sessions_of_their_own()
    ensures { (one other first second : List ℕ) → list_any (λ c. c == 58) one ≡ false
        → list_any (λ c. c == 58) other ≡ false → first ≢ []
        → client_of (Some one) first ≡ client_of (Some other) second
        → (one ≡ other) × (first ≡ second) }
{}

/// In the SUBACK that a client gets of a SUBSCRIBE that was cut each entry that is allowed has the code that the broker granted it, and each other one 128 (section
/// 3.9.3).
pub fn each_entry_has_its_code()
    ensures { (r : RightsData) (granted : List ℕ × ℕ → ℕ) (entries : List (List ℕ × ℕ))
        → woven (allowed r entries) (map granted (filter (λ e. may_subscribe r e.0) entries))
        ≡ map (λ e. if may_subscribe r e.0 then granted e else 128) entries }
{}

/// A SUBSCRIBE is cut only of a client that has filters of its own: what the broker writes to any other goes on as it is.
pub fn only_the_bounded_are_cut()
    ensures { (d : DoorData) (s : StageData) (packet : List ℕ) (p : Message) (id : ℕ) (each : List Bool)
        → (outcome d s packet p).answer ≡ Cuts id each → is_bounded s ≡ true }
{}
