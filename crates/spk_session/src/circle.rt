//! The circle of packet identifiers, on which 1 follows 65,535 (MQTT 3.1.1, 2.3.1).
ghost use Rattle.std.specs.Prelude.{◌≡◌, ℕ, ◌+◌, ◌<◌, ◌≤◌, length, get_or, replicate, false};
ghost use Rattle.std.specs.List.{All, prefix_len, count_by};
ghost use Rattle.spk_session.specs.PacketIds.{id_after, is_in, next_id, IsId, IsNextFree};

/// How many ids behind the last one given are looked at: one more than there can be in use.
const LOOKED_AT: usize = 1025;

/// The id behind `last` with so many others between.
fn id_after(last: u16, steps: u16) -> u16
    ensures { result ≡ id_after last steps }
{
    ((u32::from(last) + u32::from(steps)) % 65535 + 1) as u16
}

/// How many others stand between `last` and an id.
fn steps_to(last: u16, id: u16) -> u16
    requires { 1 ≤ id }
    ensures bounded { result < 65535 }
    ensures there { id_after last result ≡ id }
{
    ((u32::from(id) + 65534 - u32::from(last)) % 65535) as u16
}

/// Marks which of the ids behind `last` are in use.
fn mark(taken: &mut [bool], used: &[u16], last: u16)
    requires clear { taken.old ≡ replicate (length taken.old) false }
    requires ids { All IsId used.now }
    requires short { length taken.old < 65535 }
    ensures marked { (k : ℕ) → k < length taken.old
        → get_or taken.new k false ≡ is_in used.now (id_after last k) }
    ensures few { count_by (λ b. b) taken.new ≤ length used.now }
{
    for id in used {
        let steps = usize::from(steps_to(last, *id));
        if steps < taken.len() {
            taken[steps] = true;
        }
    }
}

/// The first place that isn't marked, or the length where all are.
fn first_unmarked(taken: &[bool]) -> usize
    ensures { result ≡ prefix_len (λ b. b) taken.now }
{
    for (place, is_taken) in taken.iter().enumerate() {
        if !*is_taken {
            return place;
        }
    }
    taken.len()
}

/// The first id behind `last` that isn't in use.
pub(crate) fn next_id(used: &[u16], last: u16) -> u16
    requires few { length used.now < 1025 }
    requires ids { All IsId used.now }
    ensures value { result ≡ next_id used.now last }
    ensures next { IsNextFree used.now last result }
{
    let mut taken = [false; LOOKED_AT];
    mark(&mut taken, used, last);
    let steps = first_unmarked(&taken);
    id_after(last, steps as u16)
}
