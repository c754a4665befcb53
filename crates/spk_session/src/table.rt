//! Ids in front of a table, in the order in which they were given.
ghost use Rattle.std.specs.Prelude.{◌≡◌, ◌≤◌, length, take};
ghost use Rattle.spk_session.specs.Step.{without};

/// Closes the gap that an id leaves among the first `count`, and says how many stay.
pub(crate) fn remove(table: &mut [u16], count: usize, id: u16) -> usize
    requires { count ≤ length table.old }
    ensures front { take result table.new ≡ without id (take count table.old) }
    ensures fewer { result ≤ count }
{
    let mut kept = 0;
    for place in 0..count {
        let other = table[place];
        if other != id {
            table[kept] = other;
            kept += 1;
        }
    }
    kept
}
