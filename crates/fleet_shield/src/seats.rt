//! Lists that are read in reverse: for each value the place where it stands.

ghost use Rattle.std.specs.Prelude.{◌≡◌, ◌≢◌, ℕ, ◌<◌, ◌≤◌, length, slice_index, MatchOption, OnOk, IfErr};
ghost use Rattle.fleet_shield.specs.Wishes.{AreApart};
ghost use Rattle.fleet_shield.specs.Fault.{IsFirstTwice};
ghost use Rattle.fleet_shield.specs.inside.Entered.{IsEntered};

/// The place of a value in a list, by a table that has the place of each value of the list at the value. What the table
/// has at other values does not matter: so it need never be cleared.
pub(crate) fn place_of(list: &[u32], table: &[u32], value: u32) -> Option<u32>
    requires entered { IsEntered list.now table.now }
    requires inside { value < length table.now }
    ensures { MatchOption result
        ((k : ℕ) → k < length list.now → slice_index list.now k ≢ value)
        (λ k. (k < length list.now) × (slice_index list.now k ≡ value)) }
{
    let place = table[value as usize];
    if (place as usize) < list.len() && list[place as usize] == value {
        Some(place)
    } else {
        None
    }
}

/// Enters the place of each value of a list into a table; or returns the first place whose value an earlier place has,
/// after that place.
pub(crate) fn enter_all(list: &[u32], table: &mut [u32]) -> Result<(), (u32, u32)>
    requires few { length list.now ≤ 4294967295 }
    requires inside { (k : ℕ) → k < length list.now → slice_index list.now k < length table.old }
    ensures same_length { length table.new ≡ length table.old }
    ensures entered { OnOk result (IsEntered list.now table.new) }
    ensures apart { OnOk result (AreApart list.now (length list.now)) }
    ensures twice { IfErr result (λ p. IsFirstTwice list.now p.0 p.1) }
{
    for place in 0..list.len() as u32 {
        let value = list[place as usize];
        let before = table[value as usize];
        if before < place && list[before as usize] == value {
            return Err((before, place));
        }
        table[value as usize] = place;
    }
    Ok(())
}
