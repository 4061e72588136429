//! The letters of a map.

ghost use Rattle.std.specs.Prelude.{◌≡◌};
ghost use Rattle.fleet_grid.specs.Floor.{is_floor_letter};

/// Whether the letter is floor: `.`, `G` or `S`.
pub(crate) fn is_floor_byte(letter: u8) -> bool
    ensures { result ≡ is_floor_letter letter }
{
    letter == b'.' || letter == b'G' || letter == b'S'
}
