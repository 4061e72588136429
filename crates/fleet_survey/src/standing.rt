//! Which errands the promises on waits are for.

ghost use Rattle.std.specs.Prelude.{length};
ghost use Rattle.fleet_survey.specs.Survey.{IsStandingBy};

/// For which errands it is promised that the robot that has waited longest comes nearer at every tick, and that every
/// wait is below a bound.
#[derive(Clone, Copy, Debug, PartialEq, Eq)]
pub enum Standing {
    /// For all, since the map has no bridge.
    Bridgeless,
    /// For all, since all floor cells are roomy.
    AllRoomy,
    /// If all errands go to roomy cells.
    SomeRoomy,
    /// For none, since no cell is roomy.
    NoneRoomy,
}

/// Which errands the promises are for, by the lists of bridges and of cells that are roomy and not.
pub(crate) fn standing_of(
    bridges: &Vec<(u32, u32)>,
    roomy: &Vec<u32>,
    unroomy: &Vec<u32>,
) -> Standing
    ensures { IsStandingBy (length bridges.now.items) (length roomy.now.items) (length unroomy.now.items) result }
{
    if bridges.is_empty() {
        Standing::Bridgeless
    } else if unroomy.is_empty() {
        Standing::AllRoomy
    } else if roomy.is_empty() {
        Standing::NoneRoomy
    } else {
        Standing::SomeRoomy
    }
}
