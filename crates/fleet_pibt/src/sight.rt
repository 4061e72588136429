//! What the plan of one step sees, without the map, the goals and the closures from which this is made.

ghost use Rattle.std.specs.Prelude.{◌≡◌, ℕ, ◌<◌};
ghost use Rattle.fleet_pibt.specs.inside.Setting.{Setting, cell_of, robots, IsScene, IsChoices};

/// What the plan of one step sees.
pub(crate) trait Sight {
    ghost setting: { Self → Setting };

    ghost is_whole: { Self → Type 0 };

    /// The robot's cell before the step.
    fn cell_of(&self, robot: u32) -> u32
        requires whole { is_whole self.now }
        requires known { robot < robots (setting self.now) }
        ensures { result ≡ cell_of (setting self.now) robot };

    /// The cells that the robot may take, in the order in which it tries them.
    fn choices(&self, robot: u32) -> [u32; 5]
        requires whole { is_whole self.now }
        requires known { robot < robots (setting self.now) }
        ensures { IsChoices (setting self.now) robot result };

    ghost is_scene: { (s : Self) → is_whole s → IsScene (setting s) };
}
