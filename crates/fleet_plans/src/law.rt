//! Laws of valid plans.

ghost use Rattle.std.specs.Prelude.{◌≡◌, ◌<◌, ℕ, List, [], Ok, length};
ghost use Rattle.fleet_grid.specs.Floor.{Floor};
ghost use Rattle.fleet_grid.specs.Step.{IsPlacement};
ghost use Rattle.fleet_plans.specs.Grammar.{AreFew, HasPaths, IsHead, IsSchedule, IsTable, ArePlaces, AreTracks};
ghost use Rattle.fleet_plans.specs.Head.{Head, Opened, blank_head, head_of};
ghost use Rattle.fleet_plans.specs.Leads.{Leads};
ghost use Rattle.fleet_plans.specs.Places.{places_of};
ghost use Rattle.fleet_plans.specs.Schedule.{schedule_of};
ghost use Rattle.fleet_plans.specs.Table.{Trails, paths_of, table_of};
ghost use Rattle.fleet_plans.specs.Tracks.{moved, tracks_of};
ghost use Rattle.fleet_plans.specs.Valid.{place_at, IsValidPlan};

/// At each time of a valid plan there are as many robots as at its start, on distinct floor cells.
pub fn robots_stay_apart()
    ensures placed { (m : Floor) (places : List (List ℕ)) (t : ℕ) → IsValidPlan m places → t < length places → IsPlacement m (place_at places t) }
    ensures one_fleet { (m : Floor) (places : List (List ℕ)) (t : ℕ) → IsValidPlan m places → t < length places → length (place_at places t) ≡ length (place_at places 0) }
{}

/// What is read of a text with a head is what its lines say: the lines before `solution=` are the head; those after it
/// are a line for each time, or one for each robot.
pub fn a_text_is_by_its_lines()
    ensures head { (w h : ℕ) (lines : List (List ℕ)) (o : Opened) → head_of w h blank_head 1 lines ≡ Ok o → IsHead w h lines o }
    ensures places { (w h : ℕ) (head : Head) (number : ℕ) (lines places : List (List ℕ)) → places_of w h head [] number lines ≡ Ok places → ArePlaces w h head lines places }
    ensures tracks { (robots number : ℕ) (lines tracks : List (List ℕ)) → tracks_of robots [] number lines ≡ Ok tracks → AreTracks robots lines tracks }
{}

/// The paths that are read of a table are what its lines say: each line puts a robot at a time on a cell, and no path has
/// another cell.
pub fn a_table_is_by_its_lines()
    ensures { (w h : ℕ) (lines : List (List ℕ)) (t : Trails) → table_of w h lines ≡ Ok t → IsTable w h lines (paths_of t) }
{}

/// The paths that are read of YAML are what its lines say: each line `t: TIME` puts the robot that was named last on the
/// cell that the lines before it say, and in their order these are the cells of the paths. Each text of which that holds
/// is read, unless it has more robots or longer paths than any text that is read.
pub fn a_schedule_is_by_its_lines()
    ensures only { (w h : ℕ) (lines : List (List ℕ)) (t : Trails) → schedule_of w h 1 lines ≡ Ok t → IsSchedule w h lines (paths_of t) }
    ensures each { (w h : ℕ) (lines paths : List (List ℕ)) → AreFew paths → IsSchedule w h lines paths → HasPaths w h lines paths }
{}

/// A letter leads to the next cell in its direction, or off the map if there is none; with `w` a robot stays, and off
/// the map with any letter. Nothing else is where it leads.
pub fn letters_lead_to_the_next_cell()
    ensures leads { (w h cell letter : ℕ) → Leads w h cell letter (moved w h cell letter) }
    ensures only { (w h cell letter a b : ℕ) → Leads w h cell letter a → Leads w h cell letter b → a ≡ b }
{}
