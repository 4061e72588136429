//! Laws of what calls answer. The functions do nothing.

ghost use Rattle.std.specs.Prelude.{◌≡◌, ℕ, List, Bool, drop};
ghost use Rattle.fleet_core.specs.Core.{World, pending};
ghost use Rattle.fleet_book.specs.declared.order.Order.{Order};
ghost use Rattle.fleet_c.specs.Answers.{Gives, IsShut, IsTicked, IsTurned, Orders, Widens};
ghost use Rattle.fleet_c.specs.Batches.{AreTaken, AreGiven, without_many};
ghost use Rattle.fleet_c.specs.Roomy.{IsSameFleet, LetsIn};
ghost use Rattle.fleet_c.specs.declared.judgement.Judgement.{Judgement};
ghost use Rattle.fleet_c.specs.declared.note.Note.{Note};
ghost use Rattle.fleet_c.specs.declared.report.Report.{Report};
ghost use Rattle.fleet_c.specs.declared.request.Request.{Request};

/// After n gives a client's mailbox has the notices that came after the first n.
fn gives_leave_the_rest<A>()
    ensures { (w : World A) (client n : ℕ) → (pending (without_many w client n) client).notices ≡ drop n (pending w client).notices }
{}

/// No call changes a fleet's map, nor how many robots it has: so the cells that it refuses, which no call changes either,
/// are those that are not roomy for its robots for as long as it is open. Nor does one change which turns they take: none,
/// as at its opening.
fn calls_keep_the_fleet<A>()
    ensures goes { (cells : List Bool) (w n : World A) (client code : ℕ) (order : Order) (told : Judgement) → LetsIn cells w client order code told n → IsSameFleet w n }
    ensures orders { (w n : World A) (client code : ℕ) (order : Order) (told : Judgement) → Orders w client order code told n → IsSameFleet w n }
    ensures batches { (cells : List Bool) (w n : World A) (requests : List Request) (before after : List Judgement) (code count : ℕ) →
        AreTaken cells w requests before after code count n → IsSameFleet w n }
    ensures ticks { (w n : World A) (code : ℕ) (report : Report) → IsTicked w code report n → IsSameFleet w n }
    ensures shuts { (w n : World A) (robot code : ℕ) (left : Bool) → IsShut w robot code left n → IsSameFleet w n }
    ensures gives { (w n : World A) (client code : ℕ) (note : Note) → Gives w client code note n → IsSameFleet w n }
    ensures gives_many { (w n : World A) (client count : ℕ) (before after : List Note) → AreGiven w client before after count n → IsSameFleet w n }
    ensures widens { (w n : World A) (client extra code : ℕ) → Widens w client extra code n → IsSameFleet w n }
    ensures turns { (w n : World A) (code : ℕ) → IsTurned w code n → IsSameFleet w n }
{}
