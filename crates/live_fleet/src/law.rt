//! What holds of a fleet of many conversations, whatever it hears. The body of a law is empty: its contract is the law.

ghost use Rattle.live_fleet.specs.Law.{EachBeginsCounted, EachBeginsInTime, EachEndIsLast, EachFirstIsInTime, EachFollows, EachGoesOn, EachIsCounted, EachIsKept, EachIsSafe, EachIsToldOnce, EachIsToldRight, EachListIsWhole, EachTurnIsShownLast};

/// Whatever a fleet hears, and whatever readers take in between, what it does is a run of the core, and the status is
/// what that run says. Where readers take nothing, what each conversation is told and the chapters that are handed out
/// are too.
pub fn whatever_it_hears_is_a_run()
    ensures { EachGoesOn }
{}

/// Each history that is handed out is legal, and begins where the one before ended.
pub fn histories_follow_one_another()
    ensures { EachFollows }
{}

/// In each history that is handed out no step has a conflict, arrivals come in order with rising numbers, nothing is
/// accepted after a close, and notices are numbered one after another. Where all errands go to roomy cells each tick is
/// advancing, and each wait below the bound if the opening's waits leave room for it.
pub fn histories_are_safe()
    ensures { EachIsSafe }
{}

/// Each notice is told to a conversation that speaks for its client, and to no other; and none is collected that is not
/// told.
pub fn notices_are_told_to_their_own()
    ensures { EachIsToldRight }
{}

/// Each notice of a client is told once, and in order.
pub fn notices_are_told_once()
    ensures { EachIsToldOnce }
{}

/// What can be told a client again is the last of what it was told, in order.
pub fn notices_are_kept()
    ensures { EachIsKept }
{}

/// How many notices a client was told is the number of the last one; those that wait for it have the numbers after that.
pub fn notices_are_counted()
    ensures counted { EachIsCounted }
    ensures begins { EachBeginsCounted }
{}

/// The first notice that can be told a client again is at most the one after all that it was told.
pub fn first_notices_are_in_time()
    ensures stays { EachFirstIsInTime }
    ensures begins { EachBeginsInTime }
{}

/// The open errands of a client that are told line by line are the text that `fleet talk` says at once.
pub fn lists_are_told_whole()
    ensures { EachListIsWhole }
{}

/// A turn tells its notices first, and then those who watch where the robots stand.
pub fn turns_are_shown_last()
    ensures { EachTurnIsShownLast }
{}

/// Once it is said to a conversation that the fleet ended, no notice is left for its clients.
pub fn ends_are_told_last()
    ensures { EachEndIsLast }
{}
