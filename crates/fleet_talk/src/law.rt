//! Laws of conversations. The functions do nothing.

ghost use Rattle.std.specs.Prelude.{◌≡◌, ℕ, Bool, List, map, None, Ok, IfSome};
ghost use Rattle.std.specs.List.{list_any};
ghost use Rattle.std.specs.declared.alloc.Global.{Global};
ghost use Rattle.fleet_grid.specs.Floor.{Floor};
ghost use Rattle.fleet_book.specs.declared.event.Event.{Event};
ghost use Rattle.fleet_book.specs.declared.limits.Limits.{Limits};
ghost use Rattle.fleet_core.specs.Hooks.{HookLaws, AreOrderly};
ghost use Rattle.fleet_core.specs.Opening.{CanOpen};
ghost use Rattle.fleet_script.specs.Script.{Draft, Plan, script_of};
ghost use Rattle.fleet_world.specs.declared.reply.Reply.{Reply};
ghost use Rattle.fleet_world.specs.Run.{State, Run, opened_state};
ghost use Rattle.fleet_text.specs.Kit.{KitLaws, chosen_laws};
ghost use Rattle.fleet_text.specs.Output.{is_limit_met, run_text};
ghost use Rattle.fleet_world.specs.Talk.{forget, opened_talk};
ghost use Rattle.fleet_talk.specs.Act.{play};
ghost use Rattle.fleet_talk.specs.Acts.{Talks};
ghost use Rattle.fleet_talk.specs.Chapters.{ChapterView};
ghost use Rattle.fleet_talk.specs.Conversation.{IsConversation, NamesLimits, head_in, plain_terms};
ghost use Rattle.fleet_talk.specs.declared.ends.Settings.{Settings};
ghost use Rattle.fleet_talk.specs.Fleet.{Fleet, opened_fleet};
ghost use Rattle.fleet_talk.specs.Heads.{IsHead};
ghost use Rattle.fleet_talk.specs.Heard.{AreShort, head_of};

/// A conversation in which no chapter is handed out is a run: from the opening on, it prints what `errands run` prints
/// for the same events from the same opening, ends in the same world, and meets a limit exactly if the run does.
pub fn a_conversation_is_a_run<A>()
    ensures { (m : Floor) (starts : List ℕ) (clients : ℕ) (limits : Limits) (laws : HookLaws) (events : List Event) (text : List ℕ) (t : Fleet A) →
        CanOpen m starts clients limits laws → AreOrderly laws → Talks None (opened_fleet (opened_talk m starts clients limits laws)) (map (play None) events) text t →
        (replies : List Reply) × (last : State A) × Run (opened_state m starts clients limits laws) events replies last × (forget last ≡ t.talk)
        × (t.met ≡ list_any is_limit_met replies) × (text ≡ run_text events replies last.world.history.entries) }
{}

/// A correct script, sent as a conversation, is a run: everything that is written is what `errands run` prints for its
/// events, and a limit is met exactly if one is there.
///
/// Conditions: no line is too long; the head names the four limits whose defaults differ in a conversation; no marks
/// are asked for, and no chapter is handed out unasked.
pub fn a_script_is_a_run()
    ensures { (kit : KitLaws) (m : Floor) (bytes text : List ℕ) (chapters : List (ChapterView Global)) (met : Bool) (plan : Plan) →
        script_of bytes ≡ Ok plan → AreShort bytes → IfSome (head_in (plain_terms kit m) bytes).opening (λ o. NamesLimits o.head) → IsConversation (plain_terms kit m) bytes text chapters met →
        (replies : List Reply) × (last : State Global) × Run (opened_state m plan.starts plan.clients plan.limits (chosen_laws kit plan)) plan.events replies last
        × (met ≡ list_any is_limit_met replies) × (text ≡ run_text plan.events replies last.world.history.entries) }
{}

/// The head of a conversation: its first lines belong to it, each of which is a header line, a comment, blank, or bad;
/// and it ends with the input, at a line that says `quit`, or at the first line that asks something of a fleet whose
/// robots it named.
pub fn a_head_is_by_its_lines()
    ensures { (settings : Settings) (file : Draft) (lines : List (List ℕ)) → IsHead settings file lines (head_of settings file 1 lines) }
{}
