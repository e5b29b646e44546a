//! Laws of handlers. Each is what an empty function ensures.
ghost use Rattle.std.specs.Prelude.{◌≡◌, ◌≢◌, ℕ, List, [], ◌∷◌, true, false, Some};
ghost use Rattle.ax_text.specs.declared.vocabulary.Answer.{Answer as AnyAnswer};
ghost use Rattle.ax_text.specs.declared.vocabulary.Request.{Request as AnyRequest};
ghost use Rattle.ax_text.specs.declared.vocabulary.Kind.{Kind};
ghost use Rattle.ax_text.specs.Exprs.{Facts};
ghost use Rattle.ax_text.specs.Cells.{Cells, cells_after};
ghost use Rattle.ax_text.specs.Texts.{Text};
ghost use Rattle.ax_text.specs.Programs.{width, untouched};
ghost use Rattle.ax_text.specs.Run.{Talk, World, run};
ghost use Rattle.ax_text.specs.Rising.{MapsRise};
ghost use Rattle.ax_text.specs.Controls.{Ask', Answers, Control, Done, least_free, Cursor, Event, Going, slots, waiting, is_done, request_at, give, step};
ghost use Rattle.ax_text.specs.Prints.{has};
ghost use Rattle.ax_text.specs.Suits.{Suits, AsksSuit, fits_in};
ghost use Rattle.ax_text.specs.Sound.{Split, IsWakeful, IsWaiting, BeginsSound, GivesSound};
ghost use Rattle.ax_text.specs.Silent.{BeginTells, GiveTells, StepsSilently, BeginsAtOnce, ServesAtOnce, ServesMore};
ghost use Rattle.ax_text.specs.Underway.{ServesAt, GivesAt, StartsUnderway, StepsUnderway, KeepsSlots, TakesLeast, BeginTakesLeast, GiveTakesLeast, IsLeastFree, SlotsRise, ArmsCommute};
ghost use Rattle.ax_text.specs.Counts.{WaitsBySlot, BeginCounts, GiveCounts, StepCounts, LeftCounts};
ghost use Rattle.ax_text.specs.Futures.{ComesToRun, EndsAsRun, StaysWithin, AsksAtBegin, AsksAtGive};
ghost use Rattle.ax_text.specs.Rows.{HandlerLine, IsAccepted, IsTested, follow, widened_by, now_of, text_of, wide, Body};

/// Whatever the order in which the requests of a handler of an accepted text are served and their answers given, what was done and what is still to be done come together to what its run does.
#[tactic(auto, using(crate::proofs::Going::comes_to_run))]
pub fn futures_come_to_the_run()
    ensures { (f : Facts) (t : Text) (cells : Cells) (events : List Event) → ComesToRun f t cells events }
{}

/// Where a handler of an accepted text is done, what it leaves is what its run leaves.
#[tactic(auto, using(crate::proofs::Going::ends_as_run))]
pub fn futures_end_as_the_run()
    ensures { (f : Facts) (t : Text) (cells : Cells) (events : List Event) → EndsAsRun f t cells events }
{}

/// At most as many requests wait at once as the text is wide.
#[tactic(auto, using(crate::proofs::Wide::stays_within))]
pub fn waits_within_the_width()
    ensures { (f : Facts) (t : Text) (cells : Cells) (events : List Event) → StaysWithin f t cells events }
{}

/// A control of an accepted text is sound: its arms are apart and wait at different slots, at most `n` requests are out at once, at slots below `n`, each request that waits, now or later, is to a state that exists, and of a kind that serves it, and it waits unless it is done. It begins so, where the text fits and is at most `n` wide, and an answer keeps it so.
pub fn controls_stay_sound()
    ensures begin { (n : ℕ) (kinds : List Kind) (f : Facts) (fields locals : ℕ) (text : Text) (t : Talk) → BeginsSound n kinds f fields locals text t }
    ensures give { (n : ℕ) (kinds : List Kind) (f : Facts) (c : Control) (s : ℕ) (a : AnyAnswer) (t : Talk) → GivesSound n kinds f c s a t }
{}

/// Each request of a sound control is to a state that exists, and of a kind that serves it.
#[tactic(auto, using(crate::proofs::Suiting::waiting_suits, crate::proofs::Suiting::request_suits))]
pub fn requests_suit_their_states()
    ensures waiting { (kinds : List Kind) (c : Control) → Suits kinds c → AsksSuit kinds (waiting c) }
    ensures at { (kinds : List Kind) (c : Control) (s : ℕ) (r : AnyRequest) → Suits kinds c → request_at c s ≡ Some r → fits_in kinds r ≡ true }
{}

/// A control that is not done waits for an answer, and one where no slot waits is done.
#[tactic(auto, using(crate::proofs::Wakeful::waits_for, crate::proofs::Wakeful::none_waits))]
pub fn done_where_nothing_waits()
    ensures waits { (c : Control) → IsWakeful c → Split c → is_done c ≡ false → IsWaiting c }
    ensures done { (c : Control) → IsWakeful c → slots c ≡ [] → c ≡ Done }
{}

/// What a callback asks is what waits behind it and did not before.
#[tactic(auto, using(crate::proofs::Asked::begin_asked, crate::proofs::Asked::give_asked))]
pub fn asks_are_what_waits()
    ensures begin { (f : Facts) (k : Cursor) (used : List ℕ) (t : Talk) → AsksAtBegin f k used t }
    ensures give { (f : Facts) (c : Control) (s : ℕ) (a : AnyAnswer) (t : Talk) → AsksAtGive f c s a t }
{}

/// As many slots as requests wait. Behind a beginning as many wait as it asks, and behind an answer as many as before and as it asks,
/// but one fewer.
#[tactic(auto, using(crate::proofs::Asked::slots_waiting, crate::proofs::Counted::begin_counts, crate::proofs::Counted::give_counts))]
pub fn waits_are_counted()
    ensures slots { (c : Control) → WaitsBySlot c }
    ensures begin { (f : Facts) (k : Cursor) (used : List ℕ) (t : Talk) → BeginCounts f k used t }
    ensures give { (f : Facts) (c : Control) (s : ℕ) (a : AnyAnswer) (t : Talk) → GiveCounts f c s a t }
{}

/// The count of served requests never falls: not by a serve or an answer, and not over what is left of a control of an accepted text.
#[tactic(auto, using(crate::proofs::Counted::step_counts, crate::proofs::Going::left_counts))]
pub fn counts_never_fall()
    ensures step { (f : Facts) (e : Event) (g : Going) → StepCounts f e g }
    ensures left { (f : Facts) (answers : Answers) (c : Control) (w : World) → LeftCounts f answers c w }
{}

/// What was said before makes no difference to a callback: from nothing said it leaves the same, and what it says comes behind. So a program may begin each callback with nothing said.
#[tactic(auto, using(crate::proofs::Telling::begin_tells, crate::proofs::Telling::give_tells, crate::proofs::Telling::steps_silently))]
pub fn callbacks_say_behind()
    ensures begin { (f : Facts) (k : Cursor) (used : List ℕ) (t : Talk) → BeginTells f k used t }
    ensures give { (f : Facts) (c : Control) (s : ℕ) (a : AnyAnswer) (t : Talk) → GiveTells f c s a t }
    ensures step { (f : Facts) (s : ℕ) (a : AnyAnswer) (g : Going) → StepsSilently f s a g }
{}

/// A program that serves each request and gives its answer at once, each callback from nothing said, comes to the run of an accepted text. While a request waits, fewer requests were served than the run serves.
pub fn answered_at_once_comes_to_the_run()
    ensures begin { (f : Facts) (text : Text) (cells : Cells) → BeginsAtOnce f text cells }
    ensures serve { (n : ℕ) (kinds : List Kind) (f : Facts) (c : Control) (s : ℕ) (r : AnyRequest) (w : World) → ServesAtOnce n kinds f c s r w }
    ensures more { (n : ℕ) (kinds : List Kind) (f : Facts) (c : Control) (s : ℕ) (r : AnyRequest) (w : World) → ServesMore n kinds f c s r w }
{}

/// An accepted text begins underway, and every step keeps it so: its arms are apart and wait at different slots, it waits unless it is done, and answers stand only where it waits.
pub fn steps_stay_underway()
    ensures start { (f : Facts) (text : Text) (w : World) → StartsUnderway f text w }
    ensures step { (f : Facts) (e : Event) (g : Going) → StepsUnderway f e g }
{}

/// Serving a request that waits takes exactly one of the requests that are left: the handler comes to the same, and has not moved.
pub fn a_serve_takes_one()
    ensures { (f : Facts) (g : Going) (s : ℕ) (r : AnyRequest) → ServesAt f g s r }
{}

/// Giving an answer that was served takes none of the requests that are left: the handler comes to the same, and has moved.
pub fn an_answer_takes_none()
    ensures { (f : Facts) (g : Going) (s : ℕ) (a : AnyAnswer) → GivesAt f g s a }
{}

/// The slots of an accepted text differ, there are at most as many as the text is wide, and each is below that.
pub fn slots_stay_apart_and_low()
    ensures { (n : ℕ) (f : Facts) (text : Text) (cells : Cells) (events : List Event) → KeepsSlots n f text cells events }
{}

/// Each request that a callback asks takes the least slot that is free then, so slots rise in the order in which they are asked.
pub fn the_least_slot_is_taken()
    ensures begin { (f : Facts) (k : Cursor) (used : List ℕ) (t : Talk) → BeginTakesLeast f k used t }
    ensures give { (f : Facts) (c : Control) (s : ℕ) (a : AnyAnswer) (t : Talk) → GiveTakesLeast f c s a t }
    ensures rise { (used : List ℕ) (asks : List Ask') → TakesLeast used asks → SlotsRise asks }
    ensures least { (used : List ℕ) → IsLeastFree used (least_free used) }
{}

/// The arms of an accepted text may run in either order.
#[tactic(auto, using(crate::proofs::Commuting::arms_commute))]
pub fn arms_commute()
    ensures { (f : Facts) (one : Text) (two : Text) (rest : Text) (w : World) → ArmsCommute f one two rest w }
{}

/// Where a request waits, its answer changes the control.
#[tactic(auto, using(crate::proofs::Moving::give_moves))]
pub fn answers_move_on()
    ensures { (f : Facts) (c : Control) (s : ℕ) (a : AnyAnswer) (t : Talk) → has s (slots c) ≡ true → (give f c s a t).control ≢ c }
{}

/// The entries of a map strictly rise by their keys: before it is first touched, and behind every request, every run and every step.
#[tactic(auto, using(crate::proofs::RisingKept::untouched_rise, crate::proofs::RisingKept::requests_keep, crate::proofs::RisingKept::runs_keep, crate::proofs::RisingKept::steps_keep))]
pub fn maps_stay_rising()
    ensures untouched { (kinds : List Kind) → MapsRise (untouched kinds) }
    ensures request { (r : AnyRequest) (cells : Cells) → MapsRise cells → MapsRise (cells_after r cells) }
    ensures run { (f : Facts) (text : Text) (w : World) → MapsRise w.cells → MapsRise (run f text w).cells }
    ensures step { (f : Facts) (e : Event) (g : Going) → MapsRise g.world.cells → MapsRise (step f e g).world.cells }
{}

/// Lines of a handler that pass the tests of arms one after another make a text whose arms are silent and apart, and of lines whose
/// blocks are well formed only those make one.
#[tactic(auto, using(crate::proofs::RowsAccepted::accepted, crate::proofs::RowsTested::tested))]
pub fn tested_lines_are_accepted()
    ensures accepted { (rows : List HandlerLine) → IsAccepted rows }
    ensures tested { (rows : List HandlerLine) → IsTested rows }
{}

/// What is counted line by line is the width of the text.
#[tactic(auto, using(crate::proofs::RowWidths::counted_width))]
pub fn counted_width_is_the_width()
    ensures { (rows : List HandlerLine) → follow rows (wide Body 0 0 ∷ []) ≡ true → now_of (widened_by rows (wide Body 0 0 ∷ [])) ≡ width (text_of rows) }
{}
