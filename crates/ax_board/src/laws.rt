//! Laws of the board. Whatever the table is when a seat makes a step, the rule holds after it: a law for
//! each of the ten kinds of step. Others speak of whole runs of such steps. They have no code; their
//! clauses are what they say.
ghost use Rattle.std.specs.Prelude.{◌≡◌, ◌≢◌, ℕ, ◌+◌, ◌%◌, ◌^◌, ◌<◌, ◌==◌, ◌++◌, Bool, true, false, List, Option, [], ◌∷◌, Some, None, replicate, slice_index};
ghost use prog.Atomic.{either};
ghost use mathlib.Core.Option.{none, some};
ghost use lib.ListN.{get_elem?};
ghost use Rattle.atomic_table.specs.Table.{State, Me, Allows, Splits, Joins, step};
ghost use Rattle.ax_board.specs.Rule.{Ruled, Notes};
ghost use Rattle.ax_board.specs.Runs.{Move, Does, Runs, AllServed, start, opens, posts, claims, gives_back, collects, looks, stops, rings, splits, joins};
ghost use Rattle.ax_board.specs.Plays.{opened, posted, claimed, given_back, collected, looked, stop_told};
ghost use Rattle.ax_board.specs.declared.view.View.{View};
ghost use Rattle.ax_board.specs.declared.view.View.TheVariants.{Task, Worker, Spent};
ghost use Rattle.ax_board.specs.declared.view.Note.{Note};
ghost use Rattle.ax_board.specs.declared.view.Note.TheVariants.{Closed, Home};

use crate::work::Work;

/// Over every run of a board's steps, in any order and by any seats: the rule holds, and each work that is
/// collected has the job of the work that was posted to that cell last and not collected since. It was
/// run, and it has its result.
pub fn each_run_serves<W: Work>()
    ensures { (n : ℕ) (moves : List (Move W)) (end : State (Option W) (View W.Job)) → Runs W.job W.was_run W.has_result n (start n) moves end → Ruled W.job W.was_run W.has_result n end × AllServed W.job W.was_run W.has_result (replicate n Closed) moves }
{}

/// Over every run, the stop word stays at 1 once it is 1.
pub fn stop_stays<W: Work>()
    ensures { (n : ℕ) (moves : List (Move W)) (begin end : State (Option W) (View W.Job)) → Runs W.job W.was_run W.has_result n begin moves end → slice_index begin.words n ≡ 1 → slice_index end.words n ≡ 1 }
{}

/// A stop sets the stop word, whatever the table is.
pub fn a_stop_sets<W: Work>()
    ensures { (n : ℕ) (begin end : State (Option W) (View W.Job)) → Ruled W.job W.was_run W.has_result n begin → Does W.job W.was_run W.has_result n begin stops end → slice_index end.words n ≡ 1 }
{}

/// A ring adds one to its bell, which wraps.
pub fn a_ring_adds<W: Work>()
    ensures { (n bell : ℕ) (begin end : State (Option W) (View W.Job)) → Ruled W.job W.was_run W.has_result n begin → Does W.job W.was_run W.has_result n begin (rings bell) end → slice_index end.words bell ≡ (slice_index begin.words bell + 1) % 2 ^ 64 }
{}

/// Over every run, between two collects of one cell stands a post to it: each work is collected once.
pub fn a_post_between<W: Work>()
    ensures { (n c : ℕ) (one two : W) (before between : List (Move W)) (end : State (Option W) (View W.Job)) → Runs W.job W.was_run W.has_result n (start n) (before ++ collects c one ∷ (between ++ collects c two ∷ [])) end → (work : W) × (sooner later : List (Move W)) × (between ≡ sooner ++ posts c work ∷ later) }
{}

/// Such runs exist: with one cell, a run makes a step of each kind, in which work that was posted comes
/// back, once it was run.
pub fn a_work_comes_back<W: Work>()
    ensures { (posted ran : W) → W.was_run posted ≡ false → W.was_run ran ≡ true → W.job ran ≡ W.job posted → W.has_result ran → (end : State (Option W) (View W.Job)) × Runs W.job W.was_run W.has_result 1 (start 1) (opens 0 ∷ splits ∷ posts 0 posted ∷ rings 2 ∷ looks ∷ claims 1 0 posted ∷ gives_back 1 0 ran ∷ rings 3 ∷ collects 0 ran ∷ stops ∷ joins 1 ∷ []) end }
{}

/// At each moment at most one worker holds the work of a cell.
pub fn one_worker_holds<W: Work>()
    ensures { (n c one two : ℕ) (i j : W.Job) (s : State (Option W) (View W.Job)) → Ruled W.job W.was_run W.has_result n s → c < n → Notes s.views c one i → Notes s.views c two j → one ≡ two }
{}

/// The task takes the slot of a closed cell, whose word stays.
pub fn opens_keep<W: Work>()
    ensures { (n slots id c : ℕ) (notes : List (Note W.Job)) (told : Bool) (held : List (ℕ × Option W)) → c < n → get_elem? notes c ≡ some Closed → Allows (Ruled W.job W.was_run W.has_result n) slots id (Task notes told, held) c (λ x. x) (opened (step slots c 0 0 none) (Task notes told, held)) }
{}

/// The task posts work that was not run: 0 becomes 1.
pub fn posts_keep<W: Work>()
    ensures { (n slots id c : ℕ) (notes : List (Note W.Job)) (told : Bool) (work : W) (held : List (ℕ × Option W)) → c < n → W.was_run work ≡ false → get_elem? notes c ≡ some Home → Allows (Ruled W.job W.was_run W.has_result n) slots id (Task notes told, (c, Some work) ∷ held) c (λ x. 1) (λ r. posted W.job (step slots c 1 0 none) (Task notes told, (c, Some work) ∷ held) 1) }
{}

/// A worker claims: 1 becomes 2, and another number stays.
pub fn claims_keep<W: Work>()
    ensures { (n slots id c : ℕ) → c < n → Allows (Ruled W.job W.was_run W.has_result n) slots id (Worker None, []) c (λ x. either (x == 1) 2 x) (claimed W.job W.was_run (step slots c 1 2 none) (Worker None, [])) }
{}

/// A worker gives back the work that it holds, run and with its result: the word becomes 3.
pub fn gives_back_keep<W: Work>()
    ensures { (n slots id c : ℕ) (job : W.Job) (work : W) → c < n → W.was_run work ≡ true → W.job work ≡ job → W.has_result work → Allows (Ruled W.job W.was_run W.has_result n) slots id (Worker (Some (c, job)), (c, Some work) ∷ []) c (λ x. 3) (λ r. given_back (step slots c 3 0 none) (Worker (Some (c, job)), (c, Some work) ∷ []) 3) }
{}

/// The task collects: 3 becomes 0, and another number stays.
pub fn collects_keep<W: Work>()
    ensures { (n slots id c : ℕ) (notes : List (Note W.Job)) (told : Bool) (held : List (ℕ × Option W)) → c < n → Allows (Ruled W.job W.was_run W.has_result n) slots id (Task notes told, held) c (λ x. either (x == 3) 0 x) (collected W.job W.was_run W.has_result (step slots c 3 0 none) (Task notes told, held)) }
{}

/// Any seat loads any word.
pub fn looks_keep<W: Work>()
    ensures { (n slots id i : ℕ) (me : Me (Option W) (View W.Job)) → Allows (Ruled W.job W.was_run W.has_result n) slots id me i (λ x. x) (looked (step slots i 0 0 none) me) }
{}

/// The task tells stop: the stop word becomes 1.
pub fn stops_keep<W: Work>()
    ensures { (n slots id : ℕ) (notes : List (Note W.Job)) (told : Bool) (held : List (ℕ × Option W)) → Allows (Ruled W.job W.was_run W.has_result n) slots id (Task notes told, held) n (λ x. 1) (λ r. stop_told (step slots n 1 0 none) (Task notes told, held) 1) }
{}

/// Any seat rings a bell, which rises by one and wraps.
pub fn rings_keep<W: Work>()
    ensures { (n slots id bell : ℕ) (me : Me (Option W) (View W.Job)) → n < bell → Allows (Ruled W.job W.was_run W.has_result n) slots id me bell (λ x. (x + 1) % 2 ^ 64) (looked (step slots bell 1 0 none) me) }
{}

/// A seat makes one that notes nothing.
pub fn splits_keep<W: Work>()
    ensures { (n id : ℕ) (v : View W.Job) → Splits (Ruled W.job W.was_run W.has_result n) id v v (Worker None) }
{}

/// A seat that notes nothing is spent into another.
pub fn joins_keep<W: Work>()
    ensures { (n id other : ℕ) (v : View W.Job) → Joins (Ruled W.job W.was_run W.has_result n) id v other (Worker None) v Spent }
{}
