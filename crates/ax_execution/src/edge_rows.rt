//! Worked rows of the machine's rarer turns.
ghost use Rattle.std.specs.Prelude.{◌≡◌, [], ◌∷◌, ◌++◌, pos, true, false, Some, None};
ghost use Rattle.ax_machine.specs.Entries.{Out};
ghost use Rattle.ax_machine.specs.Examples.{counting, alarm, line, watermark};
ghost use Rattle.ax_execution.specs.Contexts.{rows_in};
ghost use Rattle.ax_execution.specs.Machine.{outcome, in_flight, Fire, Start, Serve, Deliver, Send};
ghost use Rattle.ax_execution.specs.Counts.{epoch_count};
ghost use Rattle.ax_execution.specs.MachineControls.{control_of_machine, outcome_on};
ghost use Rattle.ax_execution.specs.Rows.{a, serially, in_parallel, behind, may_run, may_follow, round_a_watermark, mark_comes, mark_behind, idles, reminder, nearly_urgent, crossing};
ghost use Rattle.ax_execution.specs.EdgeRows.{row_behind_mark, fires_first, fires_twice, waking, firing_asks, both_served, both_go_on};

/// A row waits behind its own key's mark. As the row before both is given up the mark is taken off, since no timer is due, and the row owns
/// the key.
pub fn row_takes_its_key_behind_a_mark()
    ensures runs { may_run (in_parallel 2) alarm (row_behind_mark ++ Start a ∷ Send ∷ []) ≡ true }
    ensures waits { rows_in ((behind alarm row_behind_mark).parts a).waiting ≡ 0 }
    ensures flight { in_flight (behind alarm row_behind_mark) ≡ 1 }
    ensures epoch { epoch_count 0 (behind alarm row_behind_mark) ≡ 0 }
    ensures next_epoch { epoch_count 1 (behind alarm row_behind_mark) ≡ 1 }
    ensures writes { (behind alarm (row_behind_mark ++ Start a ∷ Send ∷ [])).written ≡ Out a (pos 1 ∷ pos 1 ∷ []) ∷ Out a (pos 1 ∷ pos 4 ∷ []) ∷ watermark (pos 3) ∷ [] }
{}

/// One mark fires twice: behind the first firing its key must fire again.
pub fn mark_fires_twice()
    ensures runs { may_run (in_parallel 1) alarm (fires_twice ++ Fire 4 a ∷ Start a ∷ Send ∷ []) ≡ true }
    ensures must { (behind alarm fires_twice).must ≡ Some a }
    ensures epoch { epoch_count 0 (behind alarm fires_twice) ≡ 1 }
    ensures writes { (behind alarm (fires_twice ++ Fire 4 a ∷ Start a ∷ Send ∷ [])).written
        ≡ Out a (pos 1 ∷ pos 1 ∷ []) ∷ Out a (pos 1 ∷ pos 2 ∷ []) ∷ Out a (pos 2 ∷ pos 3 ∷ pos 5 ∷ []) ∷ Out a (pos 2 ∷ pos 4 ∷ pos 5 ∷ []) ∷ watermark (pos 5) ∷ [] }
{}

/// A firing asks, and is given up as the answer is handed over. Its mark stays until then.
pub fn firing_waits_for_its_answer()
    ensures runs { may_run (serially 1) waking (firing_asks ++ Deliver a 0 ∷ Send ∷ []) ≡ true }
    ensures epoch { epoch_count 0 (behind waking firing_asks) ≡ 1 }
    ensures send { may_follow (serially 1) waking firing_asks Send ≡ false }
    ensures gone { (outcome 128 waking (Deliver a 0) (behind waking firing_asks)).gone ≡ true }
    ensures writes { (behind waking (firing_asks ++ Deliver a 0 ∷ Send ∷ [])).written ≡ line a (pos 0) ∷ watermark (pos 3) ∷ [] }
{}

/// Two answers stand in one handler, and either may be handed over first.
pub fn two_answers_stand()
    ensures runs { may_run (serially 1) crossing (both_served ++ both_go_on) ≡ true }
    ensures first { may_follow (serially 1) crossing both_served (Deliver a 0) ≡ true }
    ensures second { may_follow (serially 1) crossing both_served (Deliver a 1) ≡ true }
    ensures again { may_follow (serially 1) crossing both_served (Serve a 1) ≡ false }
    ensures writes { (behind crossing (both_served ++ both_go_on)).written ≡ Out a (pos 3 ∷ pos 4 ∷ []) ∷ [] }
{}

/// What is a run in serial mode is one in parallel mode.
pub fn serial_runs_are_parallel_ones()
    ensures { may_run (in_parallel 1) counting round_a_watermark ≡ true }
{}

/// A key that must fire does, and its mark is then sent.
pub fn key_that_must_fire_does()
    ensures runs { may_run (in_parallel 1) alarm (mark_behind ++ Fire 2 a ∷ Start a ∷ Send ∷ []) ≡ true }
    ensures writes { (behind alarm (mark_behind ++ Fire 2 a ∷ Start a ∷ Send ∷ [])).written ≡ Out a (pos 1 ∷ pos 1 ∷ []) ∷ Out a (pos 2 ∷ pos 3 ∷ pos 6 ∷ []) ∷ watermark (pos 6) ∷ [] }
{}

/// The outcome of a callback tells where its key must fire: where a context is given up and a mark that may fire comes to the front. A callback
/// whose context waits on tells none, nor does one behind which no timer is due, nor an event that is none.
pub fn outcomes_tell_who_must_fire()
    ensures start { (outcome 128 alarm (Start a) (behind alarm mark_comes)).fires ≡ Some a }
    ensures again { (outcome 128 alarm (Start a) (behind alarm fires_first)).fires ≡ Some a }
    ensures last { (outcome 128 alarm (Start a) (behind alarm (fires_twice ++ Fire 4 a ∷ []))).fires ≡ None }
    ensures deliver { (outcome 128 reminder (Deliver a 0) (behind reminder nearly_urgent)).fires ≡ Some a }
    ensures waits { (outcome 128 waking (Start a) (behind waking (idles ++ Fire 2 a ∷ []))).fires ≡ None }
    ensures fire { (outcome 128 alarm (Fire 2 a) (behind alarm mark_behind)).fires ≡ None }
    ensures control_start { (outcome_on alarm (Start a) (control_of_machine (behind alarm mark_comes))).fires ≡ Some a }
    ensures control_last { (outcome_on alarm (Start a) (control_of_machine (behind alarm (fires_twice ++ Fire 4 a ∷ [])))).fires ≡ None }
    ensures control_deliver { (outcome_on reminder (Deliver a 0) (control_of_machine (behind reminder nearly_urgent))).fires ≡ Some a }
    ensures control_waits { (outcome_on waking (Start a) (control_of_machine (behind waking (idles ++ Fire 2 a ∷ [])))).fires ≡ None }
{}
