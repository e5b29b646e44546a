//! Worked rows of what is counted in controls, and what the conditions on them refuse.
ghost use Rattle.std.specs.Prelude.{◌≡◌, [], ◌∷◌, ◌++◌, pos, true, false, Some};
ghost use Rattle.ax_text.specs.declared.vocabulary.Request.TheVariants as request;
ghost use Rattle.ax_machine.specs.Events as event;
ghost use Rattle.ax_machine.specs.Events.{without_skipped};
ghost use Rattle.ax_machine.specs.Examples.{counting, alarm};
ghost use Rattle.ax_execution.specs.Contexts.{row_context, Row, Mark};
ghost use Rattle.ax_execution.specs.Groups.{row_facts};
ghost use Rattle.ax_execution.specs.Machine.{Admit, Close, ByWatermark, ByBarrier, Start, Serve, Deliver, Send};
ghost use Rattle.ax_text.specs.Underway.{Differ};
ghost use Rattle.ax_execution.specs.Asks.{AreOutside};
ghost use Rattle.ax_execution.specs.MachineControls.{control_of_machine};
ghost use Rattle.ax_execution.specs.ControlChanges.{enters, leaves};
ghost use Rattle.ax_execution.specs.Reached.{IsOpenEpoch, OwnerOpen, WaitingOpen, Follow, MarksBelow, MarkInFront, owed_in};
ghost use Rattle.ax_execution.specs.OwedChanges.{owed_less};
ghost use Rattle.ax_execution.specs.Rows.{a, behind, one_waits, mark_behind, by_turns, crossing};
ghost use Rattle.ax_execution.specs.EdgeRows.{two_owners, marked};

/// A watermark that isn't greater than each one before is skipped.
pub fn watermarks_are_skipped()
    ensures { without_skipped (pos 0) (event.Mark (pos 5) ∷ event.Mark (pos 5) ∷ event.Mark (pos 4) ∷ event.Mark (pos 6) ∷ []) ≡ event.Mark (pos 5) ∷ event.Mark (pos 6) ∷ [] }
{}

/// Owners owe one reference for each request that waits, and one before they begin; a row that waits behind an owner owes none.
pub fn references_of_owners()
    ensures unbegun { owed_in (control_of_machine (behind counting two_owners)) ≡ 2 }
    ensures begun { owed_in (control_of_machine (behind counting by_turns)) ≡ 2 }
    ensures arms { owed_in (control_of_machine (behind crossing (Admit 1 a (pos 1) [] ∷ Start a ∷ []))) ≡ 2 }
    ensures waits { owed_in (control_of_machine (behind counting one_waits)) ≡ 1 }
    ensures start { owed_less (Start a) ≡ 1 }
    ensures deliver { owed_less (Deliver a 0) ≡ 1 }
    ensures serve { owed_less (Serve a 0) ≡ 0 }
{}

/// What comes into an epoch and leaves it: a watermark's mark stays where a key has an owner or a timer that is due, and a row takes with it
/// the mark behind it that doesn't fire.
pub fn rows_and_marks_of_an_epoch()
    ensures owners { enters 0 (Close (ByWatermark (pos 3))) (control_of_machine (behind counting two_owners)) ≡ 2 }
    ensures due { enters 0 (Close (ByWatermark (pos 9))) (control_of_machine (behind alarm (Admit 1 a (pos 1) (pos 9 ∷ []) ∷ Start a ∷ []))) ≡ 1 }
    ensures not_due { enters 0 (Close (ByWatermark (pos 8))) (control_of_machine (behind alarm (Admit 1 a (pos 1) (pos 9 ∷ []) ∷ Start a ∷ []))) ≡ 0 }
    ensures both { leaves 0 (Start a) true (control_of_machine (behind alarm marked)) (control_of_machine (behind alarm (marked ++ Start a ∷ []))) ≡ 2 }
    ensures one { leaves 0 (Start a) true (control_of_machine (behind alarm (Admit 1 a (pos 1) (pos 3 ∷ []) ∷ Close (ByWatermark (pos 6)) ∷ []))) (control_of_machine (behind alarm mark_behind)) ≡ 1 }
    ensures stays { leaves 0 (Start a) false (control_of_machine (behind alarm marked)) (control_of_machine (behind alarm marked)) ≡ 0 }
    ensures serve_enters { enters 0 (Serve a 0) (control_of_machine (behind counting one_waits)) ≡ 0 }
    ensures serve_leaves { leaves 0 (Serve a 0) false (control_of_machine (behind counting one_waits)) (control_of_machine (behind counting one_waits)) ≡ 0 }
{}

/// What the conditions on controls refuse: a slot that stands twice, one that is used, closed epochs with one left out or none before the
/// current one, a mark of the current epoch, a firing without its mark in front, an epoch to come and one whose marker was sent, also of an
/// owner or a row that waits.
pub fn conditions_refuse()
    ensures slots { Differ (1 ∷ 2 ∷ 1 ∷ []) → ⊥ }
    ensures used { AreOutside (1 ∷ []) (record { slot = 1; request = request.ValueGet 0 } ∷ []) → ⊥ }
    ensures first { Follow 1 (record { epoch = 2; closing = ByBarrier (pos 1) } ∷ []) 3 → ⊥ }
    ensures last { Follow 1 (record { epoch = 1; closing = ByBarrier (pos 1) } ∷ []) 3 → ⊥ }
    ensures mark { MarksBelow 2 (Mark 2 (pos 5) 1 ∷ []) → ⊥ }
    ensures other_mark { MarkInFront 1 (Mark 2 (pos 5) 1 ∷ []) → ⊥ }
    ensures row { MarkInFront 1 (Row 1 1 (row_facts (pos 0) (pos 1) []) ∷ Mark 1 (pos 5) 1 ∷ []) → ⊥ }
    ensures future { IsOpenEpoch (control_of_machine (behind counting [])) 1 → ⊥ }
    ensures sent { IsOpenEpoch (control_of_machine (behind counting (Close (ByWatermark (pos 3)) ∷ Send ∷ []))) 0 → ⊥ }
    ensures owner { OwnerOpen (control_of_machine (behind counting [])) (Some (row_context 1 1 (row_facts (pos 0) (pos 1) []))) → ⊥ }
    ensures waits { WaitingOpen (control_of_machine (behind counting [])) (Row 1 1 (row_facts (pos 0) (pos 1) []) ∷ []) → ⊥ }
{}
