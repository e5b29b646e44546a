//! What is handed over.
ghost use Rattle.std.specs.Prelude.{◌≡◌, Bool, true, false};

/// Work that is made in one thread and run in another. Where it goes to a thread of its own, its type is
/// `Send` and `'static` too.
pub trait Work: Drop {
    /// What is to be done.
    type Job;

    /// The job of this work. It stays the same.
    ghost job: { Self → Self.Job };

    /// Whether it was run.
    ghost was_run: { Self → Bool };

    /// The work has the result that its job calls for.
    ghost has_result: { Self → Type 0 };

    /// Runs the work. Condition: it was not run yet.
    fn run(&mut self)
        requires { was_run self.old ≡ false }
        ensures ran { was_run self.new ≡ true }
        ensures same { job self.new ≡ job self.old }
        ensures result { has_result self.new };

    /// A law: each work that was run has its result.
    ghost keeps_result: { (work : Self) → was_run work ≡ true → has_result work };
}
