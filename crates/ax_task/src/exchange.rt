//! Requests go to shards, and replies come back.
ghost use Rattle.std.specs.Prelude.{◌≡◌, ◌<◌, ◌↔◌, ℕ, [], length, true, false, IsTrue, IfOk, IfSome, IfNone, OnOk};
ghost use Rattle.ax_buffer.specs.Buffer.{queue_of};
ghost use Rattle.ax_core.specs.Views.{buffer_of};
ghost use Rattle.ax_task.specs.Shards.{held, out, next_out, Stays};
ghost use Rattle.ax_task.specs.Engines.{IsReady, MovesOn, batch_of};
ghost use Rattle.ax_task.specs.Exchanged.{IsHomeWith, LessIsLeft, NothingWaits, NoneHomeWith, NoneOut, IsSent, IsBack, Exchanges};

use crate::engine::Engine;
use ax_base::NoMemory;

impl Engine {
    // Whether a shard is home, and so many requests wait for it. Condition: it is one of the shards.
    fn is_home_with(&self, shard: u16, least: u32) -> bool
        requires ready { IsReady self.now }
        requires shard { shard < self.now.settings.shards }
        ensures { IsTrue result ↔ IsHomeWith self.now least shard }
    {
        self.core.active_len(shard) >= least && self.shards.is_home(shard)
    }

    // The first shard that is home, and for which so many requests wait.
    fn home_with(&self, least: u32) -> Option<u16>
        requires ready { IsReady self.now }
        ensures some { IfSome result (λ s. IsHomeWith self.now least s) }
        ensures none { IfNone result (NoneHomeWith self.now least) }
        ensures below { IfSome result (λ s. s < self.now.settings.shards) }
        ensures first { IfSome result (λ s. (t : ℕ) → t < s → IsHomeWith self.now least t → ⊥) }
    {
        for shard in 0..self.settings.shards {
            if self.is_home_with(shard, least) {
                return Some(shard);
            }
        }
        None
    }

    // Sends the first requests that wait for a shard that is home: as many as go at once, or all. Condition: there are some.
    fn send(&mut self, shard: u16) -> Result<(), NoMemory>
        requires ready { IsReady self.old }
        requires shard { shard < self.old.settings.shards }
        requires home { out self.old.shards shard ≡ [] }
        requires waits { 0 < length (queue_of (buffer_of self.old.core) shard) }
        ensures moves { OnOk result (MovesOn self.old self.new) }
        ensures falls { OnOk result (LessIsLeft self.old self.new) }
        ensures sent { OnOk result (IsSent self.old self.new shard) }
        ensures batch { batch_of self.new ≡ batch_of self.old }
    {
        let batch = self.core.batch_for(shard, self.batch)?;
        self.shards.send(shard, batch);
        Ok(())
    }

    // Serves the batch that is next by the list of numbers, and takes its replies. Whether one was out.
    fn poll(&mut self) -> Result<bool, NoMemory>
        requires ready { IsReady self.old }
        ensures moves { OnOk result (MovesOn self.old self.new) }
        ensures falls { IfOk result (λ done. done ≡ true → LessIsLeft self.old self.new) }
        ensures settings { self.new.settings ≡ self.old.settings }
        ensures core { IfOk result (λ done. done ≡ false → self.new.core ≡ self.old.core) }
        ensures stays { IfOk result (λ done. done ≡ false → Stays (out self.old.shards) (out self.new.shards) (held self.old.shards) (held self.new.shards)) }
        ensures home { IfOk result (λ done. done ≡ false → (s : ℕ) → out self.new.shards s ≡ []) }
        ensures still { IfOk result (λ done. done ≡ false → self.new ≡ self.old) }
        ensures back { IfOk result (λ done. done ≡ true → IsBack self.old self.new (next_out self.old.shards)) }
        ensures batch { batch_of self.new ≡ batch_of self.old }
    {
        let Some(back) = self.shards.poll() else {
            return Ok(false);
        };
        self.core.deliver(back.replies?);
        Ok(true)
    }

    // Sends all that wait for the first shard for which some wait. Whether there was one. Conditions: nothing is out, and for no
    // shard as many wait as go at once.
    fn send_short(&mut self) -> Result<bool, NoMemory>
        requires ready { IsReady self.old }
        requires none { NoneHomeWith self.old (batch_of self.old) }
        requires home { NoneOut self.old }
        ensures moves { OnOk result (MovesOn self.old self.new) }
        ensures falls { IfOk result (λ done. done ≡ true → LessIsLeft self.old self.new) }
        ensures still { IfOk result (λ done. done ≡ false → self.new ≡ self.old) }
        ensures nothing { IfOk result (λ done. done ≡ false → NothingWaits self.new) }
        ensures exchanges { IfOk result (λ done. Exchanges self.old self.new done) }
        ensures batch { batch_of self.new ≡ batch_of self.old }
    {
        let Some(shard) = self.home_with(1) else {
            return Ok(false);
        };
        self.send(shard)?;
        Ok(true)
    }

    /// Sends a full batch to the first shard that is home and for which so many requests wait. Where there is none, serves the
    /// batch that the list of numbers tells, as `Shards::poll` says. Where none is out either, sends all that wait for the first
    /// shard for which some wait. Whether there was something to do; where not, nothing has changed.
    pub fn exchange(&mut self) -> Result<bool, NoMemory>
        requires ready { IsReady self.old }
        ensures moves { OnOk result (MovesOn self.old self.new) }
        ensures falls { IfOk result (λ done. done ≡ true → LessIsLeft self.old self.new) }
        ensures idle { IfOk result (λ done. done ≡ false → self.new.core ≡ self.old.core) }
        ensures still { IfOk result (λ done. done ≡ false → self.new ≡ self.old) }
        ensures nothing { IfOk result (λ done. done ≡ false → NothingWaits self.new) }
        ensures exchanges { IfOk result (λ done. Exchanges self.old self.new done) }
        ensures batch { batch_of self.new ≡ batch_of self.old }
    {
        if let Some(shard) = self.home_with(self.batch) {
            self.send(shard)?;
            return Ok(true);
        }
        if self.poll()? {
            return Ok(true);
        }
        self.send_short()
    }
}
