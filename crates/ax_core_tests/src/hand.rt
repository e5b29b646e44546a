//! A controller in the hand of a test.
ghost use Rattle.std.specs.Prelude.{◌≡◌, ◌<◌, ◌++◌, [], length, replicate, IfOk, OnOk};
ghost use Rattle.ax_buffer.specs.Buffer.{queue_of};
ghost use Rattle.ax_core.specs.Sound.{InRange};
ghost use Rattle.ax_core_tests.specs.Hands.{IsReady};

use crate::states::{States, no_states, serve};
use ax_base::{NoMemory, Nums};
use ax_buffer::Replies;
use ax_core::{Controller, Effects, Fired, Marker, Settings};
use ax_keys::Key;
use ax_lang::Program;
use std::alloc::Global;
use std::mem;

// Nothing is out of any shard.
fn no_replies(alloc: Global, shards: u16) -> Result<Vec<Replies>, NoMemory>
    ensures { IfOk result (λ served. served.items ≡ replicate shards []) }
{
    let mut served = Vec::new(alloc);
    for _shard in 0..shards {
        let Ok(()) = served.push(Replies::new(alloc)) else {
            return Err(NoMemory);
        };
    }
    Ok(served)
}

/// A controller, the states of its keys, and for each shard the replies to the batches that are out.
#[derive(Drop)]
pub struct Hand {
    pub alloc: Global,
    pub core: Controller,
    pub states: States,
    pub served: Vec<Replies>,
}

impl Hand {
    /// A new controller.
    pub fn new(alloc: Global, program: Program, settings: Settings) -> Result<Hand, NoMemory>
        requires { InRange settings }
        ensures { IfOk result IsReady }
    {
        let states = no_states(alloc, &program)?;
        let core = Controller::new(alloc, program, settings)?;
        let served = no_replies(alloc, settings.shards)?;
        Ok(Hand {
            alloc,
            core,
            states,
            served,
        })
    }

    /// Admits a row where one may come in.
    pub fn admit(&mut self, key: Key, time: i64, values: Nums) -> Result<Option<u64>, NoMemory>
        requires { IsReady self.old }
        ensures { OnOk result (IsReady self.new) }
    {
        if self.core.may_admit() {
            let number = self.core.admit(key, time, values)?;
            Ok(Some(number))
        } else {
            Ok(None)
        }
    }

    /// Closes the epoch where that may be.
    pub fn close(&mut self, m: Marker) -> Result<bool, NoMemory>
        requires { IsReady self.old }
        ensures { OnOk result (IsReady self.new) }
    {
        let next = match m {
            Marker::Mark { time } => time > self.core.wm(),
            Marker::Barrier { .. } => true,
        };
        if next && self.core.may_close() {
            self.core.close(m)?;
            Ok(true)
        } else {
            Ok(false)
        }
    }

    /// Fires where a key may.
    pub fn fire(&mut self) -> Result<Option<Fired>, NoMemory>
        requires { IsReady self.old }
        ensures { OnOk result (IsReady self.new) }
    {
        if self.core.may_fire() {
            let fired = self.core.fire_next()?;
            Ok(Some(fired))
        } else {
            Ok(None)
        }
    }

    /// Runs a mail where one waits.
    pub fn mail(&mut self) -> Result<Option<Effects>, NoMemory>
        requires { IsReady self.old }
        ensures { OnOk result (IsReady self.new) }
    {
        if self.core.mail_waits() {
            let effects = self.core.run_mail()?;
            Ok(Some(effects))
        } else {
            Ok(None)
        }
    }

    /// The marker that can be sent.
    pub fn marker(&mut self) -> Option<Marker>
        requires { IsReady self.old }
        ensures { IsReady self.new }
    {
        self.core.next_marker()
    }

    /// How many requests a shard's queue holds: none where there is no such shard.
    pub fn active(&self, shard: u16) -> u32
        requires { IsReady self.now }
    {
        if (shard as usize) < self.served.len() {
            self.core.active_len(shard)
        } else {
            0
        }
    }

    /// Takes a batch of a shard that is home, and serves it; how many requests it has.
    pub fn batch(&mut self, shard: u16, max: u32) -> Result<usize, NoMemory>
        requires { IsReady self.old }
        ensures { OnOk result (IsReady self.new) }
    {
        let at = shard as usize;
        if at < self.served.len() && self.served[at].is_empty() {
            self.further(shard, max)
        } else {
            Ok(0)
        }
    }

    /// The same of a shard of which other batches may be out.
    pub fn further(&mut self, shard: u16, max: u32) -> Result<usize, NoMemory>
        requires { IsReady self.old }
        ensures { OnOk result (IsReady self.new) }
    {
        let at = shard as usize;
        if at >= self.served.len() || max == 0 {
            return Ok(0);
        }
        if self.core.active_len(shard) > 0 {
            self.take(shard, max)
        } else {
            Ok(0)
        }
    }

    // The same of a shard that has requests.
    fn take(&mut self, shard: u16, max: u32) -> Result<usize, NoMemory>
        requires ready { IsReady self.old }
        requires there { shard < length self.old.served.items }
        requires some { 0 < length (queue_of self.old.core.buffer shard) }
        requires most { 0 < max }
        ensures { OnOk result (IsReady self.new) }
    {
        let batch = self.core.batch_for(shard, max)?;
        let count = batch.len();
        serve(
            self.core.program(),
            &mut self.states,
            batch,
            &mut self.served[shard as usize],
        )?;
        Ok(count)
    }

    /// Delivers the replies of a shard; how many.
    pub fn deliver(&mut self, shard: u16) -> usize
        requires { IsReady self.old }
        ensures { IsReady self.new }
    {
        let at = shard as usize;
        if at >= self.served.len() {
            return 0;
        }
        let replies = mem::replace(&mut self.served[at], Replies::new(self.alloc));
        let count = replies.len();
        self.core.deliver(replies);
        count
    }

    /// Delivers the last replies of a shard, at most so many; those before them stay out. How many they are.
    pub fn deliver_last(&mut self, shard: u16, count: usize) -> Result<usize, NoMemory>
        requires { IsReady self.old }
        ensures { OnOk result (IsReady self.new) }
    {
        let at = shard as usize;
        if at >= self.served.len() {
            return Ok(0);
        }
        let last = split_last(self.alloc, &mut self.served[at], count)?;
        let count = last.len();
        self.core.deliver(last);
        Ok(count)
    }
}

// Takes off the last replies, so many.
fn split_last(alloc: Global, replies: &mut Replies, count: usize) -> Result<Replies, NoMemory>
    ensures { IfOk result (λ last. replies.old ≡ replies.new ++ last) }
{
    let mut first = mem::replace(replies, Replies::new(alloc)).into_vec();
    let place = first.len().saturating_sub(count);
    let Ok(last) = first.split_off(place) else {
        return Err(NoMemory);
    };
    *replies = Replies::from_vec(first);
    Ok(Replies::from_vec(last))
}
