//! The controller, and what can be asked of it.
ghost use Rattle.std.specs.Prelude.{◌≡◌, ◌<◌, [], IfOk};
ghost use Rattle.ax_text.specs.Programs.{program_width};
ghost use Rattle.ax_lang.specs.Shown.{shown_program};
ghost use Rattle.ax_time.specs.Timers.{times_of};
ghost use Rattle.ax_machine.specs.Entries.{Key as AnyKey};
ghost use Rattle.ax_execution.specs.Origins.{first};
ghost use Rattle.ax_execution.specs.MachineControls.{MachineControl, at_origin, in_flight_on};
ghost use Rattle.ax_core.specs.Views.{program_of, settings_of};
ghost use Rattle.ax_core.specs.Flow.{shard_of};
ghost use Rattle.ax_core.specs.Rooms.{AreTaken, IsNew};
ghost use Rattle.ax_core.specs.Sound.{InRange, StandsFor, IsSound};
ghost use Rattle.ax_core.specs.Order.{idle_in};
ghost use Rattle.ax_core.specs.Numbers.{NothingNumbered};

use crate::record::{Name, Record};
use crate::rooms::{Rooms, take_rooms};
use crate::settings::Settings;
use crate::spare::Spare;
use ax_account::Accounting;
use ax_base::{ListOf, NoMemory};
use ax_buffer::RequestBuffer;
use ax_context::Contexts;
use ax_keys::{Key, group, index_of_group};
use ax_lang::Program;
use ax_machine::first_watermark;
use ax_mailbox::Mailbox;
use ax_time::{Epochs, Timers};
use std::alloc::Global;

/// The controller. After `NoMemory` it may only be dropped: each call wants it as `new` and each call that did not answer
/// `NoMemory` left it (`IsSound`).
#[derive(Drop)]
pub struct Controller {
    pub(crate) alloc: Global,
    pub(crate) program: Program,
    pub(crate) settings: Settings,
    pub(crate) wm: i64,
    // A barrier was closed, and isn't sent.
    pub(crate) barrier: bool,
    pub(crate) contexts: Contexts<Record>,
    pub(crate) accounts: Accounting,
    pub(crate) buffer: RequestBuffer,
    // For each shard the batches that are out, by what their requests are called.
    pub(crate) outs: Vec<ListOf<Name>>,
    pub(crate) mails: Mailbox,
    pub(crate) timers: Timers,
    pub(crate) epochs: Epochs,
    pub(crate) spare: Spare,
}

impl Controller {
    /// Nothing was admitted or closed yet. It takes all rooms for contexts, requests and mails. The only fault is `NoMemory`.
    ///
    /// Conditions: the settings are in their ranges.
    pub fn new(alloc: Global, program: Program, settings: Settings) -> Result<Controller, NoMemory>
        requires { InRange settings }
        ensures sound { IfOk result (λ a. IsSound a) }
        ensures program { IfOk result (λ a. program_of a ≡ program) }
        ensures settings { IfOk result (λ a. settings_of a ≡ settings) }
        ensures stands { IfOk result (λ a. StandsFor a (at_origin (first (shown_program program)))) }
        ensures idle { IfOk result (λ a. idle_in a ≡ []) }
        ensures number { IfOk result (λ a. NothingNumbered a) }
    {
        let rooms = take_rooms(alloc, settings, program.width())?;
        Ok(begin(alloc, program, settings, rooms))
    }

    /// How many contexts are in flight: rows that were admitted and timers that fired, until their handlers have ended.
    pub fn in_flight(&self) -> u32
        ensures value { (m : MachineControl) → StandsFor self.now m → result ≡ in_flight_on m }
    {
        self.contexts.len()
    }

    /// How many contexts may be in flight, as the settings say.
    pub fn limit(&self) -> u32
        ensures { result ≡ (settings_of self.now).in_flight }
    {
        self.settings.in_flight
    }

    /// The greatest watermark that was closed, and `i64::MIN` before the first.
    pub fn wm(&self) -> i64
        ensures { (m : MachineControl) → StandsFor self.now m → result ≡ m.wm }
    {
        self.wm
    }

    /// The timers of all keys.
    pub fn timers(&self) -> &Timers
        ensures { (m : MachineControl) (k : AnyKey) → StandsFor self.now m → times_of result.now k ≡ (m.controls k).times }
    {
        &self.timers
    }

    /// The program that it runs.
    pub fn program(&self) -> &Program
        ensures { result.now ≡ program_of self.now }
    {
        &self.program
    }

    // The shard that holds a key's states.
    pub(crate) fn shard_of(&self, key: &Key) -> u16
        requires { InRange self.now.settings }
        ensures value { result ≡ shard_of self.now.settings key.now }
        ensures small { result < self.now.settings.shards }
    {
        let groups = self.settings.groups;
        index_of_group(group(key, groups), groups, self.settings.shards)
    }
}

// A controller with these rooms.
fn begin(alloc: Global, program: Program, settings: Settings, rooms: Rooms) -> Controller
    requires { AreTaken settings (program_width (shown_program program)) rooms }
    ensures new { IsNew result }
    ensures program { result.program ≡ program }
    ensures settings { result.settings ≡ settings }
{
    Controller {
        alloc,
        program,
        settings,
        wm: first_watermark(),
        barrier: false,
        contexts: rooms.contexts,
        accounts: Accounting::new(alloc),
        buffer: rooms.buffer,
        outs: rooms.outs,
        mails: rooms.mails,
        timers: Timers::new(alloc),
        epochs: Epochs::new(alloc),
        spare: Spare::new(alloc),
    }
}
