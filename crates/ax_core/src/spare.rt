//! Memory that callbacks use again.

use ax_base::ListOf;
use ax_future::{Asks, Machine, TimerOps, Turn};
use std::alloc::Global;
use std::marker::Model;
use std::mem;

/// What callbacks that are over have left to be used again: the memory of their turns, and the machines of handlers that have
/// ended. It makes no difference what is there, so contracts see nothing of it.
#[derive(Drop)]
pub struct Spare {
    alloc: Global,
    asks: Asks,
    timer_ops: TimerOps,
    machines: Vec<Machine>,
}

impl Model for Spare {
    ghost Value = { Unit {0} };

    ghost view = { λ s. tt };
}

impl Spare {
    /// Nothing is kept yet.
    pub fn new(alloc: Global) -> Spare {
        Spare {
            alloc,
            asks: ListOf::new(alloc),
            timer_ops: ListOf::new(alloc),
            machines: Vec::new(alloc),
        }
    }

    /// A turn for the next callback, whatever it says.
    pub fn turn(&mut self) -> Turn {
        Turn {
            asks: mem::replace(&mut self.asks, ListOf::new(self.alloc)),
            outs: ListOf::new(self.alloc),
            timer_ops: mem::replace(&mut self.timer_ops, ListOf::new(self.alloc)),
        }
    }

    /// Keeps what is left of a turn.
    pub fn keep_turn(&mut self, asks: Asks, timer_ops: TimerOps) {
        self.asks = asks;
        self.timer_ops = timer_ops;
    }

    /// A machine for the next handler, wherever it stands.
    pub fn machine(&mut self) -> Machine {
        match self.machines.pop() {
            Some(machine) => machine,
            None => Machine::new(self.alloc),
        }
    }

    /// Keeps the machine of a handler that has ended, where there is memory for that.
    pub fn keep_machine(&mut self, machine: Machine) {
        let Ok(()) = self.machines.push(machine) else {
            return;
        };
    }
}
