//! A handler on its way.
ghost use Rattle.std.specs.Prelude.{◌≡◌, ◌≤◌, ◌+◌, ◌↔◌, ◌∷◌, [], true, pos, ℕ, length, IsTrue, IfOk, OnOk, OnErr};
ghost use Rattle.ax_text.specs.Jobs.{text_for};
ghost use Rattle.ax_text.specs.Prints.{has};
ghost use Rattle.ax_text.specs.Silent.{silent};
ghost use Rattle.ax_text.specs.Underway.{TakesLeast, SlotsRise};
ghost use Rattle.ax_text.specs.Controls.{Rest, Done, slots, waiting, replaced, without, is_done, also, begin, give_in, give};
ghost use Rattle.ax_lang.specs.declared.program.Program.{Program as AnyProgram};
ghost use Rattle.ax_lang.specs.Shown.{shown_program};
ghost use Rattle.ax_future.specs.Least.{IsLeastWaiting};
ghost use Rattle.ax_future.specs.Sizes.{control_width};
ghost use Rattle.ax_future.specs.Nodes.{control_in};
ghost use Rattle.ax_future.specs.Talks.{facts_in, known_in, talk_of, asks_in};
ghost use Rattle.ax_future.specs.Moves.{turn_of};

use crate::answers::{add_others, give_in, waits_at};
use crate::begin::{begin, only_in};
use crate::callback::{Facts, Known, Turn};
use crate::going::Going;
use crate::least::least_of;
use crate::node::Node;
use ax_base::NoMemory;
use ax_lang::Program;
use ax_text::{Answer, Handler, Request};
use std::alloc::Global;
use std::mem;

/// A handler on its way: where it stands, and the numbers of its local names.
///
/// Each call that takes a program or facts is to be given those that its handler was started with.
#[derive(Drop)]
pub struct Machine {
    alloc: Global,
    node: Node,
    going: Going,
}

// Whether a node is a wait at this slot.
fn is_alone(node: &Node, slot: u8) -> bool
    ensures { (p : AnyProgram) → IsTrue result → without slot (slots (control_in p node.now)) ≡ [] }
{
    match node {
        Node::Wait { slot: other, .. } => slot == *other,
        _ => false,
    }
}

// The slots where a node waits, but one.
fn others_of(alloc: Global, node: &Node, slot: u8) -> Result<Vec<u8>, NoMemory>
    ensures { IfOk result (λ others. (p : AnyProgram) → others.items ≡ without slot (slots (control_in p node.now))) }
{
    let mut others = Vec::new(alloc);
    if is_alone(node, slot) {
        return Ok(others);
    }
    add_others(node, slot, &mut others)?;
    Ok(others)
}

// The wait of a slot takes an answer, and the handler goes on.
#[inline(always)]
fn give(
    alloc: Global,
    program: &Program,
    facts: &Known<'_>,
    slot: u8,
    answer: Answer,
    going: &mut Going,
    node: &mut Node,
) -> Result<(), NoMemory>
    requires { length (without slot (slots (control_in program.now node.old))) + control_width (control_in program.now node.old) ≤ 256 }
    ensures { OnOk result (also (asks_in going.old.said.asks) (give_in (known_in facts.now) (control_in program.now node.old) slot answer (without slot (slots (control_in program.now node.old))) (talk_of going.old)) ≡ turn_of program.now going.new node.new) }
{
    let others = others_of(alloc, node, slot)?;
    give_in(alloc, program, facts, &others, slot, answer, going, node)?;
    Ok(())
}

impl Machine {
    ghost use Rattle.ax_future.specs.Machines.{control_of, names_of, said_by, left_by, IsSound};

    /// A machine that is done. It takes no memory before a handler starts in it.
    pub fn new(alloc: Global) -> Machine
        ensures { (p : AnyProgram) → control_of p result ≡ Done }
    {
        Machine {
            alloc,
            node: Node::Done,
            going: Going::new(alloc),
        }
    }

    /// Runs a handler until each live arm waits for an answer or has ended. A handler that the program doesn't have
    /// is done at once. The only fault is `NoMemory`.
    ///
    /// A request takes the least slot that is free, and the first arm of a `both` asks before the second.
    pub fn start(
        alloc: Global,
        program: &Program,
        handler: Handler,
        facts: &Facts,
    ) -> Result<(Machine, Turn), NoMemory>
        ensures turn { IfOk result (λ r. begin (facts_in facts.now) (Rest (text_for (shown_program program.now) handler) ∷ []) [] (silent (λ i. pos 0)) ≡ left_by program.now r.0 r.1) }
        ensures sound { IfOk result (λ r. IsSound program.now r.0) }
        ensures asks { IfOk result (λ r. waiting (control_of program.now r.0) ≡ asks_in r.1.asks) }
        ensures least { IfOk result (λ r. TakesLeast [] (asks_in r.1.asks)) }
        ensures rise { IfOk result (λ r. SlotsRise (asks_in r.1.asks)) }
    {
        let mut machine = Machine::new(alloc);
        let turn = machine.start_here(program, handler, facts)?;
        Ok((machine, turn))
    }

    /// Starts a handler, as `start` does, in the place of this machine: wherever it stood, that is over. After `NoMemory`, its
    /// only fault, the machine waits for nothing.
    pub fn start_here(
        &mut self,
        program: &Program,
        handler: Handler,
        facts: &Facts,
    ) -> Result<Turn, NoMemory>
        ensures turn { IfOk result (λ turn. begin (facts_in facts.now) (Rest (text_for (shown_program program.now) handler) ∷ []) [] (silent (λ i. pos 0)) ≡ left_by program.now self.new turn) }
        ensures sound { OnOk result (IsSound program.now self.new) }
        ensures asks { IfOk result (λ turn. waiting (control_of program.now self.new) ≡ asks_in turn.asks) }
        ensures least { IfOk result (λ turn. TakesLeast [] (asks_in turn.asks)) }
        ensures rise { IfOk result (λ turn. SlotsRise (asks_in turn.asks)) }
        ensures stopped { OnErr result (control_of program.now self.new ≡ Done) }
    {
        self.restart(program, handler, &facts.known())?;
        let turn = mem::replace(&mut self.going.said, Turn::new(self.alloc));
        Ok(turn)
    }

    /// Starts a handler, as `start_here` does, and leaves what it did in the memory of a turn: what that said is gone. After
    /// `NoMemory`, its only fault, the machine waits for nothing.
    pub fn start_into(
        &mut self,
        program: &Program,
        handler: Handler,
        facts: &Facts,
        turn: &mut Turn,
    ) -> Result<(), NoMemory>
        ensures turn { OnOk result (begin (facts_in facts.now) (Rest (text_for (shown_program program.now) handler) ∷ []) [] (silent (λ i. pos 0)) ≡ left_by program.now self.new turn.new) }
        ensures sound { OnOk result (IsSound program.now self.new) }
        ensures asks { OnOk result (waiting (control_of program.now self.new) ≡ asks_in turn.new.asks) }
        ensures least { OnOk result (TakesLeast [] (asks_in turn.new.asks)) }
        ensures rise { OnOk result (SlotsRise (asks_in turn.new.asks)) }
        ensures stopped { OnErr result (control_of program.now self.new ≡ Done) }
    {
        mem::swap(&mut self.going.said, turn);
        self.restart(program, handler, &facts.known())?;
        mem::swap(&mut self.going.said, turn);
        Ok(())
    }

    /// Starts a handler, as `start` does, in the memory of this machine: wherever it stood, that is over, and what it said is
    /// gone. After `NoMemory`, its only fault, the machine waits for nothing.
    pub fn restart(
        &mut self,
        program: &Program,
        handler: Handler,
        facts: &Known<'_>,
    ) -> Result<(), NoMemory>
        ensures turn { OnOk result (begin (known_in facts.now) (Rest (text_for (shown_program program.now) handler) ∷ []) [] (silent (λ i. pos 0)) ≡ left_by program.now self.new (said_by self.new)) }
        ensures sound { OnOk result (IsSound program.now self.new) }
        ensures asks { OnOk result (waiting (control_of program.now self.new) ≡ asks_in (said_by self.new).asks) }
        ensures least { OnOk result (TakesLeast [] (asks_in (said_by self.new).asks)) }
        ensures rise { OnOk result (SlotsRise (asks_in (said_by self.new).asks)) }
        ensures stopped { OnErr result (control_of program.now self.new ≡ Done) }
    {
        let alloc = self.alloc;
        self.node = Node::Done;
        self.going.make_room(program.locals())?;
        let spare = self.going.renew(alloc);
        let cursor = only_in(spare, program.place_of(handler))?;
        match begin(
            alloc,
            program,
            facts,
            &[],
            cursor,
            &mut self.going,
            &mut self.node,
        ) {
            Ok(()) => Ok(()),
            Err(fault) => {
                self.node = Node::Done;
                Err(fault)
            }
        }
    }

    /// Gives the answer of a slot, and runs on. What it asks is what waits then and didn't before. It takes time for
    /// the arms that wait and for what it runs, and none for what is behind. After `NoMemory`, its only fault, the
    /// machine waits for nothing, and may only be dropped or started anew.
    ///
    /// Condition: `waits(slot)`, and the machine is sound for the program, as a start and each answer leave it.
    pub fn resume(
        &mut self,
        program: &Program,
        facts: &Facts,
        slot: u8,
        answer: Answer,
    ) -> Result<Turn, NoMemory>
        requires sound { IsSound program.now self.old }
        requires waits { has slot (slots (control_of program.now self.old)) ≡ true }
        ensures turn { IfOk result (λ turn. give (facts_in facts.now) (control_of program.now self.old) slot answer (silent (names_of self.old)) ≡ left_by program.now self.new turn) }
        ensures sound { OnOk result (IsSound program.now self.new) }
        ensures asks { IfOk result (λ turn. waiting (control_of program.now self.new) ≡ replaced slot (asks_in turn.asks) (waiting (control_of program.now self.old))) }
        ensures least { IfOk result (λ turn. TakesLeast (without slot (slots (control_of program.now self.old))) (asks_in turn.asks)) }
        ensures rise { IfOk result (λ turn. SlotsRise (asks_in turn.asks)) }
        ensures stopped { OnErr result (control_of program.now self.new ≡ Done) }
    {
        self.take_answer(program, &facts.known(), slot, answer)?;
        let turn = mem::replace(&mut self.going.said, Turn::new(self.alloc));
        Ok(turn)
    }

    /// Gives the answer of a slot, and runs on, as `resume` does, and leaves what was done in the memory of a turn: what that
    /// said is gone. After `NoMemory`, its only fault, the machine waits for nothing.
    ///
    /// Condition: that of `resume`.
    pub fn resume_into(
        &mut self,
        program: &Program,
        facts: &Facts,
        slot: u8,
        answer: Answer,
        turn: &mut Turn,
    ) -> Result<(), NoMemory>
        requires sound { IsSound program.now self.old }
        requires waits { has slot (slots (control_of program.now self.old)) ≡ true }
        ensures turn { OnOk result (give (facts_in facts.now) (control_of program.now self.old) slot answer (silent (names_of self.old)) ≡ left_by program.now self.new turn.new) }
        ensures sound { OnOk result (IsSound program.now self.new) }
        ensures asks { OnOk result (waiting (control_of program.now self.new) ≡ replaced slot (asks_in turn.new.asks) (waiting (control_of program.now self.old))) }
        ensures least { OnOk result (TakesLeast (without slot (slots (control_of program.now self.old))) (asks_in turn.new.asks)) }
        ensures rise { OnOk result (SlotsRise (asks_in turn.new.asks)) }
        ensures stopped { OnErr result (control_of program.now self.new ≡ Done) }
    {
        mem::swap(&mut self.going.said, turn);
        self.take_answer(program, &facts.known(), slot, answer)?;
        mem::swap(&mut self.going.said, turn);
        Ok(())
    }

    /// Gives the answer of a slot, and runs on, as `resume` does, in the memory of this machine: what it said before is gone.
    /// After `NoMemory`, its only fault, the machine waits for nothing.
    ///
    /// Condition: that of `resume`.
    pub fn take_answer(
        &mut self,
        program: &Program,
        facts: &Known<'_>,
        slot: u8,
        answer: Answer,
    ) -> Result<(), NoMemory>
        requires sound { IsSound program.now self.old }
        requires waits { has slot (slots (control_of program.now self.old)) ≡ true }
        ensures turn { OnOk result (give (known_in facts.now) (control_of program.now self.old) slot answer (silent (names_of self.old)) ≡ left_by program.now self.new (said_by self.new)) }
        ensures sound { OnOk result (IsSound program.now self.new) }
        ensures asks { OnOk result (waiting (control_of program.now self.new) ≡ replaced slot (asks_in (said_by self.new).asks) (waiting (control_of program.now self.old))) }
        ensures least { OnOk result (TakesLeast (without slot (slots (control_of program.now self.old))) (asks_in (said_by self.new).asks)) }
        ensures rise { OnOk result (SlotsRise (asks_in (said_by self.new).asks)) }
        ensures stopped { OnErr result (control_of program.now self.new ≡ Done) }
    {
        let alloc = self.alloc;
        self.going.hush(alloc);
        match give(
            alloc,
            program,
            facts,
            slot,
            answer,
            &mut self.going,
            &mut self.node,
        ) {
            Ok(()) => Ok(()),
            Err(fault) => {
                self.node = Node::Done;
                Err(fault)
            }
        }
    }

    /// What the last callback said: that of the start, or of the answer that was given last.
    pub fn said(&self) -> &Turn
        ensures { result.now ≡ said_by self.now }
    {
        &self.going.said
    }

    /// Whether it is done: exactly where no slot waits.
    #[tactic(auto, using(crate::proofs::MachineLemmas::done_where_none))]
    pub fn is_done(&self) -> bool
        ensures value { (p : AnyProgram) → result ≡ is_done (control_of p self.now) }
        ensures none { (p : AnyProgram) → IsSound p self.now → IsTrue result ↔ (slots (control_of p self.now) ≡ []) }
    {
        matches!(&self.node, Node::Done)
    }

    /// Whether a request waits at a slot.
    pub fn waits(&self, slot: u8) -> bool
        ensures { (p : AnyProgram) → result ≡ has slot (slots (control_of p self.now)) }
    {
        waits_at(&self.node, slot)
    }

    /// The request that waits at the least slot, with the slot. `None` exactly where it is done.
    pub fn least_waiting(&self) -> Option<(u8, &Request)>
        ensures { (p : AnyProgram) → IsSound p self.now → IsLeastWaiting (control_of p self.now) result }
    {
        least_of(&self.node)
    }
}
