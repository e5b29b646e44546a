//! The open blocks, and what is noted in them.
ghost use Rattle.std.specs.Prelude.{◌≡◌, ◌∷◌, [], ◌+◌, ◌<◌, ◌&&◌, ◌++◌, map, length, true, false, not, OnOk, IfOk};
ghost use Rattle.std.specs.List.{list_any};
ghost use Rattle.std.specs.Option.{option_copied};
ghost use Rattle.ax_text.specs.Prints.{has, meet, collide};
ghost use Rattle.ax_syntax.specs.Shapes.{shown_shape};
ghost use Rattle.ax_rules.specs.Frames.{print_of, added, all_added, merged, clashes, is_yes, is_one, is_two, second, top_is, opened, note, raised, turned, width_by, block_width, closed, asked, frames_with, is_arm, has_conflict, top_is_wide, top_width, widest_with};
ghost use Rattle.ax_rules.specs.Lines.{names_of};
ghost use Rattle.ax_rules.specs.Faults.{is_loud_in_arm, is_too_wide, block_fault};

use crate::kinds::FaultKind;
use crate::shapes::{
    also_of, changes, is_loud, more_of, push_number, push_numbers, push_state, reads_of, set_of,
    use_of,
};
use crate::tables::DeclaredState;
use ax_base::{Bytes, ListOf, NoMemory};
use ax_syntax::Shape;
use std::alloc::Global;
use std::marker::Model;

/// Which part of a block is open.
#[derive(Clone, Copy, Debug, PartialEq, Eq)]
pub enum Part {
    /// Behind an `if`.
    Yes,
    /// Behind the `else` of an `if`.
    No,
    /// Behind an `each`, `on row` or `on timer`.
    Body,
    /// The first arm of a `both`.
    One,
    /// The second arm of a `both`, behind its `with`.
    Two,
}

/// What lines touch: local names and states by their numbers from 0, in the order in which the handler first assigns its
/// names and the program declares its states.
#[derive(Debug, Drop)]
pub struct Print {
    /// The local names that are assigned.
    pub sets: ListOf<usize>,
    /// The local names that expressions read.
    pub reads: ListOf<usize>,
    /// The states that are changed.
    pub changes: ListOf<usize>,
    /// The states that are only looked at.
    pub gets: ListOf<usize>,
}

/// An open block. A width is how many requests of a part may be out together: 0 to 16 where no line has a fault.
#[derive(Debug, Drop)]
pub struct Frame {
    pub part: Part,
    /// Of a `both`, what the lines of its first arm touch, each number once; of other blocks nothing.
    pub arm: Print,
    /// How wide the first part was, behind an `else` or a `with`; else 0.
    pub first: usize,
    /// How wide this part is so far.
    pub width: usize,
}

/// The open blocks, which contracts see as a list, the innermost first.
#[derive(Debug, Drop)]
pub struct Frames {
    items: Vec<Frame>,
}

impl Model for Frames {
    ghost use Rattle.std.specs.Prelude.{List, reverse};
    ghost use Rattle.ax_rules.specs.declared.blocks.Frame.{Frame};

    ghost Value = { List Frame };

    ghost view = { λ fs. reverse fs.items.items };
}

fn has(number: usize, numbers: &[usize]) -> bool
    ensures { result ≡ has number numbers.now }
{
    for other in numbers {
        if number == *other {
            return true;
        }
    }
    false
}

fn meets(numbers: &[usize], others: &[usize]) -> bool
    ensures { result ≡ meet numbers.now others.now }
{
    for number in numbers {
        if has(*number, others) {
            return true;
        }
    }
    false
}

fn collides(writes: &[usize], reads: &[usize], others: &[usize], read: &[usize]) -> bool
    ensures { result ≡ collide writes.now reads.now others.now read.now }
{
    meets(writes, others) || meets(writes, read) || meets(reads, others)
}

// Adds a number that isn't there.
fn add_number(numbers: &mut ListOf<usize>, number: usize) -> Result<(), NoMemory>
    ensures { OnOk result (numbers.new ≡ added number numbers.old) }
{
    if has(number, numbers.as_slice()) {
        Ok(())
    } else {
        numbers.push(number)
    }
}

fn add_numbers(numbers: &mut ListOf<usize>, more: &[usize]) -> Result<(), NoMemory>
    ensures { OnOk result (numbers.new ≡ all_added more.now numbers.old) }
{
    for number in more {
        add_number(numbers, *number)?;
    }
    Ok(())
}

impl Print {
    /// What a line touches, where these are the names of the locals, its own among them, and the states.
    pub(crate) fn of_line(
        alloc: Global,
        locals: &[Bytes],
        states: &[DeclaredState],
        shape: &Shape,
    ) -> Result<Print, NoMemory>
        ensures { IfOk result (λ p. p ≡ print_of locals.now (names_of states.now) (shown_shape shape.now)) }
    {
        let mut sets = ListOf::new(alloc);
        push_number(&mut sets, locals, set_of(shape))?;
        push_number(&mut sets, locals, also_of(shape))?;
        let mut reads = ListOf::new(alloc);
        push_numbers(&mut reads, locals, reads_of(shape))?;
        push_numbers(&mut reads, locals, more_of(shape))?;
        let mut used = ListOf::new(alloc);
        push_state(&mut used, states, use_of(shape))?;
        let none = ListOf::new(alloc);
        if changes(shape) {
            Ok(Print {
                sets,
                reads,
                changes: used,
                gets: none,
            })
        } else {
            Ok(Print {
                sets,
                reads,
                changes: none,
                gets: used,
            })
        }
    }

    fn merge(&mut self, more: &Print) -> Result<(), NoMemory>
        ensures { OnOk result (self.new ≡ merged more.now self.old) }
    {
        add_numbers(&mut self.sets, more.sets.as_slice())?;
        add_numbers(&mut self.reads, more.reads.as_slice())?;
        add_numbers(&mut self.changes, more.changes.as_slice())?;
        add_numbers(&mut self.gets, more.gets.as_slice())
    }

    fn clashes(&self, other: &Print) -> bool
        ensures { result ≡ clashes self.now other.now }
    {
        collides(
            self.sets.as_slice(),
            self.reads.as_slice(),
            other.sets.as_slice(),
            other.reads.as_slice(),
        ) || collides(
            self.changes.as_slice(),
            self.gets.as_slice(),
            other.changes.as_slice(),
            other.gets.as_slice(),
        )
    }
}

fn is_yes(part: Part) -> bool
    ensures { result ≡ is_yes part }
{
    matches!(part, Part::Yes)
}

fn is_one(part: Part) -> bool
    ensures { result ≡ is_one part }
{
    matches!(part, Part::One)
}

fn is_two(part: Part) -> bool
    ensures { result ≡ is_two part }
{
    matches!(part, Part::Two)
}

fn second(part: Part) -> Part
    ensures { result ≡ second part }
{
    match part {
        Part::Yes => Part::No,
        Part::One => Part::Two,
        part => part,
    }
}

fn opened(alloc: Global, part: Part, width: usize) -> Frame
    ensures { result ≡ opened part width }
{
    Frame {
        part,
        arm: Print {
            sets: ListOf::new(alloc),
            reads: ListOf::new(alloc),
            changes: ListOf::new(alloc),
            gets: ListOf::new(alloc),
        },
        first: 0,
        width,
    }
}

fn note(frame: &mut Frame, print: &Print) -> Result<(), NoMemory>
    ensures { OnOk result (frame.new ≡ note print.now frame.old) }
{
    if is_one(frame.part) {
        frame.arm.merge(print)
    } else {
        Ok(())
    }
}

fn note_all(frames: &mut [Frame], print: &Print) -> Result<(), NoMemory>
    ensures { OnOk result (frames.new ≡ map (note print.now) frames.old) }
{
    for frame in frames.iter_mut() {
        note(frame, print)?;
    }
    Ok(())
}

fn note_in(frames: &mut Vec<Frame>, print: &Print) -> Result<(), NoMemory>
    ensures { OnOk result (frames.new.items ≡ map (note print.now) frames.old.items) }
{
    note_all(frames, print)
}

fn is_arm(frame: &Frame) -> bool
    ensures { result ≡ is_arm frame.now }
{
    is_one(frame.part) || is_two(frame.part)
}

fn stands_against(frame: &Frame, print: &Print) -> bool
    ensures { result ≡ (is_two frame.now.part && clashes print.now frame.now.arm) }
{
    is_two(frame.part) && print.clashes(&frame.arm)
}

fn any_arm(frames: &[Frame]) -> bool
    ensures { result ≡ list_any is_arm frames.now }
{
    frames.iter().any(|frame| is_arm(frame))
}

fn any_conflict(frames: &[Frame], print: &Print) -> bool
    ensures { result ≡ has_conflict print.now frames.now }
{
    frames.iter().any(|frame| stands_against(frame, print))
}

fn width_by(part: Part, first: usize, width: usize) -> usize
    requires { is_two part ≡ true → first + width < 17 }
    ensures { result ≡ width_by part first width }
{
    match part {
        Part::Yes | Part::One => width,
        Part::Two => first + width,
        _ => first.max(width),
    }
}

fn asked(state: Option<&Bytes>) -> usize
    ensures { result ≡ asked (option_copied state.entry) }
{
    match state {
        None => 0,
        Some(_) => 1,
    }
}

impl Frames {
    /// No block.
    pub(crate) fn new(alloc: Global) -> Frames
        ensures { result ≡ [] }
    {
        Frames {
            items: Vec::new(alloc),
        }
    }

    /// How many blocks are open.
    pub(crate) fn len(&self) -> usize
        ensures { result ≡ length self.now }
    {
        self.items.len()
    }

    #[tactic(auto, using(crate::proofs::FrameLemmas::pushed))]
    fn push(&mut self, frame: Frame) -> Result<(), NoMemory>
        ensures { OnOk result (self.new ≡ frame ∷ self.old) }
    {
        match self.items.push(frame) {
            Ok(()) => Ok(()),
            Err(_) => Err(NoMemory),
        }
    }

    #[tactic(auto, using(crate::proofs::FrameLemmas::noted))]
    fn note(&mut self, print: &Print) -> Result<(), NoMemory>
        ensures { OnOk result (self.new ≡ map (note print.now) self.old) }
    {
        note_in(&mut self.items, print)
    }

    /// Whether a line in here is in an arm.
    #[tactic(auto, using(crate::proofs::FrameLemmas::any_reversed))]
    fn has_arm(&self) -> bool
        ensures { result ≡ list_any is_arm self.now }
    {
        any_arm(&self.items)
    }

    #[tactic(auto, using(crate::proofs::FrameLemmas::any_reversed))]
    fn has_conflict(&self, print: &Print) -> bool
        ensures { result ≡ has_conflict print.now self.now }
    {
        any_conflict(&self.items, print)
    }

    /// Whether the innermost block is at its `if`.
    pub(crate) fn is_at_yes(&self) -> bool
        ensures { result ≡ top_is is_yes self.now }
    {
        match self.items.last() {
            None => false,
            Some(frame) => is_yes(frame.part),
        }
    }

    /// Whether the innermost block is at its first arm.
    pub(crate) fn is_at_one(&self) -> bool
        ensures { result ≡ top_is is_one self.now }
    {
        match self.items.last() {
            None => false,
            Some(frame) => is_one(frame.part),
        }
    }

    fn top_is_wide(&self) -> bool
        ensures { result ≡ top_is_wide self.now }
    {
        match self.items.last() {
            None => false,
            Some(frame) => is_two(frame.part) && frame.first.saturating_add(frame.width) > 16,
        }
    }

    fn top_width(&self) -> usize
        requires { top_is_wide self.now ≡ false }
        ensures { result ≡ top_width self.now }
    {
        match self.items.last() {
            None => 0,
            Some(frame) => width_by(frame.part, frame.first, frame.width),
        }
    }

    /// The greatest width of a handler behind a line, which is no `end` of a `both` that is too wide.
    pub(crate) fn widest(&self, widest: usize, shape: &Shape) -> usize
        requires { is_too_wide (shown_shape shape.now) self.now ≡ false }
        ensures { result ≡ widest_with (shown_shape shape.now) self.now widest }
    {
        match shape {
            Shape::End => {
                if self.len() == 1 {
                    widest.max(self.top_width())
                } else {
                    widest
                }
            }
            _ => widest,
        }
    }

    fn raise(&mut self, width: usize) -> Result<(), NoMemory>
        ensures { OnOk result (self.new ≡ raised width self.old) }
    {
        match self.items.pop() {
            None => Ok(()),
            Some(frame) => self.push(Frame {
                part: frame.part,
                arm: frame.arm,
                first: frame.first,
                width: frame.width.max(width),
            }),
        }
    }

    fn turn(&mut self) -> Result<(), NoMemory>
        ensures { OnOk result (self.new ≡ turned self.old) }
    {
        match self.items.pop() {
            None => Ok(()),
            Some(frame) => self.push(Frame {
                part: second(frame.part),
                arm: frame.arm,
                first: frame.width,
                width: 0,
            }),
        }
    }

    fn close(&mut self) -> Result<(), NoMemory>
        requires { top_is_wide self.old ≡ false }
        ensures { OnOk result (self.new ≡ closed self.old) }
    {
        match self.items.pop() {
            None => Ok(()),
            Some(frame) => {
                let width = width_by(frame.part, frame.first, frame.width);
                self.raise(width)
            }
        }
    }

    fn open(
        &mut self,
        alloc: Global,
        print: &Print,
        part: Part,
        width: usize,
    ) -> Result<(), NoMemory>
        ensures { OnOk result (self.new ≡ opened part width ∷ map (note print.now) self.old) }
    {
        self.note(print)?;
        self.push(opened(alloc, part, width))
    }

    fn begin(&mut self, alloc: Global) -> Result<(), NoMemory>
        ensures { OnOk result (self.new ≡ opened Part.Body 0 ∷ []) }
    {
        *self = Frames::new(alloc);
        self.push(opened(alloc, Part::Body, 0))
    }

    fn is_too_wide(&self, shape: &Shape) -> bool
        ensures { result ≡ is_too_wide (shown_shape shape.now) self.now }
    {
        match shape {
            Shape::End => self.top_is_wide(),
            _ => false,
        }
    }

    fn is_loud_in_arm(&self, shape: &Shape) -> bool
        ensures { result ≡ is_loud_in_arm (shown_shape shape.now) self.now }
    {
        is_loud(shape) && self.has_arm()
    }

    /// The first fault of a line that touches this, of those that look at the open blocks.
    #[tactic(auto, unfolding(crate::specs::Faults::block_fault))]
    pub(crate) fn block_fault(&self, print: &Print, shape: &Shape) -> Option<FaultKind>
        ensures { result ≡ block_fault print.now (shown_shape shape.now) self.now }
    {
        if self.is_loud_in_arm(shape) {
            Some(FaultKind::InArm)
        } else if self.has_conflict(print) {
            Some(FaultKind::Conflict)
        } else if self.is_too_wide(shape) {
            Some(FaultKind::TooWide)
        } else {
            None
        }
    }

    /// Takes a line, which is no `end` of a `both` that is too wide.
    pub(crate) fn take(
        &mut self,
        alloc: Global,
        print: &Print,
        shape: &Shape,
    ) -> Result<(), NoMemory>
        requires { is_too_wide (shown_shape shape.now) self.old ≡ false }
        ensures { OnOk result (self.new ≡ frames_with (shown_shape shape.now) print.now self.old) }
    {
        match shape {
            Shape::Input(_) | Shape::State(..) => Ok(()),
            Shape::OnRow | Shape::OnTimer => self.begin(alloc),
            Shape::End => self.close(),
            Shape::Else | Shape::With => self.turn(),
            Shape::If(_) => self.open(alloc, print, Part::Yes, 0),
            Shape::Each(..) | Shape::EachPair(..) => self.open(alloc, print, Part::Body, 1),
            Shape::Both => self.open(alloc, print, Part::One, 0),
            _ => {
                self.note(print)?;
                self.raise(asked(use_of(shape)))
            }
        }
    }
}
