//! Programs as tables of steps.
ghost use Rattle.std.specs.Prelude.{◌≡◌, ◌≤◌, ◌∷◌, [], length, max, map, true, is_some, slice_get, IfOk};
ghost use Rattle.std.specs.List.{list_all};
ghost use Rattle.std.specs.Option.{option_copied};
ghost use Rattle.ax_text.specs.Jobs.{text_for};
ghost use Rattle.ax_text.specs.Names.{is_name, are_distinct};
ghost use Rattle.ax_text.specs.Prints.{is_accepted};
ghost use Rattle.ax_text.specs.Programs.{text_or_stop, program_width, width as text_width, width_some};
ghost use Rattle.ax_text.specs.Rows.{Body, wide, follow, all_ok, text_of};
ghost use Rattle.ax_text.specs.Valid.{names_of, text_fits, timer_fits};
ghost use Rattle.ax_state.specs.Decls.{kinds, shown_states};
ghost use Rattle.ax_lang.specs.Forms.{shown_row};
ghost use Rattle.ax_lang.specs.Names.{text_names, names_some, rows_names, program_names};
ghost use Rattle.ax_lang.specs.Steps.{row_fits, rows_some, rows_width, text_if, text_at, text_some, steps_fit};

use crate::link::{link, link_some};
use crate::step::{HandlerLine, Step};
use ax_base::NoMemory;
use ax_state::Decls;
use ax_text::Handler;
use std::alloc::Global;

/// A program that passed the validator: its declarations, and the statements of its handlers as one table of steps.
#[derive(Drop)]
pub struct Program {
    fields: u8,
    decls: Decls,
    locals: usize,
    width: u8,
    steps: Vec<Step>,
    row: usize,
    timer: Option<usize>,
    ghost few_fields: { fields ≤ 16 },
    ghost few_states: { length decls ≤ 64 },
    ghost few_locals: { locals ≤ 256 },
    ghost named: { list_all is_name (names_of (shown_states decls)) ≡ true },
    ghost distinct: { are_distinct (names_of (shown_states decls)) ≡ true },
    ghost fits: { steps_fit fields locals (kinds decls) 0 steps.items ≡ true },
    ghost row_valid: { text_fits fields locals (kinds decls) (text_at steps.items row) ≡ true },
    ghost timer_valid: { timer_fits locals (kinds decls) (text_some steps.items timer) ≡ true },
    ghost row_apart: { is_accepted (text_at steps.items row) ≡ true },
    ghost timer_apart: { is_accepted (text_or_stop (text_some steps.items timer)) ≡ true },
    ghost numbered: { locals ≡ max (text_names (text_at steps.items row)) (names_some (text_some steps.items timer)) },
    ghost counted: { width ≡ max 1 (max (text_width (text_at steps.items row)) (width_some (text_some steps.items timer))) },
    ghost narrow: { width ≤ 16 },
}

impl Program {
    ghost use Rattle.ax_lang.specs.Shown.{shown_program, shown_kinds, text_from, StandsAt};

    /// The program of these lines; `locals` is how many local names a handler of them has at most, and `width` how many requests they may have out at once.
    ///
    /// Conditions: at most 16 values, 64 states and 256 local names; the states' names are names and differ; what the
    /// lines and their expressions speak of exists, where those of `on timer` have no values of a row; each handler's
    /// blocks are whole and its arms silent and apart; and `locals` and `width` are those of the lines, `width` at most 16.
    #[tactic(auto, unfolding(crate::specs::Shown::shown_program), using(crate::proofs::FitLemmas::rows_more, crate::proofs::ProgramLemmas::row_text, crate::proofs::ProgramLemmas::row_valid, crate::proofs::ProgramLemmas::timer_valid, crate::proofs::ProgramLemmas::row_apart, crate::proofs::ProgramLemmas::timer_apart, crate::proofs::ProgramLemmas::counted, crate::proofs::CountLemmas::numbered))]
    pub(crate) fn new(
        alloc: Global,
        fields: u8,
        decls: Decls,
        locals: usize,
        width: u8,
        row: Vec<HandlerLine>,
        timer: Option<Vec<HandlerLine>>,
    ) -> Result<Program, NoMemory>
        requires fields { fields ≤ 16 }
        requires states { length decls ≤ 64 }
        requires locals { locals ≤ 256 }
        requires named { list_all is_name (names_of (shown_states decls)) ≡ true }
        requires distinct { are_distinct (names_of (shown_states decls)) ≡ true }
        requires row { list_all (row_fits fields locals (kinds decls)) (map shown_row row.items) ≡ true }
        requires row_blocks { follow (map shown_row row.items) (wide Body 0 0 ∷ []) ≡ true }
        requires row_arms { all_ok (map shown_row row.items) [] ≡ true }
        requires timer { list_all (row_fits 0 locals (kinds decls)) (rows_some timer) ≡ true }
        requires timer_blocks { follow (rows_some timer) (wide Body 0 0 ∷ []) ≡ true }
        requires timer_arms { all_ok (rows_some timer) [] ≡ true }
        requires names { locals ≡ max (rows_names (map shown_row row.items)) (rows_names (rows_some timer)) }
        requires width { width ≡ max 1 (max (rows_width (map shown_row row.items)) (rows_width (rows_some timer))) }
        requires narrow { width ≤ 16 }
        ensures { IfOk result (λ p. shown_program p ≡ record { fields = fields; states = shown_states decls; row = text_of (map shown_row row.items); timer = text_if timer }) }
    {
        let lines = row
            .len()
            .saturating_add(timer.as_ref().map_or(0, |rows| rows.len()));
        let Ok(mut steps) = Vec::with_capacity(alloc, lines) else {
            return Err(NoMemory);
        };
        let row = link(alloc, &mut steps, row)?;
        let timer = link_some(alloc, &mut steps, timer)?;
        Ok(Program {
            fields,
            decls,
            locals,
            width,
            steps,
            row,
            timer,
        })
    }

    /// How many values a row has, from 0 to 16.
    #[tactic(auto, unfolding(crate::specs::Shown::shown_program))]
    pub fn fields(&self) -> u8
        ensures value { result ≡ (shown_program self.now).fields }
        ensures small { result ≤ 16 }
    {
        self.fields
    }

    /// The declared states, in order, at most 64.
    #[tactic(auto, unfolding(crate::specs::Shown::shown_program), using(crate::proofs::ProgramLemmas::program_kinds))]
    pub fn decls(&self) -> &Decls
        ensures states { shown_states result.now ≡ (shown_program self.now).states }
        ensures kinds { kinds result.now ≡ shown_kinds self.now }
        ensures few { length result.now ≤ 64 }
    {
        &self.decls
    }

    /// How many requests a handler may have out at once, from 1 to 16.
    #[tactic(auto, unfolding(crate::specs::Shown::shown_program))]
    pub fn width(&self) -> u8
        ensures value { result ≡ program_width (shown_program self.now) }
        ensures some { 1 ≤ result }
        ensures few { result ≤ 16 }
    {
        self.width
    }

    /// Whether there is an `on timer`.
    #[tactic(auto, unfolding(crate::specs::Shown::shown_program))]
    pub fn has_timer(&self) -> bool
        ensures { result ≡ is_some (shown_program self.now).timer }
    {
        self.timer.is_some()
    }

    /// How many local names a handler assigns at most, from 0 to 256: they are the numbers below this, and no statement reads another.
    #[tactic(auto, unfolding(crate::specs::Shown::shown_program))]
    pub fn locals(&self) -> usize
        ensures value { result ≡ program_names (shown_program self.now) }
        ensures small { result ≤ 256 }
    {
        self.locals
    }

    /// The place where a handler begins; the end, 0, where there is no `on timer`.
    #[tactic(auto, unfolding(crate::specs::Shown::shown_program, crate::specs::Shown::text_from, crate::specs::Steps::text_at))]
    pub fn place_of(&self, handler: Handler) -> usize
        ensures { text_from self.now result ≡ text_for (shown_program self.now) handler }
    {
        match handler {
            Handler::Row => self.row,
            Handler::Timer => self.timer.unwrap_or(0),
        }
    }

    /// What stands at a place; nothing at 0, the end, and past the last place.
    pub fn step(&self, place: usize) -> Option<&Step>
        ensures { StandsAt self.now place (option_copied result) }
    {
        if place == 0 {
            None
        } else {
            step_at(self.steps.as_slice(), place - 1)
        }
    }
}

fn step_at(steps: &[Step], index: usize) -> Option<&Step>
    ensures { option_copied result ≡ slice_get steps.now index }
{
    steps.get(index)
}
