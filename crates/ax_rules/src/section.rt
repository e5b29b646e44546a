//! The end of a section.
ghost use Rattle.std.specs.Prelude.{◌≡◌};
ghost use Rattle.ax_rules.specs.Sections.{is_whole};

use crate::tables::Tables;

/// Where the program section ended.
#[derive(Clone, Copy, Debug, PartialEq, Eq)]
pub struct SectionEnd {
    /// The line of `%%`, or one past the last line where there is none.
    pub line: u64,
    /// Whether there was a line of `%%`.
    pub found: bool,
}

impl Tables {
    /// Whether nothing is due at the end of the section: `input` and `on row` have come, and no block is open.
    #[tactic(auto, unfolding(crate::specs::Sections::is_whole))]
    pub fn is_whole(&self) -> bool
        ensures { result ≡ is_whole self.now }
    {
        self.fields.is_some() && self.row && !self.is_inside()
    }
}
