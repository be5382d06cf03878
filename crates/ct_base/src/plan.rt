//! Signal plans: what each signal shows at each step.

use listed::{Duplicate, Listed, Memory};

/// What a signal shows during one step.
#[derive(Clone, Copy, Debug, PartialEq, Eq)]
pub enum Letter {
    /// The green of a phase.
    Green(u8),
    /// The clearing after a phase's green.
    Clear(u8),
}

/// What one signal shows: one letter per step.
pub type Word = Listed<Letter>;

/// What all signals of a network show.
#[derive(Debug, Drop)]
pub struct Plan {
    /// One word per signal.
    pub words: Listed<Word>,
}

impl Duplicate for Letter {
    fn copy(&self) -> Result<Letter, Memory> {
        Ok(*self)
    }
}

impl Duplicate for Plan {
    fn copy(&self) -> Result<Plan, Memory> {
        Ok(Plan {
            words: self.words.copy()?,
        })
    }
}
