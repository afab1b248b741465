// A call table, with the answer to whether some call of it acts.
ghost use Rattle.std.specs.Prelude.{◌≡◌, List, ℕ};
ghost use Rattle.syntax.specs.Tables.{acts, some_acts};

use crate::acting::{call_acts, some_acts};
use std::marker::Model;

// whether some call acts is asked once, when the table is taken, and not at each search
#[derive(Drop)]
pub struct Calls<'a> {
    words: &'a [u64],
    acting: bool,
}

impl<'a> Model for Calls<'a> {
    ghost Value = { List ℕ };

    ghost view = { λ c. c.words.now };

    ghost invariant = { λ c. c.acting ≡ some_acts c.words.now };
}

impl<'a> Calls<'a> {
    pub fn new(words: &'a [u64]) -> Self
        ensures { result ≡ words.now }
    {
        Calls {
            words,
            acting: some_acts(words),
        }
    }

    pub fn words(&self) -> &[u64]
        ensures { result.now ≡ self.now }
    {
        self.words
    }

    // whether some call acts
    pub fn any_acts(&self) -> bool
        ensures { result ≡ some_acts self.now }
    {
        self.acting
    }

    // whether a call acts; none does past the table
    pub fn acts(&self, n: u64) -> bool
        ensures { result ≡ acts self.now n }
    {
        call_acts(self.words, n)
    }
}
