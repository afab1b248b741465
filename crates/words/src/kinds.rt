// The kinds of term words.
ghost use Rattle.std.specs.Prelude.{◌≡◌, min};
ghost use Rattle.syntax.specs.Words.{kind_of};

use crate::fields::kind;

#[derive(Clone, Copy, Debug, PartialEq, Eq)]
pub enum Kind {
    Variable,
    Call,
    Function,
    Application,
    Let,
    Pair,
    First,
    Second,
    Left,
    Right,
    Case,
    Unit,
    Unknown,
}

impl Kind {
    ghost use Rattle.words.specs.KindCodes.{code};

    // the kind of a word; those past the last have no meaning
    pub fn of(w: u64) -> Kind
        ensures { code result ≡ min (kind_of w) 12 }
    {
        match kind(w) {
            0 => Kind::Variable,
            1 => Kind::Call,
            2 => Kind::Function,
            3 => Kind::Application,
            4 => Kind::Let,
            5 => Kind::Pair,
            6 => Kind::First,
            7 => Kind::Second,
            8 => Kind::Left,
            9 => Kind::Right,
            10 => Kind::Case,
            11 => Kind::Unit,
            _ => Kind::Unknown,
        }
    }
}
