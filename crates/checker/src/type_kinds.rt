// The kinds of type words.
ghost use Rattle.std.specs.Prelude.{◌≡◌, min};
ghost use Rattle.syntax.specs.Words.{kind_of};

use words::fields::kind;

#[derive(Clone, Copy, Debug, PartialEq, Eq)]
pub enum TypeKind {
    Base,
    Function,
    Product,
    Sum,
    Unit,
}

impl TypeKind {
    ghost use Rattle.checker.specs.TypeKinds.{code_within};

    // the kind of a type word, if it has one
    pub fn of(w: u64) -> Option<TypeKind>
        ensures { code_within result ≡ min (kind_of w) 5 }
    {
        match kind(w) {
            0 => Some(TypeKind::Base),
            1 => Some(TypeKind::Function),
            2 => Some(TypeKind::Product),
            3 => Some(TypeKind::Sum),
            4 => Some(TypeKind::Unit),
            _ => None,
        }
    }
}
