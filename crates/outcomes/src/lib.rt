// The answers of the public calls. Their meaning stands in specs/.

#![tactic(auto)]

ghost use Rattle.std.specs.Prelude.{◌≡◌};
ghost use Rattle.outcomes.specs.Refusal.{number_of};

// why a call refuses, by number: the checks of the tables and the term in their order, the limits of a reduction, and the bundle
#[derive(Clone, Copy, Debug, PartialEq, Eq)]
pub enum Refusal {
    Lengths = 1, // the tables or the term have too many words, or the term has none
    TypeWord = 2, // a type word is not well formed
    RepeatedType = 3, // a type word stands twice
    CallWord = 4, // a call word is not well formed
    InputType = 5, // an input has no known type
    TermWord = 6, // a term word is not well formed
    Parts = 7, // the term words are not one part
    Scope = 8, // a variable names no binder and no input
    Type = 9, // the term has no type
    Budget = 10, // the budget is spent
    Capacity = 11, // a term of the reduction is longer than the capacity
    Bundle = 12, // the bytes are no bundle
    Ceiling = 13, // a rule would pass its ceiling
}

impl From<Refusal> for u32 {
    ghost from_gives = { λ r n. n ≡ number_of r };

    fn from(refusal: Refusal) -> u32 {
        refusal as u32
    }
}

// the inputs that a term reads: refusal 0, a mark for each (input 0 is the highest bit of the first word) and how many are marked, or the
// refusal and zeros; laid out as C does
#[repr(C)]
#[derive(Drop)]
pub struct FreeInputs {
    pub refusal: u32,
    pub marks: [u64; 4],
    pub count: u32,
}

// normalization: refusal number, type number, length of the normal form, and ten counts in the order of the rules; laid out as C does
#[repr(C)]
#[derive(Drop)]
pub struct Answer {
    pub refusal: u32,
    pub ty: u64,
    pub length: usize,
    pub counts: [u32; 10],
}

// the four lengths in a bundle's header
#[derive(Drop)]
pub struct Lengths {
    pub types: usize,
    pub calls: usize,
    pub inputs: usize,
    pub words: usize,
}
