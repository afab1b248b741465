// The ten rules in the order of the counts, the three phases, and the answer of the search. The definitions stand in specs/.

#![tactic(auto)]

#[derive(Clone, Copy, Debug, PartialEq, Eq)]
pub enum Rule {
    LetInsertion,
    LetOfLet,
    LetOfCase,
    Apply,
    First,
    Second,
    LeftCase,
    RightCase,
    LetValue,
    Drop,
}

#[derive(Clone, Copy, Debug, PartialEq, Eq)]
pub enum Phase {
    Insertion,
    Reduction,
    Dropping,
}

// a redex, as the search answers it: the rule that fits, and the index of the node that it fits
#[derive(Clone, Copy)]
pub struct Redex {
    pub rule: Rule,
    pub place: usize,
}

// what the caller sets: how many steps may be taken, and how often each rule may be used, in the order of the counts; laid out as C does
#[repr(C)]
#[derive(Drop)]
pub struct Settings {
    pub budget: u32,
    pub ceilings: [u32; 10],
}
