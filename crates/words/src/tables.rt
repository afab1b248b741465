// The tables that a term stands over: types, calls and inputs.
ghost use Rattle.std.specs.Prelude.{◌≡◌};

use std::marker::Model;

// a contract sees the three as the definitions' tables
#[derive(Drop)]
pub struct Tables<'a> {
    pub types: &'a [u64],
    pub calls: &'a [u64],
    pub inputs: &'a [u64],
}

impl<'a> Model for Tables<'a> {
    ghost use Rattle.syntax.specs.Tables.{Tables as TablesValue, over};

    ghost Value = { TablesValue };

    ghost view = { λ t. over t.types.now t.calls.now t.inputs.now };
}
