// Reads records from standard input, makes the call that each asks for, and writes a line or a listing for each.
// A record is ten header words, for call 5 ten ceilings, then the words of four tables or the bytes of a bundle, padded to whole words.
#![tactic(auto)]

ghost use Rattle.std.specs.Prelude.{◌≤◌};

use bundles::read::copy_words;
use normalizer::settings::no_ceilings;
use reduction::Settings;
use std::io::Read;
use words::tables::Tables;

mod codec; // codec.rt: words from bytes, and the contents of buffers
mod lines; // lines.rt: what is written for each call

use crate::codec::{
    MOST_BYTES, MOST_WORDS, half_word, length_word, read_all, read_ceilings, read_header,
};
use crate::lines::{bundle_listing, check_line, inputs_line, normal_line, normalize_line};

// the calls, by the first word of a header
#[derive(Clone, Copy)]
enum Call {
    Respond,
    Check,
    IsNormal,
    FreeInputs,
    Normalize,
    NormalizeWithin,
}

impl From<u64> for Call {
    fn from(number: u64) -> Call {
        match number {
            0 => Call::Respond,
            1 => Call::Check,
            2 => Call::IsNormal,
            4 => Call::FreeInputs,
            5 => Call::NormalizeWithin,
            _ => Call::Normalize,
        }
    }
}

// the bundle's bytes, as many as the header says
fn on_bundle(rt: &impl Print, input: &mut impl Read, size: usize) -> Option<()>
    requires { size ≤ 65600 }
{
    let mut bytes = [0; MOST_BYTES];
    read_all(input, &mut bytes[..size.next_multiple_of(8)])?;
    bundle_listing(rt, &bytes[..size]);
    Some(())
}

// the header's budget, with the ceilings of call 5 and none for any other call
fn settings_after(input: &mut impl Read, call: Call, budget: u32) -> Settings {
    match call {
        Call::NormalizeWithin => Settings {
            budget,
            ceilings: read_ceilings(input),
        },
        _ => no_ceilings(budget),
    }
}

// the ceilings of call 5 and the tables' words, as many as the header says
fn on_tables(rt: &impl Print, input: &mut impl Read, call: Call, head: [u64; 10]) -> Option<()> {
    let [types, calls, inputs, term] = [head[5], head[6], head[7], head[8]].map(length_word);
    let total = types + calls + inputs + term;
    if MOST_WORDS < total {
        return None;
    }
    let settings = settings_after(input, call, half_word(head[1]));
    let mut bytes = [0; MOST_BYTES];
    let bytes = &mut bytes[..8 * total];
    read_all(input, bytes)?;
    let mut words = [0; MOST_WORDS];
    let words = &mut words[..total];
    copy_words(bytes, words);
    let (types, rest) = words.split_at(types);
    let (calls, rest) = rest.split_at(calls);
    let (inputs, term) = rest.split_at(inputs);
    let tables = Tables {
        types,
        calls,
        inputs,
    };
    match call {
        Call::Check => check_line(rt, &tables, term),
        Call::IsNormal => normal_line(rt, &tables, term),
        Call::FreeInputs => inputs_line(rt, &tables, term),
        _ => {
            let lengths = [head[2], head[3], head[4]].map(length_word);
            normalize_line(rt, &tables, term, settings, lengths);
        }
    }
    Some(())
}

// one record; None at the end of the input
fn record(rt: &impl Print, input: &mut impl Read) -> Option<()> {
    let head = read_header(input)?;
    match Call::from(head[0]) {
        Call::Respond => on_bundle(rt, input, length_word(head[9])),
        call => on_tables(rt, input, call, head),
    }
}

// A proved loop has to end, so it counts its turns, which no run uses up.
fn main(rt: HostRuntime) {
    let mut input = rt.stdin();
    for _ in 0..u64::MAX {
        if record(&rt, &mut input).is_none() {
            break;
        }
    }
}
