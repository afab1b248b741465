// What is written for each call. What cannot be written is left out.
use crate::codec::{MOST_BUFFER, digest, fill};
use checker::check::check;
use free_inputs::free_inputs::free_inputs;
use normal_form::is_normal::is_normal;
use normalizer::normalize::normalize;
use outcomes::{Answer, FreeInputs, Refusal};
use reduction::Settings;
use responder::{MOST_WRITTEN, respond};
use words::tables::Tables;

// what a call answers, after its refusal, which is 0 where there is none
fn numbers(answer: Result<u64, Refusal>) -> (u32, u64) {
    match answer {
        Ok(number) => (0, number),
        Err(refusal) => (u32::from(refusal), 0),
    }
}

pub fn check_line(rt: &impl Print, tables: &Tables, term: &[u64]) {
    let (refusal, ty) = numbers(check(tables.types, tables.calls, tables.inputs, term));
    let _ = println!(rt; "check {refusal} {ty}");
}

pub fn normal_line(rt: &impl Print, tables: &Tables, term: &[u64]) {
    let answer = is_normal(tables.types, tables.calls, tables.inputs, term);
    let (refusal, normal) = numbers(answer.map(u64::from));
    let _ = println!(rt; "normal {refusal} {normal}");
}

pub fn inputs_line(rt: &impl Print, tables: &Tables, term: &[u64]) {
    let FreeInputs {
        refusal,
        marks: [a, b, c, d],
        count,
    } = free_inputs(tables.types, tables.calls, tables.inputs, term);
    let _ = println!(rt; "inputs {refusal} {count} {a:016x} {b:016x} {c:016x} {d:016x}");
}

fn answer_line(rt: &impl Print, answer: Answer, hash: u64) {
    let _ = print!(rt;
        "normalize {} {} {} ",
        answer.refusal, answer.ty, answer.length
    );
    for count in answer.counts {
        let _ = print!(rt; "{count} ");
    }
    let _ = println!(rt; "{hash:016x}");
}

// the answer, and what the buffers hold after it; none where a buffer is too long
pub fn normalize_line(
    rt: &impl Print,
    tables: &Tables,
    term: &[u64],
    settings: Settings,
    lengths: [usize; 3],
) {
    let [o, f, s] = lengths;
    if MOST_BUFFER < o.max(f).max(s) {
        return;
    }
    let mut output = [0; MOST_BUFFER];
    let mut first = [0; MOST_BUFFER];
    let mut second = [0; MOST_BUFFER];
    let output = &mut output[..o];
    let first = &mut first[..f];
    let second = &mut second[..s];
    fill(output, 1000003, 7);
    fill(first, 31, 1);
    fill(second, 17, 5);
    let answer = normalize(
        tables.types,
        tables.calls,
        tables.inputs,
        term,
        settings,
        output,
        first,
        second,
    );
    let hash = digest(digest(digest(14695981039346656037, output), first), second);
    answer_line(rt, answer, hash);
}

pub fn bundle_listing(rt: &impl Print, bytes: &[u8]) {
    let mut text = [0; MOST_WRITTEN];
    let written = respond(bytes, &mut text);
    let _ = rt.write_all(&text[..written]);
}
