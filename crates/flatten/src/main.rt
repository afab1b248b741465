// The program: reads a bundle from standard input and writes its listing to standard output.
#![tactic(auto)]

use bundles::input::read_full;
use responder::{MOST_WRITTEN, respond};

// one byte more than a bundle may have, so that a longer input is refused
const MOST_READ: usize = 65537;

// A line on standard error says so where the listing could not be written.
fn main(rt: HostRuntime) {
    let mut bytes = [0; MOST_READ];
    let mut text = [0; MOST_WRITTEN];
    let read = read_full(&mut rt.stdin(), &mut bytes);
    let written = respond(&bytes[..read], &mut text);
    if rt.write_all(&text[..written]).is_err() {
        let _ = rt.eprintln("flatten: the listing was not written");
    }
}
