// The public call `respond`: the bytes of a bundle in, the bytes of a listing out.
#![tactic(auto)]

ghost use Rattle.std.specs.Prelude.{◌≡◌, [], ◌≤◌, length, Ok};
ghost use Rattle.outcomes.specs.Listing.{listing_of, written_to};
ghost use Rattle.outcomes.specs.Normalize.{normalize_within, max_capacity};
ghost use Rattle.outcomes.specs.Refusal.{number_of};
ghost use Rattle.outcomes.specs.ReadBundle.{total, lengths_read};
ghost use Rattle.outcomes.specs.Respond.{program_settings, tables_of, term_of, unread, listed, respond_outcome};

use bundles::listing::listing;
use bundles::read::read_bundle;
use normalizer::normalize::{normalize, refused};
use normalizer::settings::no_ceilings;
use outcomes::{Lengths, Refusal};
use words::tables::Tables;

// the most bytes that an answer takes
pub const MOST_WRITTEN: usize = 139393;

// normalizes with the program's settings and lists the answer
fn answer_to(tables: &Tables, term: &[u64], text: &mut [u8]) -> usize
    ensures { record { length = result; buffer = text.new }
        ≡ written_to text.old (listed (normalize_within max_capacity program_settings tables.now term.now)) }
{
    let settings = no_ceilings(1000000);
    let mut output = [0; 8192];
    let mut first = [0; 8192];
    let mut second = [0; 8192];
    let answer = normalize(
        tables.types,
        tables.calls,
        tables.inputs,
        term,
        settings,
        &mut output,
        &mut first,
        &mut second,
    );
    listing(answer, &output, text)
}

// lists a refusal, with counts of zero
fn refuse(refusal: Refusal, text: &mut [u8]) -> usize
    ensures { record { length = result; buffer = text.new }
        ≡ written_to text.old (listing_of (unread (number_of refusal)) []) }
{
    listing(refused(refusal, [0; 10]), &[], text)
}

// splits the words that are read into the tables and the term, and answers to them
fn answer_parts(words: &[u64], lengths: Lengths, text: &mut [u8]) -> usize
    requires { total (lengths_read (Ok lengths)) ≤ length words.now }
    ensures { record { length = result; buffer = text.new }
        ≡ written_to text.old (listed (normalize_within max_capacity program_settings
        (tables_of (lengths_read (Ok lengths)) words.now) (term_of (lengths_read (Ok lengths)) words.now))) }
{
    let (types, rest) = words.split_at(lengths.types);
    let (calls, rest) = rest.split_at(lengths.calls);
    let (inputs, rest) = rest.split_at(lengths.inputs);
    let tables = Tables {
        types,
        calls,
        inputs,
    };
    answer_to(&tables, &rest[..lengths.words], text)
}

// what the program writes for the bytes that it reads: how many bytes of the text, 0 if it is too short
pub fn respond(bytes: &[u8], text: &mut [u8]) -> usize
    ensures { record { length = result; buffer = text.new } ≡ respond_outcome bytes.now text.old }
{
    let mut words = [0; 8192];
    match read_bundle(bytes, &mut words) {
        Err(refusal) => refuse(refusal, text),
        Ok(lengths) => answer_parts(&words, lengths, text),
    }
}
