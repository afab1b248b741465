// The listing of an answer: `ok ` or `no `, the fields of the first line, and the words of the normal form, one a line.
ghost use Rattle.std.specs.Prelude.{◌≡◌, [], ◌∷◌, ◌++◌, ◌+◌, ◌*◌, ◌≤◌, length as len};
ghost use Rattle.std.proofs.lemmas.List.Edits.{sets};
ghost use Rattle.outcomes.specs.Listing.{newline, fields, lines, written_to, listing_outcome};
ghost use Rattle.bundles.specs.BytesPut.{BytesPut};
ghost use Rattle.bundles.specs.FirstLine.{refused_line, accepted_line};

use crate::numerals::{digit_count, put_field, put_word};
use outcomes::Answer;

// how many bytes the counts take, each with the byte that ends it
#[tactic(auto, using(crate::proofs::ListedFields::sizes))]
fn counts_size(counts: [u32; 10]) -> usize
    ensures { (result ≡ len (fields counts) + 1) × (result ≤ 210) }
{
    let mut size = 0;
    for n in counts {
        size += digit_count(u64::from(n)) + 1;
    }
    size
}

// writes the counts, a space after each but the last, which ends the line; answers how many bytes
#[tactic(auto, using(crate::proofs::ListedFields::sizes))]
fn put_counts(counts: [u32; 10], text: &mut [u8], at: usize) -> usize
    requires { at + (len (fields counts) + 1) ≤ len text.old }
    ensures { BytesPut (fields counts ++ newline ∷ []) text.old text.new at result }
{
    let mut size = 0;
    for &n in &counts[..9] {
        size += put_field(u64::from(n), b' ', text, at + size);
    }
    size + put_field(u64::from(counts[9]), b'\n', text, at + size)
}

// writes the words, one a line
#[tactic(auto, unfolding(outcomes::specs::Listing::lines))]
fn put_lines(words: &[u64], text: &mut [u8], at: usize)
    requires { at + 17 * len words.now ≤ len text.old }
    ensures { text.new ≡ sets text.old at (lines words.now) }
{
    for (i, &word) in words.iter().enumerate() {
        put_word(word, text, at + 17 * i);
    }
}

// a refused term: its number and the counts
#[tactic(auto, using(crate::proofs::WholeListing::lengths))]
fn list_refused(refusal: u32, counts: [u32; 10], text: &mut [u8]) -> usize
    ensures { record { length = result; buffer = text.new } ≡ written_to text.old (refused_line refusal counts) }
{
    let number = u64::from(refusal);
    let size = 3 + (digit_count(number) + 1) + counts_size(counts);
    if text.len() < size {
        return 0;
    }
    text[..3].copy_from_slice(b"no ");
    let next = 3 + put_field(number, b' ', text, 3);
    next + put_counts(counts, text, next)
}

// how many bytes the first line of an accepted term takes
#[tactic(auto, using(crate::proofs::WholeListing::lengths))]
fn line_size(ty: u64, length: u64, counts: [u32; 10]) -> usize
    ensures { (result ≡ len (accepted_line ty length counts)) × (result ≤ 255) }
{
    3 + (digit_count(ty) + 1) + (digit_count(length) + 1) + counts_size(counts)
}

// writes it: type, length and counts
#[tactic(auto, using(crate::proofs::WholeListing::lengths))]
fn put_line(ty: u64, length: u64, counts: [u32; 10], text: &mut [u8])
    requires { len (accepted_line ty length counts) ≤ len text.old }
    ensures { text.new ≡ sets text.old 0 (accepted_line ty length counts) }
{
    text[..3].copy_from_slice(b"ok ");
    let second = 3 + put_field(ty, b' ', text, 3);
    let third = second + put_field(length, b' ', text, second);
    put_counts(counts, text, third);
}

// an accepted term: its first line, and the words of its normal form
fn list_accepted(ty: u64, counts: [u32; 10], words: &[u64], text: &mut [u8]) -> usize
    ensures { record { length = result; buffer = text.new } ≡ written_to text.old (accepted_line ty (len words.now) counts ++ lines words.now) }
{
    let length = words.len() as u64;
    let size = line_size(ty, length, counts);
    if text.len() < size || (text.len() - size) / 17 < words.len() {
        return 0;
    }
    put_line(ty, length, counts, text);
    put_lines(words, text, size);
    size + 17 * words.len()
}

// the listing at the front of the text, and its length; 0 and the text unchanged
// where the text is too short, or the words are fewer than the answer says
pub fn listing(answer: Answer, words: &[u64], text: &mut [u8]) -> usize
    ensures { record { length = result; buffer = text.new } ≡ listing_outcome answer words.now text.old }
{
    if 0 < answer.refusal {
        return list_refused(answer.refusal, answer.counts, text);
    }
    match words.get(..answer.length) {
        Some(words) => list_accepted(answer.ty, answer.counts, words, text),
        None => 0,
    }
}
