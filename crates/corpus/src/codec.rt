// Words from bytes, and what the buffers hold before and after a call.
ghost use Rattle.std.specs.Prelude.{◌≡◌, ◌≤◌, length};

use bundles::input::read_full;
use bundles::read::copy_words;
use std::io::Read;

// the most words that the tables of a record take, or a bundle
pub const MOST_WORDS: usize = 12000;

pub const MOST_BYTES: usize = 96000;

// the most words of a buffer
pub const MOST_BUFFER: usize = 8256;

// reads as many bytes as there is room for; None where the input ends before
pub fn read_all(input: &mut impl Read, bytes: &mut [u8]) -> Option<()> {
    (read_full(input, bytes) == bytes.len()).then_some(())
}

// the ten words of a header, or of ceilings
fn ten_words(bytes: &[u8; 80]) -> [u64; 10] {
    let mut words = [0; 10];
    copy_words(bytes, &mut words);
    words
}

// a header; None where the input ends before
pub fn read_header(input: &mut impl Read) -> Option<[u64; 10]> {
    let mut bytes = [0; 80];
    read_all(input, &mut bytes)?;
    Some(ten_words(&bytes))
}

// ten ceilings, with zero bytes where the input ends before
pub fn read_ceilings(input: &mut impl Read) -> [u32; 10] {
    let mut bytes = [0; 80];
    read_full(input, &mut bytes);
    ten_words(&bytes).map(half_word)
}

// a word's low 32 bits
pub fn half_word(word: u64) -> u32 {
    (word % 4294967296) as u32
}

// a header word that is a length in words, or in bytes of a bundle; too large a length becomes the largest
pub fn length_word(word: u64) -> usize
    ensures { result ≤ 65600 }
{
    word.min(65600) as usize
}

// a buffer before a call: factor · index + offset
pub fn fill(words: &mut [u64], factor: u64, offset: u64)
    ensures { length words.new ≡ length words.old }
{
    for (i, word) in words.iter_mut().enumerate() {
        *word = (i as u64).wrapping_mul(factor).wrapping_add(offset);
    }
}

// a digest of words (FNV-1a's constants, taken word by word), after that of the words before them
pub fn digest(start: u64, words: &[u64]) -> u64 {
    words.iter().fold(
        start,
        |hash, word| (hash ^ *word).wrapping_mul(1099511628211),
    )
}
