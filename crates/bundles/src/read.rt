// The bundle reader: words most significant byte first, a header of four lengths, then the tables.
ghost use Rattle.std.specs.Prelude.{◌≡◌, ◌+◌, ◌*◌, ◌≤◌, length, take, drop, Ok};
ghost use Rattle.outcomes.specs.ReadBundle.{from_bytes, words_of, lengths_of, lengths_read, total, read_bundle_outcome};

use outcomes::{Lengths, Refusal};

// the word of eight bytes, the most significant first
pub fn word_at(bytes: &[u8], at: usize) -> u64
    requires { at + 8 ≤ length bytes.now }
    ensures { result ≡ from_bytes 0 (take 8 (drop at bytes.now)) }
{
    u64::from_be_bytes(<[u8; 8]>::try_from(&bytes[at..at + 8]).unwrap())
}

// the words of these bytes, as many as there is room for
pub fn copy_words(bytes: &[u8], words: &mut [u64])
    requires { 8 * length words.old ≤ length bytes.now }
    ensures { words.new ≡ words_of (length words.old) bytes.now }
{
    for (i, word) in words.iter_mut().enumerate() {
        *word = word_at(bytes, 8 * i);
    }
}

// the four lengths of a header, 13 bits each
#[tactic(auto, unfolding(outcomes::specs::ReadBundle::lengths_of))]
fn lengths_of(header: u64) -> Lengths
    ensures { (lengths_read (Ok result) ≡ lengths_of header) × (total (lengths_read (Ok result)) ≤ 32764) }
{
    Lengths {
        types: (header >> 51) as usize,
        calls: ((header >> 38) % 8192) as usize,
        inputs: ((header >> 25) % 8192) as usize,
        words: ((header >> 12) % 8192) as usize,
    }
}

// the four lengths, and the words after the header at the slice's front; or refusal 12 and the slice unchanged
#[tactic(auto, using(crate::proofs::Readable::refused_or))]
pub fn read_bundle(bytes: &[u8], words: &mut [u64]) -> Result<Lengths, Refusal>
    ensures { record { lengths = lengths_read result; words = words.new } ≡ read_bundle_outcome bytes.now words.old }
{
    let size = bytes.len();
    if size < 8 || 65536 < size {
        return Err(Refusal::Bundle);
    }
    let header = word_at(bytes, 0);
    if 0 < header % 4096 {
        return Err(Refusal::Bundle);
    }
    let lengths = lengths_of(header);
    let n = lengths.types + (lengths.calls + (lengths.inputs + lengths.words));
    if size != 8 * (1 + n) || words.len() < n {
        return Err(Refusal::Bundle);
    }
    copy_words(&bytes[8..], &mut words[..n]);
    Ok(lengths)
}
