// Decimal and hexadecimal numbers as text.
ghost use Rattle.std.specs.Prelude.{◌≡◌, [], ◌∷◌, ◌++◌, ◌+◌, ◌≤◌, length};
ghost use Rattle.std.proofs.lemmas.List.Edits.{sets};
ghost use Rattle.outcomes.specs.Listing.{decimal, hexadecimal, newline};
ghost use Rattle.bundles.specs.BytesPut.{BytesPut};

use itoa::{Buffer, write_digits};

// how many decimal digits
#[tactic(auto, using(crate::proofs::Decimal::decimal_is))]
pub fn digit_count(n: u64) -> usize
    ensures { (result ≡ length (decimal n)) × (result ≤ 20) }
{
    Buffer::new().format(n).len()
}

// writes a number and the byte that ends its field; answers how many bytes
#[tactic(auto, using(crate::proofs::Decimal::decimal_is))]
pub fn put_field(n: u64, end: u8, text: &mut [u8], at: usize) -> usize
    requires { at + (length (decimal n) + 1) ≤ length text.old }
    ensures { BytesPut (decimal n ++ end ∷ []) text.old text.new at result }
{
    let count = digit_count(n);
    write_digits(n, text, at + count);
    text[at + count] = end;
    count + 1
}

// writes a word as a line of sixteen hexadecimal digits, in lower case
#[tactic(auto, using(crate::proofs::FieldsWritten::word_put))]
pub fn put_word(w: u64, text: &mut [u8], at: usize)
    requires { at + 17 ≤ length text.old }
    ensures { text.new ≡ sets text.old at (hexadecimal 16 w ++ newline ∷ []) }
{
    hex::encode_to_slice(w.to_be_bytes(), &mut text[at..at + 16]).unwrap();
    text[at + 16] = b'\n';
}
