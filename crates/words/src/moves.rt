// Words copied between buffers, moved within one, and cleared.
ghost use Rattle.std.specs.Prelude.{◌≡◌, ◌+◌, ◌≤◌, length, drop, replicate};
ghost use Rattle.std.proofs.Math.Seq.{paste};

// copies n words of src from `start` on to dst, from `at` on
pub fn copy(src: &[u64], start: usize, n: usize, dst: &mut [u64], at: usize)
    requires { (start + n ≤ length src.now) × (at + n ≤ length dst.old) }
    ensures { dst.new ≡ paste dst.old at (drop start src.now) n }
{
    for i in 0..n {
        dst[at + i] = src[start + i];
    }
}

// moves n words, if they do not stand there already
pub fn move_words(words: &mut [u64], from: usize, n: usize, to: usize)
    requires { (from + n ≤ length words.old) × (to + n ≤ length words.old) }
    ensures { words.new ≡ paste words.old to (drop from words.old) n }
{
    if from != to {
        words.copy_within(from..from + n, to);
    }
}

// sets every word to zero
pub fn clear(words: &mut [u64])
    ensures { words.new ≡ replicate (length words.old) 0 }
{
    words.fill(0);
}
