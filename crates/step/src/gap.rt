// A term in a buffer with a gap: its first words stand at the buffer's front, the others at its end.
ghost use Rattle.std.specs.Prelude.{◌≡◌};
ghost use Rattle.step.specs.Gaps.{Seekable, Seeks};

use words::moves::move_words;

// where the gap begins and where it ends
#[derive(Clone, Copy)]
pub struct Gap {
    pub start: usize,
    pub end: usize,
}

// moves the gap to a place of the term, and answers where it is then. Only the words between move.
#[tactic(auto, using(crate::proofs::GapMoved::seeks_on, crate::proofs::GapMoved::seeks_back))]
pub fn seek(words: &mut [u64], gap: Gap, place: usize) -> Gap
    requires { Seekable words.old gap.start gap.end place }
    ensures { (result.start ≡ place) × Seeks words.old gap.start gap.end place words.new result.end }
{
    let Gap { start, end } = gap;
    let end = if start < place {
        let n = place - start;
        move_words(words, end, n, start);
        end + n
    } else {
        let n = start - place;
        let behind = end - n;
        move_words(words, place, n, behind);
        behind
    };
    Gap { start: place, end }
}
