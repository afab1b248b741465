// The input of a program: bytes read into a buffer.
ghost use Rattle.std.specs.Prelude.{◌≡◌, ◌≤◌, length, take};
ghost use Rattle.std.specs.Io.KnownBytes.{Consumes};

use std::io::Read;

// reads until the buffer is full, the input ends or a read fails; answers how many bytes
pub fn read_full<R: Read>(input: &mut R, bytes: &mut [u8]) -> usize
    ensures within { result ≤ length bytes.new }
    ensures same_length { length bytes.new ≡ length bytes.old }
    ensures read { Consumes (R.remaining input.old) (R.remaining input.new) (take result bytes.new) }
{
    let mut done = 0;
    while done < bytes.len() {
        let n = input.read(&mut bytes[done..]).unwrap_or(0);
        if n == 0 {
            break;
        }
        done += n;
    }
    done
}
