// How the programs read their input.
ghost use Rattle.text.specs.Reading.{FullyRead};

use std::io;
use std::io::Read;

// Reads until the buffer is full or the input ends. How many bytes stand at its front then.
pub fn read_full<R: Read>(input: &mut R, buffer: &mut [u8]) -> io::Result<usize>
    ensures { FullyRead (R.remaining input.old) (R.remaining input.new) result buffer.new }
{
    let mut end = 0;
    // a `while`: it counts the bytes that come, and not its turns
    while end < buffer.len() {
        let n = input.read(&mut buffer[end..])?;
        if n == 0 {
            break;
        }
        end += n;
    }
    Ok(end)
}
