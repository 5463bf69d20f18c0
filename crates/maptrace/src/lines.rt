// The lines of an input.
ghost use Rattle.std.specs.Prelude.{◌≡◌, ◌≤◌, length, IfOk, IfSome};

use std::io;
use std::io::Read;

// A line is longer than there is room.
#[derive(Clone, Copy, PartialEq, Eq, Debug)]
pub struct TooLong;

// The length of a line of so many bytes, if there is room for them.
fn fitted(count: usize, room: usize) -> Result<usize, TooLong>
    ensures { IfOk result (λ n. n ≤ room) }
{
    if count <= room {
        Ok(count)
    } else {
        Err(TooLong)
    }
}

// The length of the next line, if there is one, which is put in the front of `line` without its end. One that does not fit is read to its end.
pub fn next_line<R: Read>(
    input: &mut R,
    line: &mut [u8],
) -> io::Result<Option<Result<usize, TooLong>>>
    ensures { IfOk result (λ o. IfSome o (λ r. IfOk r (λ n. n ≤ length line.new))) }
{
    let mut count = 0usize;
    for b in input.by_ref().bytes() {
        let b = b?;
        if b == b'\n' {
            return Ok(Some(fitted(count, line.len())));
        }
        if count < line.len() {
            line[count] = b;
        }
        count = count.saturating_add(1);
    }
    if count == 0 {
        return Ok(None);
    }
    Ok(Some(fitted(count, line.len())))
}
