// Standard input, read to its end: as much of it as the buffer has room for is kept, and what comes behind that is only counted.
ghost use Rattle.std.specs.Prelude.{◌<◌, IfOk, length};
ghost use Rattle.inspect.specs.Input.{Reads, AllCame};

use crate::memory::SPARE;
use console::zeros;
use std::io;
use std::io::{ErrorKind, Read};

// One read, of which `total` bytes came before: into the buffer while that has room. There is room in either, since a read without any would look like the
// input's end.
fn read_more<R: Read>(
    reader: &mut R,
    input: &mut [u8],
    spare: &mut [u8],
    total: usize,
) -> io::Result<usize>
    requires { 0 < length spare.old }
    ensures { IfOk result (λ n. Reads total n input.old input.new (R.remaining reader.old) (R.remaining reader.new)) }
{
    if total < input.len() {
        return reader.read(&mut input[total..]);
    }
    reader.read(spare)
}

// Reads to the end: how many bytes came. (The turns are counted, since nothing says that the input ends. An input that uses them up fails, and so does one
// whose length is no `usize`.) Of any reader, since of standard input alone nothing is known: that it is read to its end is told by those whose bytes are.
pub fn read_all<R: Read>(reader: &mut R, input: &mut [u8]) -> io::Result<usize>
    ensures { IfOk result (λ total. AllCame total input.new (R.remaining reader.old) (R.remaining reader.new)) }
{
    let mut spare: [u8; SPARE] = zeros(0);
    let mut total: usize = 0;
    for _ in 0..u64::MAX {
        let n = read_more(reader, input, &mut spare, total)?;
        if n == 0 {
            return Ok(total);
        }
        total = total.checked_add(n).ok_or(ErrorKind::FileTooLarge)?;
    }
    Err(ErrorKind::FileTooLarge.into())
}
