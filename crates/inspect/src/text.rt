// Texts put into the output buffer, one behind the other: words as they stand, and numbers.
ghost use Rattle.std.specs.Prelude.{◌++◌, ◌+◌, ◌≤◌, length};
ghost use Rattle.lines.specs.Answer.{numeral, Puts};

use lines::answer::{put_numeral, put_text};

// Words, a number, and the byte behind it: at most 21 bytes more than the words.
pub fn put_number(words: &[u8], n: u64, last: u8, out: &mut [u8], at: usize) -> usize
    requires { at + length words.now + 21 ≤ length out.old }
    ensures puts { Puts (words.now ++ numeral n last) at out.old result out.new }
    ensures upper_bound { result ≤ at + length words.now + 21 }
{
    let end = put_text(words, out, at);
    put_numeral(n, last, out, end)
}
