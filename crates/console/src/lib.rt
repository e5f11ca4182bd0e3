// What the two programs share: the standard streams, what is said where one of them fails, and memory of a fixed size.
#![tactic(auto)]

ghost use Rattle.std.specs.Prelude.{◌≡◌, length};
ghost use Rattle.std.specs.Io.{ReadsAtMost};

use std::io;
use std::io::{Print, Read, Stderr, Stdin, Stdout};

// The standard streams.
#[derive(Clone, Copy)]
pub struct Console {
    pub stdin: Stdin,
    pub stdout: Stdout,
    pub stderr: Stderr,
}

impl Console {
    // To whoever runs the program. What can't be told there is told nowhere.
    pub fn tell(self, text: &[u8]) {
        let _ = self.stderr.write_all(text);
    }

    // Writes a text out, and tells where that fails.
    pub fn write_out(self, text: &[u8]) -> io::Result<()> {
        let written = self.stdout.write_all(text);
        if written.is_err() {
            self.tell(b"fenstubble: standard output can't be written\n");
        }
        written
    }

    // Tells that standard input can't be read.
    pub fn tell_unread(self) {
        self.tell(b"fenstubble: standard input can't be read\n");
    }

    // One read of standard input: how many bytes of the part it filled. Tells where that fails.
    pub fn read(self, part: &mut [u8]) -> io::Result<usize>
        ensures { ReadsAtMost result part.new }
    {
        let mut stdin = self.stdin;
        let came = stdin.read(part);
        if came.is_err() {
            self.tell_unread();
        }
        came
    }
}

// Memory on the stack. The contract gives the length alone.
pub fn zeros<T: Copy, const N: usize>(zero: T) -> [T; N]
    ensures { length result ≡ N }
{
    [zero; N]
}
