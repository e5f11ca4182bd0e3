// The answer as text: RULES 15.2 and 15.3.
ghost use Rattle.std.specs.Prelude.{◌≡◌, ◌+◌, ◌≤◌, length};
ghost use Rattle.lines.specs.Answer.{Puts};
ghost use Rattle.inspect.specs.Text.{Headed, grown, mode_text, people_text, layers_text, head_text, refused_text, broken_text, short_text, Answers};

use crate::text::put_number;
use crate::words::put_sentence;
use book::{HEADER, first_fault, head_in, header_in, version_in};
use lines::answer::put_text;
use rules::{Fault, Head, Mode};
use sets::Users;

// The fault of an input of which only the front was judged: a wrong length is that of the whole.
fn grow(f: Fault, total: usize) -> Fault
    ensures { result ≡ grown total f }
{
    match f {
        Fault::Length(_) => Fault::Length(total),
        _ => f,
    }
}

fn put_mode(mode: Mode, out: &mut [u8], at: usize) -> usize
    requires { at + 20 ≤ length out.old }
    ensures puts { Puts (mode_text mode.0) at out.old result out.new }
    ensures upper_bound { result ≤ at + 20 }
{
    if mode == Mode::FULL {
        return put_text(b"mode full\n", out, at);
    }
    put_text(b"mode delta\n", out, at)
}

// `sound`, the mode, the users and the folders.
fn put_people(h: Head, out: &mut [u8]) -> usize
    requires { 512 ≤ length out.old }
    ensures puts { Puts (people_text h) 0 out.old result out.new }
    ensures upper_bound { result ≤ 100 }
{
    let a = put_text(b"sound\n", out, 0);
    let b = put_mode(h.mode, out, a);
    let c = put_number(b"users ", h.users.0 as u64, b'\n', out, b);
    put_number(b"folders ", h.resources.0 as u64, b'\n', out, c)
}

// The vertices and the tokens.
fn put_layers(h: Head, out: &mut [u8], at: usize) -> usize
    requires { at + 200 ≤ length out.old }
    ensures puts { Puts (layers_text h) at out.old result out.new }
    ensures upper_bound { result ≤ at + 200 }
{
    let a = put_number(
        b"inner vertices ",
        h.inner_vertices.0 as u64,
        b'\n',
        out,
        at,
    );
    let b = put_number(b"inner tokens ", h.inner_tokens.0 as u64, b'\n', out, a);
    let c = put_number(b"outer vertices ", h.outer_vertices.0 as u64, b'\n', out, b);
    put_number(b"outer tokens ", h.outer_tokens.0 as u64, b'\n', out, c)
}

// `sound` and the head, in nine lines.
fn put_head(h: Head, out: &mut [u8]) -> usize
    requires { 512 ≤ length out.old }
    ensures { Puts (head_text h) 0 out.old result out.new }
{
    let a = put_people(h, out);
    let b = put_layers(h, out, a);
    put_number(b"leavers ", h.leavers.size() as u64, b'\n', out, b)
}

// `no K PLACE`.
fn put_refused(f: Fault, out: &mut [u8]) -> usize
    requires { 100 ≤ length out.old }
    ensures puts { Puts (refused_text f) 0 out.old result out.new }
    ensures upper_bound { result ≤ 100 }
{
    let end = put_number(b"no ", f.number() as u64, b' ', out, 0);
    put_number(b"", f.place() as u64, b'\n', out, end)
}

// Of bytes that have a header.
fn put_broken(version: u16, h: Head, f: Fault, out: &mut [u8]) -> usize
    requires in_bounds { 512 ≤ length out.old }
    requires headed { Headed f }
    ensures { Puts (broken_text version h f) 0 out.old result out.new }
{
    let end = put_refused(f, out);
    put_sentence(version, h, f, out, end)
}

// Of fewer bytes than a header has.
fn put_short(n: usize, out: &mut [u8]) -> usize
    requires { 512 ≤ length out.old }
    ensures { Puts (short_text n) 0 out.old result out.new }
{
    let end = put_refused(Fault::Length(n), out);
    put_text(b"wrong length: a header has 17 bytes\n", out, end)
}

// The answer to an input of which only the front may be at hand: as many bytes as the longest book has, and one more. What is wrong with bytes is told by their
// header alone: there may be no set of leavers behind it.
pub fn put_check(front: &[u8], total: usize, out: &mut [u8]) -> usize
    requires front_len_bound { length front.now ≤ total }
    requires in_bounds { 512 ≤ length out.old }
    ensures { Answers front.now total out.old result out.new }
{
    if front.len() < HEADER {
        return put_short(total, out);
    }
    match first_fault(front) {
        Ok(()) => put_head(head_in(front), out),
        Err(f) => {
            let h = header_in(front, Users::empty());
            put_broken(version_in(front), h, grow(f, total), out)
        }
    }
}
