// The text of an answer, put into a lent buffer from a place on.
ghost use Rattle.std.specs.Prelude.{◌≡◌, ◌+◌, ◌*◌, ◌/◌, ◌≤◌, length};
ghost use Rattle.lines.specs.Answer.{digits, numeral, of_open, row_text, rows_text, ok_text, no_text, Puts, writing, put_answer};

use rules::{Order, OrderKind};

// A text as it stands.
// A buffer and a place, here and below: it is lent, of a fixed length, and no String is on a heap.
#[tactic(auto, using(crate::proofs::Putting::put_part))]
pub fn put_text(text: &[u8], out: &mut [u8], at: usize) -> usize
    requires { at + length text.now ≤ length out.old }
    ensures { Puts text.now at out.old result out.new }
{
    let end = at + text.len();
    out[at..end].copy_from_slice(text);
    end
}

// The digits of n, none of 0. The number falls at each digit. (By hand: `write!` to lent bytes is no plainer, since it answers a failure that can't come, and
// where the number ends only by what is left.)
fn put_digits(n: u64, out: &mut [u8], at: usize) -> usize
    requires { at + length (digits n) ≤ length out.old }
    ensures { Puts (digits n) at out.old result out.new }
{
    if n == 0 {
        return at;
    }
    let end = put_digits(n / 10, out, at);
    out[end] = (48 + n % 10) as u8;
    end + 1
}

// A number, and the byte behind it.
pub fn put_numeral(n: u64, last: u8, out: &mut [u8], at: usize) -> usize
    requires { at + length (numeral n last) ≤ length out.old }
    ensures { Puts (numeral n last) at out.old result out.new }
{
    let end = put_digits(n / 10, out, at);
    out[end] = (48 + n % 10) as u8;
    out[end + 1] = last;
    end + 2
}

// Whether an order row is one that open gives.
#[tactic(auto, using(std::proofs::lemmas::Bool::Decides::nat_tests), unfolding(crate::specs::Answer::of_open))]
fn of_open(kind: u16) -> bool
    ensures { result ≡ of_open kind }
{
    kind == OrderKind::InnerRow.number() || kind == OrderKind::OuterRow.number()
}

#[tactic(auto, using(crate::proofs::Texts::six))]
fn put_row(kind: u16, a: u16, b: u16, out: &mut [u8], at: usize) -> usize
    requires { at + 18 ≤ length out.old }
    ensures puts { Puts (row_text kind a b) at out.old result out.new }
    ensures upper_bound { result ≤ at + 18 }
{
    if of_open(kind) {
        out[at] = kind as u8;
        out[at + 1] = b' ';
        return put_numeral(u64::from(a), b'\n', out, at + 2);
    }
    let end = put_numeral(u64::from(kind), b' ', out, at);
    let end = put_numeral(u64::from(a), b' ', out, end);
    put_numeral(u64::from(b), b'\n', out, end)
}

// Rows of three numbers each; numbers past the last whole row do not count.
fn put_rows(rows: &[u16], out: &mut [u8], at: usize) -> usize
    requires { at + 18 * (length rows.now / 3) ≤ length out.old }
    ensures { Puts (rows_text rows.now) at out.old result out.new }
{
    let mut end = at;
    for row in rows.chunks_exact(Order::WIDTH) {
        end = put_row(row[0], row[1], row[2], out, end);
    }
    end
}

#[tactic(auto, using(crate::proofs::Texts::twenty_one))]
fn put_ok(rows: &[u16], out: &mut [u8], at: usize) -> usize
    requires { at + (24 + 18 * (length rows.now / 3)) ≤ length out.old }
    ensures { Puts (ok_text rows.now) at out.old result out.new }
{
    let count = rows.len() / Order::WIDTH;
    let end = put_text(b"ok ", out, at);
    let end = put_numeral(count as u64, b'\n', out, end);
    put_rows(rows, out, end)
}

#[tactic(auto, using(crate::proofs::Texts::six))]
fn put_no(number: u16, view: u16, out: &mut [u8], at: usize) -> usize
    requires { at + 24 ≤ length out.old }
    ensures { Puts (no_text number view) at out.old result out.new }
{
    let end = put_text(b"no ", out, at);
    // 11 is a number of an answer row, as `no_text` reads it.
    if number == 11 {
        let end = put_numeral(11, b' ', out, end);
        return put_numeral(u64::from(view), b'\n', out, end);
    }
    put_numeral(u64::from(number), b'\n', out, end)
}

// An answer row, and the order rows that it counts: where the text ends. Where there is no room for 24 bytes and 18 for each row, nothing is written.
pub fn put_answer(number: u16, view: u16, rows: &[u16], out: &mut [u8], at: usize) -> Option<usize>
    ensures { writing result out.new ≡ put_answer number view rows.now out.old at }
{
    let room = out.len().checked_sub(at)?.checked_sub(24)?;
    if room / 18 < rows.len() / Order::WIDTH {
        return None;
    }
    // 0 is a number of an answer row, as `answer_text` reads it: no refusal.
    if number == 0 {
        return Some(put_ok(rows, out, at));
    }
    Some(put_no(number, view, out, at))
}
