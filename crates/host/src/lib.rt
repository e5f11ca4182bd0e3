// The C interface (include/fenstubble.h): thin functions over numbers and slices. The result is 0 or the refusal's number, and a refusal leaves every
// cell as it was, but for a place, which takes what is told with the refusal, and else 0.
#![tactic(auto)]

pub mod requests;

ghost use Rattle.std.specs.Prelude.{◌≡◌, ◌≤◌, length};
ghost use Rattle.rows.specs.Number.{stored};
ghost use Rattle.sets.specs.Words.{set_in};
ghost use Rattle.rules.specs.Bytes.{tables, tables_of, tables_mut, SameTables};
ghost use Rattle.host.specs.Answers.{version, set_from, set_numbers, set_length, head_length, head_from, head_read, head_numbers, number_of, load_told, check_answer, section_answer, read_answer, write_answer, answered, loaded_as, written_as};

use rules::{
    BookTables, Denial, Head, InnerTokens, InnerVertices, Joined, Mode, OuterTokens, OuterVertices,
    Refusal, Resources, Tables, TablesMut,
};
use sets::Users;
use sound::check;

// Major * 10000 + minor * 100 + patch.
pub const VERSION: u32 = 40000;

// The numbers of a head: mode and counts, then the set of leavers, 16 bits each.
pub const HEAD: usize = 11;

// The set of leavers in a head's numbers.
fn leavers_of(head: &[u16]) -> Users
    requires { head_length ≤ length head.now }
    ensures { set_in result ≡ set_from set_length 7 head.now }
{
    let high = head[9] as u64 + 0x1_0000 * head[10] as u64;
    let rest = head[8] as u64 + 0x1_0000 * high;
    Users::from(head[7] as u64 + 0x1_0000 * rest)
}

// A set of leavers into a head's numbers.
fn put_leavers(head: &mut [u16], leavers: Users)
    requires { head_length ≤ length head.old }
    ensures { head.new ≡ stored 7 (set_numbers set_length (set_in leavers)) head.old }
{
    let w = u64::from(leavers);
    let x = w / 0x1_0000;
    let y = x / 0x1_0000;
    let z = y / 0x1_0000;
    head[7] = (w % 0x1_0000) as u16;
    head[8] = (x % 0x1_0000) as u16;
    head[9] = (y % 0x1_0000) as u16;
    head[10] = (z % 0x1_0000) as u16;
}

// The head that its numbers give.
pub fn head_of(head: &[u16]) -> Head
    requires { head_length ≤ length head.now }
    ensures { result ≡ head_from head.now }
{
    let mode = Mode(head[0]);
    let users = Joined::new(head[1]);
    let resources = Resources::new(head[2]);
    let inner_vertices = InnerVertices::new(head[3]);
    let inner_tokens = InnerTokens::new(head[4]);
    let outer_vertices = OuterVertices::new(head[5]);
    let outer_tokens = OuterTokens::new(head[6]);
    let leavers = leavers_of(head);
    Head {
        mode,
        users,
        resources,
        inner_vertices,
        inner_tokens,
        outer_vertices,
        outer_tokens,
        leavers,
    }
}

// The head that its numbers give, where they are enough.
fn head_in(head: &[u16]) -> Result<Head, Refusal>
    ensures { result ≡ head_read head.now }
{
    if head.len() < HEAD {
        return Err(Refusal::ShortTable);
    }
    Ok(head_of(head))
}

// A head into its numbers.
pub fn put_head(head: &mut [u16], h: Head)
    requires { head_length ≤ length head.old }
    ensures { head.new ≡ stored 0 (head_numbers h) head.old }
{
    head[0] = h.mode.0;
    head[1] = h.users.0;
    head[2] = h.resources.0;
    head[3] = h.inner_vertices.0;
    head[4] = h.inner_tokens.0;
    head[5] = h.outer_vertices.0;
    head[6] = h.outer_tokens.0;
    put_leavers(head, h.leavers);
}

#[unsafe(no_mangle)]
pub extern "C" fn fenstubble_version() -> u32
    ensures { result ≡ version }
{
    VERSION
}

// 0 where there is no refusal: of calls that tell no view.
// A number and no Result: it is what C is given.
fn number(done: Result<(), Refusal>) -> u16
    ensures { result ≡ number_of done }
{
    match done {
        Ok(()) => 0,
        Err(k) => k.number(),
    }
}

fn checked(head: &[u16], t: &Tables<'_>) -> Result<(), Refusal>
    ensures { number_of result ≡ check_answer head.now (tables_of t.now) }
{
    check(head_in(head)?, t)
}

#[unsafe(no_mangle)]
pub extern "C" fn fenstubble_check(
    head: &[u16],
    inner_vertices: &[u8],
    inner_tokens: &[u8],
    outer_vertices: &[u8],
    outer_tokens: &[u8],
    resources: &[u8],
) -> u16
    ensures { result ≡ check_answer head.now (tables inner_vertices.now inner_tokens.now outer_vertices.now outer_tokens.now resources.now) }
{
    // The five pointers of C, here and below: each exported function has them as parameters.
    let t = BookTables {
        inner_vertices,
        inner_tokens,
        outer_vertices,
        outer_tokens,
        resources,
    };
    number(checked(head, &t))
}

#[unsafe(no_mangle)]
pub extern "C" fn fenstubble_section(
    bytes: &[u8],
    k: usize,
    start: &mut usize,
    size: &mut usize,
    place: &mut usize,
) -> u16
    ensures { answered result start.new size.new place.new ≡ section_answer bytes.now k start.old size.old }
{
    // A cell, since the result of `section` is the part itself (RULES 14.7).
    let mut cell: u16 = 0;
    let n = book::section(bytes, k, &mut cell, place).len();
    if cell != 0 {
        return cell;
    }
    *start = book::start_of(book::version_in(bytes), book::head_in(bytes), k);
    *size = n;
    0
}

fn loaded(bytes: &[u8], head: &mut [u16], t: &mut TablesMut<'_>) -> Result<(), Denial>
    ensures same { SameTables t.old t.new }
    ensures answer { load_told result head.new (tables_mut t.new) ≡ read_answer bytes.now head.old (tables_mut t.old) }
{
    head_in(head)?;
    let h = book::read(bytes, t)?;
    put_head(head, h);
    Ok(())
}

#[unsafe(no_mangle)]
pub extern "C" fn fenstubble_read(
    bytes: &[u8],
    head: &mut [u16],
    inner_vertices: &mut [u8],
    inner_tokens: &mut [u8],
    outer_vertices: &mut [u8],
    outer_tokens: &mut [u8],
    resources: &mut [u8],
    place: &mut usize,
) -> u16
    ensures { loaded_as result head.new (tables inner_vertices.new inner_tokens.new outer_vertices.new outer_tokens.new resources.new) place.new ≡ read_answer bytes.now head.old (tables inner_vertices.old inner_tokens.old outer_vertices.old outer_tokens.old resources.old) }
{
    // Written out: of tables that a function put together, nothing would be known afterwards.
    let mut t = BookTables {
        inner_vertices,
        inner_tokens,
        outer_vertices,
        outer_tokens,
        resources,
    };
    match loaded(bytes, head, &mut t) {
        Ok(()) => {
            *place = 0;
            0
        }
        Err(d) => {
            *place = d.place();
            d.number()
        }
    }
}

fn written(head: &[u16], t: &Tables<'_>, buffer: &mut [u8], size: &mut usize) -> Result<(), Refusal>
    ensures { written_as (number_of result) buffer.new size.new ≡ write_answer head.now (tables_of t.now) buffer.old size.old }
{
    *size = book::write(head_in(head)?, t, buffer)?;
    Ok(())
}

#[unsafe(no_mangle)]
pub extern "C" fn fenstubble_write(
    head: &[u16],
    inner_vertices: &[u8],
    inner_tokens: &[u8],
    outer_vertices: &[u8],
    outer_tokens: &[u8],
    resources: &[u8],
    buffer: &mut [u8],
    size: &mut usize,
) -> u16
    ensures { written_as result buffer.new size.new ≡ write_answer head.now (tables inner_vertices.now inner_tokens.now outer_vertices.now outer_tokens.now resources.now) buffer.old size.old }
{
    let t = BookTables {
        inner_vertices,
        inner_tokens,
        outer_vertices,
        outer_tokens,
        resources,
    };
    number(written(head, &t, buffer, size))
}
