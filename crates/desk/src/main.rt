// The request program: request lines from standard input, their answers to standard output. Its memory is fixed.
#![tactic(auto)]

mod block;
mod hint;
mod input;
mod memory;
mod output;

ghost use Rattle.std.specs.Prelude.{[], ◌≡◌, ◌≤◌, IfOk, length};
ghost use Rattle.rules.specs.Book.{empty_book};
ghost use Rattle.rules.specs.Bytes.{tables_mut, SameTables, head_of};
ghost use Rattle.plan.specs.Judge.{Ready};
ghost use Rattle.lines.specs.Program.{lines_in};
ghost use Rattle.desk.specs.Input.{pending};
ghost use Rattle.desk.specs.Block.{Enough};
ghost use Rattle.desk.specs.Output.{longest};
ghost use Rattle.desk.specs.Turn.{Starts, Holds, Waits, Lent, Sound, BlockAnswered, desk, Goes, Runs, Awaits};

use block::{read_block, serve_block};
use console::{Console, zeros};
use hint::{hint_in, tell};
use input::{INPUT, Unread, read_first, read_more, take_mode};
use memory::{
    ANSWER_ROWS, INNER_TOKENS, INNER_VERTICES, ORDER_ROWS, OUTER_TOKENS, OUTER_VERTICES,
    REQUEST_ROWS, RESOURCES,
};
use output::{OUTPUT, print_block};
use policy::serve::REQUEST_WIDTH;
use rules::{
    BookTables, Head, InnerTokens, InnerVertices, Joined, Mode, OuterTokens, OuterVertices,
    Resources, TablesMut,
};
use sets::Users;
use std::io;

// The head of the empty book.
fn empty_head(mode: Mode) -> Head
    ensures { result ≡ head_of (empty_book mode.0) }
{
    Head {
        mode,
        users: Joined::new(0),
        resources: Resources::new(0),
        inner_vertices: InnerVertices::new(0),
        inner_tokens: InnerTokens::new(0),
        outer_vertices: OuterVertices::new(0),
        outer_tokens: OuterTokens::new(0),
        leavers: Users::empty(),
    }
}

// Between two turns: the book's head, the input not yet taken, how far the output buffer is filled, and whether the program goes on. (A flag, since what is
// proved of all turns speaks of the last state, `prints-program`: it has a book and input like any other.)
#[derive(Clone, Copy)]
struct State {
    head: Head,
    unread: Unread,
    filled: usize,
    going: bool,
}

// Where no whole line is left: the answers go out before more input is waited for.
fn wait(console: Console, s: State, input: &mut [u8], out: &[u8]) -> io::Result<State>
    requires waits { Waits s input.old out.now }
    requires input_value { lines_in (pending s.unread input.old) ≡ [] }
    ensures waits_2 { IfOk result (λ r. Waits r input.new out.now) }
    ensures head_value { IfOk result (λ r. r.head ≡ s.head) }
    ensures awaits { IfOk result (λ r. Awaits s input.old r input.new) }
{
    console.write_out(&out[..s.filled])?;
    if s.unread.ended {
        return Ok(State {
            head: s.head,
            unread: s.unread,
            filled: 0,
            going: false,
        });
    }
    let unread = read_more(console, input, s.unread)?;
    Ok(State {
        head: s.head,
        unread,
        filled: 0,
        going: true,
    })
}

// The requests of a block are served, and their answers printed.
// `Ready` is a clause: the head is in the state, of which `prints-program` speaks.
fn answer_block(
    console: Console,
    s: State,
    t: &mut TablesMut<'_>,
    requests: &[u64],
    answers: &mut [u16],
    orders: &mut [u16],
    out: &mut [u8],
) -> io::Result<State>
    requires ready { Ready s.head (tables_mut t.old) }
    requires enough { Enough requests.now answers.old orders.old }
    requires filled_in_bounds { s.filled ≤ length out.old }
    requires longest_in_bounds { longest ≤ length out.old }
    ensures sound { Sound (tables_mut t.new) }
    ensures same { SameTables t.old t.new }
    ensures block_answered { IfOk result (λ r. BlockAnswered s (tables_mut t.old) requests.now out.old r (tables_mut t.new) out.new) }
{
    let end = requests.len();
    let served = serve_block(s.head, t, requests, answers, orders);
    let filled = print_block(console, requests, &answers[..end], orders, out, s.filled)?;
    Ok(State {
        head: served.head,
        unread: s.unread,
        filled,
        going: true,
    })
}

// The whole lines at hand, as many as one call serves.
fn turn(
    console: Console,
    s: State,
    t: &mut TablesMut<'_>,
    requests: &mut [u64],
    answers: &mut [u16],
    orders: &mut [u16],
    input: &mut [u8],
    out: &mut [u8],
) -> io::Result<State>
    requires holds { Holds s (tables_mut t.old) input.old out.old }
    requires lent { Lent requests.old answers.old orders.old out.old }
    ensures sound { Sound (tables_mut t.new) }
    ensures same { SameTables t.old t.new }
    ensures holds_2 { IfOk result (λ r. Holds r (tables_mut t.new) input.new out.new) }
    ensures goes { IfOk result (λ r. Goes (desk s (tables_mut t.old) input.old out.old) (desk r (tables_mut t.new) input.new out.new) r.going) }
{
    let b = read_block(input, s.unread, requests);
    let s = State {
        head: s.head,
        unread: b.unread,
        filled: s.filled,
        going: true,
    };
    let n = b.rows * REQUEST_WIDTH;
    if n == 0 {
        return wait(console, s, input, out);
    }
    answer_block(console, s, t, &requests[..n], answers, orders, out)
}

// Turn after turn to the last state. (They are counted, from a number that no run uses up: nothing says that the input ends.)
fn answer_all(
    console: Console,
    s: State,
    t: &mut TablesMut<'_>,
    input: &mut [u8],
) -> io::Result<State>
    requires { Starts s (tables_mut t.old) input.old }
    ensures { IfOk result (λ r. Runs (desk s (tables_mut t.old) input.old []) r (tables_mut t.new) input.new) }
{
    // Arrays of fixed sizes, with counts beside them: nothing is put on a heap.
    let mut requests: [u64; REQUEST_ROWS] = zeros(0);
    let mut answers: [u16; ANSWER_ROWS] = zeros(0);
    let mut orders: [u16; ORDER_ROWS] = zeros(0);
    let mut out: [u8; OUTPUT] = zeros(0);
    let mut state = s;
    for _ in 0..u64::MAX {
        if !state.going {
            break;
        }
        state = turn(
            console,
            state,
            t,
            &mut requests,
            &mut answers,
            &mut orders,
            input,
            &mut out,
        )?;
    }
    Ok(state)
}

fn main(rt: HostRuntime) {
    let console = Console {
        stdin: rt.stdin(),
        stdout: rt.stdout(),
        stderr: rt.stderr(),
    };
    let mut input: [u8; INPUT] = zeros(0);
    let Ok(whole) = read_first(console, &mut input) else {
        return;
    };
    let Some(taken) = take_mode(&input, whole) else {
        let _ = console.write_out(b"no 14\n");
        tell(console, hint_in(&input, whole));
        return;
    };
    let mut inner_vertices: [u8; INNER_VERTICES] = zeros(0);
    let mut inner_tokens: [u8; INNER_TOKENS] = zeros(0);
    let mut outer_vertices: [u8; OUTER_VERTICES] = zeros(0);
    let mut outer_tokens: [u8; OUTER_TOKENS] = zeros(0);
    let mut resources: [u8; RESOURCES] = zeros(0);
    let mut t: TablesMut<'_> = BookTables {
        inner_vertices: &mut inner_vertices,
        inner_tokens: &mut inner_tokens,
        outer_vertices: &mut outer_vertices,
        outer_tokens: &mut outer_tokens,
        resources: &mut resources,
    };
    let s = State {
        head: empty_head(taken.mode),
        unread: taken.unread,
        filled: 0,
        going: true,
    };
    let _ = answer_all(console, s, &mut t, &mut input);
}
