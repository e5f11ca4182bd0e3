// S1 to S8 of a book, each a function of its own that answers where its rule is broken first, by position in the book's bytes.
ghost use Rattle.std.specs.Prelude.{◌≡◌, true, not};
ghost use Rattle.rules.specs.Lists.{first};
ghost use Rattle.rules.specs.Tests.{broken, first_rule};
ghost use Rattle.rules.specs.Bytes.{book_in, tables_of, Room, limits_of};
ghost use Rattle.rules.specs.Sound.{in_limit, rules, rows1, rows2, rows3, rows4, rows5, rows6, rows7, rows8, S4};
ghost use Rattle.layer.specs.Laid.{inner_shape, outer_shape, found_in};
ghost use Rattle.layer.specs.Lent.{layer_in};
ghost use Rattle.sound.specs.Check.{unless, counts_of, row_of, missing_of, lower, by_rule};
ghost use Rattle.sound.specs.Book.{book_of};

use crate::book::Book;
use crate::layers::{
    enters_own, equal_set, equal_token, not_lateral, not_rising, ownless, strange_set,
    strange_token, ununited,
};
use crate::resources::{misplaced, unheld, unlocked};
use layer::laid::Layer;
use layer::table::find_set;
use layer::walk::{inner_shape, outer_shape};
use rules::{
    Head, InnerTokens, Joined, Letter, OuterTokens, OuterVertices, Resources, Spot, Tables,
};
use sets::Users;

// What a search among the rows of section k says of a rule. (A section goes by its number in a book's bytes, as in a call of `section`.)
fn row(k: usize, found: Option<usize>) -> Result<(), Spot>
    ensures { result ≡ row_of k found }
{
    match found {
        Some(i) => Err(Spot::Row(k, i)),
        None => Ok(()),
    }
}

// What a search for someone without a vertex says.
fn missing(found: Option<usize>) -> Result<(), Spot>
    ensures { result ≡ missing_of found }
{
    match found {
        Some(_) => Err(Spot::Missing),
        None => Ok(()),
    }
}

// The lower of the rows that two searches found.
fn lower(f: Option<usize>, g: Option<usize>) -> Option<usize>
    ensures { result ≡ lower f g }
{
    match (f, g) {
        (Some(i), Some(j)) => Some(i.min(j)),
        _ => f.or(g),
    }
}

// S1: the first count past its limit, of the six in the order of a book's header.
pub fn bad_count(h: Head) -> Option<usize>
    ensures { result ≡ found_in 6 (first (λ c. not (in_limit c)) (limits_of h)) }
{
    if h.users.0 > Joined::LIMIT {
        return Some(0);
    }
    if h.resources.0 > Resources::LIMIT {
        return Some(1);
    }
    if h.inner_vertices.0 > h.users.0 + h.resources.0 {
        return Some(2);
    }
    if h.inner_tokens.0 > InnerTokens::LIMIT {
        return Some(3);
    }
    if h.outer_vertices.0 > h.users.0 + OuterVertices::GROUPS {
        return Some(4);
    }
    if h.outer_tokens.0 > OuterTokens::LIMIT {
        return Some(5);
    }
    None
}

// S1: the mode and the counts.
// The mode is compared as a number: a call may lend any, and S1 judges it here.
pub fn counts_hold(h: Head) -> bool
    ensures { result ≡ counts_of h }
{
    h.mode.0 <= 1 && bad_count(h).is_none()
}

// S1: the leavers, then sets, kinds and numbers, where the counts hold.
// `Room` is a clause: a `Book` keeps S1, which is only judged here.
fn s1(h: Head, t: &Tables<'_>) -> Result<(), Spot>
    requires room { Room h (tables_of t.now) }
    requires h_value { counts_of h ≡ true }
    ensures { result ≡ unless (broken (rows1 (book_in h (tables_of t.now)))) }
{
    if !h.leavers.below(h.users.0) {
        return Err(Spot::Leavers);
    }
    let iv = h.inner_vertices.0 as usize;
    let it = h.inner_tokens.0 as usize;
    let ov = h.outer_vertices.0 as usize;
    let ot = h.outer_tokens.0 as usize;
    let n = h.resources.0 as usize;
    row(0, strange_set(t.inner_vertices, iv, h.users.0))?;
    row(1, strange_token(t.inner_tokens, InnerTokens::WIDTH, it, iv))?;
    row(2, strange_set(t.outer_vertices, ov, h.users.0))?;
    row(3, strange_token(t.outer_tokens, OuterTokens::WIDTH, ot, ov))?;
    row(4, misplaced(t.resources, n, h.users.0, h.leavers, iv, ov))
}

impl<'a> Book<'a> {
    // Twin of plan's `inner_layer`: `laid` is shown from `room` and `s1` here, from `Ready` there.
    fn inner(&self) -> Layer<'a>
        ensures value { layer_in result ≡ (book_of self.now).inner }
        ensures shape_value { result.shape ≡ inner_shape self.now.head }
    {
        Layer {
            vertices: self.tables.inner_vertices,
            tokens: self.tables.inner_tokens,
            shape: inner_shape(self.head),
        }
    }

    // Twin of `inner`: each reads its own fields of the tables and the head.
    fn outer(&self) -> Layer<'a>
        ensures value { layer_in result ≡ (book_of self.now).outer }
        ensures shape_value { result.shape ≡ outer_shape self.now.head }
    {
        Layer {
            vertices: self.tables.outer_vertices,
            tokens: self.tables.outer_tokens,
            shape: outer_shape(self.head),
        }
    }

    // S2: own vertices, which no kind 0 token enters; no empty inner set.
    fn s2(&self) -> Result<(), Spot>
        ensures { result ≡ unless (broken (rows2 (book_of self.now))) }
    {
        let h = self.head;
        let t = self.tables;
        let iv = h.inner_vertices.0 as usize;
        let ov = h.outer_vertices.0 as usize;
        missing(ownless(t.inner_vertices, iv, h.users.0))?;
        missing(ownless(t.outer_vertices, ov, h.users.0))?;
        row(0, find_set(t.inner_vertices, iv, Users::empty()))?;
        row(1, enters_own(&self.inner()))?;
        row(3, enters_own(&self.outer()))
    }

    // S3: no two equal sets.
    fn s3(&self) -> Result<(), Spot>
        ensures { result ≡ unless (broken (rows3 (book_of self.now))) }
    {
        let h = self.head;
        row(
            0,
            equal_set(self.tables.inner_vertices, h.inner_vertices.0 as usize),
        )?;
        row(
            2,
            equal_set(self.tables.outer_vertices, h.outer_vertices.0 as usize),
        )
    }

    // S4: tokens lead to larger sets.
    fn s4(&self) -> Result<(), Spot>
        ensures { result ≡ unless (broken (rows4 (book_of self.now))) }
    {
        row(1, not_rising(&self.inner()))?;
        row(3, not_rising(&self.outer()))
    }

    // S5: group vertices are the unions of their sources.
    fn s5(&self) -> Result<(), Spot>
        ensures { result ≡ unless (broken (rows5 (book_of self.now))) }
    {
        row(0, ununited(&self.inner()))?;
        row(2, ununited(&self.outer()))
    }

    // S6: kind 1 tokens let in someone new; no row twice. (Up to the first kind 1 token that lets in nobody new, tokens with the same ends are equal. No
    // outer token is of kind 1.)
    fn s6(&self) -> Result<(), Spot>
        requires { S4 (book_of self.now) ≡ true }
        ensures { result ≡ unless (broken (rows6 (book_of self.now))) }
    {
        let i = self.inner();
        let o = self.outer();
        let f = not_lateral(&i);
        let g = equal_token(i.tokens, i.shape.width, i.shape.tokens);
        row(1, lower(f, g))?;
        row(3, equal_token(o.tokens, o.shape.width, o.shape.tokens))
    }

    // S7: lists lie within the holders.
    fn s7(&self) -> Result<(), Spot>
        ensures { result ≡ unless (broken (rows7 (book_of self.now))) }
    {
        let n = self.head.resources.0 as usize;
        row(4, unheld(self.tables.resources, n, &self.inner()))
    }

    // S8: resources are locked as their mode asks.
    fn s8(&self) -> Result<(), Spot>
        ensures { result ≡ unless (broken (rows8 (book_of self.now))) }
    {
        let t = self.tables;
        let m = self.head.outer_vertices.0 as usize;
        let n = self.head.resources.0 as usize;
        row(
            4,
            unlocked(
                self.head.mode,
                t.resources,
                n,
                &self.inner(),
                t.outer_vertices,
                m,
            ),
        )
    }
}

// What the answer on a rule says of the book.
fn by(rule: Letter, answer: Result<(), Spot>) -> Result<(), (Letter, Spot)>
    ensures { result ≡ by_rule rule answer }
{
    answer.map_err(|spot| (rule, spot))
}

// S1 to S8, where the counts hold: the first rule that is broken, and where.
// `Room` is a clause: the `Book` is made here, once S1 is known to hold.
pub fn first_rule(h: Head, t: &Tables<'_>) -> Result<(), (Letter, Spot)>
    requires room { Room h (tables_of t.now) }
    requires h_value { counts_of h ≡ true }
    ensures { result ≡ unless (first_rule (rules (book_in h (tables_of t.now)))) }
{
    by(Letter::S1, s1(h, t))?;
    let book = Book {
        head: h,
        tables: *t,
    };
    by(Letter::S2, book.s2())?;
    by(Letter::S3, book.s3())?;
    by(Letter::S4, book.s4())?;
    by(Letter::S5, book.s5())?;
    by(Letter::S6, book.s6())?;
    by(Letter::S7, book.s7())?;
    by(Letter::S8, book.s8())
}
