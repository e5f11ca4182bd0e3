// The second line of an answer: what is wrong, in English, for whoever keeps the book.
ghost use Rattle.std.specs.Prelude.{◌≡◌, ◌+◌, ◌≤◌, length};
ghost use Rattle.lines.specs.Answer.{Puts};
ghost use Rattle.inspect.specs.Text.{Headed, limit_at, count_words, count_text, length_text, section_words, spot_text, rule_text, sentence};

use crate::text::put_number;
use book::start_of;
use lines::answer::put_text;
use rules::{
    Fault, Head, InnerTokens, Joined, Letter, OuterTokens, OuterVertices, Resources, Spot,
};

// The limit of the count that starts at this byte of the header. (A count goes by that byte, since a fault tells it so: RULES 9.10.)
fn limit_at(h: Head, place: usize) -> u64
    ensures { result ≡ limit_at h place }
{
    match place {
        6 => Joined::LIMIT as u64,
        7 => Resources::LIMIT as u64,
        9 => h.users.0 as u64 + h.resources.0 as u64,
        11 => InnerTokens::LIMIT as u64,
        13 => h.users.0 as u64 + OuterVertices::GROUPS as u64,
        15 => OuterTokens::LIMIT as u64,
        _ => 0,
    }
}

// What stands before the limit of the count that starts there.
#[tactic(auto, using(std::proofs::lemmas::Bool::Decides::nat_tests), unfolding(crate::specs::Text::count_words))]
fn count_words(place: usize) -> &'static [u8]
    ensures words { result.now ≡ count_words place }
    ensures upper_bound { length result.now ≤ 75 }
{
    match place {
        6 => b"the count of users is over its limit, which is ",
        7 => b"the count of folders is over its limit, which is ",
        9 => b"the count of inner vertices is over its limit, users + folders, which is ",
        11 => b"the count of inner tokens is over its limit, which is ",
        13 => b"the count of outer vertices is over its limit, users + 448, which is ",
        _ => b"the count of outer tokens is over its limit, which is ",
    }
}

// The count and its limit.
fn put_count(h: Head, place: usize, out: &mut [u8], at: usize) -> usize
    requires { at + 100 ≤ length out.old }
    ensures { Puts (count_text h place) at out.old result out.new }
{
    put_number(count_words(place), limit_at(h, place), b'\n', out, at)
}

// The length that the book should have.
fn put_length(version: u16, h: Head, out: &mut [u8], at: usize) -> usize
    requires { at + 100 ≤ length out.old }
    ensures { Puts (length_text version h) at out.old result out.new }
{
    let n = start_of(version, h, 5) as u64;
    let end = put_number(
        b"wrong length: by its version and its counts the book has ",
        n,
        b' ',
        out,
        at,
    );
    put_text(b"bytes\n", out, end)
}

// A row's section. (It goes by its number, as in a spot.)
#[tactic(auto, using(std::proofs::lemmas::Bool::Decides::nat_tests), unfolding(crate::specs::Text::section_words))]
fn section_words(section: usize) -> &'static [u8]
    ensures words { result.now ≡ section_words section }
    ensures upper_bound { length result.now ≤ 17 }
{
    match section {
        0 => b"inner vertex row ",
        1 => b"inner token row ",
        2 => b"outer vertex row ",
        3 => b"outer token row ",
        _ => b"folder row ",
    }
}

// Where a rule is broken.
fn put_spot(s: Spot, out: &mut [u8], at: usize) -> usize
    requires { at + 40 ≤ length out.old }
    ensures puts { Puts (spot_text s) at out.old result out.new }
    ensures upper_bound { result ≤ at + 40 }
{
    match s {
        Spot::Row(k, i) => put_number(section_words(k), i as u64, b':', out, at),
        Spot::Leavers => put_text(b"the set of leavers:", out, at),
        Spot::Missing => put_text(b"a joined user has no own vertex:", out, at),
    }
}

// What a rule asks.
fn rule_words(l: Letter) -> &'static [u8]
    ensures words { result.now ≡ rule_text l }
    ensures upper_bound { length result.now ≤ 200 }
{
    match l {
        Letter::S1 => {
            b" S1 is broken, numbers: kinds are 0 or 1, vertex numbers belong to vertices of that layer, sets and lists name only users who have joined, and no list names one who has left\n"
        }
        Letter::S2 => {
            b" S2 is broken, own vertices: each joined user has one in each layer, no kind 0 or outer token leads to one, and no inner set is empty\n"
        }
        Letter::S3 => {
            b" S3 is broken, sets differ: two vertices of one layer never have the same set\n"
        }
        Letter::S4 => {
            b" S4 is broken, tokens rise: a kind 0 or outer token starts at a set with somebody in it, a proper part of the set it leads to\n"
        }
        Letter::S5 => {
            b" S5 is broken, groups are made of what leads to them: a group's set is all the users in the sets from which kind 0 or outer tokens lead to it\n"
        }
        Letter::S6 => {
            b" S6 is broken, kind 1: such a token starts at a user's own vertex and leads to a set that does not name this user, and no token row stands twice\n"
        }
        Letter::S7 => {
            b" S7 is broken, lists are held: everybody on a folder's list holds its inner vertex\n"
        }
        Letter::S8 => {
            b" S8 is broken, locks fit: in mode full each folder has an outer vertex with its list as set; in mode delta it has none exactly where the holders are the list, else such a one\n"
        }
    }
}

// Of bytes that have a header.
pub fn put_sentence(version: u16, h: Head, f: Fault, out: &mut [u8], at: usize) -> usize
    requires at_in_bounds { at + 240 ≤ length out.old }
    requires headed { Headed f }
    ensures { Puts (sentence version h f) at out.old result out.new }
{
    match f {
        Fault::Mark => put_text(
            b"the mark is not 54 4B 42 (\"TKB\"): this is no book, or its first bytes are spoilt\n",
            out,
            at,
        ),
        Fault::Version => put_text(b"the version is neither 1 nor 2\n", out, at),
        Fault::Mode => put_text(b"the mode is neither 0 (full) nor 1 (delta)\n", out, at),
        Fault::Count(place) => put_count(h, place, out, at),
        Fault::Length(_) => put_length(version, h, out, at),
        Fault::Rule(l, s, _) => {
            let end = put_spot(s, out, at);
            put_text(rule_words(l), out, end)
        }
    }
}
