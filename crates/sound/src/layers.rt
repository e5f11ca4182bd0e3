// The rules of a sound book that speak of one layer. Each function answers the first row that breaks its rule.
// Searches with a table of their own are not inlined: in one frame their tables would take more of a caller's stack than include/fenstubble.h says.
ghost use Rattle.std.specs.Prelude.{◌≡◌, not, ◌*◌, ◌≤◌, ◌<◌, length};
ghost use Rattle.sets.specs.Words.{people, bytes, set_in};
ghost use Rattle.rules.specs.Lists.{first, up_to, numbered};
ghost use Rattle.rules.specs.Bytes.{sets_in, tokens_in};
ghost use Rattle.rules.specs.Sound.{joined_set, united_vertex, enters_group, rising_row, lateral_row};
ghost use Rattle.layer.specs.Laid.{max_vertices, found_in};
ghost use Rattle.layer.specs.Lent.{layer_in};
ghost use Rattle.sound.specs.Faults.{placed_in, has_own_in, Owners, repeated, again, united_by, Ends};

use crate::marks::{mark, mark_of};
use layer::holders::VERTICES;
use layer::laid::Layer;
use layer::table::{find_set, set_of, token_in};
use sets::{User, Users};

// S1: the first vertex whose set names someone who has not joined.
// A table has its count n beside it, here and below: it may be longer, as one lent from C is.
pub fn strange_set(vertices: &[u8], n: usize, users: u16) -> Option<usize>
    requires { (n * bytes ≤ length vertices.now) × (users ≤ people) }
    ensures { result ≡ found_in n (first (λ s. not (joined_set users s)) (sets_in n vertices.now)) }
{
    (0..n).position(|v| !set_of(vertices, n, v).below(users))
}

// S1: the first token of a kind above 1, or from or to a vertex that does not exist.
// A kind is compared as a number: it is a byte of the table, which may be any.
pub fn strange_token(tokens: &[u8], width: usize, n: usize, vertices: usize) -> Option<usize>
    requires { (4 ≤ width) × (width ≤ 5) × (n * width ≤ length tokens.now) }
    ensures { result ≡ found_in n (first (λ t. not (placed_in vertices t)) (tokens_in width n tokens.now)) }
{
    (0..n).position(|i| {
        let t = token_in(tokens, width, n, i);
        t.kind > 1 || t.from as usize >= vertices || t.to as usize >= vertices
    })
}

// The users who have a vertex of their own.
fn owners(vertices: &[u8], n: usize) -> Users
    requires { n * bytes ≤ length vertices.now }
    ensures { Owners (sets_in n vertices.now) (set_in result) }
{
    let mut own = Users::empty();
    for v in 0..n {
        let s = set_of(vertices, n, v);
        if s.size() == 1 {
            own = own.union(s);
        }
    }
    own
}

// S2: the first user without a vertex of their own.
pub fn ownless(vertices: &[u8], n: usize, users: u16) -> Option<usize>
    requires { (n * bytes ≤ length vertices.now) × (users ≤ people) }
    ensures { result ≡ found_in users (first (λ u. not (has_own_in (sets_in n vertices.now) u)) (up_to users)) }
{
    let own = owners(vertices, n);
    (0..users).position(|u| !own.has(User(u)))
}

// S2: the first token of kind 0 that enters an own vertex.
// Kinds by number, here and in the two below, as `enters_group` and the like have them.
pub fn enters_own(l: &Layer<'_>) -> Option<usize>
    ensures { result ≡ found_in l.now.shape.tokens (first (λ t. not (enters_group (layer_in l.now) t)) (layer_in l.now).tokens) }
{
    (0..l.shape.tokens).position(|i| {
        let t = l.token_at(i);
        t.kind != 1 && l.set_of(t.to as usize).size() == 1
    })
}

// S4: the first token that does not lead to a larger set.
pub fn not_rising(l: &Layer<'_>) -> Option<usize>
    ensures { result ≡ found_in l.now.shape.tokens (first (λ t. not (rising_row (layer_in l.now) t)) (layer_in l.now).tokens) }
{
    (0..l.shape.tokens).position(|i| {
        let t = l.token_at(i);
        let from = l.set_of(t.from as usize);
        t.kind != 1 && (from == Users::empty() || !from.inside(l.set_of(t.to as usize)))
    })
}

// S6: the first token of kind 1 that lets in nobody new.
pub fn not_lateral(l: &Layer<'_>) -> Option<usize>
    ensures { result ≡ found_in l.now.shape.tokens (first (λ t. not (lateral_row (layer_in l.now) t)) (layer_in l.now).tokens) }
{
    (0..l.shape.tokens).position(|i| {
        let t = l.token_at(i);
        let from = l.set_of(t.from as usize);
        t.kind != 0 && (from.size() != 1 || from.within(l.set_of(t.to as usize)))
    })
}

// S3: the first vertex whose set an earlier one has. Only a set whose mark was met before is searched for among the earlier ones.
// A loop: each row sets a mark that later rows ask, and a closure that writes is no plainer.
#[inline(never)]
pub fn equal_set(vertices: &[u8], n: usize) -> Option<usize>
    requires { n * bytes ≤ length vertices.now }
    ensures { result ≡ found_in n (first (repeated (sets_in n vertices.now)) (up_to n)) }
{
    let mut met = [0u64; 256];
    for i in 0..n {
        let s = set_of(vertices, n, i);
        if mark(&mut met, mark_of(s)) && find_set(vertices, i, s).is_some() {
            return Some(i);
        }
    }
    None
}

// Whether a vertex with this set is a user's own, or the set is the union of its sources' sets. To count users is dearer, so that is last.
fn united(s: Users, all: Users) -> bool
    ensures { result ≡ united_by (set_in s) (set_in all) }
{
    s == all || s.size() == 1
}

// S5: the first group vertex whose set is not the union of its sources' sets.
#[inline(never)]
pub fn ununited(l: &Layer<'_>) -> Option<usize>
    requires { l.now.shape.vertices ≤ max_vertices }
    ensures { result ≡ found_in l.now.shape.vertices (first (λ v. not (united_vertex (layer_in l.now) v)) (numbered 0 (layer_in l.now).sets)) }
{
    // A copy of its own is not read anew at each row.
    let l = *l;
    let all = l.unions(0);
    (0..l.shape.vertices).position(|v| !united(l.set_of(v), all[v]))
}

// S6: the first token between two vertices that an earlier one is between. (Where S4 and S6's other half hold, such rows are equal.)
// A loop, as in `equal_set`: each row sets its mark.
#[inline(never)]
pub fn equal_token(tokens: &[u8], width: usize, n: usize) -> Option<usize>
    requires le_width { (4 ≤ width) × (width ≤ 5) × (n * width ≤ length tokens.now) }
    requires ends { Ends max_vertices (tokens_in width n tokens.now) }
    ensures { result ≡ found_in n (first (again (tokens_in width n tokens.now)) (up_to n)) }
{
    let mut met = [0u64; 4096];
    for i in 0..n {
        let t = token_in(tokens, width, n, i);
        if mark(&mut met, t.to as usize * VERTICES + t.from as usize) {
            return Some(i);
        }
    }
    None
}
