// A layer as a leave will have it, before a row of it is written: RULES 5.12, "an outer vertex that was made for one serves the later ones, and may be in their covers". Nothing is copied: a
// new vertex is told by a folder whose list, without the leaver, is its set.
ghost use Rattle.std.specs.Prelude.{◌≡◌, ◌+◌, ◌*◌, ◌≤◌, ◌<◌, length, get_or};
ghost use Rattle.sets.specs.Words.{bytes, set_in};
ghost use Rattle.rules.specs.Lists.{first};
ghost use Rattle.rules.specs.Bytes.{sets_in};
ghost use Rattle.layer.specs.Laid.{found_in, is_set};
ghost use Rattle.layer.specs.Lent.{sets_then};
ghost use Rattle.layer.specs.Seen.{as_laid};

use crate::laid::Foreseen;
use crate::table::{resource_in, set_of};
use sets::{User, Users};

// The vertices in the table, and how many new ones come behind them; the resources in theirs, and who leaves.
#[derive(Clone, Copy)]
pub struct Seen {
    pub vertices: usize,
    pub new: usize,
    pub resources: usize,
    pub leaver: User,
}

// The n vertices of a table, and nothing new: who leaves is never asked.
pub fn as_laid(n: usize) -> Seen
    ensures { result ≡ as_laid n }
{
    Seen {
        vertices: n,
        new: 0,
        resources: 0,
        leaver: User(0),
    }
}

impl<'a> Foreseen<'a> {
    // A layer as it lies in its table.
    // The count n stands beside the table, which may be longer, as one lent from C is.
    pub fn in_table(vertices: &'a [u8], n: usize) -> Foreseen<'a>
        requires { (n * bytes ≤ length vertices.now) × (n < 65536) }
        ensures seen_value { result.seen ≡ as_laid n }
        ensures sets_value { sets_then result ≡ sets_in n vertices.now }
    {
        Foreseen {
            vertices,
            resources: &[],
            firsts: &[],
            seen: as_laid(n),
        }
    }
}

impl Foreseen<'_> {
    // The set of vertex v.
    pub fn set_of(&self, v: usize) -> Users
        requires { v < self.now.seen.vertices + self.now.seen.new }
        ensures { set_in result ≡ get_or (sets_then self.now) v 0 }
    {
        let l = self.seen;
        if v < l.vertices {
            return set_of(self.vertices, l.vertices, v);
        }
        let r = self.firsts[v - l.vertices] as usize;
        let x = resource_in(self.resources, l.resources, r);
        x.list.without(l.leaver)
    }

    // The first vertex whose set is s.
    pub fn find_set(&self, s: Users) -> Option<usize>
        ensures { result ≡ found_in (self.now.seen.vertices + self.now.seen.new) (first (is_set (set_in s)) (sets_then self.now)) }
    {
        let l = *self;
        (0..l.seen.vertices + l.seen.new).position(|v| l.set_of(v) == s)
    }
}
