// A layer in lent tables: as it lies there, and as a leave will have it. Both types keep what their readers ask of the tables.
ghost use Rattle.layer.specs.Laid.{Laid};
ghost use Rattle.layer.specs.Seen.{SeenIn};

use crate::seen::Seen;
use crate::walk::Shape;

// The tables of its vertices and its tokens, and how it lies in them: they hold its rows, and every vertex that a token uses is there.
#[derive(Clone, Copy)]
pub struct Layer<'a> {
    pub vertices: &'a [u8],
    pub tokens: &'a [u8],
    pub shape: Shape,
    ghost laid: { Laid shape tokens.now vertices.now },
}

// The tables of its vertices and of the resources, and the resource that each new vertex is told by. The new vertex i is for the list of resource firsts[i].
#[derive(Clone, Copy)]
pub struct Foreseen<'a> {
    pub vertices: &'a [u8],
    pub resources: &'a [u8],
    pub firsts: &'a [u16],
    pub seen: Seen,
    ghost seen_in: { SeenIn seen vertices.now resources.now firsts.now },
}
