// A book in lent tables that requests are judged on.
ghost use Rattle.rules.specs.Bytes.{tables_of};
ghost use Rattle.plan.specs.Judge.{Ready};

use rules::{Head, Tables};

// The tables are long enough, and the book in them is sound.
#[derive(Clone, Copy)]
pub struct SoundBook<'a> {
    pub head: Head,
    pub tables: Tables<'a>,
    ghost ready: { Ready head (tables_of tables) },
}
