// A book that lies in lent tables.
ghost use Rattle.std.specs.Prelude.{◌≡◌, true};
ghost use Rattle.rules.specs.Bytes.{book_in, tables_of, Room};
ghost use Rattle.rules.specs.Sound.{S1};

use rules::{Head, Tables};

// Where S1 holds: the tables have the rows that the head counts, and the vertices that rows name are there.
#[derive(Clone, Copy)]
pub struct Book<'a> {
    pub head: Head,
    pub tables: Tables<'a>,
    ghost room: { Room head (tables_of tables) },
    ghost s1: { S1 (book_in head (tables_of tables)) ≡ true },
}
