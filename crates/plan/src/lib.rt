// What is judged and planned before anything is written: the refusals of each request on the tables as they are, and what applying it needs to know.
#![tactic(auto)]

use rules::Resource;
use sets::{User, Users};

pub mod book;
pub mod judge;
pub mod leave;
pub mod waiting;

// A request that changes the book.
#[derive(Clone, Copy)]
pub enum Request {
    Join,
    Insert(Users),
    Grant(Resource, User),
    Revoke(Resource, User),
    Leave(User),
}

// What applying a request needs to know: whether the folder will have no outer key, whether a kind 1 token is added, and the holders before.
// The holders of a grant are told where no token is added too (`judge` promises them), so they stand beside the two answers and not inside one.
#[derive(Clone, Copy)]
pub struct Plan {
    pub free: bool,
    pub token: bool,
    pub holders: Users,
}
