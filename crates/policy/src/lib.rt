// The calls: each makes every check itself, then plans, then applies. Nothing is written before every refusal is excluded.
#![tactic(auto)]

pub mod open;
pub mod requests;
pub mod serve;
