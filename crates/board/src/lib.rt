// The board of one processor: it shares it among up to 64 servers, earliest deadline first, over any release rule and
// any two queues.
#![tactic(auto)]

mod board;
mod entries;
mod table;

pub use board::Board;
