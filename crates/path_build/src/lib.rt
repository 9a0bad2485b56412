// From a command list to a stored path: kinds, fields, tables, running lengths and command numbers in five lent buffers. `build_path`
// asks nothing and refuses; `inner` has what building from a text shares with it.
#![tactic(auto)]

mod building;
mod by_letter;
pub mod inner;
mod passes;
mod plain;
mod room;

pub use building::build_path;
