//! What the programs that run cases from files share: the packs that have the cases, the words of
//! a case's options, and the first line that differs.
#![tactic(auto)]

mod comparing;
mod pack;
mod words;

pub use comparing::{difference, lines};
pub use pack::Pack;
pub use words::Options;
