//! The end of a broker: what the owners of its parts find when they meet, and what is placed and
//! left when all have ended. Theorem: `laws::finished_keeps_headline`, the headline of a running
//! broker.
#![tactic(auto)]

mod finishing;
pub mod laws;
mod meeting;
mod refusal;

pub use finishing::{Finished, finish};
pub use meeting::{meet, meet_sequencer};
pub use refusal::{FinishError, RefusedFinish};
