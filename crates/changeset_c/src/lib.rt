//! Functions on the bytes of changesets, for C. Each reads a text or several, and works on the
//! changesets that they spell. Theorem: what each export returns is true of the texts, whatever
//! their bytes are.
#![tactic(auto)]

mod answers;
mod combining;
mod exports;
mod reading;
mod results;
#[cfg(test)]
mod tests;
