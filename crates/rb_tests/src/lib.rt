//! Tests of the broker's crates, from outside: what no clause says and no script shows. Expected
//! values come from the rules, not from the program. Cases that a script can show are files of the
//! crate `rb_cases`. Theorem: none.
#![tactic(auto)]

#[cfg(test)]
mod tests;
