//! The tests of cs_model, cs_parse, cs_write and cs_apply, which contain none, because a crate with
//! tests is proved twice. They test what no clause states and no script shows: external values,
//! each call that allocates, sizes at a limit, and error messages.
#![tactic(auto)]

#[cfg(test)]
mod tests;
