//! Tests of the broker with threads, and of appliers, from outside. Each loop that waits counts its
//! turns, and fails if they are too many. Theorem: none.
#![tactic(auto)]

#[cfg(test)]
mod appliers;
#[cfg(test)]
mod courses;
#[cfg(test)]
mod embedding;
#[cfg(test)]
mod entered;
#[cfg(test)]
mod falling;
#[cfg(test)]
mod finishing;
#[cfg(test)]
mod given;
#[cfg(test)]
mod histories;
#[cfg(test)]
mod history;
#[cfg(test)]
mod owners;
#[cfg(test)]
mod publishing;
#[cfg(test)]
mod recorded;
#[cfg(test)]
mod restarts;
#[cfg(test)]
mod rows;
#[cfg(test)]
mod sizes;
#[cfg(test)]
mod subscribing;
#[cfg(test)]
mod texts;
