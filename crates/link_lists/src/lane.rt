//! Which of the two lanes a call means.

/// One of the two lanes of lists.
#[derive(Clone, Copy, Debug, Drop)]
pub enum Lane {
    First,
    Second,
}
