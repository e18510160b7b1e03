//! The origin of a sequence entry: what a publisher was fed, or the withdrawal of an entry.

/// Why an entry was sent.
#[derive(Clone, Copy, Debug, PartialEq, Eq)]
pub enum Origin {
    /// A publisher sent what it was fed.
    Sent,
    /// It withdraws the entry of this number.
    Withdraws(u64),
}
