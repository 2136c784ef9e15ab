//! How lists are hashed.

/// How each list of an archive is hashed. The format is part of what a root says.
#[derive(Clone, Copy, Debug, PartialEq, Eq)]
pub enum Format {
    /// A list is one tree.
    One,
    /// A list is a chain of blocks of 64 entries, the last of 1 to 64. Each block is a tree.
    Two,
}
