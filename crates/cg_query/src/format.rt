//! Formats of sessions.

/// The format of a session.
#[derive(Clone, Copy, Debug, PartialEq, Eq)]
pub enum Format {
    /// Lines ask questions.
    One,
    /// Lines ask questions or define names, and names stand for expressions.
    Two,
}
