//! What a shared connection keeps of its journal.

/// Which entries of its journal a shared connection keeps. The seed fixes it for good.
#[derive(Clone, Copy, Debug, PartialEq, Eq)]
pub enum Retention {
    /// All of them: [`Shared::forget`](crate::Shared::forget) forgets nothing.
    All,
    /// Those since the last [`Shared::forget`](crate::Shared::forget).
    UntilForgotten,
}
