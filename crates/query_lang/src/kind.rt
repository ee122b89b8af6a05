/// What waits for a factor.
#[derive(Clone, Copy, Debug, PartialEq, Eq)]
pub(crate) enum Kind {
    /// A `not`.
    AfterNot,
    /// An open parenthesis.
    AfterOpen,
    /// What stands on the left of an `and`.
    AfterAnd,
    /// What stands on the left of an `or`.
    AfterOr,
}
