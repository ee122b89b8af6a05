/// The place of a word among the distinct ones, and its weight.
#[derive(Clone, Copy, Debug)]
pub(crate) struct Spot {
    pub(crate) place: usize,
    pub(crate) weight: u32,
}

/// An operator of a query in postfix form, behind what it joins. Words are named by `W`.
#[derive(Debug, Drop)]
pub(crate) enum Op<W> {
    /// A word, and whether it stands under an even number of `not`.
    Push(W, bool),
    /// What lacks the query before it.
    Negate,
    /// What has both of the two queries before it.
    Conjoin,
    /// What has at least one of them.
    Disjoin,
}
