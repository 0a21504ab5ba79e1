//! What a run answers: the length of its result, or why it is refused. The definitions and the code name the same.

/// The refusals, in the order in which they are tested.
#[derive(Clone, Copy, Debug, PartialEq, Eq)]
pub enum Refusal {
    /// The work area has under 65,536 bytes.
    WorkShort,
    /// The position area has under 2,730 entries.
    PositionsShort,
    /// The message has over 4,096 bytes, a line of it is out of form, or one of the seven names has two.
    MessageMalformed,
    /// The query has over 4,096 bytes.
    QueryLong,
    QueryMalformed,
    /// The input has over 16,384 bytes.
    InputLong,
    /// Malformed, or a tree in it is too large.
    InputMalformed,
    /// The joined array has over 16,384 bytes.
    JoinedLong,
    /// Malformed, or a tree in it is too large.
    JoinedMalformed,
    /// A total of a class of a group does not fit a signed 64-bit integer.
    TotalLarge,
    /// A tree was too large in a stretch.
    TreeLarge,
    /// An array that enters a group has over 16,384 bytes.
    GroupLong,
    /// The last array has over 16,384 bytes, or more than the result area.
    ResultLong,
}

/// The result has so many bytes; or there is none.
pub type Answer = Result<usize, Refusal>;
