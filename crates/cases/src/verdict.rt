//! Whether a call is as expected.
use std::error::Error;
use std::fmt;

/// The first thing that differs.
#[derive(Clone, Copy, Debug, PartialEq, Eq)]
pub enum Difference {
    /// Another number.
    Number,
    /// Another length.
    Length,
    /// Other bytes in the result.
    Result,
    /// The result area beyond the result.
    Rest,
    /// The position area.
    Positions,
    /// The work area.
    Work,
    /// Stretches that are the same are told apart, or others are not, or in too many steps.
    Outcome,
    /// Another count of steps.
    Steps,
    /// None of these: the case cannot be read, or asks for longer areas than there are.
    Malformed,
}

/// What comes of a case: all is as expected, or something differs.
pub type Verdict = Result<(), Difference>;

impl fmt::Display for Difference {
    fn fmt<W: fmt::Write>(&self, f: &mut fmt::Formatter<W>) -> fmt::Result {
        f.write_str(match self {
            Difference::Number => "number differs",
            Difference::Length => "length differs",
            Difference::Result => "result differs",
            Difference::Rest => "rest of the result area differs",
            Difference::Positions => "position area differs",
            Difference::Work => "work area differs",
            Difference::Outcome => "outcome differs",
            Difference::Steps => "count of steps differs",
            Difference::Malformed => "malformed",
        })
    }
}

impl Error for Difference {}
