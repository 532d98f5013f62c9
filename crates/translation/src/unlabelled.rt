//! Why a row is not labelled.
ghost use Rattle.std.specs.Prelude.{Some};
ghost use Rattle.translation.specs.Words.{unlabelled_in_words};

use std::error::Error;
use std::fmt;

/// Why a row is not labelled through the translation.
#[derive(Clone, Copy, PartialEq, Eq, Debug)]
pub enum Unlabelled {
    /// The column's length is not the number of states.
    Column,
    /// The machine has over 4,096 transitions, or more than the list holds.
    Transitions,
    /// The structure would have over 65,536 nodes.
    Nodes,
    /// The scratch has no room for three columns of nodes.
    Scratch,
}

impl fmt::Display for Unlabelled {
    ghost output = { λ why. Some (unlabelled_in_words why) };

    fn fmt<W: fmt::Write>(&self, f: &mut fmt::Formatter<W>) -> fmt::Result {
        match self {
            Unlabelled::Column => write!(f, "the column's length is not the number of states"),
            Unlabelled::Transitions => write!(f, "too many transitions"),
            Unlabelled::Nodes => write!(f, "the structure would have too many nodes"),
            Unlabelled::Scratch => write!(f, "the scratch has no room for three columns of nodes"),
        }
    }
}

impl Error for Unlabelled {}
