//! Path quantifiers.

/// Some full path, or every one.
#[derive(Clone, Copy, PartialEq, Eq, Debug)]
pub enum Quantifier {
    Exists,
    Always,
}
