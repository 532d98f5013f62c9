//! The fields of a job.
ghost use Rattle.std.specs.Prelude.{◌≡◌, ℕ, ◌<◌, true, length};
ghost use Rattle.job.specs.Fields.{are_rows, fitting, no_route};
ghost use Rattle.job.specs.Reading.{tag_of, body_of, Named};

use rows::route::Route;

// Each case holds a slice of the job: a rule of the project (docs/DECISIONS.md).
/// A field of a job, with its body, which is a part of the job.
#[derive(Clone, Copy, PartialEq, Eq, Debug)]
pub enum Field<'a> {
    /// States, start and route.
    Head(&'a [u8]),
    /// Rows of source, action and target.
    Table(&'a [u8]),
    /// Rows of actions.
    Actions(&'a [u8]),
    /// Rows of formulas.
    Formulas(&'a [u8]),
    /// Capacity, put, take and the set of actions that are shared with the table.
    Mailbox(&'a [u8]),
    /// The set of actions that are hidden.
    Hiding(&'a [u8]),
}

/// Whether a body is rows of a size, and not more than the most.
fn are_rows(body: &[u8], size: usize, most: usize) -> bool
    requires { 0 < size }
    ensures { result ≡ are_rows size most (length body.now) }
{
    body.len() % size == 0 && body.len() / size <= most
}

impl<'a> Field<'a> {
    /// The field of a tag, unless the tag is unknown.
    pub fn named(tag: u8, body: &'a [u8]) -> Option<Field<'a>>
        ensures { Named tag body.now result }
    {
        match tag {
            1 => Some(Field::Head(body)),
            2 => Some(Field::Table(body)),
            3 => Some(Field::Actions(body)),
            4 => Some(Field::Formulas(body)),
            5 => Some(Field::Mailbox(body)),
            6 => Some(Field::Hiding(body)),
            _ => None,
        }
    }

    /// Whether the body has a right length.
    pub fn is_fitting(&self) -> bool
        ensures { result ≡ fitting (tag_of self.now) (length (body_of self.now)) }
    {
        match self {
            Field::Head(body) => body.len() == 5,
            Field::Table(rows) => are_rows(rows, 5, 4096),
            Field::Actions(rows) => are_rows(rows, 3, 64),
            Field::Formulas(rows) => are_rows(rows, 5, 64),
            Field::Mailbox(body) => body.len() == 35,
            Field::Hiding(set) => set.len() == 32,
        }
    }

    /// Whether it is the head, and there is no such route. The body has a right length.
    pub(crate) fn has_no_route(&self) -> bool
        requires { fitting (tag_of self.now) (length (body_of self.now)) ≡ true }
        ensures { result ≡ no_route (tag_of self.now) (body_of self.now) }
    {
        match self {
            Field::Head([_, _, _, _, route]) => Route::try_from(*route).is_err(),
            _ => false,
        }
    }
}
