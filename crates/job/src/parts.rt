//! What a job says.
ghost use Rattle.job.specs.Shown.{parts_of};
ghost use Rattle.job.specs.WellFormed.{WellFormed};

use crate::field::Field;
use rows::route::Route;

/// What a job says. The slices are parts of the job.
#[derive(Clone, Copy, PartialEq, Eq, Debug)]
pub struct Job<'a> {
    pub states: u16,
    pub start: u16,
    pub route: Route,
    /// Rows of five bytes: source (2), action (1), target (2).
    pub table: &'a [u8],
    /// Rows of three bytes.
    pub actions: &'a [u8],
    /// Rows of five bytes.
    pub formulas: &'a [u8],
    /// Capacity (1), put (1), take (1) and the set of actions shared with the table (32).
    pub mailbox: Option<&'a [u8]>,
    /// The set of actions that are hidden over all (32).
    pub hiding: Option<&'a [u8]>,
}

/// A job whose parts keep their bounds, as those of every job that was read do.
#[derive(Clone, Copy, PartialEq, Eq, Debug)]
pub struct SoundJob<'a> {
    pub job: Job<'a>,
    pub ghost well: { WellFormed (parts_of job) },
}

impl<'a> SoundJob<'a> {
    ghost use Rattle.std.specs.Prelude.{◌≡◌, true, false, length};
    ghost use Rattle.job.specs.Fields.{fitting, no_route};
    ghost use Rattle.job.specs.Parse.{keep as kept, no_parts};
    ghost use Rattle.job.specs.Reading.{tag_of, body_of};

    /// The job before its first field.
    pub(crate) fn empty() -> SoundJob<'a>
        ensures { parts_of result.job ≡ no_parts }
    {
        let job = Job {
            states: 0,
            start: 0,
            route: Route::Direct,
            table: &[],
            actions: &[],
            formulas: &[],
            mailbox: None,
            hiding: None,
        };
        SoundJob { job }
    }

    /// Takes the states, the start and the route out of the head's body.
    fn keep_head(&mut self, body: &[u8])
        requires { (length body.now ≡ 5) × (no_route 1 body.now ≡ false) }
        ensures { parts_of self.new.job ≡ kept 1 body.now (parts_of self.old.job) }
    {
        let [s1, s0, t1, t0, route] = <[u8; 5]>::try_from(body).unwrap();
        self.job.states = u16::from_be_bytes([s1, s0]);
        self.job.start = u16::from_be_bytes([t1, t0]);
        self.job.route = Route::try_from(route).unwrap();
    }

    /// Takes what a sound field says.
    pub(crate) fn keep(&mut self, field: Field<'a>)
        requires { (fitting (tag_of field) (length (body_of field)) ≡ true) × (no_route (tag_of field) (body_of field) ≡ false) }
        ensures { parts_of self.new.job ≡ kept (tag_of field.entry) (body_of field.entry) (parts_of self.old.job) }
    {
        match field {
            Field::Head(body) => self.keep_head(body),
            Field::Table(rows) => self.job.table = rows,
            Field::Actions(rows) => self.job.actions = rows,
            Field::Formulas(rows) => self.job.formulas = rows,
            Field::Mailbox(body) => self.job.mailbox = Some(body),
            Field::Hiding(set) => self.job.hiding = Some(set),
        }
    }
}
