//! The reader of a job's fields, one after another.
ghost use Rattle.std.specs.Prelude.{◌≤◌, length};

use crate::field::Field;
use faults::job::JobFault;

/// A job, the place up to which it is read, and the tag of the last field that was read, or 0.
// The last tag is a number and no enum: the next one must be above it, and up to 4 just one above it.
#[derive(Drop)]
pub struct Reader<'a> {
    job: &'a [u8],
    at: usize,
    last: u8,
    ghost short: { length job.now ≤ 65536 },
    ghost within: { at ≤ length job.now },
    ghost known: { last ≤ 6 },
}

impl<'a> Reader<'a> {
    ghost use Rattle.std.specs.Prelude.{◌≡◌, ◌<◌, MatchResult, nat_le};
    ghost use Rattle.faults.specs.declared.job.JobFault.TheVariants as fault;
    ghost use Rattle.job.specs.Fields.{skips};
    ghost use Rattle.job.specs.Reading.{job_of, place_of, last_of, Cut, Steps};

    /// A reader at the start of a job.
    pub(crate) fn new(job: &'a [u8]) -> Reader<'a>
        requires { length job.now ≤ 65536 }
        ensures { (job_of result ≡ job.now) × (place_of result ≡ 0) × (last_of result ≡ 0) }
    {
        Reader {
            job,
            at: 0,
            last: 0,
        }
    }

    /// The tag and the body at the place, unless the header or the body runs past the end.
    fn cut(&self) -> Option<(u8, &'a [u8])>
        ensures { Cut (job_of self.now) (place_of self.now) result }
    {
        let [tag, hi, lo, rest @ ..] = &self.job[self.at..] else {
            return None;
        };
        let length = u16::from_be_bytes([*hi, *lo]);
        let body = rest.get(..usize::from(length))?;
        Some((*tag, body))
    }

    /// Whether a tag is not above the last one.
    fn is_behind(&self, tag: u8) -> bool
        ensures { result ≡ nat_le tag (last_of self.now) }
    {
        tag <= self.last
    }

    /// Whether a tag skips a field that every job has.
    fn skips(&self, tag: u8) -> bool
        ensures { result ≡ skips (last_of self.now) tag }
    {
        self.last < 4 && tag > self.last + 1
    }

    /// The next field, or nothing at the end, or the field's first fault.
    // No Iterator: a `for` asks that the items end, and a reader stays at a fault. To end there it would need one state more, and clauses
    // for it.
    pub fn next(&mut self) -> Result<Option<Field<'a>>, JobFault>
        ensures same { job_of self.new ≡ job_of self.old }
        ensures steps { Steps self.old result self.new }
    {
        if self.at >= self.job.len() {
            return Ok(None);
        }
        let at = self.at as u32;
        let Some((tag, body)) = self.cut() else {
            return Err(JobFault::PastEnd(at));
        };
        let Some(field) = Field::named(tag, body) else {
            return Err(JobFault::Tag(at));
        };
        if self.is_behind(tag) {
            return Err(JobFault::Tag(at));
        }
        if self.skips(tag) {
            return Err(JobFault::Missing(at));
        }
        if !field.is_fitting() {
            return Err(JobFault::Length(at));
        }
        if field.has_no_route() {
            return Err(JobFault::Route(at));
        }
        self.at += 3 + body.len();
        self.last = tag;
        Ok(Some(field))
    }

    /// Refuses a job that ends before each of the fields 1 to 4 has come.
    pub fn finish(&self) -> Result<(), JobFault>
        ensures { MatchResult result (λ _. 4 ≤ last_of self.now) (λ f. (last_of self.now < 4) × (f ≡ fault.Missing (length (job_of self.now)))) }
    {
        if self.last < 4 {
            return Err(JobFault::Missing(self.job.len() as u32));
        }
        Ok(())
    }
}
