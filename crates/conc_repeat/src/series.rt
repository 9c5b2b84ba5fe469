ghost use Rattle.std.specs.Prelude.{◌≡◌, IfOk};
ghost use Rattle.conc_repeat.specs.Kept.{list_of, words_in, words_of};

use crate::courses::Course;
use crate::fields::Fields;
use conc_types::{Bytes, NoMemory, Seq};
use std::alloc::Global;

/// A series of submissions: its moments, and the fields of its record that each submission has.
#[derive(Drop)]
pub(crate) struct Series {
    pub course: Course,
    pub what: Bytes,
    pub user: Bytes,
    pub priority: Bytes,
    pub domain: Bytes,
    pub argument: Bytes,
}

impl Series {
    /// The series of a record with these fields, with bytes of its own.
    pub(crate) fn of_fields(
        alloc: Global,
        course: Course,
        fields: &Fields,
    ) -> Result<Series, NoMemory>
        ensures course { IfOk result (λ series. series.course ≡ course) }
        ensures words { IfOk result (λ series. words_in series ≡ words_of (list_of fields.now)) }
    {
        Ok(Series {
            course,
            what: Seq::from_vec(fields.what.to_vec(alloc)?),
            user: Seq::from_vec(fields.user.to_vec(alloc)?),
            priority: Seq::from_vec(fields.priority.to_vec(alloc)?),
            domain: Seq::from_vec(fields.domain.to_vec(alloc)?),
            argument: Seq::from_vec(fields.argument.to_vec(alloc)?),
        })
    }
}
