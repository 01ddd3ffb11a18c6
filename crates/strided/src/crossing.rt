//! The two structs that are C's own, and an answer as its number and values.
ghost use Rattle.std.specs.Prelude.{◌≡◌, ◌++◌, length, drop};
ghost use Rattle.view.specs.Answers.{number_of, values_of, outcome_of};
ghost use Rattle.strided.specs.Crossing.{number_after, places, values_after, written_after};

use view::layout::Refusal;

/// The values that a refusal returns, in the first places. A place that it does not use stays as
/// it was.
#[repr(C)]
#[derive(Clone, Copy, Debug, PartialEq, Eq)]
pub struct Values {
    /// The first value.
    pub first: usize,
    /// The second value.
    pub second: usize,
}

/// What a verdict found.
#[repr(C)]
#[derive(Clone, Copy, Debug, PartialEq, Eq)]
pub struct Found {
    /// 1 Distinct, 2 Repeated, 3 Undecided.
    pub verdict: u8,
    /// How many difference vectors the search looked at.
    pub count: u64,
}

/// The number of a refusal, with its values in the first places.
pub(crate) fn refuse(why: Refusal, values: &mut Values) -> u8
    ensures number { result ≡ number_of why }
    ensures values { places values.new ≡
        values_of why ++ drop (length (values_of why)) (places values.old) }
{
    match *why.values().as_slice() {
        [] => {}
        [first] => values.first = first,
        [first, second, ..] => *values = Values { first, second },
    }
    why.number()
}

/// The number of an answer that has no values: 0, or that of the refusal.
pub(crate) fn answer_number(answer: Result<(), Refusal>) -> u8
    ensures { result ≡ number_after (outcome_of answer) }
{
    match answer {
        Ok(()) => 0,
        Err(why) => why.number(),
    }
}

/// The number of an answer: 0, or that of the refusal with its values in the first places.
pub(crate) fn answer_with_values(answer: Result<(), Refusal>, values: &mut Values) -> u8
    ensures answer { result ≡ number_after (outcome_of answer) }
    ensures values { places values.new ≡ values_after (outcome_of answer) values.old }
{
    if let Err(why) = answer {
        refuse(why, values)
    } else {
        0
    }
}

/// The number of an answer: 0 with the count of what was written in the first place, or that of the
/// refusal with its values in the first places.
pub(crate) fn answer_with_count(answer: Result<usize, Refusal>, values: &mut Values) -> u8
    ensures answer { result ≡ number_after (outcome_of answer) }
    ensures values { places values.new ≡ written_after (outcome_of answer) values.old }
{
    if let Ok(count) = answer {
        values.first = count;
    }
    answer_with_values(answer.map(|_count| ()), values)
}
