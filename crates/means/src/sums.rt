//! The mean of the readings along one axis, from a place on.
ghost use Rattle.std.specs.Prelude.{◌≡◌, ◌<◌, ◌≤◌, length};
ghost use Rattle.positions.specs.Runs.{IsRunIn};
ghost use Rattle.means.specs.Rounded.{rounded};
ghost use Rattle.means.specs.Means.{sum_of};
ghost use Rattle.means.specs.Rows.{run_reading, IsSumOf, IsAlongIn, mean_from};

use axis::Axis;

/// The sum of a run of readings: of so many of 32 bits it is at most 2^47 in size. The sums of places
/// wrap: a step below 0 is a large word.
fn sum_along(readings: &[i32], start: u64, step: u64, count: u64) -> i64
    requires few { count ≤ 65536 }
    requires in_readings { IsRunIn start step count (length readings.now) }
    ensures sum { result ≡ sum_of (run_reading readings.now start step) count }
    ensures small { IsSumOf count result }
{
    let mut sum: i64 = 0;
    let mut at = start;
    for _i in 0..count {
        sum += readings[at as usize] as i64;
        at = at.wrapping_add(step);
    }
    sum
}

/// A quotient to the nearest whole number, halves away from zero.
fn rounded_mean(sum: i64, count: u64) -> i32
    requires some { 0 < count }
    requires few { count ≤ 65536 }
    requires small { IsSumOf count sum }
    ensures { result ≡ rounded sum count }
{
    let size = (2 * sum.unsigned_abs() + count) / (2 * count);
    if sum < 0 {
        -(size as i64) as i32
    } else {
        size as i32
    }
}

/// The mean of the readings along an axis, from a place on: summed whole, and divided once.
pub(crate) fn mean_along(readings: &[i32], along: Axis, place: u64) -> i32
    requires some { 0 < along.extent }
    requires few { along.extent ≤ 65536 }
    requires in_readings { IsAlongIn along place (length readings.now) }
    ensures { result ≡ mean_from readings.now along place }
{
    let sum = sum_along(readings, place, along.stride.cast_unsigned(), along.extent);
    rounded_mean(sum, along.extent)
}
