//! Means row by row: a row is the first of the remaining axes, and there is one from each position
//! of the others on.
ghost use Rattle.std.specs.Prelude.{◌≡◌, ◌<◌, ◌≤◌, ◌∷◌, ℕ, map, length};
ghost use Rattle.std.specs.List.{range_with_len};
ghost use Rattle.specification.specs.Axis.{positions};
ghost use Rattle.positions.specs.Positions.{IsWalkable, IsPlacedIn, place_at};
ghost use Rattle.positions.specs.Runs.{run_at};
ghost use Rattle.means.specs.Rows.{IsAlongIn, mean_from};

use crate::sums::mean_along;
use axis::Axis;
use positions::Positions;

/// Writes the means of a row: the readings of each begin a step behind those of the one before it.
/// It is a call of its own, so that its loops have the registers to themselves.
#[inline(never)]
fn write_row(readings: &[i32], along: Axis, start: u64, step: u64, out: &mut [i32])
    requires some { 0 < along.extent }
    requires few { along.extent ≤ 65536 }
    requires in_readings { (i : ℕ) → i < length out.old → IsAlongIn along (run_at start step i) (length readings.now) }
    ensures { out.new ≡ map (λ i. mean_from readings.now along (run_at start step i)) (range_with_len 0 (length out.old)) }
{
    let mut place = start;
    for mean in out.iter_mut() {
        *mean = mean_along(readings, along, place);
        place = place.wrapping_add(step);
    }
}

/// Writes the means row by row, from each position of the other axes on.
fn write_rows(
    readings: &[i32],
    along: Axis,
    row: Axis,
    others: &[Axis],
    start: u64,
    out: &mut [i32],
)
    requires some { 0 < along.extent }
    requires few { along.extent ≤ 65536 }
    requires walkable { IsWalkable others.now }
    requires some_row { 0 < row.extent }
    requires in_readings { IsPlacedIn start (along ∷ row ∷ others.now) (length readings.now) }
    requires as_many { length out.old ≡ positions (row ∷ others.now) }
    ensures { out.new ≡ map (λ k. mean_from readings.now along (place_at start (row ∷ others.now) k)) (range_with_len 0 (length out.old)) }
{
    let step = row.stride.cast_unsigned();
    let count = row.extent as usize;
    let mut position = Positions::new(others, start);
    let mut done = 0;
    while done < out.len() {
        write_row(
            readings,
            along,
            position.place(),
            step,
            &mut out[done..done + count],
        );
        done += count;
        position.next();
    }
}

/// Writes the mean of each position of the remaining axes, in position order.
pub(crate) fn write_all(readings: &[i32], along: Axis, rest: &[Axis], start: u64, out: &mut [i32])
    requires some { 0 < along.extent }
    requires few { along.extent ≤ 65536 }
    requires walkable { IsWalkable rest.now }
    requires in_readings { IsPlacedIn start (along ∷ rest.now) (length readings.now) }
    requires as_many { length out.old ≡ positions rest.now }
    ensures { out.new ≡ map (λ k. mean_from readings.now along (place_at start rest.now k)) (range_with_len 0 (length out.old)) }
{
    match rest {
        // no axis remains: there is one mean
        [] => out[0] = mean_along(readings, along, start),
        [row, others @ ..] => write_rows(readings, along, *row, others, start, out),
    }
}
