//! Readings copied along one axis on each side.
ghost use Rattle.std.specs.Prelude.{◌≡◌, ◌<◌, ◌+◌, ◌≤◌, length};
ghost use Rattle.positions.specs.Runs.{run_at, IsRunIn};
ghost use Rattle.copying.specs.Copy.{copies};

/// Places in a buffer: the first, and the step from each to the next. Both are words, whose sums wrap.
#[derive(Clone, Copy)]
pub(crate) struct Run {
    pub(crate) place: u64,
    pub(crate) step: u64,
}

/// Copies the readings of a run one by one. The sums wrap: a step below 0 is a large word.
fn copy_strided(from: &[i32], source: Run, to: &mut [i32], destination: Run, count: u64)
    requires in_source { IsRunIn source.place source.step count (length from.now) }
    requires in_destination { IsRunIn destination.place destination.step count (length to.old) }
    ensures { to.new ≡ copies (run_at source.place source.step) (run_at destination.place destination.step) from.now count to.old }
{
    let (mut place, mut into) = (source.place, destination.place);
    for _i in 0..count {
        to[into as usize] = from[place as usize];
        place = place.wrapping_add(source.step);
        into = into.wrapping_add(destination.step);
    }
}

/// Copies readings that stand side by side in both buffers.
fn copy_dense(from: &[i32], source: usize, to: &mut [i32], destination: usize, count: usize)
    requires in_source { source + count ≤ length from.now }
    requires in_destination { destination + count ≤ length to.old }
    ensures { to.new ≡ copies (λ i. source + i) (λ i. destination + i) from.now count to.old }
{
    to[destination..destination + count].copy_from_slice(&from[source..source + count]);
}

/// Copies a run: at once if its readings stand side by side in both buffers, else one by one.
pub(crate) fn copy_run(from: &[i32], source: Run, to: &mut [i32], destination: Run, count: u64)
    requires some { 0 < count }
    requires in_source { IsRunIn source.place source.step count (length from.now) }
    requires in_destination { IsRunIn destination.place destination.step count (length to.old) }
    ensures { to.new ≡ copies (run_at source.place source.step) (run_at destination.place destination.step) from.now count to.old }
{
    if source.step == 1 && destination.step == 1 {
        let (place, into) = (source.place as usize, destination.place as usize);
        copy_dense(from, place, to, into, count as usize);
    } else {
        copy_strided(from, source, to, destination, count);
    }
}
