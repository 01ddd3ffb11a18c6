// The commands that answer readings: copied ones, and means.
ghost use Rattle.std.specs.Prelude.{◌≡◌, IfOk, is_some, length};
ghost use Rattle.copying.specs.Copy.{copy_refusal, copy_after};
ghost use Rattle.view.specs.Answers.{outcome_of};
ghost use Rattle.view.specs.Model.{model_of};
ghost use Rattle.words.specs.Spelled.{unsigned};
ghost use Rattle.words.specs.Words.{Gives, MemoryOnlyIf, numbered, numbered_if};
ghost use Rattle.commands.specs.Layouts.{layouts_of};
ghost use Rattle.commands.specs.Scratch.{or_most};
ghost use Rattle.commands.specs.Readings.{copied_text, means_text};
ghost use Rattle.commands.specs.Replies.{reply_text};

use crate::layouts::Layouts;
use crate::memory::{Memory, lend};
use crate::reply::Reply;
use crate::scratch::{lacking, words_given};
use std::alloc::{AllocError, Global};
use view::layout::{Layout, Refusal};
use words::fault::Problem;
use words::place::Word;
use words::spelled::Lent;

// A copy with so many words of scratch, or with as many as the verdict on the held layout needs.
#[tactic(auto, using(crate::proofs::CopyLaws::first_copied))]
fn copy_readings(
    layouts: &Layouts,
    from: &[i32],
    to: &mut [i32],
    scratch: &mut Vec<u64>,
    words: Option<usize>,
) -> Result<Result<(), Refusal>, AllocError>
    ensures answer { IfOk result (λ answer. outcome_of answer ≡ copy_refusal
        (model_of layouts.now.current) (model_of layouts.now.held) (length from.now) (length to.old) (or_most words)) }
    ensures copied { IfOk result (λ answer. to.new ≡ copy_after (outcome_of answer)
        (model_of layouts.now.current) (model_of layouts.now.held) from.now to.old) }
{
    let Layouts { current, held } = layouts;
    let first = copying::copy(
        current,
        from,
        held,
        to,
        lend(scratch, words.unwrap_or(0), 0)?,
    );
    match lacking(words, &first) {
        Some(needed) => Ok(copying::copy(current, from, held, to, lend(scratch, needed, 0)?)),
        None => Ok(first),
    }
}

/// Readings copied through the current layout into others through the held one.
#[tactic(auto, unfolding(crate::specs::Readings::copied_text))]
pub fn copy<'a>(
    alloc: Global,
    layouts: &Layouts,
    memory: &mut Memory,
    words: (Word<'a>, Word<'a>, Option<Word<'a>>),
) -> Result<Reply, Problem<'a>>
    ensures { Gives reply_text result (copied_text (layouts_of layouts.now)
        (numbered words.entry.0, numbered words.entry.1, numbered_if words.entry.2)) }
{
    let (from, to, words) = words;
    let from = from.list(alloc)?;
    let mut to: Vec<i32> = to.list(alloc)?;
    let words = words_given(words)?;
    copy_readings(
        layouts,
        from.as_slice(),
        to.as_mut_slice(),
        &mut memory.scratch,
        words,
    )??;
    Ok(Reply::Readings(to))
}

/// Means of readings through the current layout along an axis.
#[tactic(auto, unfolding(crate::specs::Readings::means_text))]
pub fn means<'a>(
    alloc: Global,
    current: &Layout,
    words: (Word<'a>, Word<'a>, Word<'a>),
) -> Result<Reply, Problem<'a>>
    ensures told { Gives reply_text result (means_text (model_of current.now)
        (numbered words.entry.0, numbered words.entry.1, numbered words.entry.2)) }
    ensures memory { MemoryOnlyIf (is_some (unsigned words.entry.0.text.now)) result }
{
    let (axis, readings, room) = words;
    let axis = axis.one()?;
    let readings = readings.list(alloc)?;
    let Lent(room) = room.one()?;
    let mut means = vec![in alloc; 0i32; room]?;
    let count = means::means(current, axis, readings.as_slice(), means.as_mut_slice())?;
    means.truncate(count);
    Ok(Reply::Readings(means))
}
