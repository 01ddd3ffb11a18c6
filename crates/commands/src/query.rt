// The commands that answer and leave both layouts.
ghost use Rattle.std.specs.Prelude.{◌≡◌, ◌&&◌, IfOk, length, nat_le};
ghost use Rattle.specification.specs.Record.{written};
ghost use Rattle.specification.specs.Verdict.{verdict};
ghost use Rattle.specification.specs.Beside.{col_major, row_major};
ghost use Rattle.view.specs.Answers.{outcome_of};
ghost use Rattle.view.specs.Model.{model_of};
ghost use Rattle.words.specs.Words.{Tells, Gives, MemoryOnlyIf, numbered, numbered_if};
ghost use Rattle.injectivity.specs.Judgement.{axes_judged, judged_of, told_of};
ghost use Rattle.commands.specs.Scratch.{or_most, bytes_made, front_written};
ghost use Rattle.commands.specs.Asking.{are_placed, is_lent, is_lent_if};
ghost use Rattle.commands.specs.Replies.{reply_text};
ghost use Rattle.commands.specs.Obeyed.{bounds_text, offset_text, drawn_text, normal_text, verdict_of, injective_text, record_text, rest_text, order_text, dense_text, help_text};

use crate::change::{Four, Given};
use crate::memory::{Memory, lend};
use crate::reply::Reply;
use crate::scratch::{lacking, words_given};
use crate::topic::Topic;
use auxiliary::index_order_into;
use dense::{checked_col_major_strides, checked_row_major_strides};
use drawing::drawing::Drawn;
use injectivity::{Judgement, is_injective_layout, judge_layout};
use record::fields::BytePlace;
use record::normal::normal_form;
use record::step::step_over;
use record::writer::write_record;
use std::alloc::{AllocError, Global};
use view::bounds::validate_bounds;
use view::layout::{Layout, MOST_AXES, ReadingOffset, Refusal};
use view::list::first;
use words::fault::{Fault, Problem};
use words::place::Word;
use words::spelled::Lent;
use words::word::ENTRIES_MOST;

/// Whether check-in finds the bounds of a layout right.
#[tactic(auto, unfolding(crate::specs::Obeyed::bounds_text))]
pub fn bounds<'a>(alloc: Global, words: Four<'a>) -> Result<Reply, Problem<'a>>
    ensures told { Gives reply_text result (bounds_text
        (numbered words.entry.0, numbered words.entry.1, numbered words.entry.2, numbered words.entry.3)) }
    ensures memory { MemoryOnlyIf (are_placed words.entry.0.text.now words.entry.1.text.now) result }
{
    let given = Given::read(alloc, words)?;
    let extents = given.extents.as_slice();
    let strides = given.strides.as_slice();
    validate_bounds(given.len, given.offset, extents, strides)?;
    Ok(Reply::Done)
}

/// The offset of an index vector.
#[tactic(auto, unfolding(crate::specs::Obeyed::offset_text))]
pub fn offset<'a>(alloc: Global, current: &Layout, index: Word<'a>) -> Result<Reply, Problem<'a>>
    ensures { Gives reply_text result (offset_text (model_of current.now) (numbered index.entry)) }
{
    let index = index.list(alloc)?;
    let ReadingOffset(offset) = current.indexed_offset(index.as_slice())?;
    Ok(Reply::Offset(offset))
}

/// A picture of the current layout.
#[tactic(auto, unfolding(crate::specs::Obeyed::drawn_text))]
pub fn draw<'a>(current: &Layout) -> Result<Reply, Fault<'a>>
    ensures { Tells reply_text result (drawn_text (model_of current.now)) }
{
    match drawing::picture::draw(current)? {
        Drawn::Picture(drawing) => Ok(Reply::Drawn(drawing)),
        Drawn::TooMany(count) => Err(Fault::TooManyToDraw(count)),
    }
}

/// The normal form of the current layout.
#[tactic(auto, unfolding(crate::specs::Obeyed::normal_text))]
pub fn normal<'a>(current: &Layout) -> Result<Reply, Fault<'a>>
    ensures { Tells reply_text result (normal_text (model_of current.now)) }
{
    Ok(Reply::Current(normal_form(current)?))
}

// The verdict on a layout's axes with so many words, or with as many as it needs.
#[tactic(auto, using(crate::proofs::ScratchLaws::axes_first))]
fn judge(
    current: &Layout,
    scratch: &mut Vec<u64>,
    words: Option<usize>,
) -> Result<Result<Judgement, Refusal>, AllocError>
    ensures { IfOk result
        (λ answer. judged_of answer ≡ told_of (axes_judged (model_of current.now).axes (or_most words))) }
{
    let first = judge_layout(current, lend(scratch, words.unwrap_or(0), 0)?);
    match lacking(words, &first) {
        Some(needed) => Ok(judge_layout(current, lend(scratch, needed, 0)?)),
        None => Ok(first),
    }
}

/// The verdict on a layout's axes. More than 16 of them are refused before any memory is asked for.
#[tactic(auto, using(crate::proofs::Asked::given, crate::proofs::ScratchLaws::too_many_axes), unfolding(crate::specs::Obeyed::verdict_of, crate::specs::Obeyed::judged_text))]
pub fn verdict<'a>(
    current: &Layout,
    memory: &mut Memory,
    words: Option<Word<'a>>,
) -> Result<Reply, Problem<'a>>
    ensures told { Gives reply_text result (verdict_of (model_of current.now) (numbered_if words.entry)) }
    ensures memory { MemoryOnlyIf (is_lent_if (numbered_if words.entry) && nat_le current.now.rank 16) result }
{
    let words = words_given(words)?;
    if MOST_AXES < current.rank {
        return Err(Refusal::TooManyAxes.into());
    }
    Ok(Reply::Judged(judge(current, &mut memory.scratch, words)??))
}

// The verdict on two lists with so many words, or with as many as it needs.
#[tactic(auto, using(crate::proofs::ScratchLaws::lists_first))]
fn judge_lists(
    extents: &[u64],
    strides: &[i64],
    scratch: &mut Vec<u64>,
    words: Option<usize>,
) -> Result<Result<Judgement, Refusal>, AllocError>
    ensures { IfOk result
        (λ answer. judged_of answer ≡ told_of (verdict extents.now strides.now (or_most words))) }
{
    let first = is_injective_layout(extents, strides, lend(scratch, words.unwrap_or(0), 0)?);
    match lacking(words, &first) {
        Some(needed) => Ok(is_injective_layout(extents, strides, lend(scratch, needed, 0)?)),
        None => Ok(first),
    }
}

/// The verdict on two lists.
#[tactic(auto, unfolding(crate::specs::Obeyed::injective_text, crate::specs::Obeyed::judged_text))]
pub fn injective<'a>(
    alloc: Global,
    memory: &mut Memory,
    words: (Word<'a>, Word<'a>, Option<Word<'a>>),
) -> Result<Reply, Problem<'a>>
    ensures { Gives reply_text result (injective_text
        (numbered words.entry.0, numbered words.entry.1, numbered_if words.entry.2)) }
{
    let (extents, strides, words) = words;
    let extents = extents.list(alloc)?;
    let strides = strides.list(alloc)?;
    let words = words_given(words)?;
    let judged = judge_lists(
        extents.as_slice(),
        strides.as_slice(),
        &mut memory.scratch,
        words,
    )?;
    Ok(Reply::Judged(judged?))
}

// The record of a layout at the front of a room, with so many words of scratch, or with as many as it needs.
#[tactic(auto, using(crate::proofs::ScratchLaws::written_first))]
fn write(
    current: &Layout,
    room: &mut [u8],
    scratch: &mut Vec<u64>,
    words: Option<usize>,
) -> Result<Result<BytePlace, Refusal>, AllocError>
    ensures { IfOk result (λ answer. front_written room.new answer
        ≡ bytes_made (written (model_of current.now) (length room.old) (or_most words))) }
{
    let first = write_record(current, room, lend(scratch, words.unwrap_or(0), 0)?);
    match lacking(words, &first) {
        Some(needed) => Ok(write_record(current, room, lend(scratch, needed, 0)?)),
        None => Ok(first),
    }
}

/// The record of the current layout, in so many bytes.
#[tactic(auto, using(crate::proofs::RecordText::record_told, crate::proofs::Asked::given), unfolding(crate::specs::Obeyed::record_text))]
pub fn record<'a>(
    alloc: Global,
    current: &Layout,
    memory: &mut Memory,
    words: (Word<'a>, Option<Word<'a>>),
) -> Result<Reply, Problem<'a>>
    ensures told { Gives reply_text result (record_text (model_of current.now)
        (numbered words.entry.0, numbered_if words.entry.1)) }
    ensures memory { MemoryOnlyIf
        (is_lent words.entry.0.text.now && is_lent_if (numbered_if words.entry.1)) result }
{
    let (room, words) = words;
    let Lent(bytes) = room.one()?;
    let words = words_given(words)?;
    let room = lend(&mut memory.room, bytes, 0)?;
    let BytePlace(end) = write(current, room, &mut memory.scratch, words)??;
    Ok(Reply::bytes(alloc, first(end, room))?)
}

/// The bytes behind the record at the front.
#[tactic(auto, unfolding(crate::specs::Obeyed::rest_text))]
pub fn rest<'a>(alloc: Global, bytes: Word<'a>) -> Result<Reply, Problem<'a>>
    ensures { Gives reply_text result (rest_text (numbered bytes.entry)) }
{
    let bytes = bytes.bytes(alloc)?;
    Ok(Reply::bytes(alloc, step_over(bytes.as_slice()))?)
}

/// The index order of strides. An output of more places than a list may have entries, 64, is answered as one of 65.
#[tactic(auto, unfolding(crate::specs::Obeyed::order_text))]
pub fn order<'a>(alloc: Global, words: (Word<'a>, Word<'a>)) -> Result<Reply, Problem<'a>>
    ensures { Gives reply_text result (order_text (numbered words.entry.0, numbered words.entry.1)) }
{
    let (strides, places) = words;
    let strides = strides.list(alloc)?;
    let places: usize = places.one()?;
    let mut order = vec![in alloc; 0usize; places.min(ENTRIES_MOST + 1)]?;
    index_order_into(strides.as_slice(), order.as_mut_slice())?;
    Ok(Reply::Order(order))
}

/// Dense strides by column.
#[tactic(auto, unfolding(crate::specs::Obeyed::dense_text))]
pub fn column<'a>(alloc: Global, extents: Word<'a>) -> Result<Reply, Problem<'a>>
    ensures { Gives reply_text result (dense_text col_major (numbered extents.entry)) }
{
    let extents = extents.list(alloc)?;
    Ok(Reply::Strides(checked_col_major_strides(extents.as_slice())?))
}

/// Dense strides by row.
#[tactic(auto, unfolding(crate::specs::Obeyed::dense_text))]
pub fn row<'a>(alloc: Global, extents: Word<'a>) -> Result<Reply, Problem<'a>>
    ensures { Gives reply_text result (dense_text row_major (numbered extents.entry)) }
{
    let extents = extents.list(alloc)?;
    Ok(Reply::Strides(checked_row_major_strides(extents.as_slice())?))
}

/// One topic, or each command.
#[tactic(auto, unfolding(crate::specs::Obeyed::help_text))]
pub fn help<'a>(topic: Option<Word<'a>>) -> Result<Reply, Fault<'a>>
    ensures { Tells reply_text result (help_text (numbered_if topic.entry)) }
{
    let Some(word) = topic else {
        return Ok(Reply::AllHelp);
    };
    match Topic::named(word.text) {
        Some(topic) => Ok(Reply::Help(topic)),
        None => Err(Fault::UnknownTopic(word)),
    }
}
