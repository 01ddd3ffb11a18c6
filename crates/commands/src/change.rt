// The commands that change the current layout: each hands back the one that takes its place.
ghost use Rattle.std.specs.Prelude.{◌≡◌, IfOk, length, take};
ghost use Rattle.specification.specs.Axis.{axes_of_lists};
ghost use Rattle.specification.specs.Record.{read_of};
ghost use Rattle.view.specs.Model.{model_of, first_axes, layout_outcome};
ghost use Rattle.record.specs.Reading.{layout_read};
ghost use Rattle.words.specs.Words.{Tells, Gives, MemoryOnlyIf, numbered, numbered_if};
ghost use Rattle.commands.specs.Asking.{are_placed};
ghost use Rattle.commands.specs.Scratch.{or_most};
ghost use Rattle.commands.specs.Obeyed.{four_parts, new_layout, unchecked, permuted, tied, stretched, read_layout};

use crate::memory::{Memory, lend};
use crate::scratch::{lacking, words_given};
use axis::Axis;
use record::read::read_record;
use std::alloc::{AllocError, Global};
use view::axes::Lists;
use view::diagonal::AxisPair;
use view::layout::{Layout, MOST_AXES, ReadingOffset, Refusal, Viewed};
use words::fault::{Fault, Problem};
use words::place::Word;

/// LEN OFFSET EXTENTS STRIDES, as a line gives them.
#[derive(Drop)]
pub struct Given {
    pub len: u64,
    pub offset: ReadingOffset,
    pub extents: Vec<u64>,
    pub strides: Vec<i64>,
}

/// Four words of a line.
pub type Four<'a> = (Word<'a>, Word<'a>, Word<'a>, Word<'a>);

impl Given {
    /// What the four words spell, from the left.
    #[tactic(auto, unfolding(crate::specs::Obeyed::four_parts))]
    pub fn read<'a>(alloc: Global, words: Four<'a>) -> Result<Given, Problem<'a>>
        ensures told { Gives (λ g. (g.len, g.offset.0, g.extents.items, g.strides.items)) result
            (four_parts (numbered words.entry.0, numbered words.entry.1, numbered words.entry.2, numbered words.entry.3)) }
        ensures memory { MemoryOnlyIf (are_placed words.entry.0.text.now words.entry.1.text.now) result }
    {
        let (len, offset, extents, strides) = words;
        Ok(Given {
            len: len.one()?,
            offset: ReadingOffset(offset.one()?),
            extents: extents.list(alloc)?,
            strides: strides.list(alloc)?,
        })
    }
}

/// A layout that is checked in.
#[tactic(auto, unfolding(crate::specs::Obeyed::new_layout))]
pub fn new_layout<'a>(alloc: Global, words: Four<'a>) -> Result<Layout, Problem<'a>>
    ensures told { Gives model_of result (new_layout
        (numbered words.entry.0, numbered words.entry.1, numbered words.entry.2, numbered words.entry.3)) }
    ensures memory { MemoryOnlyIf (are_placed words.entry.0.text.now words.entry.1.text.now) result }
{
    let given = Given::read(alloc, words)?;
    let extents = given.extents.as_slice();
    let strides = given.strides.as_slice();
    Ok(Layout::new(given.len, given.offset, extents, strides)?)
}

// The first 16 axes that two lists give.
fn sixteen(given: &Given) -> [Axis; 16]
    requires { length given.now.strides.items ≡ length given.now.extents.items }
    ensures { first_axes result (length given.now.extents.items)
        ≡ first_axes (axes_of_lists (take 16 given.now.extents.items) (take 16 given.now.strides.items))
        (length given.now.extents.items) }
{
    let extents = given.extents.as_slice();
    let strides = given.strides.as_slice();
    let held = extents.len().min(MOST_AXES);
    let lists = Lists {
        extents: &extents[..held],
        strides: &strides[..held],
    };
    let mut places = [Axis::NONE; MOST_AXES];
    lists.store(&mut places);
    places
}

/// A layout of any rank without check-in, of lists of one length; its first 16 axes in place.
#[tactic(auto, unfolding(crate::specs::Obeyed::unchecked))]
pub fn set_layout<'a>(given: &Given) -> Result<Layout, Fault<'a>>
    ensures { Tells model_of result (unchecked
        given.now.len given.now.offset.0 given.now.extents.items given.now.strides.items) }
{
    let rank = given.extents.len();
    if rank != given.strides.len() {
        return Err(Fault::UnequalLists);
    }
    Ok(Layout {
        len: given.len,
        offset: given.offset,
        rank,
        axes: sixteen(given),
    })
}

/// The axes in the order of a list.
#[tactic(auto, unfolding(crate::specs::Obeyed::permuted))]
pub fn permute<'a>(alloc: Global, current: Layout, order: Word<'a>) -> Result<Layout, Problem<'a>>
    ensures { Gives model_of result (permuted (model_of current) (numbered order.entry)) }
{
    let order = order.list(alloc)?;
    Ok(current.permute(order.as_slice()).accepted()?)
}

/// The axes of each pair tied into one.
#[tactic(auto, unfolding(crate::specs::Obeyed::tied))]
pub fn diagonal<'a>(alloc: Global, current: Layout, pairs: Word<'a>) -> Result<Layout, Problem<'a>>
    ensures { Gives model_of result (tied (model_of current) (numbered pairs.entry)) }
{
    let pairs = pairs.list::<AxisPair>(alloc)?;
    Ok(current.diagonal_view(pairs.as_slice()).accepted()?)
}

/// Axes of extent 1 stretched to the extents of a list.
#[tactic(auto, unfolding(crate::specs::Obeyed::stretched))]
pub fn broadcast<'a>(
    alloc: Global,
    current: Layout,
    targets: Word<'a>,
) -> Result<Layout, Problem<'a>>
    ensures { Gives model_of result (stretched (model_of current) (numbered targets.entry)) }
{
    let targets = targets.list(alloc)?;
    Ok(current.broadcast(targets.as_slice()).accepted()?)
}

// The layout of a record, with so many words of scratch, or with as many as its verdict needs.
#[tactic(auto, using(crate::proofs::ScratchLaws::read_first))]
fn read_bytes(
    bytes: &[u8],
    scratch: &mut Vec<u64>,
    words: Option<usize>,
) -> Result<Result<Layout, Refusal>, AllocError>
    ensures { IfOk result
        (λ answer. layout_outcome answer ≡ layout_read (read_of bytes.now (or_most words))) }
{
    let first = read_record(bytes, lend(scratch, words.unwrap_or(0), 0)?);
    match lacking(words, &first) {
        Some(needed) => Ok(read_record(bytes, lend(scratch, needed, 0)?)),
        None => Ok(first),
    }
}

/// The layout of a record.
#[tactic(auto, unfolding(crate::specs::Obeyed::read_layout))]
pub fn read<'a>(
    alloc: Global,
    memory: &mut Memory,
    words: (Word<'a>, Option<Word<'a>>),
) -> Result<Layout, Problem<'a>>
    ensures { Gives model_of result (read_layout (numbered words.entry.0, numbered_if words.entry.1)) }
{
    let (bytes, words) = words;
    let bytes = bytes.bytes(alloc)?;
    let words = words_given(words)?;
    Ok(read_bytes(bytes.as_slice(), &mut memory.scratch, words)??)
}
