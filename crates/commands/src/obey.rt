// A line of words obeyed: which function each command is.
ghost use Rattle.std.specs.Prelude.{◌≡◌, OnErr, map};
ghost use Rattle.view.specs.Model.{model_of};
ghost use Rattle.words.specs.Words.{Gives, MemoryOnlyIf};
ghost use Rattle.commands.specs.Asking.{change_asks, query_asks, asks_for_memory, line_asks};
ghost use Rattle.commands.specs.Replies.{reply_text};
ghost use Rattle.commands.specs.Layouts.{layouts_of};
ghost use Rattle.commands.specs.Obeyed.{next_layout, answer_text, run, obeyed};

use crate::change::{Given, broadcast, diagonal, new_layout, permute, read, set_layout};
use crate::command::{Change, Command, Query};
use crate::layouts::Layouts;
use crate::memory::Memory;
use crate::query::{
    bounds, column, draw, help, injective, normal, offset, order, record, rest, row, verdict,
};
use crate::readings::{copy, means};
use crate::reply::Reply;
use std::alloc::Global;
use view::layout::Layout;
use words::fault::{Fault, Problem};
use words::place::Word;
use words::word::Words;

// The layout after a command that changes it, with the words behind its name.
#[tactic(auto, using(crate::proofs::Asked::one, crate::proofs::Asked::four, crate::proofs::Asked::read_asks), unfolding(crate::specs::Obeyed::next_layout, crate::specs::Obeyed::set_layout, crate::specs::Asking::change_asks))]
fn next_layout<'a>(
    alloc: Global,
    current: &Layout,
    memory: &mut Memory,
    change: Change,
    words: Words<'a>,
) -> Result<Layout, Problem<'a>>
    ensures told { Gives model_of result (next_layout (model_of current.now) change
        words.entry.usage.now (map (λ text. text.now) words.entry.texts.now)) }
    ensures memory { MemoryOnlyIf (change_asks change (map (λ text. text.now) words.entry.texts.now)) result }
{
    match change {
        Change::New => new_layout(alloc, words.four()?),
        Change::Set => Ok(set_layout(&Given::read(alloc, words.four()?)?)?),
        Change::Permute => permute(alloc, *current, words.one()?),
        Change::Diagonal => diagonal(alloc, *current, words.one()?),
        Change::Broadcast => broadcast(alloc, *current, words.one()?),
        Change::Read => read(alloc, memory, words.one_or_two()?),
    }
}

// What a command answers that leaves both layouts, with the words behind its name.
#[tactic(auto, using(crate::proofs::Asked::one, crate::proofs::Asked::two, crate::proofs::Asked::three, crate::proofs::Asked::four, crate::proofs::Asked::verdict_asks, crate::proofs::Asked::injective_asks, crate::proofs::Asked::copy_asks, crate::proofs::Asked::record_asks), unfolding(crate::specs::Obeyed::answer_text, crate::specs::Asking::query_asks))]
fn answer<'a>(
    alloc: Global,
    layouts: &Layouts,
    memory: &mut Memory,
    query: Query,
    words: Words<'a>,
) -> Result<Reply, Problem<'a>>
    ensures told { Gives reply_text result (answer_text (layouts_of layouts.now) query
        words.entry.usage.now (map (λ text. text.now) words.entry.texts.now)) }
    ensures memory { MemoryOnlyIf (query_asks query (map (λ text. text.now) words.entry.texts.now)) result }
{
    let current = &layouts.current;
    match query {
        Query::Bounds => bounds(alloc, words.four()?),
        Query::Show => {
            words.none()?;
            Ok(Reply::Current(*current))
        }
        Query::Draw => {
            words.none()?;
            Ok(draw(current)?)
        }
        Query::Offset => offset(alloc, current, words.one()?),
        Query::Normal => {
            words.none()?;
            Ok(normal(current)?)
        }
        Query::Verdict => verdict(current, memory, words.up_to_one()?),
        Query::Injective => injective(alloc, memory, words.two_or_three()?),
        Query::Copy => copy(alloc, layouts, memory, words.two_or_three()?),
        Query::Means => means(alloc, current, words.three()?),
        Query::Record => record(alloc, current, memory, words.one_or_two()?),
        Query::Rest => rest(alloc, words.one()?),
        Query::Order => order(alloc, words.two()?),
        Query::Column => column(alloc, words.one()?),
        Query::Row => row(alloc, words.one()?),
        Query::Help => Ok(help(words.up_to_one()?)?),
    }
}

// What a command answers with the words behind its name, or why it is not obeyed; then both layouts stay.
#[tactic(auto, unfolding(crate::specs::Obeyed::run))]
fn run<'a>(
    alloc: Global,
    layouts: &mut Layouts,
    memory: &mut Memory,
    command: Command,
    texts: &'a [&'a [u8]],
) -> Result<Reply, Problem<'a>>
    ensures told { Gives (λ reply. record { text = reply_text reply; layouts = layouts_of layouts.new }) result
        (run (layouts_of layouts.old) command (map (λ text. text.now) texts.now)) }
    ensures memory { MemoryOnlyIf (asks_for_memory command (map (λ text. text.now) texts.now)) result }
    ensures kept { OnErr result (layouts.new ≡ layouts.old) }
{
    let words = Words {
        usage: command.usage(),
        texts,
    };
    match command {
        Command::Change(change) => {
            layouts.current = next_layout(alloc, &layouts.current, memory, change, words)?;
            Ok(Reply::Done)
        }
        Command::Hold => {
            words.none()?;
            layouts.held = layouts.current;
            Ok(Reply::Done)
        }
        Command::Query(query) => answer(alloc, layouts, memory, query, words),
    }
}

/// What a line of a name and words behind it answers, or why it is not obeyed; then both layouts stay.
#[tactic(auto, unfolding(crate::specs::Obeyed::obeyed))]
pub fn obey<'a>(
    alloc: Global,
    layouts: &mut Layouts,
    memory: &mut Memory,
    name: &'a [u8],
    texts: &'a [&'a [u8]],
) -> Result<Reply, Problem<'a>>
    ensures told { Gives (λ reply. record { text = reply_text reply; layouts = layouts_of layouts.new }) result
        (obeyed (layouts_of layouts.old) name.now (map (λ text. text.now) texts.now)) }
    ensures memory { MemoryOnlyIf (line_asks name.now (map (λ text. text.now) texts.now)) result }
    ensures kept { OnErr result (layouts.new ≡ layouts.old) }
{
    match Command::named(name) {
        Some(command) => run(alloc, layouts, memory, command, texts),
        None => Err(Fault::UnknownCommand(Word::new(1, name)).into()),
    }
}
