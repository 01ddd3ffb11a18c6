// Lines answered in order, each before the next is awaited.
ghost use Rattle.std.specs.Prelude.{◌≡◌, ◌≢◌, [], map, string_bytes, OnOk, OnErr, IfOk, IfErr, IfSome, IsTrue, not};
ghost use Rattle.std.specs.Io.KnownBytes.{Appends};
ghost use Rattle.std.specs.List.{find};
ghost use Rattle.lines.specs.Lines.{AppendsFront, lines_of};
ghost use Rattle.words.specs.Words.{is_space};
ghost use Rattle.commands.specs.Layouts.{layouts_of};
ghost use Rattle.session.specs.Session.{begins_with, empty_layouts, text_of, no_fault, by_words, words_ask, by_length, is_silent, written_for, obeyed_for, lines_in, output_of, all_obeyed, Answers};

use crate::end::Ended;
use axis::Axis;
use commands::layouts::Layouts;
use commands::memory::Memory;
use commands::obey::obey;
use commands::reply::Reply;
use lines::failure::Failure;
use lines::line::Line;
use lines::mark::pass_mark;
use lines::write::write_front;
use std::alloc::{AllocError, Global};
use std::io::{BufRead, Read, Write};
use view::layout::{Layout, MOST_AXES, ReadingOffset};
use words::fault::{Fault, Problem};
use words::word::first_words;

// At the start both layouts are empty.
#[tactic(auto, unfolding(view::specs::Table::table))]
fn empty() -> Layouts
    ensures { layouts_of result ≡ empty_layouts }
{
    let none = Layout {
        len: 0,
        offset: ReadingOffset(0),
        rank: 1,
        axes: [Axis::NONE; MOST_AXES],
    };
    Layouts {
        current: none,
        held: none,
    }
}

// What a line is answered.
#[derive(Drop)]
enum Response<'a> {
    /// A blank line, or a comment.
    Nothing,
    Reply(Reply),
    Fault(Fault<'a>),
}

// Puts an answer in the place of a text, with a line feed.
fn print(text: &mut String, answer: Response) -> Result<(), AllocError>
    ensures text { OnOk result (string_bytes text.new ≡ text_of answer.entry) }
    ensures memory { OnErr result (text_of answer.entry ≢ []) }
{
    text.clear();
    match answer {
        Response::Nothing => Ok(()),
        Response::Reply(reply) => writeln!(text, "{reply}"),
        Response::Fault(fault) => writeln!(text, "{fault}"),
    }
}

// Whether a line whose first word is this one is a comment.
fn is_comment(name: &[u8]) -> bool
    ensures { result ≡ begins_with 35 name.now }
{
    name.first() == Some(&b'#')
}

// What the words of a line are answered.
#[tactic(auto, unfolding(crate::specs::Session::by_words))]
fn answer_words<'a>(
    alloc: Global,
    layouts: &mut Layouts,
    memory: &mut Memory,
    words: &'a [&'a [u8]],
) -> Result<Response<'a>, AllocError>
    ensures text { IfOk result (λ answer. text_of answer
        ≡ (by_words (layouts_of layouts.old) (map (λ word. word.now) words.now)).text) }
    ensures layouts { OnOk result (layouts_of layouts.new
        ≡ (by_words (layouts_of layouts.old) (map (λ word. word.now) words.now)).layouts) }
    ensures obeyed { IfOk result (λ answer. no_fault answer
        ≡ (by_words (layouts_of layouts.old) (map (λ word. word.now) words.now)).all_obeyed) }
    ensures memory { OnErr result (IsTrue (words_ask (map (λ word. word.now) words.now))) }
{
    let [name, texts @ ..] = words else {
        return Ok(Response::Nothing);
    };
    if is_comment(*name) {
        return Ok(Response::Nothing);
    }
    match obey(alloc, layouts, memory, *name, texts) {
        Ok(reply) => Ok(Response::Reply(reply)),
        Err(Problem::Told(fault)) => Ok(Response::Fault(fault)),
        Err(Problem::Memory) => Err(AllocError),
    }
}

// The first byte of a line that is no space.
fn first_of_words(line: &[u8]) -> Option<u8>
    ensures { result ≡ find (λ byte. not (is_space byte)) line.now }
{
    line.iter()
        .copied()
        .find(|byte| !(*byte == b' ' || *byte == b'\t'))
}

// Whether a line is seen to have no answer: its first byte that is no space is `#`, or there is none.
fn is_silent(line: &[u8]) -> bool
    ensures { result ≡ is_silent line.now }
{
    match first_of_words(line) {
        None => true,
        Some(byte) => byte == b'#',
    }
}

// Puts what a line is answered in the place of a text, and tells whether it is no fault. Most lines without an answer are seen
// at once, and no word of them is looked for.
#[tactic(auto, using(crate::proofs::Silent::silent))]
fn answer(
    alloc: Global,
    layouts: &mut Layouts,
    memory: &mut Memory,
    line: &Line,
    text: &mut String,
) -> Result<bool, AllocError>
    ensures text { OnOk result (string_bytes text.new
        ≡ (by_length (layouts_of layouts.old) line.now.is_long line.now.bytes.items).text) }
    ensures layouts { OnOk result (layouts_of layouts.new
        ≡ (by_length (layouts_of layouts.old) line.now.is_long line.now.bytes.items).layouts) }
    ensures obeyed { IfOk result (λ obeyed. obeyed
        ≡ (by_length (layouts_of layouts.old) line.now.is_long line.now.bytes.items).all_obeyed) }
    ensures memory { OnErr result
        ((by_length (layouts_of layouts.old) line.now.is_long line.now.bytes.items).text ≢ []) }
{
    if !line.is_long && is_silent(line.bytes.as_slice()) {
        text.clear();
        return Ok(true);
    }
    answer_fully(alloc, layouts, memory, line, text)
}

// The same, by the words of the line. It is a call of its own, so that a line without an answer pays for none of it.
#[inline(never)]
#[tactic(auto, using(crate::proofs::FirstWords::by_front, crate::proofs::FirstWords::asked_has_text))]
fn answer_fully(
    alloc: Global,
    layouts: &mut Layouts,
    memory: &mut Memory,
    line: &Line,
    text: &mut String,
) -> Result<bool, AllocError>
    ensures text { OnOk result (string_bytes text.new
        ≡ (by_length (layouts_of layouts.old) line.now.is_long line.now.bytes.items).text) }
    ensures layouts { OnOk result (layouts_of layouts.new
        ≡ (by_length (layouts_of layouts.old) line.now.is_long line.now.bytes.items).layouts) }
    ensures obeyed { IfOk result (λ obeyed. obeyed
        ≡ (by_length (layouts_of layouts.old) line.now.is_long line.now.bytes.items).all_obeyed) }
    ensures memory { OnErr result
        ((by_length (layouts_of layouts.old) line.now.is_long line.now.bytes.items).text ≢ []) }
{
    if line.is_long {
        print(text, Response::Fault(Fault::LongLine))?;
        return Ok(false);
    }
    let words = first_words(line.bytes.as_slice());
    let answer = answer_words(alloc, layouts, memory, words.as_slice())?;
    let obeyed = !matches!(&answer, Response::Fault(_));
    print(text, answer)?;
    Ok(obeyed)
}

// Answers the lines of a reader to its end, with no byte order mark in front of them.
fn answer_lines<R: BufRead, W: Write>(
    alloc: Global,
    input: &mut R,
    out: &mut W,
) -> Result<Ended, Failure>
    ensures whole { OnOk result (IfSome (R.remaining input.old) (λ bytes.
        Appends (W.contents out.old) (W.contents out.new) (written_for empty_layouts (lines_of bytes)))) }
    ensures front { IfSome (R.remaining input.old) (λ bytes.
        AppendsFront (W.contents out.old) (W.contents out.new) (written_for empty_layouts (lines_of bytes))) }
    ensures answers { IfErr result (λ why. IfSome (R.remaining input.old) (λ bytes.
        Answers why (W.contents out.old) (W.contents out.new) (lines_of bytes))) }
    ensures obeyed { IfOk result (λ ended. IfSome (R.remaining input.old) (λ bytes.
        ended.all_obeyed ≡ obeyed_for empty_layouts (lines_of bytes))) }
{
    let mut layouts = empty();
    let mut memory = Memory::new(alloc);
    let mut line = Line::new();
    let mut text = String::new(alloc);
    let mut all_obeyed = true;
    for _ in 0..u64::MAX {
        if !line.read(input, out)? {
            return Ok(Ended { all_obeyed });
        }
        all_obeyed &= answer(alloc, &mut layouts, &mut memory, &line, &mut text)?;
        match write_front(out, text.as_bytes()) {
            Ok(()) => {}
            Err(error) => return Err(Failure::Write(error)),
        }
        // No read follows the last line, which would write what the writer holds back.
        if line.is_last {
            out.flush().map_err(Failure::Write)?;
            return Ok(Ended { all_obeyed });
        }
    }
    Err(Failure::Endless)
}

/// Answers a reader's lines in order; a byte order mark at its start is passed over. What is written is a stated function of
/// what is read, and a front of that if something fails. Answers are written before the reader waits for more.
pub fn run<R: BufRead, W: Write>(
    alloc: Global,
    input: &mut R,
    out: &mut W,
) -> Result<Ended, Failure>
    ensures whole { OnOk result (IfSome (R.remaining input.old) (λ bytes.
        Appends (W.contents out.old) (W.contents out.new) (output_of bytes))) }
    ensures front { IfSome (R.remaining input.old) (λ bytes.
        AppendsFront (W.contents out.old) (W.contents out.new) (output_of bytes)) }
    ensures answers { IfErr result (λ why. IfSome (R.remaining input.old) (λ bytes.
        Answers why (W.contents out.old) (W.contents out.new) (lines_in bytes))) }
    ensures obeyed { IfOk result (λ ended. IfSome (R.remaining input.old) (λ bytes.
        ended.all_obeyed ≡ all_obeyed bytes)) }
{
    out.flush().map_err(Failure::Write)?;
    let start = pass_mark(input)?;
    let mut taken = start.taken;
    if start.is_end {
        return answer_lines(alloc, &mut taken, out);
    }
    answer_lines(alloc, &mut taken.chain(input), out)
}
