// How many words of scratch a line lends: those that it names, or as many as are needed.
ghost use Rattle.std.specs.Prelude.{◌≡◌, Option};
ghost use Rattle.words.specs.Words.{Tells, numbered_if};
ghost use Rattle.commands.specs.Scratch.{words_given, words_lacking};

use view::layout::Refusal;
use words::fault::Fault;
use words::place::Word;
use words::spelled::Lent;

/// WORDS, if the line has them.
pub fn words_given<'a>(words: Option<Word<'a>>) -> Result<Option<usize>, Fault<'a>>
    ensures { Tells (λ words. words) result (words_given (numbered_if words.entry)) }
{
    let Some(word) = words else {
        return Ok(None);
    };
    let Lent(count) = word.one()?;
    Ok(Some(count))
}

/// How many words a second try is lent: as many as the first one, made with none, lacked, if WORDS is left out.
pub fn lacking<T>(words: Option<usize>, first: &Result<T, Refusal>) -> Option<usize>
    ensures { result ≡ words_lacking words first.now }
{
    match (words, first) {
        (None, Err(Refusal::ShortScratch(needed))) => Some(*needed),
        _ => None,
    }
}
