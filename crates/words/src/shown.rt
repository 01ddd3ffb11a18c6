// Which characters an error shows as they are, and how it shows the others.
ghost use Rattle.std.specs.Prelude.{◌≡◌};
ghost use Rattle.words.specs.Shown.{takes_a_column, is_seen};

use std::fmt;
use ucd_category::{GeneralCategory, GeneralCategoryGroup};
use unicode_width::UnicodeWidthChar;

// Whether a character fills a place of its own in a line.
#[tactic(auto, unfolding(crate::specs::Shown::takes_a_column))]
fn takes_a_column(c: char) -> bool
    ensures { result ≡ takes_a_column c }
{
    c.width().is_some_and(|columns| columns > 0)
}

// Whether a reader of a line sees a character where it stands.
#[tactic(auto, unfolding(crate::specs::Shown::is_seen))]
fn is_seen(c: char) -> bool
    ensures { result ≡ is_seen c }
{
    let category = GeneralCategory::for_char(c);
    takes_a_column(c)
        && !GeneralCategoryGroup::Other.contains(category)
        && !GeneralCategoryGroup::Separator.contains(category)
}

/// A character as an error shows it: itself, or its number if it cannot be seen.
#[derive(Clone, Copy)]
pub struct Shown(pub char);

#[tactic(auto, unfolding(crate::specs::Shown::shown))]
impl fmt::Display for Shown {
    ghost use Rattle.std.specs.Prelude.{Some};
    ghost use Rattle.words.specs.Shown.{shown};

    ghost output = { λ c. Some (shown c.0) };

    fn fmt<W: fmt::Write>(&self, f: &mut fmt::Formatter<W>) -> fmt::Result {
        if is_seen(self.0) {
            return f.write_char(self.0);
        }
        for part in self.0.escape_unicode() {
            f.write_char(part)?;
        }
        Ok(())
    }
}
