//! Lists as they are printed, and the front of a list.
ghost use Rattle.std.specs.Prelude.{◌≡◌, take};

use std::fmt;

/// As many of the first entries as a number says, or all.
pub fn first<T>(count: usize, list: &[T]) -> &[T]
    ensures { result.now ≡ take count list.now }
{
    &list[..count.min(list.len())]
}

/// What prints as a text that contracts name.
pub trait Entry: fmt::Display + Copy {
    ghost use Rattle.std.specs.Prelude.{List, ℕ, Some};

    ghost text: { Self → List ℕ };

    ghost prints: { (entry : Self) → Self.output entry ≡ Some (text entry) };
}

impl Entry for u64 {
    ghost use Rattle.std.specs.Prelude.{refl};
    ghost use Rattle.std.specs.Fmt.{decimal};

    ghost text = { decimal };

    ghost prints = { λ _. refl };
}

impl Entry for usize {
    ghost use Rattle.std.specs.Prelude.{refl};
    ghost use Rattle.std.specs.Fmt.{decimal};

    ghost text = { decimal };

    ghost prints = { λ _. refl };
}

impl Entry for i32 {
    ghost use Rattle.std.specs.Prelude.{refl};
    ghost use Rattle.std.specs.Fmt.{signed_decimal};

    ghost text = { signed_decimal };

    ghost prints = { λ _. refl };
}

impl Entry for i64 {
    ghost use Rattle.std.specs.Prelude.{refl};
    ghost use Rattle.std.specs.Fmt.{signed_decimal};

    ghost text = { signed_decimal };

    ghost prints = { λ _. refl };
}

/// Entries with a text between each two.
#[derive(Clone, Copy)]
pub struct Joined<'a, T> {
    pub between: &'static str,
    pub entries: &'a [T],
}

#[tactic(auto, unfolding(crate::specs::Printed::joined))]
impl<'a, T: Entry> fmt::Display for Joined<'a, T> {
    ghost use Rattle.std.specs.Prelude.{Some};
    ghost use Rattle.view.specs.Printed.{joined};

    ghost output = { λ list. Some (joined list.between.now T.text list.entries.now) };

    fn fmt<W: fmt::Write>(&self, f: &mut fmt::Formatter<W>) -> fmt::Result {
        let Some((first, others)) = self.entries.split_first() else {
            return Ok(());
        };
        write!(f, "{first}")?;
        for entry in others {
            write!(f, "{}{entry}", self.between)?;
        }
        Ok(())
    }
}

/// Entries joined by commas; `-` for none.
#[derive(Clone, Copy)]
pub struct List<'a, T>(pub &'a [T]);

#[tactic(auto, unfolding(crate::specs::Printed::list_text))]
impl<'a, T: Entry> fmt::Display for List<'a, T> {
    ghost use Rattle.std.specs.Prelude.{Some};
    ghost use Rattle.view.specs.Printed.{list_text};

    ghost output = { λ list. Some (list_text T.text list.0.now) };

    fn fmt<W: fmt::Write>(&self, f: &mut fmt::Formatter<W>) -> fmt::Result {
        if self.0.is_empty() {
            return f.write_str("-");
        }
        let joined = Joined {
            between: ",",
            entries: self.0,
        };
        write!(f, "{joined}")
    }
}
