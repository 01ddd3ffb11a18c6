//! The values that are returned with a refusal.
ghost use Rattle.std.specs.Prelude.{[], ◌∷◌, ◌≡◌, ◌≤◌};

/// The values that a refusal is returned with: the first `count` of two.
#[derive(Clone, Copy, Debug)]
pub struct Values {
    /// How many of them count.
    pub count: usize,
    /// The values in the first places; the others do not count.
    pub values: [usize; 2],
    ghost few: { count ≤ 2 },
}

impl Values {
    ghost use Rattle.view.specs.Answers.{listed};

    /// No value.
    pub(crate) fn none() -> Values
        ensures { listed result ≡ [] }
    {
        Values {
            count: 0,
            values: [0, 0],
        }
    }

    /// One value.
    pub(crate) fn one(value: usize) -> Values
        ensures { listed result ≡ value ∷ [] }
    {
        Values {
            count: 1,
            values: [value, 0],
        }
    }

    /// Two values.
    pub(crate) fn two(first: usize, second: usize) -> Values
        ensures { listed result ≡ first ∷ second ∷ [] }
    {
        Values {
            count: 2,
            values: [first, second],
        }
    }

    /// The values, in the order that the refusal names them.
    pub fn as_slice(&self) -> &[usize]
        ensures { result.now ≡ listed self.now }
    {
        &self.values[..self.count]
    }
}
