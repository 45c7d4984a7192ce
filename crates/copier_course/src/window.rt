ghost use Rattle.std.specs.Prelude.{◌≡◌, ◌+◌, ◌<◌, ◌≤◌, ◌++◌, ◌∷◌, [], length};

use std::marker::Model;

/// The numbers of the units of an open window, 16 at most, in order. Contracts see them as a list.
#[derive(Drop)]
pub struct Window {
    numbers: [u64; 16],
    count: usize,
}

impl Model for Window {
    ghost use Rattle.std.specs.Prelude.{ℕ, ◌≤◌, List, take};

    ghost Value = { List ℕ };

    ghost view = { λ w. take w.count w.numbers };

    ghost invariant = { λ w. w.count ≤ 16 };
}

impl Window {
    /// The window with no unit.
    pub fn new() -> Window
        ensures { result ≡ [] }
    {
        Window {
            numbers: [0; 16],
            count: 0,
        }
    }

    /// How many units there are.
    pub fn len(&self) -> usize
        ensures exact { result ≡ length self.now }
        ensures few { result ≤ 16 }
    {
        self.count
    }

    /// The numbers themselves.
    pub fn as_slice(&self) -> &[u64]
        ensures { result.now ≡ self.now }
    {
        &self.numbers[..self.count]
    }

    /// Adds a number at the end.
    pub fn push(&mut self, k: u64)
        requires { length self.old < 16 }
        ensures { self.new ≡ self.old ++ k ∷ [] }
    {
        self.numbers[self.count] = k;
        self.count += 1;
    }

    /// Takes all numbers out.
    pub fn clear(&mut self)
        ensures { self.new ≡ [] }
    {
        self.count = 0;
    }
}
