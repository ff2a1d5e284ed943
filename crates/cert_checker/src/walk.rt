//! Reading the squares of a tree in preorder.

ghost use Rattle.std.specs.Prelude.{◌≡◌, ◌<◌, [], ◌∷◌, length, slice_get};
ghost use Rattle.cert_checker.specs.Walking.{AreFew, CanStep, squares_after};

use dyadic_square::Square;
use std::marker::Model;

/// The squares of a tree that are still to come, as its squares are read in preorder. Its stack is
/// fixed: a tree has 37 levels at most, so at most 112 squares are to come.
#[derive(Drop)]
pub struct Walk {
    stack: [Square; 120],
    at: usize,
}

impl Model for Walk {
    ghost use Rattle.std.specs.Prelude.{◌≡◌, ◌≤◌, List, length, drop};
    ghost use Rattle.siting_definitions.specs.Square as squares;
    ghost use Rattle.cert_checker.specs.Walking.{AreFew};

    ghost Value = { List squares.Square };

    ghost view = { λ a. drop a.at a.stack };

    ghost invariant = { λ a. (length a.stack ≡ 120) × (a.at ≤ 120) × AreFew (drop a.at a.stack) };
}

impl Walk {
    /// The walk of a tree of this root: the root is to come.
    pub fn begin(root: Square) -> Walk
        ensures { result ≡ root ∷ [] }
    {
        // Shows that the level is at most 37.
        let _level = root.level;
        Walk {
            stack: [root; 120],
            at: 119,
        }
    }

    /// The square that comes next: none exactly where the tree is whole.
    pub fn coming(&self) -> Option<Square>
        ensures { result ≡ slice_get self.now 0 }
    {
        if self.at < 120 {
            Some(self.stack[self.at])
        } else {
            None
        }
    }

    /// Goes on past the square that comes next. Where it is split, its quarters come after it.
    pub fn step(&mut self, split: bool)
        requires { CanStep self.old split }
        ensures { self.new ≡ squares_after self.old split }
    {
        let square = self.pop();
        if split {
            self.push(square.quarter(3));
            self.push(square.quarter(2));
            self.push(square.quarter(1));
            self.push(square.quarter(0));
        }
    }

    /// Takes the next square off.
    fn pop(&mut self) -> Square
        requires { 0 < length self.old }
        ensures value { self.old ≡ result ∷ self.new }
        ensures few { AreFew self.old }
    {
        let square = self.stack[self.at];
        self.at += 1;
        square
    }

    /// Puts a square before those to come.
    fn push(&mut self, square: Square)
        requires { AreFew (square ∷ self.old) }
        ensures { self.new ≡ square ∷ self.old }
    {
        self.at -= 1;
        self.stack[self.at] = square;
    }
}
