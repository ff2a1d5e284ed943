//! The words after the program's name.

ghost use Rattle.std.specs.Prelude.{◌≡◌, ◌==◌, ◌<◌, ◌++◌, [], ◌∷◌};
ghost use Rattle.std.specs.Prelude.{length, OnOk, OnErr, slice_index_or};

use std::alloc::Global;
use std::marker::Model;

/// No memory was found.
#[derive(Clone, Copy, Debug, PartialEq, Eq)]
pub struct NoMemory;

/// The words after the program's name, each a list of bytes.
#[derive(Drop)]
pub struct Argv {
    alloc: Global,
    words: Vec<Vec<u8>>,
}

impl Model for Argv {
    ghost use Rattle.std.specs.Prelude.{List, ℕ, map};

    ghost Value = { List (List ℕ) };

    ghost view = { λ a. map (λ word. word.items) a.words.items };
}

impl Argv {
    /// No words. The allocator serves the words that are added.
    pub fn new(alloc: Global) -> Argv
        ensures { result ≡ [] }
    {
        Argv {
            alloc,
            words: Vec::new(alloc),
        }
    }

    /// Adds a word last. After `NoMemory` the words are as before.
    pub fn push(&mut self, word: &str) -> Result<(), NoMemory>
        ensures ok { OnOk result (self.new ≡ self.old ++ word.now ∷ []) }
        ensures err { OnErr result (self.new ≡ self.old) }
    {
        let Ok(bytes) = Vec::from_slice(self.alloc, word.as_bytes()) else {
            return Err(NoMemory);
        };
        match self.words.push(bytes) {
            Ok(()) => Ok(()),
            Err(_) => Err(NoMemory),
        }
    }

    /// How many words there are.
    pub fn len(&self) -> usize
        ensures { result ≡ length self.now }
    {
        self.words.len()
    }

    /// Whether there are no words.
    pub fn is_empty(&self) -> bool
        ensures { result ≡ (length self.now == 0) }
    {
        self.words.is_empty()
    }

    /// Word `i`, from 0.
    pub fn word(&self, i: usize) -> &[u8]
        requires { i < length self.now }
        ensures { result.now ≡ slice_index_or self.now i [] }
    {
        self.words[i].as_slice()
    }
}
