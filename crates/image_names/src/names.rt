ghost use Rattle.std.specs.Prelude.{◌≡◌, ℕ, ◌<◌, List, [], ◌∷◌, ◌++◌, not, map, length, string_bytes, IfOk, IfSome, OnOk, if◌then◌else◌};
ghost use Rattle.image_names.specs.Names.{HoldSame, holds, number_of};

use base_fields::NoMemory;
use indexmap::IndexSet;
use std::alloc::Global;
use std::marker::Model;

/// Different names with their numbers, in the order in which they were added.
#[derive(Drop)]
pub struct Names {
    set: IndexSet<String>,
}

impl Model for Names {
    ghost Value = { List (List ℕ) };

    ghost view = { λ n. map string_bytes n.set.keys };
}

impl Names {
    /// No name. Takes no memory.
    pub fn new(alloc: Global) -> Names
        ensures { result ≡ [] }
    {
        Names {
            set: IndexSet::new(alloc),
        }
    }

    /// The number of a name; None where it isn't there.
    pub fn number(&self, name: &str) -> Option<usize>
        ensures number { result ≡ number_of self.now name.now }
        ensures within { IfSome result (λ number. number < length self.now) }
    {
        self.set.get_index_of(name)
    }

    pub fn has(&self, name: &str) -> bool
        ensures { result ≡ holds self.now name.now }
    {
        self.set.contains(name)
    }

    /// Adds a name behind the others, unless it is there. Answers whether it was new. After an
    /// error nothing is known of the names.
    pub fn add(&mut self, alloc: Global, name: &str) -> Result<bool, NoMemory>
        ensures new { IfOk result (λ new. new ≡ not (holds self.old name.now)) }
        ensures names { IfOk result (λ new.
            self.new ≡ (if new then self.old ++ name.now ∷ [] else self.old)) }
        ensures same { OnOk result (HoldSame self.new (self.old ++ name.now ∷ [])) }
    {
        Ok(self.set.insert(String::from_str(alloc, name)?)?)
    }
}
