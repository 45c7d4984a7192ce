ghost use Rattle.std.specs.Prelude.{◌≡◌, ℕ, ◌+◌, ◌^◌, ◌<◌, ◌≤◌, ◌≢◌, ◌↔◌, IsTrue, OnOk, OnErr, IfOk, [], length};
ghost use Rattle.std.specs.Prelude.{List as list_of};
ghost use Rattle.base_fields.specs.declared.spans.Span.{Span as span_of};
ghost use Rattle.span_cover.specs.Cover.{AreApart, IsCover, covers, HasMore, HasLess, Meets, AreTouchedRuns};

use crate::blocks::blocks_of;
use crate::places::{cut, insert, meets};
use base_fields::{List, NoMemory, Span};
use std::alloc::Global;
use std::marker::Model;

/// A set of offsets, whose spans end at 2^44 at most. Contracts see it as the list of its spans: they are not empty,
/// they ascend, and between neighbours there is a gap, so that a set has one list.
#[derive(Debug, Drop)]
pub struct Cover {
    spans: Vec<Span>,
}

impl Model for Cover {
    ghost Value = { list_of span_of };

    ghost view = { λ c. c.spans.items };

    ghost invariant = { λ c. IsCover c.spans.items };
}

impl Cover {
    /// The empty set, which grows by this allocator. Takes no memory.
    pub fn new(alloc: Global) -> Cover
        ensures { result ≡ [] }
    {
        Cover {
            spans: Vec::new(alloc),
        }
    }

    /// The spans in order: the one list of this set whose spans are not empty and have gaps between them.
    pub fn spans(&self) -> &[Span]
        ensures value { result.now ≡ self.now }
        ensures cover { IsCover self.now }
        ensures only { (other : list_of span_of) → AreApart other → ((o : ℕ) → covers other o ≡ covers self.now o) → other ≡ self.now }
    {
        self.spans.as_slice()
    }

    /// Adds the offsets of a span.
    pub fn add(&mut self, span: Span) -> Result<(), NoMemory>
        requires { span.at + span.len ≤ 2 ^ 44 }
        ensures ok { OnOk result (HasMore self.old span self.new) }
        ensures few { length self.new ≤ length self.old + 1 }
        ensures err { OnErr result (self.new ≡ self.old) }
    {
        insert(&mut self.spans, span)
    }

    /// Takes the offsets of a span away.
    pub fn take_out(&mut self, span: Span) -> Result<(), NoMemory>
        requires { span.at + span.len ≤ 2 ^ 44 }
        ensures ok { OnOk result (HasLess self.old span self.new) }
        ensures few { length self.new ≤ length self.old + 1 }
        ensures err { OnErr result (self.new ≡ self.old) }
    {
        cut(&mut self.spans, span)
    }

    /// Whether the set has an offset of the span. Takes no memory.
    pub fn meets(&self, span: Span) -> bool
        requires { span.at + span.len ≤ 2 ^ 44 }
        ensures { IsTrue result ↔ Meets self.now span }
    {
        meets(self.spans.as_slice(), span)
    }

    /// The maximal runs of blocks that have an offset of the set below `size`, in order, each as its first block and
    /// their count. `block` is the size of a block.
    pub fn runs(&self, alloc: Global, size: u64, block: u32) -> Result<List<Span>, NoMemory>
        requires { block ≢ 0 }
        ensures touched { IfOk result (λ runs. AreTouchedRuns self.now size block runs) }
        ensures few { IfOk result (λ runs. length runs ≤ length self.now) }
    {
        let mut runs = Vec::new(alloc);
        for span in &self.spans {
            insert(&mut runs, blocks_of(*span, size, block))?;
        }
        Ok(List::from_vec(runs))
    }
}
