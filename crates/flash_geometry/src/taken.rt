ghost use Rattle.std.specs.Prelude.{◌≡◌, ◌+◌, ◌^◌, ◌<◌, ◌≤◌, ◌∷◌, ◌++◌, [], IfOk, IfSome, length};
ghost use Rattle.std.specs.Prelude.{List as list_of};
ghost use Rattle.base_fields.specs.declared.spans.Span.{Span as span_of};
ghost use Rattle.flash_geometry.specs.Places.{last_end};
ghost use Rattle.flash_geometry.specs.Taken.{AreTaken, first_met, shares, within_most};

use base_fields::{NoMemory, Span};
use span_cover::Cover;
use std::alloc::Global;
use std::marker::Model;

/// No partition ends behind it.
const MOST_BYTES: u64 = 1 << 43;

/// What partitions stand on, each at 2^43 at most. Contracts see one span for each, in their order.
#[derive(Debug, Drop)]
pub struct Taken {
    spans: Vec<Span>,
    // Their offsets, in which a place is looked up in fewer steps than there are spans.
    cover: Cover,
    last: u64,
}

impl Model for Taken {
    ghost Value = { list_of span_of };

    ghost view = { λ t. t.spans.items };

    ghost invariant = { λ t. AreTaken t.spans.items t.cover t.last };
}

/// Whether an offset is in both.
fn shares(a: Span, b: Span) -> bool
    ensures { result ≡ shares a b }
{
    b.at.saturating_sub(a.at) < a.len && a.at.saturating_sub(b.at) < b.len
}

/// What of a span lies below 2^43.
fn within_most(span: Span) -> Span
    requires { span.at ≤ 2 ^ 44 }
    ensures exact { result ≡ within_most span }
    ensures bounded { result.at + result.len ≤ 2 ^ 44 }
{
    Span {
        at: span.at,
        len: span.len.min(MOST_BYTES.saturating_sub(span.at)),
    }
}

/// The number of the first of these that shares an offset with a span.
fn first_among(spans: &[Span], span: Span) -> Option<usize>
    ensures { result ≡ first_met spans.now span }
{
    spans.iter().position(|earlier| shares(span, *earlier))
}

impl Taken {
    /// Nothing is taken. Takes no memory.
    pub fn new(alloc: Global) -> Taken
        ensures { result ≡ [] }
    {
        Taken {
            spans: Vec::new(alloc),
            cover: Cover::new(alloc),
            last: 0,
        }
    }

    /// The greatest end of these.
    pub fn last_end(&self) -> u64
        ensures exact { result ≡ last_end self.now }
        ensures bounded { result ≤ 2 ^ 43 }
    {
        self.last
    }

    /// Each of these, in order.
    pub fn spans(&self) -> &[Span]
        ensures { result.now ≡ self.now }
    {
        self.spans.as_slice()
    }

    /// The number of the first of these that shares an offset with a span.
    pub fn first_met(&self, span: Span) -> Option<usize>
        requires { (span.at ≤ 2 ^ 44) × (span.len ≤ 2 ^ 44) }
        ensures exact { result ≡ first_met self.now span }
        ensures known { IfSome result (λ k. k < length self.now) }
    {
        if !self.cover.meets(within_most(span)) {
            return None;
        }
        first_among(self.spans.as_slice(), span)
    }

    /// These and one more.
    pub fn with(self, span: Span) -> Result<Taken, NoMemory>
        requires { span.at + span.len ≤ 2 ^ 43 }
        ensures { IfOk result (λ more. more ≡ self ++ span ∷ []) }
    {
        let Taken {
            mut spans,
            mut cover,
            last,
        } = self;
        cover.add(span)?;
        spans.push(span)?;
        Ok(Taken {
            spans,
            cover,
            last: last.max(span.at + span.len),
        })
    }
}
