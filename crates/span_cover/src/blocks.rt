ghost use Rattle.std.specs.Prelude.{◌≡◌, ℕ, ◌+◌, ◌/◌, ◌^◌, ◌<◌, ◌≤◌, ◌≢◌, ◌↔◌, IsTrue, [], ◌∷◌};
ghost use Rattle.span_cover.specs.Cover.{has, IsTouched};

use base_fields::Span;

/// The blocks that have an offset of a span below `size`.
pub fn blocks_of(span: Span, size: u64, block: u32) -> Span
    requires nonzero { block ≢ 0 }
    requires bounded { span.at + span.len ≤ 2 ^ 44 }
    ensures exact { (b : ℕ) → IsTrue (has result b) ↔ IsTouched (span ∷ []) size block b }
    ensures bounded { result.at + result.len ≤ 2 ^ 44 }
{
    let end = size.min(span.at + span.len);
    if end <= span.at {
        return Span { at: 0, len: 0 };
    }
    let block = u64::from(block);
    let first = span.at / block;
    let last = (end - 1) / block;
    Span {
        at: first,
        len: last - first + 1,
    }
}
