ghost use Rattle.std.specs.Prelude.{◌≡◌, ℕ, ◌+◌, ◌^◌, ◌<◌, ◌≤◌, ◌≢◌, ◌↔◌, ◌++◌, ◌||◌, ◌&&◌, not, length, take, drop, IsTrue, OnOk, OnErr, All, AllPairs};
ghost use Rattle.std.specs.List.Sorted.{IsPartitionPoint};
ghost use Rattle.span_cover.specs.Cover.{AreApart, IsCover, HasMore, HasLess, Meets, covers, has};

use base_fields::{NoMemory, Span};

/// Adds a span's offsets to those of a cover's spans: the spans that it reaches or adjoins become one with it.
pub fn insert(spans: &mut Vec<Span>, span: Span) -> Result<(), NoMemory>
    requires cover { IsCover spans.old.items }
    requires bounded { span.at + span.len ≤ 2 ^ 44 }
    ensures cover { IsCover spans.new.items }
    ensures few { length spans.new.items ≤ length spans.old.items + 1 }
    ensures ok { OnOk result (HasMore spans.old.items span spans.new.items) }
    ensures err { OnErr result (spans.new.items ≡ spans.old.items) }
{
    if span.len == 0 {
        return Ok(());
    }
    let (from, to) = between(spans, span.at, span.at + span.len + 1);
    let whole = hull(&spans[from..to], span);
    replace(spans, from, to, &[whole])
}

/// Takes a span's offsets away from those of a cover's spans.
pub fn cut(spans: &mut Vec<Span>, span: Span) -> Result<(), NoMemory>
    requires cover { IsCover spans.old.items }
    requires bounded { span.at + span.len ≤ 2 ^ 44 }
    ensures cover { IsCover spans.new.items }
    ensures few { length spans.new.items ≤ length spans.old.items + 1 }
    ensures ok { OnOk result (HasLess spans.old.items span spans.new.items) }
    ensures err { OnErr result (spans.new.items ≡ spans.old.items) }
{
    if span.len == 0 {
        return Ok(());
    }
    let (from, to) = between(spans, span.at + 1, span.at + span.len);
    if from == to {
        return Ok(());
    }
    let sides = sides(&spans[from..to], span);
    replace(spans, from, to, filled(&sides))
}

/// Whether one of a cover's spans has an offset of this span.
pub fn meets(spans: &[Span], span: Span) -> bool
    requires cover { IsCover spans.now }
    requires bounded { span.at + span.len ≤ 2 ^ 44 }
    ensures { IsTrue result ↔ Meets spans.now span }
{
    let first = ending_before(spans, span.at + 1);
    if span.len == 0 || first == spans.len() {
        return false;
    }
    spans[first].at < span.at + span.len
}

/// The places from the first span of a cover that doesn't end before `low` to the first that doesn't begin before `high`.
fn between(spans: &[Span], low: u64, high: u64) -> (usize, usize)
    requires cover { IsCover spans.now }
    requires ordered { low ≤ high }
    ensures ordered { (result.0 ≤ result.1) × (result.1 ≤ length spans.now) }
    ensures low { IsPartitionPoint (λ span. span.at + span.len < low) (λ span. low ≤ span.at + span.len) spans.now result.0 }
    ensures high { IsPartitionPoint (λ span. span.at < high) (λ span. high ≤ span.at) spans.now result.1 }
{
    (ending_before(spans, low), beginning_before(spans, high))
}

/// How many spans of a cover end before an offset.
fn ending_before(spans: &[Span], at: u64) -> usize
    requires { IsCover spans.now }
    ensures bound { result ≤ length spans.now }
    ensures point { IsPartitionPoint (λ span. span.at + span.len < at) (λ span. at ≤ span.at + span.len) spans.now result }
{
    spans.partition_point(|span| span.at.saturating_add(span.len) < at)
}

/// How many spans of a cover begin before an offset.
fn beginning_before(spans: &[Span], at: u64) -> usize
    requires { IsCover spans.now }
    ensures bound { result ≤ length spans.now }
    ensures point { IsPartitionPoint (λ span. span.at < at) (λ span. at ≤ span.at) spans.now result }
{
    spans.partition_point(|span| span.at < at)
}

/// One span with the offsets of neighbours and of a span that reaches or adjoins each of them.
fn hull(near: &[Span], span: Span) -> Span
    requires cover { IsCover near.now }
    requires adjoin { All (λ x. (span.at ≤ x.at + x.len) × (x.at ≤ span.at + span.len)) near.now }
    requires filled { 0 < span.len }
    requires bounded { span.at + span.len ≤ 2 ^ 44 }
    ensures exact { (o : ℕ) → has result o ≡ (covers near.now o || has span o) }
    ensures filled { 0 < result.len }
{
    if near.is_empty() {
        return span;
    }
    let first = near[0];
    let last = near[near.len() - 1];
    let at = span.at.min(first.at);
    let end = (span.at + span.len).max(last.at + last.len);
    Span { at, len: end - at }
}

/// What of neighbours is left before and behind a span that meets each of them: either may be empty.
fn sides(met: &[Span], span: Span) -> [Span; 2]
    requires cover { IsCover met.now }
    requires some { 0 < length met.now }
    requires meet { All (λ x. (span.at < x.at + x.len) × (x.at < span.at + span.len)) met.now }
    requires filled { 0 < span.len }
    requires bounded { span.at + span.len ≤ 2 ^ 44 }
    ensures exact { (o : ℕ) → covers result o ≡ (covers met.now o && not (has span o)) }
    ensures apart { AllPairs (λ a b. a.at + a.len < b.at) result }
{
    let first = met[0];
    let last = met[met.len() - 1];
    let end = span.at + span.len;
    let before = Span {
        at: first.at,
        len: span.at.saturating_sub(first.at),
    };
    let behind = Span {
        at: end,
        len: (last.at + last.len).saturating_sub(end),
    };
    [before, behind]
}

/// Those of two spans that are not empty.
fn filled(sides: &[Span; 2]) -> &[Span]
    requires { AllPairs (λ a b. a.at + a.len < b.at) sides.now }
    ensures exact { (o : ℕ) → covers result.now o ≡ covers sides.now o }
    ensures apart { AreApart result.now }
    ensures few { length result.now ≤ 2 }
{
    match (sides[0].len, sides[1].len) {
        (0, 0) => &[],
        (0, _) => &sides[1..],
        (_, 0) => &sides[..1],
        _ => &sides[..],
    }
}

/// Puts spans in the place of those from `from` to `to`. Memory is taken first.
fn replace(spans: &mut Vec<Span>, from: usize, to: usize, by: &[Span]) -> Result<(), NoMemory>
    requires { (from ≤ to) × (to ≤ length spans.old.items) }
    ensures ok { OnOk result (spans.new.items ≡ take from spans.old.items ++ by.now ++ drop to spans.old.items) }
    ensures err { OnErr result (spans.new.items ≡ spans.old.items) }
{
    spans.extend_from_slice(by)?;
    rotate_from(spans, from, to - from);
    spans.truncate(spans.len() - (to - from));
    let kept = spans.len() - from - by.len();
    rotate_from(spans, from, kept);
    Ok(())
}

/// Moves so many spans, counted from `from` on, to the end.
fn rotate_from(spans: &mut [Span], from: usize, count: usize)
    requires { from + count ≤ length spans.old }
    ensures { spans.new ≡ take from spans.old ++ drop (from + count) spans.old ++ take count (drop from spans.old) }
{
    spans[from..].rotate_left(count);
}
