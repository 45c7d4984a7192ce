//! The items with a value.
ghost use Rattle.std.specs.Prelude.{◌≡◌, ◌+◌, ◌^◌, ◌<◌, ◌≤◌, IfSome, length};
ghost use Rattle.bmap_grammar.specs.Items.{bare_head, block_size_at, blocks_count_at, blocks_in, count_at, digest_head};
ghost use Rattle.bmap_grammar.specs.Items.{digest_in, element_at, image_size_at, mapped_count_at, number_at, range_at};
ghost use Rattle.bmap_grammar.specs.Items.{range_behind, spaced_sum, start_at, start_item, sum_at, type_at, type_item};
ghost use Rattle.bmap_grammar.specs.Text.{or_next};
ghost use Rattle.bmap_lexer.specs.Within.{FitsIn, HasRoom, IsFrom, IsWithin};

use crate::marks::{spaces, tag_length};
use crate::tags::tag_with;
use crate::values::{blocks, digest, element_of, moved, number, value_in, valued};
use block_map::Range;
use bmap_grammar::{Field, Head, Held, Item, Piece};

// An element whose value is a number.
fn number_at(text: &[u8], field: Field, opening: &[u8], closing: &[u8]) -> Option<Piece>
    requires { 0 < length opening.now }
    ensures there { result ≡ number_at field opening.now closing.now text.now }
    ensures within { IfSome result (FitsIn text.now) }
{
    let held = element_of(text, opening, closing)?;
    let n = number(value_in(text, &held))?;
    Some(Piece {
        item: Item::Number(field, n),
        len: held.len,
    })
}

#[tactic(auto, unfolding(bmap_grammar::specs::Items::image_size_at))]
fn image_size(text: &[u8]) -> Option<Piece>
    ensures there { result ≡ image_size_at text.now }
    ensures within { IfSome result (FitsIn text.now) }
{
    number_at(text, Field::ImageSize, b"<ImageSize", b"</ImageSize")
}

#[tactic(auto, unfolding(bmap_grammar::specs::Items::block_size_at))]
fn block_size(text: &[u8]) -> Option<Piece>
    ensures there { result ≡ block_size_at text.now }
    ensures within { IfSome result (FitsIn text.now) }
{
    number_at(text, Field::BlockSize, b"<BlockSize", b"</BlockSize")
}

#[tactic(auto, unfolding(bmap_grammar::specs::Items::blocks_count_at))]
fn blocks_count(text: &[u8]) -> Option<Piece>
    ensures there { result ≡ blocks_count_at text.now }
    ensures within { IfSome result (FitsIn text.now) }
{
    number_at(text, Field::BlocksCount, b"<BlocksCount", b"</BlocksCount")
}

#[tactic(auto, unfolding(bmap_grammar::specs::Items::mapped_count_at))]
fn mapped_count(text: &[u8]) -> Option<Piece>
    ensures there { result ≡ mapped_count_at text.now }
    ensures within { IfSome result (FitsIn text.now) }
{
    number_at(
        text,
        Field::MappedBlocksCount,
        b"<MappedBlocksCount",
        b"</MappedBlocksCount",
    )
}

fn type_item(name: &[u8]) -> Item
    ensures there { result ≡ type_item name.now }
{
    if name == b"sha256".as_slice() {
        Item::ChecksumType
    } else {
        Item::OtherType
    }
}

// The element that names the digest.
#[tactic(auto, unfolding(bmap_grammar::specs::Items::type_at))]
fn type_at(text: &[u8]) -> Option<Piece>
    ensures there { result ≡ type_at text.now }
    ensures within { IfSome result (FitsIn text.now) }
{
    let held = element_of(text, b"<ChecksumType", b"</ChecksumType")?;
    Some(Piece {
        item: type_item(value_in(text, &held)),
        len: held.len,
    })
}

// The element with the text's sum.
#[tactic(auto, unfolding(bmap_grammar::specs::Items::sum_at))]
fn sum_at(text: &[u8]) -> Option<Piece>
    ensures there { result ≡ sum_at text.now }
    ensures within { IfSome result (FitsIn text.now) }
{
    let held = element_of(text, b"<BmapFileChecksum", b"</BmapFileChecksum")?;
    let digest = digest(value_in(text, &held))?;
    Some(Piece {
        item: Item::Checksum(held.at, digest),
        len: held.len,
    })
}

fn start_item(version: &[u8]) -> Item
    ensures there { result ≡ start_item version.now }
{
    if version == b"2.0".as_slice() {
        Item::Start
    } else {
        Item::OtherStart
    }
}

/// The opening tag of a document.
#[tactic(auto, unfolding(bmap_grammar::specs::Items::start_at))]
pub(crate) fn start(text: &[u8]) -> Option<Piece>
    ensures there { result ≡ start_at text.now }
    ensures within { IfSome result (FitsIn text.now) }
{
    let held = tag_with(text, b"<bmap version")?;
    Some(Piece {
        item: start_item(value_in(text, &held)),
        len: held.len,
    })
}

// The opening tag of a range without a digest.
#[tactic(auto, unfolding(bmap_grammar::specs::Items::bare_head))]
fn bare_head(text: &[u8]) -> Option<Head>
    ensures there { result ≡ bare_head text.now }
    ensures within { IfSome result (λ h. (0 < h.len) × (h.len ≤ length text.now)) }
{
    let len = tag_length(text, b"<Range")?;
    Some(Head { digest: None, len })
}

// White space, and the attribute of a range.
fn spaced_sum(text: &[u8]) -> Option<Held>
    ensures there { result ≡ spaced_sum text.now }
    ensures within { IfSome result (IsWithin text.now) }
{
    let space = spaces(text);
    if space == 0 {
        return None;
    }
    let held = tag_with(text.split_at(space).1, b"chksum")?;
    Some(moved(space, held))
}

// The opening tag of a range with a digest.
#[tactic(auto, unfolding(bmap_grammar::specs::Items::digest_head))]
fn digest_head(text: &[u8]) -> Option<Head>
    ensures there { result ≡ digest_head text.now }
    ensures within { IfSome result (λ h. (0 < h.len) × (h.len ≤ length text.now)) }
{
    if !text.starts_with(b"<Range") {
        return None;
    }
    let held = moved(6, spaced_sum(text.split_at(6).1)?);
    let digest = digest(value_in(text, &held))?;
    Some(Head {
        digest: Some(digest),
        len: held.len,
    })
}

// The opening tag of a range.
fn head(text: &[u8]) -> Option<Head>
    ensures there { result ≡ or_next (bare_head text.now) (digest_head text.now) }
    ensures within { IfSome result (λ h. (0 < h.len) × (h.len ≤ length text.now)) }
{
    match bare_head(text) {
        Some(head) => Some(head),
        None => digest_head(text),
    }
}

// The blocks of a range and its closing tag, behind its opening tag.
#[tactic(auto, unfolding(bmap_grammar::specs::Items::range_behind))]
fn range_behind(text: &[u8], head: Head) -> Option<Piece>
    requires some { 0 < head.len }
    requires fits { head.len + length text.now < 2 ^ 64 }
    ensures there { result ≡ range_behind text.now head }
    ensures within { IfSome result (λ p. (0 < p.len) × (p.len ≤ head.len + length text.now) × HasRoom p.len p.item) }
{
    let held = valued(text, b"</Range")?;
    let (first, last) = blocks(value_in(text, &held))?;
    let range = Range {
        first,
        last,
        digest: head.digest,
    };
    Some(Piece {
        item: Item::Range(range),
        len: head.len + held.len,
    })
}

// A range.
fn range(text: &[u8]) -> Option<Piece>
    ensures there { result ≡ range_at text.now }
    ensures within { IfSome result (FitsIn text.now) }
{
    let head = head(text)?;
    range_behind(text.split_at(head.len).1, head)
}

// An element whose value is a number.
fn count(text: &[u8]) -> Option<Piece>
    ensures there { result ≡ count_at text.now }
    ensures within { IfSome result (FitsIn text.now) }
{
    if let Some(piece) = image_size(text) {
        return Some(piece);
    }
    if let Some(piece) = block_size(text) {
        return Some(piece);
    }
    match blocks_count(text) {
        Some(piece) => Some(piece),
        None => mapped_count(text),
    }
}

/// An item with a value.
pub(crate) fn element(text: &[u8]) -> Option<Piece>
    ensures there { result ≡ element_at text.now }
    ensures within { IfSome result (FitsIn text.now) }
{
    if let Some(piece) = range(text) {
        return Some(piece);
    }
    if let Some(piece) = count(text) {
        return Some(piece);
    }
    match type_at(text) {
        Some(piece) => Some(piece),
        None => sum_at(text),
    }
}
