//! An image, from its items in order.
ghost use Rattle.std.specs.Prelude.{◌≡◌, ◌≤◌, IfOk, IsSome, length};
ghost use Rattle.conf_keys.specs.Sections.{Answers, answer, name_text, named_fault};
ghost use Rattle.conf_keys.specs.Within.{IsImageWithin};
ghost use Rattle.conf_keys.specs.Items.{top_keys};
ghost use Rattle.conf_sections.specs.Image.{counted, image_named, image_of, is_image_made};
ghost use Rattle.conf_sections.specs.Image.{is_made, is_partition, keyed, keys_of, kind_of};
ghost use Rattle.conf_sections.specs.Image.{makes, of_kind, origin_of, read_as, taken};
ghost use Rattle.conf_sections.specs.Image.{with_item, with_items, with_key, with_keys};
ghost use Rattle.conf_sections.specs.Image.{with_kind, with_partition, with_section};

use base_fields::{List, Name};
use conf_items::{Head, SectionItem, Setting, Subsection, TopSection};
use conf_keys::{
    HdKeys, ImageSection, Kind, PlainKeys, Section, SectionFault, SparseKeys, check_device,
    image_head_fault, image_keys, key_fault, name_text, read_hd, read_partition, read_plain,
    read_sparse,
};
use std::alloc::Global;

/// Where the file of an image comes from.
#[derive(Clone, Copy, Debug, PartialEq, Eq)]
pub(crate) enum Origin {
    /// It is made from the image's section, of which all is looked at.
    Made,
    /// It is made elsewhere, and the image's section is read for syntax alone.
    Ready,
}

impl Origin {
    // Whose keys those of the image itself are.
    fn keys(self) -> Section
        ensures { result ≡ keys_of self }
    {
        match self {
            Origin::Made => Section::Image,
            Origin::Ready => Section::Ready,
        }
    }
}

fn kind_of(word: &str) -> Kind
    ensures { result ≡ kind_of word.now }
{
    match word {
        "hdimage" => Kind::Hd,
        "flash" => Kind::Flash,
        "android-sparse" => Kind::Sparse,
        "file" => Kind::Plain,
        _ => Kind::Ready,
    }
}

fn is_made(kind: Kind) -> bool
    ensures { result ≡ is_made kind }
{
    kind != Kind::Ready
}

fn is_partition(inner: &Subsection) -> bool
    ensures { result ≡ is_partition inner.now }
{
    inner.head.word.text.text() == "partition"
}

fn makes(item: &SectionItem) -> bool
    ensures { result ≡ makes item.now }
{
    match item {
        SectionItem::Key(_) => false,
        SectionItem::Section(inner) => is_made(kind_of(inner.head.word.text.text())),
    }
}

fn is_image_made(items: &[SectionItem]) -> bool
    ensures { result ≡ is_image_made items.now }
{
    items.iter().any(makes)
}

fn origin_of(items: &[SectionItem]) -> Origin
    ensures { result ≡ origin_of items.now }
{
    if is_image_made(items) {
        Origin::Made
    } else {
        Origin::Ready
    }
}

// ---- a section inside

// The image with the keys of a section of that kind, or the section's first fault.
fn keyed(
    alloc: Global,
    mut image: ImageSection,
    inner: &Subsection,
    kind: Kind,
) -> Result<ImageSection, SectionFault>
    requires { IsImageWithin image }
    ensures answers { Answers (keyed image inner.now kind) result }
    ensures within { IfOk result IsImageWithin }
    ensures sparse { kind ≡ Kind.Sparse → IfOk result (λ after. IsSome after.sparse.image) }
{
    let items = inner.items.as_slice();
    match kind {
        Kind::Hd => {
            image.hd = read_hd(&inner.head, items)?;
            Ok(image)
        }
        Kind::Flash => match check_device(&inner.head, items) {
            Some(fault) => Err(fault),
            None => Ok(image),
        },
        Kind::Sparse => {
            image.sparse = read_sparse(alloc, &inner.head, items)?;
            Ok(image)
        }
        Kind::Plain => {
            image.plain = read_plain(alloc, &inner.head, items)?;
            Ok(image)
        }
        Kind::Ready => Ok(image),
    }
}

#[tactic(auto, using(crate::proofs::Growing::kind_within))]
fn of_kind(kind: Kind, mut image: ImageSection) -> Result<ImageSection, SectionFault>
    requires within { IsImageWithin image }
    requires sparse { kind ≡ Kind.Sparse → IsSome image.sparse.image }
    ensures answers { Answers (Ok (of_kind kind image)) result }
    ensures within { IfOk result IsImageWithin }
{
    image.kinds.push(kind)?;
    Ok(image)
}

fn with_kind(
    alloc: Global,
    image: ImageSection,
    inner: &Subsection,
    kind: Kind,
) -> Result<ImageSection, SectionFault>
    requires { IsImageWithin image }
    ensures answers { Answers (with_kind image inner.now kind) result }
    ensures within { IfOk result IsImageWithin }
{
    let after = keyed(alloc, image, inner, kind)?;
    Ok(of_kind(kind, after)?)
}

fn with_partition(
    alloc: Global,
    mut image: ImageSection,
    inner: &Subsection,
) -> Result<ImageSection, SectionFault>
    requires { IsImageWithin image }
    ensures answers { Answers (with_partition image inner.now) result }
    ensures within { IfOk result IsImageWithin }
{
    let keys = read_partition(alloc, &inner.head, inner.items.as_slice())?;
    image.parts.push(keys)?;
    Ok(image)
}

fn with_section(
    alloc: Global,
    image: ImageSection,
    inner: &Subsection,
) -> Result<ImageSection, SectionFault>
    requires { IsImageWithin image }
    ensures answers { Answers (with_section image inner.now) result }
    ensures within { IfOk result IsImageWithin }
{
    if is_partition(inner) {
        with_partition(alloc, image, inner)
    } else {
        with_kind(alloc, image, inner, kind_of(inner.head.word.text.text()))
    }
}

// A section inside of an image that is read for syntax alone.
fn counted(image: ImageSection, inner: &Subsection) -> Result<ImageSection, SectionFault>
    requires { IsImageWithin image }
    ensures answers { Answers (Ok (counted image inner.now)) result }
    ensures within { IfOk result IsImageWithin }
{
    if is_partition(inner) {
        Ok(image)
    } else {
        of_kind(Kind::Ready, image)
    }
}

fn taken(
    alloc: Global,
    origin: Origin,
    image: ImageSection,
    inner: &Subsection,
) -> Result<ImageSection, SectionFault>
    requires { IsImageWithin image }
    ensures answers { Answers (taken origin image inner.now) result }
    ensures within { IfOk result IsImageWithin }
{
    match origin {
        Origin::Made => with_section(alloc, image, inner),
        Origin::Ready => counted(image, inner),
    }
}

// ---- all items in order

fn with_key(
    origin: Origin,
    image: ImageSection,
    setting: &Setting,
) -> Result<ImageSection, SectionFault>
    requires { IsImageWithin image }
    ensures answers { result ≡ with_key origin image setting.now }
    ensures within { IfOk result IsImageWithin }
{
    match key_fault(origin.keys(), setting) {
        Some(fault) => Err(fault),
        None => Ok(image),
    }
}

fn with_item(
    alloc: Global,
    origin: Origin,
    image: ImageSection,
    item: &SectionItem,
) -> Result<ImageSection, SectionFault>
    requires { IsImageWithin image }
    ensures answers { Answers (with_item origin image item.now) result }
    ensures within { IfOk result IsImageWithin }
{
    match item {
        SectionItem::Key(setting) => with_key(origin, image, setting),
        SectionItem::Section(inner) => taken(alloc, origin, image, inner),
    }
}

fn with_items(
    alloc: Global,
    origin: Origin,
    mut image: ImageSection,
    items: &[SectionItem],
) -> Result<ImageSection, SectionFault>
    requires { IsImageWithin image }
    ensures answers { Answers (with_items origin items.now image) result }
    ensures within { IfOk result IsImageWithin }
{
    for item in items {
        image = with_item(alloc, origin, image, item)?;
    }
    Ok(image)
}

// ---- an image

// The name of an image, or the fault of its head.
fn name_of(alloc: Global, head: &Head) -> Result<Name, SectionFault>
    ensures answers { Answers (answer (named_fault head.now) (name_text head.now)) result }
    ensures within { IfOk result (λ name. 1 ≤ length name) }
{
    if let Some(fault) = image_head_fault(head) {
        return Err(fault);
    }
    let name = Name::of(alloc, name_text(head))?;
    Ok(name)
}

// An image with nothing but a name. Takes no memory.
fn image_named(alloc: Global, name: Name) -> ImageSection
    requires { 1 ≤ length name }
    ensures made { result ≡ image_named name }
    ensures within { IsImageWithin result }
{
    ImageSection {
        name,
        kinds: List::new(alloc),
        size: None,
        flashtype: None,
        hd: HdKeys::defaults(),
        sparse: SparseKeys::defaults(),
        plain: PlainKeys::defaults(),
        parts: List::new(alloc),
    }
}

fn with_keys(
    alloc: Global,
    origin: Origin,
    items: &[SectionItem],
    mut image: ImageSection,
) -> Result<ImageSection, SectionFault>
    requires { IsImageWithin image }
    ensures answers { Answers (Ok (with_keys origin (top_keys items.now) image)) result }
    ensures within { IfOk result IsImageWithin }
{
    match origin {
        Origin::Made => {
            let keys = image_keys(alloc, items)?;
            image.size = keys.size;
            image.flashtype = keys.flashtype;
            Ok(image)
        }
        Origin::Ready => Ok(image),
    }
}

// An image of that origin, or its first fault.
fn read_as(alloc: Global, origin: Origin, top: &TopSection) -> Result<ImageSection, SectionFault>
    ensures answers { Answers (read_as origin top.now) result }
    ensures within { IfOk result IsImageWithin }
{
    let name = name_of(alloc, &top.head)?;
    let items = top.items.as_slice();
    let whole = with_items(alloc, origin, image_named(alloc, name), items)?;
    Ok(with_keys(alloc, origin, items, whole)?)
}

/// An image, or its first fault: that of its name, and then those of its items in order.
/// Takes memory.
pub(crate) fn image_of(alloc: Global, top: &TopSection) -> Result<ImageSection, SectionFault>
    ensures answers { Answers (image_of top.now) result }
    ensures within { IfOk result IsImageWithin }
{
    read_as(alloc, origin_of(top.items.as_slice()), top)
}
