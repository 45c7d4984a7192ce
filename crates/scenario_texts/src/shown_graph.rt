//! How the images that are built are shown.
use base_fields::Name;
use conf_sections::Kind;
use image_graph::{Graph, GraphFault, ImageSpec, Source};
use std::fmt;

/// The images in their order: each with its kind, its full name, its flash device and its sources, where an image
/// that is a source is followed by its number in the order of the text.
#[derive(Clone, Copy, Debug)]
pub struct ShownGraph<'a>(pub &'a Graph);

impl fmt::Display for ShownGraph<'_> {
    fn fmt<W: fmt::Write>(&self, f: &mut fmt::Formatter<W>) -> fmt::Result {
        for number in self.0.order.as_slice() {
            if let Some(spec) = self.0.specs.get(*number as usize) {
                put_image(f, spec)?;
            }
        }
        Ok(())
    }
}

fn put_image<W: fmt::Write>(f: &mut fmt::Formatter<W>, spec: &ImageSpec) -> fmt::Result {
    f.write_str(" ")?;
    f.write_str(kind_word(spec.kind))?;
    f.write_str(" ")?;
    f.write_str(spec.full.text())?;
    if let Some(flash) = &spec.flash {
        f.write_str(" on ")?;
        f.write_str(flash.name.text())?;
    }
    f.write_str(":")?;
    for source in spec.sources.as_slice() {
        put_source(f, source)?;
    }
    f.write_str(";")
}

fn put_source<W: fmt::Write>(f: &mut fmt::Formatter<W>, source: &Source) -> fmt::Result {
    f.write_str(" ")?;
    f.write_str(match &source.file {
        Some(file) => file.text(),
        None => "-",
    })?;
    match source.child {
        Some(child) => write!(f, "#{child}"),
        None => Ok(()),
    }
}

/// The word for a kind of image.
pub fn kind_word(kind: Kind) -> &'static str {
    match kind {
        Kind::Hd => "hd",
        Kind::Flash => "flash",
        Kind::Sparse => "sparse",
        Kind::Plain => "file",
        Kind::Ready => "ready",
    }
}

/// Why no images are built.
#[derive(Clone, Copy, Debug)]
pub struct ShownRefusal<'a>(pub &'a GraphFault);

impl fmt::Display for ShownRefusal<'_> {
    fn fmt<W: fmt::Write>(&self, f: &mut fmt::Formatter<W>) -> fmt::Result {
        match self.0 {
            GraphFault::TooMany { count, limit } => {
                write!(f, "TooMany count={count} limit={limit}")
            }
            GraphFault::NoKind { image, count } => {
                put_named(f, "NoKind image", image)?;
                write!(f, " count={count}")
            }
            GraphFault::NoFlash { image } => put_named(f, "NoFlash image", image),
            GraphFault::NameClash { name } => put_named(f, "NameClash name", name),
            GraphFault::Cycle { name } => put_named(f, "Cycle name", name),
            GraphFault::NoMemory => f.write_str("NoMemory"),
        }
    }
}

/// A key and a name.
pub fn put_named<W: fmt::Write>(f: &mut fmt::Formatter<W>, key: &str, name: &Name) -> fmt::Result {
    f.write_str(key)?;
    f.write_str("=")?;
    f.write_str(name.text())
}
