//! The sections of a configuration, two deep: what stands deeper has no meaning, and is counted alone.
ghost use Rattle.std.specs.Prelude.{◌≡◌, ◌+◌, ◌-◌, ◌<◌, ◌≤◌, ◌^◌, [], IfOk};
ghost use Rattle.conf_items.specs.Outline.{closed, deeper_of, opened, with_setting};

use crate::{Head, Setting};
use base_fields::{List, NoMemory};
use std::alloc::Global;

/// An item of a section that stands in a section at the top.
#[derive(Debug, Drop)]
pub enum InnerItem {
    Key(Setting),
    /// A section, whose own items have no meaning and aren't kept.
    Section(Head),
}

/// A section in a section at the top, with its items in order.
#[derive(Debug, Drop)]
pub struct Subsection {
    pub head: Head,
    pub items: List<InnerItem>,
}

/// An item of a section at the top.
#[derive(Debug, Drop)]
pub enum SectionItem {
    Key(Setting),
    Section(Subsection),
}

/// A section at the top, with its items in order.
#[derive(Debug, Drop)]
pub struct TopSection {
    pub head: Head,
    pub items: List<SectionItem>,
}

/// An item at the top.
#[derive(Debug, Drop)]
pub enum TopItem {
    Setting(Setting),
    Section(TopSection),
}

/// The sections that are open.
#[derive(Debug, Drop)]
pub enum OpenSections {
    Nothing,
    Outer(TopSection),
    /// A section in another, and how many are open inside of it.
    Inner {
        outer: TopSection,
        inner: Subsection,
        deeper: usize,
    },
}

/// What all texts up to here say.
#[derive(Debug, Drop)]
pub struct Outline {
    /// The items at the top that are whole.
    pub items: List<TopItem>,
    pub inside: OpenSections,
}

impl Outline {
    /// Nothing was read yet. Takes no memory.
    pub fn new(alloc: Global) -> Outline
        ensures { result ≡ record { items = []; inside = OpenSections.Nothing } }
    {
        Outline {
            items: List::new(alloc),
            inside: OpenSections::Nothing,
        }
    }

    /// With a setting in the innermost open section.
    pub fn add(self, setting: Setting) -> Result<Outline, NoMemory>
        ensures made { IfOk result (λ after. after ≡ with_setting self setting) }
        ensures deeper { IfOk result (λ after. deeper_of after ≡ deeper_of self) }
    {
        let Outline { mut items, inside } = self;
        let inside = match inside {
            OpenSections::Nothing => {
                items.push(TopItem::Setting(setting))?;
                OpenSections::Nothing
            }
            OpenSections::Outer(mut outer) => {
                outer.items.push(SectionItem::Key(setting))?;
                OpenSections::Outer(outer)
            }
            OpenSections::Inner {
                outer,
                mut inner,
                deeper,
            } => {
                if deeper == 0 {
                    inner.items.push(InnerItem::Key(setting))?;
                }
                OpenSections::Inner {
                    outer,
                    inner,
                    deeper,
                }
            }
        };
        Ok(Outline { items, inside })
    }

    /// With a section that begins in the innermost open one.
    pub fn begin(self, alloc: Global, head: Head) -> Result<Outline, NoMemory>
        requires { deeper_of self < 2 ^ 64 - 1 }
        ensures made { IfOk result (λ after. after ≡ opened self head) }
        ensures deeper { IfOk result (λ after. deeper_of after ≤ deeper_of self + 1) }
    {
        let Outline { items, inside } = self;
        let inside = match inside {
            OpenSections::Nothing => OpenSections::Outer(TopSection {
                head,
                items: List::new(alloc),
            }),
            OpenSections::Outer(outer) => OpenSections::Inner {
                outer,
                inner: Subsection {
                    head,
                    items: List::new(alloc),
                },
                deeper: 0,
            },
            OpenSections::Inner {
                outer,
                mut inner,
                deeper,
            } => {
                if deeper == 0 {
                    inner.items.push(InnerItem::Section(head))?;
                }
                OpenSections::Inner {
                    outer,
                    inner,
                    deeper: deeper + 1,
                }
            }
        };
        Ok(Outline { items, inside })
    }

    /// With the innermost open section ended, which keeps no more memory than its items take.
    pub fn end(self) -> Result<Outline, NoMemory>
        ensures made { IfOk result (λ after. after ≡ closed self) }
        ensures deeper { IfOk result (λ after. deeper_of after ≤ deeper_of self) }
    {
        let Outline { mut items, inside } = self;
        let inside = match inside {
            OpenSections::Nothing => OpenSections::Nothing,
            OpenSections::Outer(mut outer) => {
                outer.items.fit();
                items.push(TopItem::Section(outer))?;
                OpenSections::Nothing
            }
            OpenSections::Inner {
                mut outer,
                mut inner,
                deeper: 0,
            } => {
                inner.items.fit();
                outer.items.push(SectionItem::Section(inner))?;
                OpenSections::Outer(outer)
            }
            OpenSections::Inner {
                outer,
                inner,
                deeper,
            } => OpenSections::Inner {
                outer,
                inner,
                deeper: deeper - 1,
            },
        };
        Ok(Outline { items, inside })
    }
}
