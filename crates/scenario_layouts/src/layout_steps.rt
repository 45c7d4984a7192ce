//! Steps on layouts.
ghost use Rattle.image_layout.specs.IsLayout.{IsLayout};
ghost use Rattle.scenario_layouts.specs.Plans.{IsPlan};

use crate::composing::make_image;
use crate::planning::{Plan, plan_of};
use crate::shown_layout::ShownLayout;
use crate::shown_refusal::ShownPlaceFault;
use anyhow::Result;
use image_layout::Layout;
use placement::PlaceFault;
use scenario_words::{Arguments, Setting};
use std::alloc::Global;

/// A step on the layout of an image.
#[derive(Debug, Drop)]
pub enum LayoutStep {
    /// The layout of an image of a configuration.
    Layout { conf: String, image: String },
    /// The offsets that the layout covers.
    Covered { conf: String, image: String },
    /// Makes the image.
    Compose { conf: String, image: String },
}

impl LayoutStep {
    /// The step of a verb, where it is one of these.
    pub fn read(verb: &str, words: &mut Arguments) -> Result<Option<LayoutStep>> {
        let step = match verb {
            "layout" => LayoutStep::Layout {
                conf: words.text("a file")?,
                image: words.text("an image")?,
            },
            "covered" => LayoutStep::Covered {
                conf: words.text("a file")?,
                image: words.text("an image")?,
            },
            "compose" => LayoutStep::Compose {
                conf: words.text("a file")?,
                image: words.text("an image")?,
            },
            _ => return Ok(None),
        };
        Ok(Some(step))
    }

    /// Does it, and says what came of it.
    pub fn play(self, setting: &mut Setting) -> Result<String> {
        match self {
            LayoutStep::Layout { conf, image } => show_layout(setting, &conf, &image),
            LayoutStep::Covered { conf, image } => show_covered(setting, &conf, &image),
            LayoutStep::Compose { conf, image } => make_image(setting, &conf, &image),
        }
    }
}

fn show_layout(setting: &mut Setting, conf: &str, image: &str) -> Result<String> {
    let plan = plan_of(setting, conf, image)?;
    layout_line(setting.alloc, &plan)
}

fn layout_line(alloc: Global, plan: &Plan) -> Result<String> {
    match plan {
        Plan::Placed(layout) => {
            let shown = ShownLayout(layout);
            Ok(format!(in alloc; "layout {shown}")?)
        }
        Plan::Refused(fault) => refusal_line(alloc, fault),
    }
}

/// The line of an image that isn't placed.
pub fn refusal_line(alloc: Global, fault: &PlaceFault) -> Result<String> {
    let shown = ShownPlaceFault(fault);
    Ok(format!(in alloc; "no layout: {shown}")?)
}

fn show_covered(setting: &mut Setting, conf: &str, image: &str) -> Result<String> {
    let plan = plan_of(setting, conf, image)?;
    covered_in(setting.alloc, &plan)
}

fn covered_in(alloc: Global, plan: &Plan) -> Result<String>
    requires { IsPlan plan.now }
{
    match plan {
        Plan::Placed(layout) => covered_line(alloc, layout),
        Plan::Refused(fault) => refusal_line(alloc, fault),
    }
}

/// Each span of the cover as its place and its length.
fn covered_line(alloc: Global, layout: &Layout) -> Result<String>
    requires { IsLayout layout.now }
{
    let cover = layout.covered(alloc)?;
    let mut line = String::from_str(alloc, "covered")?;
    for span in cover.spans() {
        let at = span.at;
        let len = span.len;
        write!(line, " {at}+{len}")?;
    }
    Ok(line)
}
