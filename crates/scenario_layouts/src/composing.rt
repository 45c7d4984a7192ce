//! A step that makes an image by its layout.
ghost use Rattle.std.specs.Prelude.{◌≡◌, ◌≢◌, ◌⊎◌, IsTrue, Some};
ghost use Rattle.image_composer.specs.Images.{IsOwnFile};
ghost use Rattle.image_layout.specs.IsLayout.{IsLayout};
ghost use Rattle.scenario_layouts.specs.Plans.{IsPlan};

use crate::layout_steps::refusal_line;
use crate::planning::{Plan, plan_of};
use anyhow::{Result, bail};
use image_composer::compose;
use image_layout::{Layout, Placed};
use outside::ComposeFault;
use region_pool::Pool;
use scenario_words::Setting;

/// The bytes of the one buffer.
const BUFFER: u32 = 16_384;

/// Makes an image of a configuration, and says its file and its size.
pub fn make_image(setting: &mut Setting, conf: &str, image: &str) -> Result<String> {
    let plan = plan_of(setting, conf, image)?;
    made_of(setting, &plan)
}

fn made_of(setting: &mut Setting, plan: &Plan) -> Result<String>
    requires { IsPlan plan.now }
{
    match plan {
        Plan::Placed(layout) => made(setting, layout),
        Plan::Refused(fault) => refusal_line(setting.alloc, fault),
    }
}

fn made(setting: &mut Setting, layout: &Layout) -> Result<String>
    requires { IsLayout layout.now }
{
    if !is_own(layout) {
        bail!("the image is one of its own parts");
    }
    let alloc = setting.alloc;
    let mut pool = Pool::new(alloc, 0, 1, BUFFER)?;
    match compose(&mut setting.files, layout, &mut pool) {
        Ok(()) => {
            let file = layout.file.text();
            let size = layout.size;
            Ok(format!(in alloc; "made {file} size={size}")?)
        }
        Err(ComposeFault::Missing { part }) => {
            Ok(format!(in alloc; "not made: Missing part={part}")?)
        }
        Err(ComposeFault::SourceShort { part, at }) => {
            Ok(format!(in alloc; "not made: SourceShort part={part} at={at}")?)
        }
        Err(ComposeFault::FileFault) => bail!("the call failed"),
        Err(ComposeFault::NoMemory) => bail!("out of memory"),
    }
}

/// Whether no part of the image is its own file.
fn is_own(layout: &Layout) -> bool
    ensures { IsTrue result → IsOwnFile layout.now }
{
    for part in layout.parts.as_slice() {
        if is_from(part, layout.file.text()) {
            return false;
        }
    }
    true
}

fn is_from(part: &Placed, file: &str) -> bool
    ensures { IsTrue result ⊎ (part.now.source ≢ Some file.now) }
{
    match &part.source {
        Some(source) => source.text() == file,
        None => false,
    }
}
