ghost use Rattle.std.specs.Prelude.{OnOk};
ghost use Rattle.image_names.specs.Checked.{IsChecked};
ghost use Rattle.image_names.specs.Stages.{Passes, section_fault};

use crate::GraphFault;
use crate::clashes::section_clash;
use crate::counts::{no_flash, no_kind, too_many};
use conf_keys::Conf;
use std::alloc::Global;

/// Refuses what sections alone are refused for, each over the whole configuration before the next:
/// too many images or partitions, an image of no kind or of several, a flash image without a flash
/// section, and two images, two flash sections or two partitions of one image with one name.
/// Takes memory.
pub fn check_sections(alloc: Global, conf: &Conf) -> Result<(), GraphFault>
    ensures passes { Passes (section_fault conf.now) result }

    // What is in no way refused keeps within the counts, and no two of its names are the same.
    ensures checked { OnOk result (IsChecked conf.now) }
{
    too_many(conf)?;
    no_kind(alloc, conf)?;
    no_flash(alloc, conf)?;
    section_clash(alloc, conf)?;
    Ok(())
}
