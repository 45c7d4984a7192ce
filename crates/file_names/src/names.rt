ghost use Rattle.std.specs.Prelude.{◌≡◌, IfOk};
ghost use Rattle.file_names.specs.FullName.{full_name};

use base_fields::{Name, NoMemory};
use std::alloc::Global;

/// The full name of a file under a path. Takes memory.
pub fn full_name(alloc: Global, path: &str, name: &str) -> Result<Name, NoMemory>
    ensures { IfOk result (λ full. full ≡ full_name path.now name.now) }
{
    if name.starts_with('/') || path.is_empty() {
        return Name::of(alloc, name);
    }
    let mut full = String::from_str(alloc, path)?;
    if !path.ends_with('/') {
        full.push_str("/")?;
    }
    full.push_str(name)?;
    Ok(Name::from_string(full))
}
