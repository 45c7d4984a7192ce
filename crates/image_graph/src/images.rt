use base_fields::List;
use image_specs::ImageSpec;

/// What is built of a configuration.
#[derive(Debug, Drop)]
pub struct Graph {
    /// The number of each image in `specs`, those of its children first.
    pub order: List<u32>,
    /// One for each image that is built, in the order of the text.
    pub specs: List<ImageSpec>,
}

impl Graph {
    ghost use Rattle.std.specs.Prelude.{◌≡◌, ◌≤◌, length};
    ghost use Rattle.image_names.specs.Names.{number_of};
    ghost use Rattle.image_specs.specs.Specs.{spec_names};

    /// The number of the image of that name; None where none is built. Takes no memory.
    pub fn find(&self, name: &str) -> Option<u32>
        requires { length self.now.specs ≤ 64 }
        ensures { result ≡ number_of (spec_names self.now.specs) name.now }
    {
        let mut number = 0;
        for spec in self.specs.as_slice() {
            if name == spec.name.text() {
                return Some(number);
            }
            number += 1;
        }
        None
    }
}
