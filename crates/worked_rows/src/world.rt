//! What the steps of a scenario act on.
use scenario_devices::Devices;
use scenario_journals::Job;
use scenario_words::Setting;
use span_cover::Cover;
use std::alloc::Global;

/// The objects in memory.
#[derive(Debug, Drop)]
pub struct World {
    pub setting: Setting,
    pub cover: Cover,
    pub devices: Option<Devices>,
    pub job: Option<Job>,
}

impl World {
    /// None of them is there.
    pub fn new(alloc: Global) -> World {
        World {
            setting: Setting::new(alloc),
            cover: Cover::new(alloc),
            devices: None,
            job: None,
        }
    }
}
