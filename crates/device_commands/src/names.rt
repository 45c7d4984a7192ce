use base_fields::Name;

/// The names under which a command attaches the devices that it uses.
#[derive(Debug, Drop)]
pub struct DeviceNames {
    pub target: Option<Name>,
    pub journal: Option<Name>,
}
