use net_names::Name;

/// A link of the device, by its name and its index.
#[derive(Clone, Copy, Debug, PartialEq, Eq)]
pub struct Link {
    pub name: Name,
    pub index: u16,
}
