use chains::Chain;

/// What stands at a place: a text in layers, and its version.
#[derive(Drop)]
pub struct Versioned {
    pub(crate) layers: Chain,
    pub(crate) version: u64,
}
