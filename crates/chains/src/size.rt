//! How large a layer is.

/// How many changes a layer above the base has, and how many units are in their texts, of both sides.
#[derive(Clone, Copy, Debug, PartialEq, Eq)]
pub struct LayerSize {
    pub changes: u32,
    pub units: u64,
}
