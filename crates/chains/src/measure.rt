//! The size of a layer, as its overlay counts it.
ghost use Rattle.std.specs.Prelude.{◌≡◌, List, ℕ};
ghost use Rattle.chains.specs.Layered.{size_of};
ghost use Rattle.chains.specs.Overlay.{IsLaid, tags_of};

use crate::overlay::Overlay;
use crate::size::LayerSize;

impl Overlay {
    /// How many changes the layer has, and how many units their texts.
    pub(crate) fn size(&self) -> LayerSize
        requires { (s : List ℕ) × IsLaid s self.now }
        ensures { (s : List ℕ) → IsLaid s self.now → result ≡ size_of s (tags_of s self.now) }
    {
        LayerSize {
            changes: self.cuts.len() as u32,
            units: self.units,
        }
    }
}
