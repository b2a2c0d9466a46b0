ghost use Rattle.std.specs.Prelude.{◌≡◌, IfOk};
ghost use Rattle.layers.specs.Shelf.{top_layers};
ghost use Rattle.layers.specs.Building.{shape_of};

use crate::shelf::Shelf;
use chains::LayerSize;
use points::NoMemory;
use std::marker::Model;

/// How large the layers of a text are, from the base, which has no change, to the newest.
#[derive(Debug, Drop)]
pub struct Shape {
    sizes: Vec<LayerSize>,
}

impl Model for Shape {
    ghost use Rattle.std.specs.Prelude.{List};
    ghost use Rattle.chains.specs.declared.size.LayerSize.{LayerSize};

    ghost Value = { List LayerSize };

    ghost view = { λ s. s.sizes.items };
}

impl Shape {
    /// The sizes, lent.
    pub fn as_slice(&self) -> &[LayerSize]
        ensures { result.now ≡ self.now }
    {
        self.sizes.as_slice()
    }
}

impl Shelf {
    /// How large the top's layers are.
    pub fn shape(&self) -> Result<Shape, NoMemory>
        ensures { IfOk result (λ shape. shape ≡ shape_of (top_layers self.now)) }
    {
        Ok(Shape {
            sizes: self.look().sizes(self.alloc)?,
        })
    }
}
