use chains::Chain;
use places::TopId;
use std::marker::Model;

/// A layer that stands at no place yet, with the layers below it, and the top that it was built on.
#[derive(Drop)]
pub struct NewLayer {
    pub(crate) layers: Chain,
    pub(crate) version: u64,
    pub(crate) on: TopId,
}

impl Model for NewLayer {
    ghost use Rattle.layers.specs.Unplaced.{Unplaced, CanStandOn};

    ghost Value = { Unplaced };

    ghost view = { λ n. record { layers = n.layers; version = n.version; on = n.on } };

    ghost invariant = { λ n. CanStandOn n.layers n.on };
}
