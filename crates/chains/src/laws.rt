//! Laws on texts in layers: each is a function whose contract is the law.
ghost use Rattle.std.specs.Prelude.{◌≡◌, List};
ghost use Rattle.chains.specs.Layered.{Edit, after_change, squashed, whole_text};
ghost use Rattle.chains.specs.Chain.{EditChain, layered, with_edits, squashed_edits, text_of_edits};

/// The layers after edits, and after a squash, are those of the chain of edits: a layer is small, and all
/// layers fit into one, exactly where the gaps of their edits say so, and each layer is its edits run on
/// the text below. The text is all edits run on the base.
pub fn layers_follow_edits()
    ensures change { (c : EditChain) → (edits : List Edit) → layered (with_edits c edits) ≡ after_change (layered c) edits }
    ensures squash { (c : EditChain) → layered (squashed_edits c) ≡ squashed (layered c) }
    ensures text { (c : EditChain) → whole_text (layered c) ≡ text_of_edits c }
{}
