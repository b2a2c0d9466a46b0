//! Laws on shelves: each is a function whose contract is the law.
ghost use Rattle.std.specs.Prelude.{◌≡◌, ◌≢◌, ℕ, [], ◌∷◌, List, map, filter};
ghost use Rattle.points.specs.Text.{replaced};
ghost use Rattle.places.specs.Placed.{placed_at, noted, quieted, narrowed, is_kept};
ghost use Rattle.places.specs.Table.{IsTable, IsLowestFree};
ghost use Rattle.chains.specs.Layered.{Layered, after_change, squashed, whole_text};
ghost use Rattle.layers.specs.Shelf.{Shelved, top_held, top_text, top_version, installed};
ghost use Rattle.layers.specs.Unplaced.{Unplaced};
ghost use Rattle.layers.specs.Events.{Event, AllowsAll, fresh, after_all, chained, text_after, version_after, installs};

/// What layers do to the text: an edit replaces its units, and a squash leaves the text as it is.
pub fn layers_keep_the_text()
    ensures change { (v : Layered) → (i j : ℕ) → (put : List ℕ) → whole_text (after_change v ((i, j, put) ∷ [])) ≡ replaced (whole_text v) i j put }
    ensures squash { (v : Layered) → whole_text (squashed v) ≡ whole_text v }
{}

/// What is installed is the top, and what stands at any other place stays.
pub fn installed_is_the_top()
    ensures top { (s : Shelved) → (p : ℕ) → IsLowestFree s p → (n : Unplaced) → top_held (installed s p n) ≡ record { layers = n.layers; version = n.version } }
    ensures others { (s : Shelved) → (p : ℕ) → (n : Unplaced) → (q : ℕ) → p ≢ q → placed_at (installed s p n) q ≡ placed_at s q }
{}

/// Hands that come and go, and places that are freed, leave what stands at the top.
pub fn hands_leave_the_top()
    ensures note { (s : Shelved) → (place hands : ℕ) → top_held (map (noted place hands) s) ≡ top_held s }
    ensures quiet { (s : Shelved) → (hands : ℕ) → top_held (quieted hands s) ≡ top_held s }
    ensures narrow { (s : Shelved) → top_held (narrowed s) ≡ top_held s }
    ensures collect { (s : Shelved) → IsTable s → top_held (filter (is_kept s) s) ≡ top_held s }
{}

/// After any list of calls the text at the top is the chain of the edits that were installed: what is built and not installed
/// changes nothing, a squash and a new base leave text and version, and hands and freed places leave what stands at the top.
pub fn top_is_the_chain_of_edits()
    ensures layers { (s : Shelved) → (es : List Event) → AllowsAll (fresh s) es → top_held (after_all (fresh s) es).shelf ≡ chained (top_held s) (installs [] es) }
    ensures text { (s : Shelved) → (es : List Event) → AllowsAll (fresh s) es → top_text (after_all (fresh s) es).shelf ≡ text_after (top_text s) (installs [] es) }
    ensures version { (s : Shelved) → (es : List Event) → AllowsAll (fresh s) es → top_version (after_all (fresh s) es).shelf ≡ version_after (top_version s) (installs [] es) }
{}
