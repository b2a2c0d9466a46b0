// Which hands are out, as an object can keep it.
ghost use Rattle.std.specs.Prelude.{◌≡◌, ◌≤◌, ℕ, false, nat_lt, slice_index_or};
ghost use Rattle.turn_table.specs.Meaning.{first_free};

use points::MAX_HANDS;

/// A row in which the hands below this number are out.
pub fn hand_row(hands: u32) -> [bool; 32]
    requires { hands ≤ MAX_HANDS }
    ensures { (n : ℕ) → slice_index_or result n false ≡ nat_lt n hands }
{
    let mut out = [false; 32];
    for i in 0..hands as usize {
        out[i] = true;
    }
    out
}

/// The lowest number of a hand that isn't out, or 32.
pub fn lowest_free(out: &[bool; 32]) -> usize
    ensures { result ≡ first_free (λ n. slice_index_or out.now n false) MAX_HANDS 0 }
{
    for i in 0..MAX_HANDS {
        if !out[i] {
            return i;
        }
    }
    MAX_HANDS
}
