// The percent of states saved, for any two numbers of states: the products are of 128 bits.
ghost use Rattle.std.specs.Prelude.{◌≡◌};
ghost use Rattle.text.specs.Text.{percent_saved};

// The percent of the first states that are saved, halves up.
#[tactic(auto, unfolding(crate::specs::Text::percent_saved))]
pub fn percent_saved(first: usize, held: usize) -> usize
    ensures { result ≡ percent_saved first held }
{
    if first == 0 {
        return 0;
    }
    let saved = first.saturating_sub(held) as u128;
    let first = first as u128;
    ((200 * saved + first) / (2 * first)) as usize
}
