//! Laws of the assembly text.

ghost use Rattle.std.specs.Prelude.{◌≡◌, ◌<◌, ◌≤◌, ◌^◌, ℕ, List, Ok, length};
ghost use Rattle.std.specs.List.{AllByRecursion};
ghost use Rattle.um_word.specs.Scroll.{most_scroll_words};
ghost use Rattle.um_asm.specs.Assembly.{assembled};
ghost use Rattle.um_asm.specs.Listing.{listing};

/// A listing says the words that it shows, where there are not too many for a scroll.
#[tactic(auto, using(crate::proofs::Listed::listing_assembled))]
pub fn listing_assembles()
    ensures { (words : List ℕ) → AllByRecursion (λ word. word < 2 ^ 32) words
        → length words ≤ most_scroll_words → assembled (listing words) ≡ Ok words }
{}
