//! Laws of the store's limits.
ghost use Rattle.std.specs.Prelude.{◌≡◌};
ghost use Rattle.array_store.specs.StoreView.{most_live_arrays, most_live_words};

use crate::{MOST_ARRAYS, MOST_WORDS};

/// The constants are the limits that the definitions name.
pub fn store_limits()
    ensures arrays { MOST_ARRAYS ≡ most_live_arrays }
    ensures words { MOST_WORDS ≡ most_live_words }
{}
