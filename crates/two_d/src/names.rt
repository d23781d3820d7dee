//! The names of modules, by number.

ghost use Rattle.std.specs.Prelude.{◌≡◌, ◌<◌, ◌++◌, ◌∷◌, [], length, IfSome, OnOk};
ghost use Rattle.std.specs.Option.{unwrap_or};
ghost use Rattle.two_d.specs.inner.NameLists.{listed, number_in};

use indexmap::IndexSet;
use std::alloc::{AllocError, Global};

/// The number of a name, if it is held.
pub(crate) fn number_of(names: &IndexSet<Vec<u8>>, name: &[u8]) -> Option<usize>
    ensures number { unwrap_or result (length (listed names.now)) ≡ number_in (listed names.now) name.now }
    ensures there { IfSome result (λ i. i < length (listed names.now)) }
{
    names.get_index_of(name)
}

/// Holds a copy of one name more, behind the others.
pub(crate) fn add_name(
    alloc: Global,
    names: &mut IndexSet<Vec<u8>>,
    name: &[u8],
) -> Result<(), AllocError>
    requires { number_in (listed names.old) name.now ≡ length (listed names.old) }
    ensures { OnOk result (listed names.new ≡ listed names.old ++ name.now ∷ []) }
{
    let copy = Vec::from_slice(alloc, name)?;
    hold(names, copy)
}

fn hold(names: &mut IndexSet<Vec<u8>>, name: Vec<u8>) -> Result<(), AllocError>
    requires { number_in (listed names.old) name.items ≡ length (listed names.old) }
    ensures { OnOk result (listed names.new ≡ listed names.old ++ name.items ∷ []) }
{
    names.insert(name)?;
    Ok(())
}
