//! What texts say of a module and of a box.

ghost use Rattle.std.specs.Prelude.{◌≡◌, ◌+◌, ◌<◌, length};
ghost use Rattle.two_d.specs.Texts.{name_at, HasBox};

use crate::Program;

/// The name of a module.
pub(crate) fn name_of(program: &Program, number: usize) -> &[u8]
    requires { number < length program.now }
    ensures { result.now ≡ name_at program.now number }
{
    program.modules()[number].name.bytes()
}

/// The number of a box, from 1.
pub(crate) fn number_of(program: &Program, number: usize, bx: usize) -> usize
    requires { HasBox program.now (number, bx) }
    ensures { result ≡ bx + 1 }
{
    prove!(bx < program.modules()[number].boxes.len());
    bx + 1
}
