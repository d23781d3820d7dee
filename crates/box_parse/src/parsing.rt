ghost use Rattle.box_parse.specs.inner.ReaderOnLists.{Gives, whole_at};
ghost use Rattle.box_parse.specs.Refusals.{IsFaultOf};
ghost use Rattle.std.specs.Prelude.{◌≡◌, ◌⊎◌, ℕ, IfOk, IfErr, MatchResult};
ghost use Rattle.two_d.specs.Grammar.{IsBad, IsTextOf, IsTooDeep};
ghost use Rattle.two_d.specs.Trees.{Form, IsWithin, form_of};

use crate::fault::BoxFault;
use crate::reader::Reader;
use crate::stop::Stop;
use crate::token::after_spaces;
use std::alloc::Global;
use two_d::Command;

/// The greatest number of levels that are open at once.
const MAX_LEVELS: u32 = 64;

/// The command whose text this is. docs/GRID.md, "Commands". Linear in the text.
///
/// # Errors
/// Where the text is no command, up to which byte it could still have become one: docs/GRID.md,
/// "Refusals of commands".
pub fn parse(alloc: Global, text: &[u8]) -> Result<Command, BoxFault>
    ensures command { IfOk result (λ c. IsTextOf text.now (form_of c)) }
    ensures within { IfOk result (λ c. IsWithin (form_of c)) }
    ensures fault { IfErr result (λ fault. IsFaultOf fault text.now) }

    // And where this is so, it is what is answered, unless memory runs out.
    ensures is_command { (c : Form) → IsTextOf text.now c →
        MatchResult result (λ found. form_of found ≡ c) (λ fault. fault ≡ BoxFault.Memory) }
    ensures is_bad { (k : ℕ) → IsBad text.now k →
        (result ≡ Err (BoxFault.Bad k)) ⊎ (result ≡ Err BoxFault.Memory) }
    ensures is_too_deep { (k : ℕ) → IsTooDeep text.now k →
        (result ≡ Err (BoxFault.TooDeep k)) ⊎ (result ≡ Err BoxFault.Memory) }
{
    match whole(alloc, text) {
        Ok(command) => Ok(command),
        Err(stop) => Err(stop.fault(text.len())),
    }
}

/// A command, and nothing but spaces behind it.
#[tactic(auto, unfolding(crate::specs::inner::ReaderOnLists::whole_at))]
fn whole(alloc: Global, text: &[u8]) -> Result<Command, Stop>
    ensures { Gives form_of result (whole_at 64 text.now) }
{
    let mut reader = Reader { alloc, rest: text };
    let command = reader.command(MAX_LEVELS)?;
    let rest = after_spaces(reader.rest);
    if !rest.is_empty() {
        return Err(Stop::Bad(rest.len()));
    }
    Ok(command)
}
