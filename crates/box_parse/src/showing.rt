ghost use Rattle.box_parse.specs.Views.{more_outs, out_of};
ghost use Rattle.std.specs.Prelude.{◌≡◌, ◌++◌, IfOk, OnOk, map};
ghost use Rattle.two_d.specs.Canonical.{canonical, shown, shown_out, shown_outs, shown_side};
ghost use Rattle.two_d.specs.Grammar.{IsTextOf};
ghost use Rattle.two_d.specs.Trees.{IsWithin, form_of, tree_of};

use std::alloc::Global;
use two_d::{Command, Exp, Side};
use umix_base::Memory;

/// The canonical text of the command. docs/GRID.md, "The canonical text". Linear in it.
///
/// # Errors
/// Only where there is no memory.
#[tactic(auto, using(two_d::proofs::Shown::canonical_text))]
pub fn show(alloc: Global, command: &Command) -> Result<Vec<u8>, Memory>
    requires { IsWithin (form_of command.now) }
    ensures canonical { IfOk result (λ text. text.items ≡ canonical (form_of command.now)) }
    ensures read_back { IfOk result (λ text. IsTextOf text.items (form_of command.now)) }
{
    let mut text = Vec::new(alloc);
    write_command(&mut text, command)?;
    Ok(text)
}

#[tactic(auto)]
fn write_command(text: &mut Vec<u8>, command: &Command) -> Result<(), Memory>
    ensures { OnOk result (text.new.items ≡ text.old.items ++ canonical (form_of command.now)) }
{
    match command {
        Command::Send(outs) => {
            text.extend_from_slice(b"send [")?;
            write_outs(text, outs)?;
            text.push(b']')?;
        }
        Command::Case(exp, first, second) => {
            text.extend_from_slice(b"case ")?;
            write_exp(text, exp)?;
            text.extend_from_slice(b" of ")?;
            write_side(text, *first)?;
            text.push(b',')?;
            write_side(text, *second)?;
        }
        Command::Split(exp) => {
            text.extend_from_slice(b"split ")?;
            write_exp(text, exp)?;
        }
        Command::Call(name) => {
            text.extend_from_slice(b"use ")?;
            text.extend_from_slice(name.bytes())?;
        }
    }
    Ok(())
}

/// The outs, with `,` between them.
#[tactic(auto, using(crate::proofs::Outs::outs_rules))]
fn write_outs(text: &mut Vec<u8>, outs: &[(Exp, Side)]) -> Result<(), Memory>
    ensures { OnOk result (text.new.items ≡ text.old.items ++ shown_outs (map out_of outs.now)) }
{
    let [first, more @ ..] = outs else {
        return Ok(());
    };
    write_out(text, first)?;
    write_more(text, more)
}

/// The outs behind the first.
#[tactic(auto, using(crate::proofs::Outs::outs_rules))]
fn write_more(text: &mut Vec<u8>, outs: &[(Exp, Side)]) -> Result<(), Memory>
    ensures { OnOk result (text.new.items ≡ text.old.items ++ more_outs (map out_of outs.now)) }
{
    for out in outs {
        text.push(b',')?;
        write_out(text, out)?;
    }
    Ok(())
}

fn write_out(text: &mut Vec<u8>, out: &(Exp, Side)) -> Result<(), Memory>
    ensures { OnOk result (text.new.items ≡ text.old.items ++ shown_out (out_of out.now)) }
{
    text.push(b'(')?;
    write_exp(text, &out.0)?;
    text.push(b',')?;
    write_side(text, out.1)?;
    text.push(b')')?;
    Ok(())
}

fn write_side(text: &mut Vec<u8>, side: Side) -> Result<(), Memory>
    ensures { OnOk result (text.new.items ≡ text.old.items ++ shown_side side) }
{
    match side {
        Side::S => text.push(b'S')?,
        Side::E => text.push(b'E')?,
    }
    Ok(())
}

fn write_exp(text: &mut Vec<u8>, exp: &Exp) -> Result<(), Memory>
    ensures { OnOk result (text.new.items ≡ text.old.items ++ shown (tree_of exp.now)) }
{
    match exp {
        Exp::Unit => text.extend_from_slice(b"()")?,
        Exp::N => text.push(b'N')?,
        Exp::W => text.push(b'W')?,
        Exp::Pair(first, second) => {
            text.push(b'(')?;
            write_exp(text, first)?;
            text.push(b',')?;
            write_exp(text, second)?;
            text.push(b')')?;
        }
        Exp::Inl(inner) => {
            text.extend_from_slice(b"Inl ")?;
            write_exp(text, inner)?;
        }
        Exp::Inr(inner) => {
            text.extend_from_slice(b"Inr ")?;
            write_exp(text, inner)?;
        }
    }
    Ok(())
}
