//! Programs in short. The first line of a module is its name and its entries, as `main - -` or `sub
//! n w`. A box is
//! a line with the origins of its inputs and its command, as `- S0 case w S E`; an exit is one as
//! `exit E0`.
//! Expressions stand in postfix: `u` is `()`, `n` and `w` are the inputs, `l` and `r` inject, `p`
//! pairs.

use std::alloc::Global;
use std::test::Fail;
use two_d::{BoxRow, Command, Exp, Module, Name, Origin, Program, Side, good_program};

/// The program of two modules, or of one where the second text is empty.
pub(super) fn program_of(alloc: Global, first: &str, second: &str) -> Result<Program, Fail> {
    let first = module_of(alloc, first)?;
    if !first.sound() {
        return Err("a sound module".into());
    }
    if second.is_empty() {
        return Ok(good_program(alloc, vec![in alloc; first]?)?);
    }
    let second = module_of(alloc, second)?;
    if !second.sound() {
        return Err("a sound module".into());
    }
    Ok(good_program(alloc, vec![in alloc; first, second]?)?)
}

fn module_of(alloc: Global, text: &str) -> Result<Module, Fail> {
    let mut module = empty_module(alloc, text.lines().next().ok_or("a module")?)?;
    for line in text.lines().skip(1) {
        add_line(alloc, &mut module, line)?;
    }
    Ok(module)
}

fn empty_module(alloc: Global, line: &str) -> Result<Module, Fail> {
    let words: Vec<&str> = line.split(' ').collect(alloc)?;
    let [name, north, west] = words.as_slice() else {
        return Err("a module".into());
    };
    Ok(Module {
        name: Name::read(alloc, name.as_bytes())?.ok_or("a name")?,
        north: *north == "n",
        west: *west == "w",
        boxes: Vec::new(alloc),
        exits: Vec::new(alloc),
    })
}

fn add_line(alloc: Global, module: &mut Module, line: &str) -> Result<(), Fail> {
    let words: Vec<&str> = line.split(' ').collect(alloc)?;
    match words.as_slice() {
        [_, origin] => module.exits.push(origin_of(origin)?)?,
        [north, west, name, words @ ..] => {
            let row = BoxRow {
                command: command_of(alloc, name, words)?,
                n: origin_of(north)?,
                w: origin_of(west)?,
            };
            module.boxes.push(row)?;
        }
        _ => return Err("a box or an exit".into()),
    }
    Ok(())
}

fn command_of(alloc: Global, name: &str, words: &[&str]) -> Result<Command, Fail> {
    match words {
        [used] if name == "use" => {
            let used = Name::read(alloc, used.as_bytes())?.ok_or("a name")?;
            Ok(Command::Call(used))
        }
        [exp] => Ok(Command::Split(exp_of(alloc, exp)?)),
        [exp, left, right] => Ok(Command::Case(
            exp_of(alloc, exp)?,
            side_of(left)?,
            side_of(right)?,
        )),
        _ => send_of(alloc, words),
    }
}

fn send_of(alloc: Global, words: &[&str]) -> Result<Command, Fail> {
    let mut outs = Vec::new(alloc);
    for out in words.chunks(2) {
        let [exp, side] = out else {
            return Err("an output".into());
        };
        outs.push((exp_of(alloc, exp)?, side_of(side)?))?;
    }
    Ok(Command::Send(outs))
}

fn exp_of(alloc: Global, text: &str) -> Result<Exp, Fail> {
    let mut stack: Vec<Exp> = Vec::new(alloc);
    for mark in text.bytes() {
        let exp = match mark {
            b'n' => Exp::N,
            b'w' => Exp::W,
            b'l' => Exp::Inl(Box::new(alloc, stack.pop().ok_or("a part")?)?),
            b'r' => Exp::Inr(Box::new(alloc, stack.pop().ok_or("a part")?)?),
            b'p' => {
                let second = Box::new(alloc, stack.pop().ok_or("a part")?)?;
                let first = Box::new(alloc, stack.pop().ok_or("a part")?)?;
                Exp::Pair(first, second)
            }
            _ => Exp::Unit,
        };
        stack.push(exp)?;
    }
    Ok(stack.pop().ok_or("an expression")?)
}

fn side_of(text: &str) -> Result<Side, Fail> {
    match text.as_bytes() {
        b"S" => Ok(Side::S),
        b"E" => Ok(Side::E),
        _ => Err("a side".into()),
    }
}

fn origin_of(text: &str) -> Result<Option<Origin>, Fail> {
    if let Some(number) = text.strip_prefix('S') {
        return Ok(Some(Origin::South(number.parse::<usize>()?)));
    }
    if let Some(number) = text.strip_prefix('E') {
        return Ok(Some(Origin::East(number.parse::<usize>()?)));
    }
    match text.as_bytes() {
        b"n" => Ok(Some(Origin::North)),
        b"w" => Ok(Some(Origin::West)),
        _ => Ok(None),
    }
}
