use crate::draft::Draft;
use crate::linking::link;
use crate::printer::{printer, put_core};
use crate::table::first_texts;
use crate::{compile, weight};
use std::alloc::Global;
use std::test::Fail;
use two_d::{BoxRow, Command, Exp, Module, Name, Origin, Program, Side, TableFault, good_program};

/// The program of one module, `main`, whose one box sends `()` east, to the one exit.
fn unit_program(alloc: Global) -> Result<Option<Program>, TableFault> {
    let Ok(Some(name)) = Name::read(alloc, b"main") else {
        return Ok(None);
    };
    let mut outs = Vec::new(alloc);
    outs.push((Exp::Unit, Side::E))?;
    let mut boxes = Vec::new(alloc);
    boxes.push(BoxRow {
        command: Command::Send(outs),
        n: None,
        w: None,
    })?;
    let mut exits = Vec::new(alloc);
    exits.push(Some(Origin::East(0)))?;
    let main = Module {
        name,
        north: false,
        west: false,
        boxes,
        exits,
    };
    if !main.sound() {
        return Ok(None);
    }
    let mut modules = Vec::new(alloc);
    modules.push(main)?;
    Ok(Some(good_program(alloc, modules)?))
}

#[test]
fn all_printers_begin_with_147_words(rt: HostRuntime) -> Result<(), Fail> {
    let mut draft = Draft::new(rt.alloc());
    put_core(&mut draft)?;
    assert_eq!(rt; draft.words.len(), 147);
    Ok(())
}

#[test]
fn a_program_is_weighed_and_compiled(rt: HostRuntime) -> Result<(), Fail> {
    let program = unit_program(rt.alloc())?;
    match &program {
        None => assert!(rt; false),
        Some(program) => {
            assert_eq!(rt; weight(program), 20);
            assert_eq!(rt;
                first_texts(rt.alloc(), program)?.as_slice(),
                [0].as_slice()
            );
            let words = printer(rt.alloc(), program)?;
            assert_eq!(rt; words.len(), 264);
            assert_eq!(rt; &words.as_slice()[147..150], [150, 156, 208].as_slice());
            let linked = compile(rt.alloc(), program)?;
            assert_eq!(rt; linked.words.len(), 455);
            assert_eq!(rt;
                linked.blocks.as_slice(),
                [(51, 140), (191, 264)].as_slice()
            );
        }
    }
    Ok(())
}

#[test]
fn blocks_stand_behind_the_boot(rt: HostRuntime) -> Result<(), Fail> {
    let mut blocks = Vec::new(rt.alloc());
    blocks.push(Vec::from_elem(rt.alloc(), 1, 140)?)?;
    blocks.push(Vec::from_elem(rt.alloc(), 2, 264)?)?;
    let linked = link(rt.alloc(), &blocks, 0, 32)?;
    assert_eq!(rt; linked.words.len(), 455);
    assert_eq!(rt;
        linked.blocks.as_slice(),
        [(51, 140), (191, 264)].as_slice()
    );
    assert_eq!(rt; linked.words[190], 1);
    assert_eq!(rt; linked.words[191], 2);
    Ok(())
}
