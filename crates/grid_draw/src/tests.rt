ghost use Rattle.std.specs.Prelude.{◌≡◌, ◌+◌, ◌≤◌, IfOk};
ghost use Rattle.two_d.specs.Programs.{module_of};
ghost use Rattle.two_d.specs.Weights.{part};

use crate::{DrawFault, draw};
use std::alloc::Global;
use std::test::Fail;
use two_d::{BoxRow, Command, Exp, Module, Name, Origin, Side, good_program};

/// One box and one exit.
const ONE_BOX: &str = ",......................,
:main                  :
:                      :
:                      :
:                      :
:                      :
:   *=============*    :
:   !send [((),E)]!--+ :
:   *=============*  | :
:                    | :
:                    | :
:                    +--
'......................'
";

/// All kinds of wires, as another program draws them that was written from the document alone.
const ALL_WIRES: &str = ",.................................................,
:main                                             :
:                                                 :
:                                                 :
:                                                 :
:                                                 :
:   *========================*                    :
:   !send [((),S),(Inl (),E)]!----------------+   :
:   *========================*                |   :
:    |                                        |   :
:    +--------------------------------------+ |   :
: +-----------------------------------------#-+   :
: |  +--------------------------------------+     :
: |  v                                            :
: | *====================================*        :
: +>!use a_name_of_thirty_two_bytes_here_!------+ :
:   *====================================*      | :
:                                               | :
:                                               | :
:                                               +--
:                                                 -
'.................................................'
,..................................|...........,
:a_name_of_thirty_two_bytes_here_  |           :
-----------------------------------#-+         :
: +--------------------------------#-+         :
: |  +-----------------------------+           :
: |  v                                         :
: | *==================*                       :
: +>!send [(N,E),(W,S)]!---------------+       :
:   *==================*               |       :
:    |                                 |       :
:    +---------------------------------#-+     :
:                                      | |     :
:    +---------------------------------+ |     :
:    v                                   |     :
:   *=======*                            |     :
:   !send []!                            |     :
:   *=======*                            |     :
:                                        |     :
:                                        |     :
: +--------------------------------------+     :
: |                                            :
: |                                            :
: | *============*                             :
: +>!split (W,())!---------------------------+ :
:   *============*                           | :
:    |                                       | :
:    +-------------------------------------+ | :
:                                          | | -
:                                          +-#--
:                                            +--
'..............................................'
";

fn row(command: Command, n: Option<Origin>, w: Option<Origin>) -> BoxRow
    ensures { result ≡ record { command = command; n = n; w = w } }
{
    BoxRow { command, n, w }
}

/// The module `main`, whose only box sends `()` to the exit.
fn one_box(alloc: Global) -> Result<Module, Fail>
    ensures { IfOk result (λ one. part (module_of one) ≤ 1000) }
{
    let name = Name::read(alloc, b"main")?.ok_or("a name")?;
    let send = Command::Send(vec![in alloc; (Exp::Unit, Side::E)]?);
    let boxes = vec![in alloc; row(send, None, None)]?;
    let exits = vec![in alloc; Some(Origin::East(0))]?;
    Ok(Module {
        name,
        north: false,
        west: false,
        boxes,
        exits,
    })
}

#[test]
fn a_box_with_an_exit_is_drawn(rt: HostRuntime) -> Result<(), Fail> {
    let alloc = rt.alloc();
    let main = one_box(alloc)?;
    assert!(rt; main.sound());
    let modules = vec![in alloc; main]?;
    let program = good_program(alloc, modules)?;
    let text = draw(alloc, &program)?;
    assert!(rt; text.as_slice() == ONE_BOX.as_bytes());
    Ok(())
}

/// A module that uses the other, with N and W of a box, an exit with a wire and one without.
fn first_module(alloc: Global) -> Result<Module, Fail>
    ensures { IfOk result (λ one. part (module_of one) ≤ 1000) }
{
    let name = Name::read(alloc, b"main")?.ok_or("a name")?;
    let other = Name::read(alloc, b"a_name_of_thirty_two_bytes_here_")?.ok_or("a name")?;
    let inl = Exp::Inl(Box::new(alloc, Exp::Unit)?);
    let send = Command::Send(vec![in alloc; (Exp::Unit, Side::S), (inl, Side::E)]?);
    let call = row(
        Command::Call(other),
        Some(Origin::South(0)),
        Some(Origin::East(0)),
    );
    let boxes = vec![in alloc; row(send, None, None), call]?;
    let exits = vec![in alloc; Some(Origin::East(1)), None]?;
    Ok(Module {
        name,
        north: false,
        west: false,
        boxes,
        exits,
    })
}

/// A module with both entries, and wires from both sides of its boxes.
fn other_module(alloc: Global) -> Result<Module, Fail>
    ensures { IfOk result (λ one. part (module_of one) ≤ 1000) }
{
    let name = Name::read(alloc, b"a_name_of_thirty_two_bytes_here_")?.ok_or("a name")?;
    let send = Command::Send(vec![in alloc; (Exp::N, Side::E), (Exp::W, Side::S)]?);
    let first = row(send, Some(Origin::North), Some(Origin::West));
    let none = Command::Send(Vec::new(alloc));
    let second = row(none, Some(Origin::East(0)), None);
    let pair = Exp::Pair(Box::new(alloc, Exp::W)?, Box::new(alloc, Exp::Unit)?);
    let third = row(Command::Split(pair), None, Some(Origin::South(0)));
    let boxes = vec![in alloc; first, second, third]?;
    let exits = vec![in alloc; None, Some(Origin::South(2)), Some(Origin::East(2))]?;
    Ok(Module {
        name,
        north: true,
        west: true,
        boxes,
        exits,
    })
}

#[test]
fn all_kinds_of_wires_are_drawn(rt: HostRuntime) -> Result<(), Fail> {
    let alloc = rt.alloc();
    let first = first_module(alloc)?;
    let other = other_module(alloc)?;
    assert!(rt; first.sound());
    assert!(rt; other.sound());
    let modules = vec![in alloc; first, other]?;
    let program = good_program(alloc, modules)?;
    let text = draw(alloc, &program)?;
    assert!(rt; text.as_slice() == ALL_WIRES.as_bytes());
    Ok(())
}

/// A module without boxes, with so many exits to which no wire comes.
fn exits_only(alloc: Global, name: &[u8], count: usize) -> Result<Module, Fail>
    requires { count ≤ 100000 }
    ensures { IfOk result (λ one. part (module_of one) ≤ 1000 + count) }
{
    let name = Name::read(alloc, name)?.ok_or("a name")?;
    let exits = vec![in alloc; None; count]?;
    Ok(Module {
        name,
        north: false,
        west: false,
        boxes: Vec::new(alloc),
        exits,
    })
}

#[test]
fn a_drawing_may_have_262144_bytes(rt: HostRuntime) -> Result<(), Fail> {
    let alloc = rt.alloc();
    let main = exits_only(alloc, b"main", 29_120)?;
    let other = exits_only(alloc, b"ab", 0)?;
    assert!(rt; main.sound());
    assert!(rt; other.sound());
    let modules = vec![in alloc; main, other]?;
    let program = good_program(alloc, modules)?;
    let text = draw(alloc, &program)?;
    assert_eq!(rt; text.len(), 262_144);
    Ok(())
}

#[test]
fn a_drawing_has_no_more_bytes(rt: HostRuntime) -> Result<(), Fail> {
    let alloc = rt.alloc();
    let main = exits_only(alloc, b"main", 29_121)?;
    let other = exits_only(alloc, b"ab", 0)?;
    assert!(rt; main.sound());
    assert!(rt; other.sound());
    let modules = vec![in alloc; main, other]?;
    let program = good_program(alloc, modules)?;
    let fault = draw(alloc, &program).err();
    assert_eq!(rt; fault, Some(DrawFault::TooLong(262_153)));
    Ok(())
}
