//! How the page of a text is made.

ghost use Rattle.std.specs.Prelude.{◌≡◌, ◌≤◌, ◌++◌, IfOk, OnOk, length};
ghost use Rattle.two_d.specs.Weights.{weight};
ghost use Rattle.fault_view.specs.Boxes.{boxes_in};
ghost use Rattle.fault_view.specs.Pages.{IsPage, after_name, ok_line, page_with};

use crate::breaks::{border_at, push_break};
use crate::hints::hint_at;
use crate::page::Answer;
use crate::pictures::push_picture;
use crate::subject::{push_subject, subject_at};
use itoa::Buffer;
use module_table::{CheckFault, check};
use std::alloc::Global;
use two_d::Program;
use umix_base::{Memory, Place};

/// A page, and what it tells.
#[derive(Drop)]
pub(crate) struct Page {
    pub(crate) answer: Answer,
    pub(crate) bytes: Vec<u8>,
}

/// The page of a text.
pub(crate) fn page_of(alloc: Global, text: &[u8]) -> Result<Page, Memory>
    ensures { IfOk result (λ page. IsPage text.now page.answer page.bytes.items) }
{
    match check(alloc, text) {
        Ok(program) => {
            let bytes = program_page(alloc, &program)?;
            Ok(Page {
                answer: Answer::Program,
                bytes,
            })
        }
        Err(fault) => match &fault {
            CheckFault::Memory => Err(Memory),
            CheckFault::Bad { number, place } => {
                let name = fault.name();
                let hint = hint_at(*number);
                let mut bytes = fault_page(alloc, text, *number, name, *place, hint)?;
                push_break(alloc, &mut bytes, text, border_at(*number, *place))?;
                push_subject(alloc, &mut bytes, text, subject_at(*number, *place))?;
                Ok(Page {
                    answer: Answer::Refused,
                    bytes,
                })
            }
        },
    }
}

/// The line of a program.
fn program_page(alloc: Global, program: &Program) -> Result<Vec<u8>, Memory>
    requires { weight program.now ≤ 262144 }
    ensures { IfOk result (λ page. page.items ≡ ok_line program.now) }
{
    let mut first = Buffer::new();
    let mut second = Buffer::new();
    let mut page = Vec::from_slice(alloc, b"ok ")?;
    page.extend_from_slice(first.format(count_modules(program)).as_bytes())?;
    page.extend_from_slice(b" ")?;
    page.extend_from_slice(second.format(count_boxes(program)).as_bytes())?;
    page.extend_from_slice(b"\n")?;
    Ok(page)
}

/// The number of modules.
fn count_modules(program: &Program) -> usize
    ensures { result ≡ length program.now }
{
    program.modules().len()
}

/// The number of boxes of all modules.
fn count_boxes(program: &Program) -> usize
    requires { weight program.now ≤ 262144 }
    ensures { result ≡ boxes_in program.now }
{
    let mut boxes = 0;
    for module in program.modules() {
        boxes += module.boxes.len();
    }
    boxes
}

/// The page of a text with a fault of this number, of this name and at this place.
fn fault_page(
    alloc: Global,
    text: &[u8],
    number: u8,
    name: &str,
    place: Option<Place>,
    hint: &str,
) -> Result<Vec<u8>, Memory>
    ensures { IfOk result (λ page.
        page.items ≡ page_with text.now number name.now place hint.now) }
{
    let mut buffer = Buffer::new();
    let mut page = Vec::from_slice(alloc, b"refused ")?;
    page.extend_from_slice(buffer.format(number).as_bytes())?;
    page.extend_from_slice(b" ")?;
    page.extend_from_slice(name.as_bytes())?;
    push_place(&mut page, place)?;
    push_picture(alloc, &mut page, text, place)?;
    page.extend_from_slice(hint.as_bytes())?;
    page.extend_from_slice(b"\n")?;
    Ok(page)
}

/// What follows the name in the line of a fault.
fn push_place(page: &mut Vec<u8>, place: Option<Place>) -> Result<(), Memory>
    ensures { OnOk result (page.new.items ≡ page.old.items ++ after_name place) }
{
    let Some(place) = place else {
        page.push(b'\n')?;
        return Ok(());
    };
    let mut first = Buffer::new();
    let mut second = Buffer::new();
    page.extend_from_slice(b" at ")?;
    page.extend_from_slice(first.format(place.row).as_bytes())?;
    page.extend_from_slice(b":")?;
    page.extend_from_slice(second.format(place.col).as_bytes())?;
    page.push(b'\n')?;
    Ok(())
}
