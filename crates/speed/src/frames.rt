//! The frames that a host sends, made before the work begins.

ghost use Rattle.std.specs.Prelude.{◌≤◌};

use crate::templates::template_of;
use anyhow::Context;
use codes::{Coded, Command, Parameter};
use memory::Memory;
use packet::{Form, Request, write_request};
use row_memory::RowMemory;
use std::alloc::Global;

/// The bytes of the longest frame: a standard packet, a template of a row memory, and an end code.
const LONGEST: usize = 13 + RowMemory::T + 1;

/// The frame of a request.
fn frame_of(heap: Global, request: Request<'_>) -> anyhow::Result<Vec<u8>> {
    let mut frame = [0; LONGEST];
    let length = write_request(&mut frame, request);
    let sent = length.and_then(|length| frame.get(..length));
    Ok(
        sent.context("the request is longer than the line takes")?
            .to_vec(heap)?,
    )
}

/// A request that carries no data, with a Param and a flag.
pub(crate) fn plain(
    heap: Global,
    command: Command,
    param: u16,
    flag: u8,
) -> anyhow::Result<Vec<u8>> {
    let request = Request {
        form: Form::Standard,
        command: Coded::Known(command),
        param: u32::from(param),
        size: 0,
        flag,
        data: &[],
    };
    frame_of(heap, request)
}

/// SR of a parameter.
pub(crate) fn read(heap: Global, parameter: Parameter) -> anyhow::Result<Vec<u8>> {
    plain(heap, Command::ReadParameter, 0, u8::from(parameter))
}

/// ET of an ID's template of so many bytes, which replaces those that the ID has.
pub(crate) fn enroll(heap: Global, id: u16, size: usize) -> anyhow::Result<Vec<u8>>
    requires { size ≤ 384 }
{
    let template = template_of(heap, id, size)?;
    let request = Request {
        form: Form::Standard,
        command: Coded::Known(Command::EnrollTemplate),
        param: u32::from(id),
        size: size as u32,
        flag: 0,
        data: &template,
    };
    frame_of(heap, request)
}
