ghost use Rattle.std.specs.Prelude.{◌≡◌};
ghost use Rattle.device.specs.View.{view};
ghost use Rattle.machine.specs.Requests.{parameter_value, read_parameter, write_parameter};
ghost use Rattle.requests.specs.Ending.{KeptOnErr, Obeys};

use crate::answer::{answer, just};
use crate::fields::{flag_in, free_places};
use codes::{Code, Parameter};
use device::{Answers, Device};
use machine::Setting;
use matcher::Matcher;
use memory::Memory;
use packet::Request;

/// SW: writes a system parameter, if it can be written and takes the value.
pub(crate) fn write_parameter<M: Matcher, S: Memory>(
    device: &mut Device<M, S>,
    request: Request<'_>,
) -> Result<Answers, Code>
    ensures value { Obeys M.Matcher S.Memory write_parameter device.old device.new request.entry result }
    ensures kept { KeptOnErr M.Matcher S.Memory device.old device.new result }
{
    let parameter = flag_in::<Parameter>(request.flag)?;
    let setting = Setting::of(parameter, request.size).ok_or(Code::Unsupported)?;
    device.settings.set(setting);
    Ok(just(request, Code::Success))
}

/// The value of a parameter.
fn value_of<M: Matcher, S: Memory>(device: &Device<M, S>, parameter: Parameter) -> u32
    ensures { result ≡ parameter_value (view M.Matcher S.Memory device.now) parameter }
{
    match parameter {
        Parameter::Timeout => 0x30 + u32::from(device.settings.timeout),
        Parameter::TemplateSize => S::T as u32,
        Parameter::EnrollMode => device.settings.enroll as u32,
        Parameter::SecurityLevel => u32::from(u8::from(device.settings.security)),
        Parameter::ModuleId => u32::from(device.own),
        Parameter::EnrolledFinger => device.memory.count() as u32,
        Parameter::AvailableFinger => free_places(&device.memory),
        Parameter::SendScanSuccess => device.settings.scans as u32,
        Parameter::NetworkMode => device.settings.network as u32,
    }
}

/// SR: answers the value of a system parameter.
pub(crate) fn read_parameter<M: Matcher, S: Memory>(
    device: &Device<M, S>,
    request: Request<'_>,
) -> Result<Answers, Code>
    ensures { Obeys M.Matcher S.Memory read_parameter device.now device.now request.entry result }
{
    let parameter = flag_in::<Parameter>(request.flag)?;
    let value = value_of(device, parameter);
    Ok(answer(request, 0, value, Code::Success))
}
