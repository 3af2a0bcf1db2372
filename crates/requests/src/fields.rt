ghost use Rattle.std.specs.Prelude.{◌≡◌, ◌-◌, not, length, ◌==◌};
ghost use Rattle.codes.specs.Numbers.{case_of};
ghost use Rattle.codes.specs.declared.code.Code.TheVariants.{InvalidId, Unsupported};
ghost use Rattle.device.specs.View.{view};
ghost use Rattle.machine.specs.Ids.{range_of};
ghost use Rattle.requests.specs.Fields.{held_id, id_in};
ghost use Rattle.search.specs.Ids.{count_of};
ghost use Rattle.std.specs.Option.{ok_or};

use codes::{Code, Numbered};
use device::Device;
use matcher::Matcher;
use memory::Memory;
use search::{IdRange, place_of};

/// The case whose number stands in the flag.
pub(crate) fn flag_in<C: Numbered>(flag: u8) -> Result<C, Code>
    ensures { result ≡ ok_or (case_of C.Numbered.number_of C.Numbered.cases flag) Unsupported }
{
    Ok(C::try_from(flag)?)
}

/// The ID in Param.
pub(crate) fn id_in(param: u32) -> Result<u16, Code>
    ensures { result ≡ id_in param }
{
    match param {
        1..=0xFFFF => Ok(param as u16),
        _ => Err(Code::InvalidId),
    }
}

/// Whether the ID has templates: a search that ends at the first.
pub(crate) fn has_any<S: Memory>(memory: &S, id: u16) -> bool
    ensures { result ≡ not (count_of id (S.Memory.held memory.now) == 0) }
{
    place_of(memory, id, 0).is_some()
}

/// The ID in Param, where it has templates.
pub(crate) fn held_id<M: Matcher, S: Memory>(device: &Device<M, S>, param: u32) -> Result<u16, Code>
    ensures { result ≡ held_id (view M.Matcher S.Memory device.now) param }
{
    let id = id_in(param)?;
    if !has_any(&device.memory, id) {
        return Err(Code::NotFound);
    }
    Ok(id)
}

/// How many places are free.
pub(crate) fn free_places<S: Memory>(memory: &S) -> u32
    ensures { result ≡ S.Memory.room memory.now - length (S.Memory.held memory.now) }
{
    (memory.capacity() - memory.count()) as u32
}

/// The range in Param: 0 for all IDs, or the least in the low half and the greatest in the high half.
pub(crate) fn range_in(param: u32) -> Result<IdRange, Code>
    ensures { result ≡ ok_or (range_of param) InvalidId }
{
    if param == 0 {
        return Ok(IdRange {
            least: 1,
            greatest: 0xFFFF,
        });
    }
    let least = (param % 0x1_0000) as u16;
    let greatest = (param / 0x1_0000) as u16;
    if least == 0 || greatest < least {
        return Err(Code::InvalidId);
    }
    Ok(IdRange { least, greatest })
}
