ghost use Rattle.std.specs.Prelude.{◌≡◌, ◌++◌, IfOk};
ghost use Rattle.codes.specs.declared.network.NetworkMode.TheVariants.{Single, Network};
ghost use Rattle.packet.specs.Heads.{flaw, head_bytes, read_head, seen_head, unless};

use crate::checksum::checksum;
use crate::fields::number16;
use crate::form::{END_CODE, Form, Head, NETWORK_START, STANDARD_START};
use codes::Refusal;

/// Refuses a packet for the first of the tests that failed.
fn no_flaw(start: bool, end: bool, sum: bool) -> Result<(), Refusal>
    ensures { result ≡ unless (flaw start end sum) tt }
{
    if !start {
        return Err(Refusal::StartCode);
    }
    if !end {
        return Err(Refusal::EndCode);
    }
    if !sum {
        return Err(Refusal::Checksum);
    }
    Ok(())
}

/// Takes a standard packet apart, and what stands behind it.
#[inline(always)]
pub(crate) fn standard_head(frame: &[u8]) -> Result<(Head, &[u8]), Refusal>
    ensures value { seen_head result ≡ read_head Single frame.now }
    ensures back { IfOk result (λ x. head_bytes x.0 ++ x.1.now ≡ frame.now) }
{
    let [
        start,
        command,
        p0,
        p1,
        p2,
        p3,
        s0,
        s1,
        s2,
        s3,
        flag,
        sum,
        end,
        rest @ ..,
    ] = frame
    else {
        return Err(Refusal::TooShort);
    };
    let right_sum = *sum == checksum(&frame[0..11]);
    no_flaw(*start == STANDARD_START, *end == END_CODE, right_sum)?;
    let fields = [*command, *p0, *p1, *p2, *p3, *s0, *s1, *s2, *s3, *flag];
    Ok((Head::of(Form::Standard, fields), rest))
}

/// Takes a network packet apart, and what stands behind it.
pub(crate) fn network_head(frame: &[u8]) -> Result<(Head, &[u8]), Refusal>
    ensures value { seen_head result ≡ read_head Network frame.now }
    ensures back { IfOk result (λ x. head_bytes x.0 ++ x.1.now ≡ frame.now) }
{
    let [
        start,
        t0,
        t1,
        command,
        p0,
        p1,
        p2,
        p3,
        s0,
        s1,
        s2,
        s3,
        flag,
        sum,
        end,
        rest @ ..,
    ] = frame
    else {
        return Err(Refusal::TooShort);
    };
    let right_sum = *sum == checksum(&frame[0..13]);
    no_flaw(*start == NETWORK_START, *end == END_CODE, right_sum)?;
    let fields = [*command, *p0, *p1, *p2, *p3, *s0, *s1, *s2, *s3, *flag];
    Ok((Head::of(Form::Network(number16(*t0, *t1)), fields), rest))
}
