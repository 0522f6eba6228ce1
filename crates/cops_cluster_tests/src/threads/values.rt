use crate::threads::building::*;
use crate::threads::clients::reported;
use cops_cluster::*;
use cops_types::{Format, OpenGate, Value, Version};
use std::alloc::Global;
use std::sync::Wait;
use std::test::Fail;

/// The word for the answer to a put of a value of `bytes` bytes, which should get the version 1.0.
fn put_long<R: Wait>(
    rt: &R,
    alloc: Global,
    opened: &mut Opened,
    bytes: usize,
) -> Result<&'static str, Fail> {
    let letters = vec![in alloc; b'v'; bytes]?;
    let value = Value::new_in(Format::Two, alloc, &letters)?;
    let key = key(alloc, b'x')?;
    let client = opened.clients.get_mut(0).ok_or("no client")?;
    let answer = opened.cluster.put(rt, client, &OpenGate, key, value);
    Ok(reported(answer, Version::new(1, 0)?))
}

#[test]
fn a_value_is_put_that_fits_the_format(rt: HostRuntime) -> Result<(), Fail> {
    for (format, bytes, wanted) in [
        (Format::One, 4_096, "put"),
        (Format::One, 4_097, "not in format"),
        (Format::Two, 4_097, "put"),
        (Format::Two, 16_384, "put"),
    ] {
        let mut opened = opened_in(format, rt.alloc(), 1, &[0])?;
        let word = put_long(&rt, rt.alloc(), &mut opened, bytes);
        drop(opened);
        assert!(rt; word? == wanted, "{bytes}");
    }
    Ok(())
}
