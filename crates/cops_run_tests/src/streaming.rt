use crate::building::{HEAD, TWO};
use cops_run_command::{Streamed, run_stream};
use cops_testing::HoldsSteps;
use cops_types::Counted;
use std::test::Fail;

#[test]
fn a_run_that_is_held_is_reported(rt: HostRuntime) -> Result<(), Fail> {
    let mut reader = Counted::new(TWO.as_bytes());
    let trace = Counted::new(Vec::new(rt.alloc()));
    let mut out = Counted::new(Vec::new(rt.alloc()));
    let mut errors = Counted::new(Vec::new(rt.alloc()));
    let Streamed { status, trace } = run_stream(
        &rt,
        rt.alloc(),
        &mut reader,
        trace,
        &mut out,
        &mut errors,
        &HoldsSteps { client: 1 },
    );
    assert_eq!(rt; status?, 4);
    assert!(rt; trace.into_inner().starts_with(&HEAD));
    assert!(rt; out.into_inner().is_empty());
    assert_eq!(rt;
        errors.into_inner().as_slice(),
        b"failed: held\n".as_slice()
    );
    Ok(())
}
