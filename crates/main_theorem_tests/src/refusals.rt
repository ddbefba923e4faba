//! What a run says that was refused.

use main_theorem::RunRefused;
use merkle_replica::{CatchUpError, CatchUpsError, PullError, TurnsError};
use std::test::Fail;

#[test]
fn a_refused_run_says_where(rt: HostRuntime) -> Result<(), Fail> {
    let alloc = rt.alloc();
    let before: RunRefused<u64> = RunRefused::Before;
    assert!(rt;
        format!(in alloc; "{before}")?.as_str() == "memory was refused before the exchange"
    );
    let in_turns: RunRefused<u64> = RunRefused::InTurns(TurnsError {
        finished: Vec::new(alloc),
        fault: PullError::Memory,
    });
    assert!(rt;
        format!(in alloc; "{in_turns}")?.as_str()
            == "after 0 pulls memory was refused before a row was joined"
    );
    let fault = CatchUpsError::First(CatchUpError::Memory);
    let in_catch_ups: RunRefused<u64> = RunRefused::InCatchUps(fault);
    assert!(rt;
        format!(in alloc; "{in_catch_ups}")?.as_str()
            == "in the first catch-up memory was refused before a row was joined"
    );
    Ok(())
}
