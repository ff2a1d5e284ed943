//! Trials, by their summaries.

use super::run_words;
use std::test::Fail;

#[test]
fn a_trial_of_two_hundred_points(rt: HostRuntime) -> Result<(), Fail> {
    let (code, first) = run_words(&rt, rt.alloc(), "trial seed=7 points=200", "")?;
    assert_eq!(rt; code, 0);
    assert!(rt; first.bytes().starts_with(b"trial 7 200\nanswer solved\n"));
    assert!(rt; first.bytes().ends_with(b"\ncheck accepted\n"));
    let (code, second) = run_words(&rt, rt.alloc(), "trial seed=7 points=200", "")?;
    assert_eq!(rt; code, 0);
    assert_eq!(rt; second.bytes(), first.bytes());
    Ok(())
}

#[test]
fn a_trial_without_a_lease(rt: HostRuntime) -> Result<(), Fail> {
    let (code, sink) = run_words(&rt, rt.alloc(), "trial seed=7 points=1 budget=0", "")?;
    assert_eq!(rt; code, 11);
    let wanted =
        "trial 7 1\nanswer budget\nsite 3932160000 2621440000\ncost 607239555086 607239555087\n\
        bound 0\nleases 0\nnodes 1\ncheck accepted\n";
    assert_eq!(rt; sink.bytes(), wanted.as_bytes());
    Ok(())
}
