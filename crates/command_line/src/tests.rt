//! Lists of words, and the commands that they are.

use super::*;
use std::alloc::Global;
use std::test::Fail;

/// The words of a line, which single spaces separate.
fn words_of(alloc: Global, line: &str) -> Result<Argv, Fail> {
    let mut words = Argv::new(alloc);
    if !line.is_empty() {
        for word in line.split(' ') {
            words.push(word)?;
        }
    }
    Ok(words)
}

/// The settings with these numbers.
fn settings(gap: GapRule, budget: u32, pool: u32, workers: u32) -> Settings {
    Settings {
        gap,
        budget,
        pool,
        workers,
    }
}

#[test]
fn words_are_kept_in_order(rt: HostRuntime) -> Result<(), Fail> {
    let words = words_of(rt.alloc(), "make seed=7")?;
    assert_eq!(rt; words.len(), 2);
    assert!(rt; !words.is_empty());
    assert!(rt; Argv::new(rt.alloc()).is_empty());
    assert_eq!(rt; words.word(1), b"seed=7".as_slice());
    Ok(())
}

#[test]
fn each_command_has_its_words(rt: HostRuntime) -> Result<(), Fail> {
    let usual = settings(GapRule::Ppm(1000), 100000, 100000, 1);
    let least = settings(GapRule::Fixed(0), 0, 1, 64);
    let most = settings(GapRule::Fixed(1 << 62), 1000000, 1000000, 1);
    // The words, the command, and whether it wants a team.
    let cases = [
        ("solve", Some(Command::Solve(usual)), false),
        (
            "solve workers=64 pool=1 budget=0 gap=0",
            Some(Command::Solve(least)),
            true,
        ),
        (
            "solve gap=4611686018427387904 budget=1000000 pool=1000000",
            Some(Command::Solve(most)),
            false,
        ),
        (
            "solve ppm=0001000 workers=2",
            Some(Command::Solve(settings(GapRule::Ppm(1000), 100000, 100000, 2))),
            true,
        ),
        ("check", Some(Command::Check { workers: 1 }), false),
        (
            "check workers=64",
            Some(Command::Check { workers: 64 }),
            true,
        ),
        (
            "make points=4096 seed=2147483647",
            Some(Command::Make {
                seed: 2147483647,
                points: 4096,
            }),
            false,
        ),
        (
            "trial seed=0 ppm=1000 points=1",
            Some(Command::Trial {
                seed: 0,
                points: 1,
                settings: usual,
            }),
            false,
        ),
        ("", None, false),
        ("Solve", None, false),
        (
            "resume workers=3 pool=4 budget=5",
            Some(Command::Resume {
                budget: 5,
                pool: Some(4),
                workers: 3,
            }),
            true,
        ),
        (
            "resume budget=0",
            Some(Command::Resume {
                budget: 0,
                pool: None,
                workers: 1,
            }),
            false,
        ),
        ("resume", None, false),
        ("resume budget=1 gap=0", None, false),
        ("resume budget=1000001", None, false),
        ("resume budget=1 budget=2", None, false),
        ("polish", Some(Command::Polish), false),
        ("polish x=1", None, false),
        (
            "near",
            Some(Command::Near {
                slack: 0,
                depth: 8,
                limit: 100_000,
            }),
            false,
        ),
        (
            "near limit=1 slack=1152921504606846976 depth=16",
            Some(Command::Near {
                slack: 1 << 60,
                depth: 16,
                limit: 1,
            }),
            false,
        ),
        ("near depth=17", None, false),
        ("near limit=0", None, false),
        ("near limit=1000001", None, false),
        ("near slack=1152921504606846977", None, false),
        ("near workers=1", None, false),
        ("solve --gap=1", None, false),
        ("solve gap", None, false),
        ("solve gap=", None, false),
        ("solve gap=-1", None, false),
        ("solve gap=+1", None, false),
        ("solve gap=1=2", None, false),
        ("solve gap=4611686018427387905", None, false),
        ("solve gap=99999999999999999999999", None, false),
        ("solve gap=1 gap=1", None, false),
        ("solve gap=1 ppm=1", None, false),
        ("solve ppm=1000001", None, false),
        ("solve budget=1000001", None, false),
        ("solve pool=0", None, false),
        ("solve pool=1000001", None, false),
        ("solve workers=0", None, false),
        ("solve workers=65", None, false),
        ("solve seed=1", None, false),
        ("check gap=1", None, false),
        ("check workers=0", None, false),
        ("check workers=65", None, false),
        ("check workers=2 workers=2", None, false),
        ("make seed=7", None, false),
        ("make seed=7 points=0", None, false),
        ("make seed=7 points=4097", None, false),
        ("make seed=2147483648 points=1", None, false),
        ("trial points=4", None, false),
        ("trial seed=7 points=4 workers=1", None, false),
    ];
    for (line, command, team) in cases {
        let words = words_of(rt.alloc(), line)?;
        assert_eq!(rt; parse_words(&words), command, "{line}");
        assert_eq!(rt; wants_team(&words), team, "{line}");
    }
    Ok(())
}
