//! The help for each kind of bad words, each fault and each status.

use crate::write_help;
use bsss_cli::{Argv, Status, parse_words};
use cert_checker::CheckFault;
use port_io::{MemSink, WriteFault};
use std::alloc::Global;
use std::test::Fail;

/// The words of a line, which single spaces separate.
fn words_of(alloc: Global, line: &str) -> Result<Argv, Fail> {
    let mut words = Argv::new(alloc);
    if !line.is_empty() {
        for word in line.split(' ') {
            words.push(word)?;
        }
    }
    Ok(words)
}

/// The help for a run with these words and this status.
fn help_of(alloc: Global, line: &str, status: Status) -> Result<MemSink, Fail> {
    let words = words_of(alloc, line)?;
    let mut sink = MemSink::with_room(alloc, 10_000, 64, Vec::new(alloc))?;
    match write_help(&words, status, &mut sink) {
        Ok(()) => Ok(sink),
        Err(WriteFault) => Err("a write failed".into()),
    }
}

/// Whether the bytes have these somewhere.
fn contains(bytes: &[u8], wanted: &[u8]) -> bool {
    for i in 0..bytes.len() {
        if bytes[i..].starts_with(wanted) {
            return true;
        }
    }
    false
}

#[test]
fn each_kind_of_bad_words(rt: HostRuntime) -> Result<(), Fail> {
    let cases = [
        (
            "sovle gap=1",
            "bsss: `sovle` is no command; is `solve` meant?\n",
        ),
        ("polsh", "bsss: `polsh` is no command; is `polish` meant?\n"),
        ("Solve", "bsss: `Solve` is no command; is `solve` meant?\n"),
        (
            "solve bugdet=1",
            "bsss: `bugdet=1` has a name that this command hasn't; is `budget=` meant?\n",
        ),
        (
            "resume worker=2",
            "bsss: `worker=2` has a name that this command hasn't; is `workers=` meant?\n",
        ),
        ("--version", "bsss: `--version` is no command\n"),
        (
            "solve budget = 5",
            "bsss: `budget` isn't NAME=NUMBER, without spaces; an input comes from standard input, as \
            in: < FILE\n",
        ),
        (
            "solve --gap=1",
            "bsss: `--gap=1` has a name that this command hasn't; is `gap=` meant?\n",
        ),
        (
            "check gap=1",
            "bsss: `gap=1` has a name that this command hasn't\n",
        ),
        (
            "solve gap=1 gap=2",
            "bsss: `gap=2` gives a value to a name that has one\n",
        ),
        (
            "solve ppm=0.1",
            "bsss: `ppm=0.1` needs a whole number, of digits alone\n",
        ),
        (
            "solve gap=",
            "bsss: `gap=` needs a whole number, of digits alone\n",
        ),
        (
            "solve budget=2000000",
            "bsss: `budget=2000000` is out of its range, which is from 0 to 1000000\n",
        ),
        (
            "solve gap=99999999999999999999999",
            "bsss: `gap=99999999999999999999999` is out of its range, which is from 0 to \
            4611686018427387904\n",
        ),
        (
            "near slack=1152921504606846977",
            "bsss: `slack=1152921504606846977` is out of its range, which is from 0 to \
            1152921504606846976\n",
        ),
        (
            "near depth=17",
            "bsss: `depth=17` is out of its range, which is from 0 to 16\n",
        ),
        (
            "solve workers=0",
            "bsss: `workers=0` is out of its range, which is from 1 to 64\n",
        ),
        (
            "trial seed=1 points=1 ppm=1 gap=1",
            "bsss: `gap` and `ppm` don't stand together\n",
        ),
        (
            "a-word-of-sixty-bytes-------------------------------------60",
            "bsss: `a-word-of-sixty-bytes-------------------------------------60` is no command\n",
        ),
        (
            "a-word-of-sixty-one-bytes---------------------------------60x",
            "bsss: `a-word-of-sixty-one-bytes---------------------------------60...` (cut short) is \
            no command\n",
        ),
        (
            "s\u{1b}olve~",
            "bsss: `s?olve~` is no command; is `solve` meant?\n",
        ),
        ("make seed=1", "bsss: `points=NUMBER` is missing\n"),
        ("resume pool=1", "bsss: `budget=NUMBER` is missing\n"),
        (
            "polish x=1",
            "bsss: `x=1` has a name that this command hasn't\n",
        ),
    ];
    for (line, first) in cases {
        let words = words_of(rt.alloc(), line)?;
        assert!(rt; parse_words(&words).is_none(), "{line}");
        let sink = help_of(rt.alloc(), line, Status::Usage)?;
        assert!(rt; sink.bytes().starts_with(first.as_bytes()), "{line}");
        assert!(rt;
            sink.bytes()
                .ends_with(b" lists the commands with their words\n"),
            "{line}"
        );
    }
    for line in ["", "help", "--help", "-h", "solve --help"] {
        let sink = help_of(rt.alloc(), line, Status::Usage)?;
        assert!(rt; sink.bytes().starts_with(b"usage: bsss COMMAND "), "{line}");
    }
    Ok(())
}

#[test]
fn each_fault_has_its_name(rt: HostRuntime) -> Result<(), Fail> {
    let names = [
        (1, "BadHeader"),
        (2, "BadLine"),
        (3, "BadNumber"),
        (4, "OutOfRange"),
        (5, "ZeroWeight"),
        (6, "TooManyPoints"),
        (7, "WeightSum"),
        (8, "TooFewVertices"),
        (9, "TooManyVertices"),
        (10, "NotConvex"),
        (11, "TooManyPolygons"),
        (12, "NoKind"),
        (13, "TwoKinds"),
        (14, "NoPoint"),
        (15, "NoPermit"),
        (16, "NoEnd"),
        (17, "AfterEnd"),
    ];
    for (number, name) in names {
        let status = Status::BadInstance { number, line: 21 };
        let sink = help_of(rt.alloc(), "solve", status)?;
        assert!(rt; sink.bytes().starts_with(b"bsss: line 21: "));
        assert!(rt; sink.bytes()[15..].starts_with(name.as_bytes()), "{name}");
        assert!(rt; sink.bytes().ends_with(b"\n"), "{name}");
    }
    let names = [
        (1, "Form"),
        (2, "Instance"),
        (3, "SiteOutside"),
        (4, "CostDiffers"),
        (5, "TreeShort"),
        (6, "TreeLong"),
        (7, "NotShut"),
        (8, "BoundDiffers"),
        (9, "WrongMark"),
        (10, "SplitUncalled"),
        (11, "LeastDiffers"),
        (12, "WrongWord"),
        (13, "WrongCount"),
        (14, "SiteWorse"),
    ];
    for (number, name) in names {
        let fault = CheckFault {
            number,
            line: 7,
            differ: None,
        };
        let sink = help_of(rt.alloc(), "check", Status::Rejected(fault))?;
        assert!(rt; sink.bytes().starts_with(b"bsss: line 7: "));
        assert!(rt; sink.bytes()[14..].starts_with(name.as_bytes()), "{name}");
    }
    Ok(())
}

#[test]
fn each_status_has_its_sentence(rt: HostRuntime) -> Result<(), Fail> {
    let silent = [
        Status::Solved,
        Status::Accepted,
        Status::Made,
        Status::Polished,
        Status::Near,
    ];
    for status in silent {
        let sink = help_of(rt.alloc(), "solve", status)?;
        assert_eq!(rt; sink.bytes(), b"".as_slice());
    }
    let cases = [
        (Status::ReadFault, "bsss: reading the input failed;"),
        (Status::WriteFault, "bsss: writing the output failed,"),
        (Status::NoMemory, "bsss: there is too little memory;"),
        (Status::TooLong, "bsss: the input is longer than it may be:"),
        (
            Status::PoolFull,
            "bsss: not solved: the room for open squares",
        ),
        (Status::Budget, "bsss: not solved: the budget was used up."),
        (Status::Floor, "bsss: not solved: squares of one grid unit"),
        (Status::Empty, "bsss: no point is permitted:"),
        (
            Status::SmallBudget { has: 0, wants: 1 },
            "bsss: the budget counts from",
        ),
        (
            Status::SmallPool { has: 2, wants: 3 },
            "bsss: the pool has to have room",
        ),
        (Status::NoSite, "bsss: the answer has no site,"),
        (
            Status::TooMany { limit: 1 },
            "bsss: there are more squares than the limit:",
        ),
    ];
    for (status, first) in cases {
        let sink = help_of(rt.alloc(), "solve", status)?;
        assert!(rt; sink.bytes().starts_with(first.as_bytes()), "{first}");
        assert!(rt; sink.bytes().ends_with(b"\n"), "{first}");
    }
    let pools = [
        ("solve pool=1000000", false),
        ("solve pool=999999", true),
        ("resume budget=1 pool=1000000", false),
        ("resume budget=1", true),
    ];
    for (line, larger) in pools {
        let sink = help_of(rt.alloc(), line, Status::PoolFull)?;
        assert_eq!(rt;
            contains(sink.bytes(), b"with a larger pool"),
            larger,
            "{line}"
        );
        assert_eq!(rt;
            contains(sink.bytes(), b"it can't be larger"),
            !larger,
            "{line}"
        );
    }
    Ok(())
}
