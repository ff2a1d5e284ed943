//! Checks of answers.

use super::{CORNER_ANSWER, ONE_LEASE_ANSWER, run_words, sink_of, words_of};
use crate::{OpenGate, Status, run};
use cert_checker::{CheckFault, Differ};
use port_io::MemSource;
use std::test::Fail;

/// A check by one worker, and by teams.
const CHECKS: [&str; 3] = ["check", "check workers=3", "check workers=64"];

#[test]
fn an_answer_is_checked(rt: HostRuntime) -> Result<(), Fail> {
    let head = "siting answer 1\nsiting 1\nkind sum\npoint 0 0 1\npermit 3 4 9 4 3 10\nend\ngap 0\n\
        budget 100000\npool 100000\n";
    // What comes after the pool, the code, and what is written.
    let cases = [
        (
            "site 196608 262144\ncost 327680 327680\nbound 327680\nanswer solved\nopen 0\n\
            leases 1\nroot 196608 262144 19\nB 327680\nend\n",
            0,
            "accepted\n",
        ),
        (
            "site 196608 262144\ncost 327680 327680\nbound 327680\nanswer solved\nopen 0\n\
            leases 1\nroot 196608 262144 19\nB 327681\nend\n",
            5,
            "rejected 8 line 17 has 327681 wants 327680\n",
        ),
        (
            "site none\ncost none\nbound 327680\nanswer solved\nopen 0\nleases 1\n\
            root 196608 262144 19\nB 327680\nend\n",
            5,
            "rejected 14 line 11 has none wants 327680\n",
        ),
        (
            "site 196608 262144\ncost 327680 327680\nbound 327680\nanswer solved\nopen 0\n\
            leases 1\nroot 196608 262144 19\nend\n",
            5,
            "rejected 5 line 17\n",
        ),
    ];
    for (tail, code, text) in cases {
        let mut answer = String::from_str(rt.alloc(), head)?;
        answer.push_str(tail)?;
        for line in CHECKS {
            let (ended, sink) = run_words(&rt, rt.alloc(), line, answer.as_str())?;
            assert_eq!(rt; ended, code, "{line}: {text}");
            assert_eq!(rt; sink.bytes(), text.as_bytes(), "{line}");
        }
    }
    Ok(())
}

#[test]
fn each_kind_of_fault_is_found(rt: HostRuntime) -> Result<(), Fail> {
    // A text in the answer, what stands in its place, and what is written.
    let cases = [
        (
            "cost 185363 185364",
            "cost 185363 185365",
            "rejected 4 line 11 has 185365 wants 185364\n",
        ),
        (
            "site 0 0\ncost 185363 185364",
            "site none\ncost none",
            "rejected 14 line 11 has none wants 185364\n",
        ),
        ("S 185364", "S -", "rejected 10 line 17\n"),
        ("S 185364", "S 185365", "rejected 10 line 17\n"),
        ("O 0", "X", "rejected 7 line 18\n"),
        ("B 185363", "O 185363", "rejected 9 line 21\n"),
        ("answer budget", "answer solved", "rejected 12 line 22\n"),
        ("leases 1", "leases 0", "rejected 13 line 22\n"),
        ("O 0", "O 9223372036854775808", "rejected 1 line 18\n"),
        ("O 0", "O 00", "rejected 1 line 18\n"),
        // Two faults, of which the first is told, and one before a line that is missing.
        (
            "O 131072\nO 131072\nB 185363",
            "O 131073\nO 131072\nO 185363",
            "rejected 8 line 19 has 131073 wants 131072\n",
        ),
        (
            "O 131072\nO 131072\nB 185363",
            "O 131073\nO 131072",
            "rejected 8 line 19 has 131073 wants 131072\n",
        ),
    ];
    for (part, other, wanted) in cases {
        let at = ONE_LEASE_ANSWER.find(part).ok_or("no such part")?;
        let mut answer = String::from_str(rt.alloc(), &ONE_LEASE_ANSWER[..at])?;
        answer.push_str(other)?;
        answer.push_str(&ONE_LEASE_ANSWER[at + part.len()..])?;
        for line in CHECKS {
            let (code, sink) = run_words(&rt, rt.alloc(), line, answer.as_str())?;
            assert_eq!(rt; code, 5, "{line}: {wanted}");
            assert_eq!(rt; sink.bytes(), wanted.as_bytes(), "{line}");
        }
    }
    Ok(())
}

#[test]
fn a_fault_comes_before_a_later_failure_of_the_source(rt: HostRuntime) -> Result<(), Fail> {
    let root = "root 196608 262144 19\n";
    let at = CORNER_ANSWER.find(root).ok_or("no root")? + root.len();
    let mut text = String::from_str(rt.alloc(), &CORNER_ANSWER[..at])?;
    text.push_str("B 327681\n")?;
    let read = text.len() as u64;
    text.push_str("end\n")?;
    let fault = CheckFault {
        number: 8,
        line: 17,
        differ: Some(Differ {
            has: Some(327_681),
            wants: Some(327_680),
        }),
    };
    // The call that fails, of one byte each, and the status.
    let cases = [
        (read, Status::ReadFault),
        (read + 1, Status::Rejected(fault)),
    ];
    for (call, wanted) in cases {
        for line in CHECKS {
            let words = words_of(rt.alloc(), line)?;
            let held = Vec::from_slice(rt.alloc(), text.as_bytes())?;
            let mut source = MemSource::new(held, 1, Vec::from_slice(rt.alloc(), &[call])?);
            let mut sink = sink_of(rt.alloc(), 64, 0)?;
            let status = run(&rt, rt.alloc(), &words, &mut source, &mut sink, &OpenGate);
            assert_eq!(rt; status, wanted, "{line}");
        }
    }
    Ok(())
}
