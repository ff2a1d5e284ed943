//! What calls answer: each type by its literal, each enum by its variants.

use bsss_cli::{GapRule, Status};
use cert_checker::{Accepted, CheckError, CheckFault, Differ, Tally};
use certificate::{AnswerError, Head, Item, Word};
use convex_region::PolygonFault;
use discard_log::Mark;
use instance_text::{InstanceError, InstanceFault};
use pool_core::{Finding, Given, Lease, LeaseAnswer, Stop};
use port_io::ReadAll;
use resume_job::{LoadError, ReopenError};
use shared_pool::{TryLease, TryReturn};
use site_model::{Instance, Kind};

#[test]
fn outcomes_are_built(rt: HostRuntime) {
    let differ = Differ {
        has: None,
        wants: Some(0),
    };
    let fault = CheckFault {
        number: 1,
        line: 1,
        differ: Some(differ),
    };
    let accepted = Accepted {
        word: Word::Empty,
        best: None,
        bound: None,
        nodes: 1,
    };
    let tally = Tally {
        nodes: 0,
        splits: 0,
        leaves: 0,
        open_leaves: 0,
        floor_leaves: 0,
        least: None,
    };
    let statuses = [
        (Status::Solved, 0),
        (Status::Accepted, 0),
        (Status::Made, 0),
        (Status::Polished, 0),
        (Status::Near, 0),
        (Status::Usage, 2),
        (Status::BadInstance { number: 1, line: 1 }, 3),
        (Status::Rejected(fault), 5),
        (Status::ReadFault, 6),
        (Status::WriteFault, 7),
        (Status::NoMemory, 8),
        (Status::TooLong, 9),
        (Status::PoolFull, 10),
        (Status::Budget, 11),
        (Status::Floor, 12),
        (Status::Empty, 13),
        (Status::SmallBudget { has: 0, wants: 1 }, 14),
        (Status::SmallPool { has: 0, wants: 1 }, 15),
        (Status::NoSite, 16),
        (Status::TooMany { limit: 1 }, 17),
    ];
    for (status, code) in statuses {
        assert_eq!(rt; status.code(), code);
    }
    assert_eq!(rt; accepted.nodes, 1);
    assert_eq!(rt; tally, Tally::new());
}

/// A head that says nothing of a site.
fn empty_head(instance: Instance) -> Head {
    Head {
        instance,
        gap: 0,
        budget: 0,
        pool: 1,
        site: None,
        cost: None,
        bound: None,
        word: Word::Empty,
        open_count: 0,
        leases: 0,
    }
}

/// Each kind has its number.
fn of_kind(kind: Kind) -> u8 {
    match kind {
        Kind::Sum => 1,
        Kind::Max => 2
    }
}

/// Each word has its number.
fn of_word(word: Word) -> u8 {
    match word {
        Word::Solved => 1,
        Word::PoolFull => 2,
        Word::Budget => 3,
        Word::Floor => 4,
        Word::Empty => 5
    }
}

/// The number of a rule.
fn of_gap_rule(rule: GapRule) -> i64 {
    match rule {
        GapRule::Fixed(gap) => gap,
        GapRule::Ppm(ppm) => ppm.into()
    }
}

/// The number of a mark.
fn of_mark(mark: Mark) -> Option<i64> {
    match mark {
        Mark::Split(seen) => seen,
        Mark::Shut => None,
        Mark::Bounded(b) | Mark::Floor(b) | Mark::Left(b) => Some(b)
    }
}

/// The bound of a finding.
fn of_finding(finding: Finding) -> Option<i64> {
    match finding {
        Finding::Excluded => None,
        Finding::Bounded(b) | Finding::Raise(b) | Finding::Part(b) | Finding::Floor(b) => Some(b)
    }
}

/// Each outcome of a return has its number.
fn of_given(given: Given) -> u8 {
    match given {
        Given::Logged => 1,
        Given::Raised => 2,
        Given::Parted => 3,
        Given::Kept => 4
    }
}

/// The number of a stop.
fn of_stop(stop: Stop) -> u32 {
    match stop {
        Stop::PoolFull { count } => count,
        Stop::Budget { leases } => leases
    }
}

/// The lease of an answer.
fn of_lease_answer(answer: LeaseAnswer) -> Option<Lease> {
    match answer {
        LeaseAnswer::Stopped(_) | LeaseAnswer::Done | LeaseAnswer::Idle => None,
        LeaseAnswer::Leased(lease) => Some(lease)
    }
}

/// The stop of a try.
fn of_try_lease(answer: TryLease) -> Option<Stop> {
    match answer {
        TryLease::Busy | TryLease::Got | TryLease::Idle | TryLease::Done => None,
        TryLease::Stopped(stop) => Some(stop)
    }
}

/// The outcome of a try.
fn of_try_return(answer: TryReturn) -> Option<Given> {
    match answer {
        TryReturn::Busy => None,
        TryReturn::Taken(given) => Some(given)
    }
}

/// The mark of an item.
fn of_item(item: Item) -> Option<Mark> {
    match item {
        Item::Node(mark) => Some(mark),
        Item::End => None
    }
}

/// Each fault of a polygon has its number.
fn of_polygon_fault(fault: PolygonFault) -> u8 {
    match fault {
        PolygonFault::TooFewVertices => 1,
        PolygonFault::TooManyVertices => 2,
        PolygonFault::NoMemory => 3,
        PolygonFault::NotConvex { edge, vertex } => edge.max(vertex),
    }
}

/// Each error of reading has its number.
fn of_read_all(error: ReadAll) -> u8 {
    match error {
        ReadAll::TooLong => 1,
        ReadAll::ReadFault => 2,
        ReadAll::NoMemory => 3
    }
}

/// The fault of an error.
fn of_instance_error(error: InstanceError) -> Option<InstanceFault> {
    match error {
        InstanceError::Fault(fault) => Some(fault),
        InstanceError::NoMemory => None
    }
}

/// The line of an error.
fn of_answer_error(error: AnswerError) -> Option<u64> {
    match error {
        AnswerError::Form { line } => Some(line),
        AnswerError::Instance
        | AnswerError::TooLong
        | AnswerError::ReadFault
        | AnswerError::NoMemory => None,
    }
}

/// The fault of an error of a check.
fn of_check_error(error: CheckError) -> Option<CheckFault> {
    match error {
        CheckError::Fault(fault) => Some(fault),
        CheckError::ReadFault | CheckError::TooLong | CheckError::NoMemory => None
    }
}

/// The fault of an error of a load.
fn of_load_error(error: LoadError) -> Option<CheckFault> {
    match error {
        LoadError::Check(fault) => Some(fault),
        LoadError::ReadFault | LoadError::TooLong | LoadError::NoMemory => None
    }
}

/// The numbers of an error.
fn of_reopen_error(error: ReopenError) -> Option<(u32, u32)> {
    match error {
        ReopenError::SmallBudget { has, wants } | ReopenError::SmallPool { has, wants } => Some((
            has, wants,
        )),
        ReopenError::NoMemory => None,
    }
}
