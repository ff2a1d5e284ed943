//! What a status means for the user, where it isn't said by a fault.

use bsss_cli::Status;

/// What the status means, and what can be done; empty where the run did what was asked.
pub(crate) fn sentence_of(status: Status) -> &'static str {
    match status {
        Status::ReadFault => "reading the input failed; mostly it is a folder, or closed",
        Status::WriteFault => {
            "writing the output failed, so it isn't whole; mostly the device is full, or its \
            reader is gone"
        }
        Status::NoMemory => {
            "there is too little memory; a smaller pool takes less (docs/GUIDE.md, \"What a run \
            costs\")"
        }
        Status::TooLong => {
            "the input is longer than it may be: 1048576 bytes of an instance (an answer goes to \
            `check`, `resume`, `polish` or `near`), 100000000 of an answer that is read whole, \
            2^30 of one that is checked"
        }
        Status::PoolFull => {
            "not solved: the room for open squares was used up. The answer stands: its site costs \
            at most `cost` less `bound` more than the best. `bsss resume budget=NUMBER \
            pool=NUMBER` with a larger pool, up to 1000000, goes on from it (docs/GUIDE.md, \"When \
            it isn't solved\")"
        }
        Status::Budget => {
            "not solved: the budget was used up. The answer stands: its site costs at most `cost` \
            less `bound` more than the best. `bsss resume budget=NUMBER` goes on from it; where \
            its bound hardly rises, there may be a seam between forbidden polygons that touch: \
            let them overlap (docs/GUIDE.md, \"When it isn't solved\")"
        }
        Status::Floor => {
            "not solved: squares of one grid unit are left. The answer stands: its site costs at \
            most `cost` less `bound` more than the best. The gap asked is finer than the grid \
            shows (docs/GUIDE.md, \"When it isn't solved\")"
        }
        Status::Empty => {
            "no point is permitted: the forbidden polygons hold the permitted ones, borders and \
            all. The answer stands, and proves it (docs/GUIDE.md, \"When it isn't solved\")"
        }
        Status::SmallBudget { .. } => {
            "the budget counts from the squares that the answer has split: it has to be at least \
            as large"
        }
        Status::SmallPool { .. } => {
            "the pool has to have room for the squares that the answer left open"
        }
        Status::NoSite => "the answer has no site, so no point is near it",
        Status::TooMany { .. } => {
            "there are more squares than the limit: a lesser depth or slack gives fewer, and \
            `limit=NUMBER` up to 1000000 allows more"
        }
        _ => "",
    }
}

/// What can be done where the greatest pool was full.
pub(crate) const GREATEST_POOL: &str =
    "not solved: the room for open squares was used up, and it can't be larger. The answer stands: \
    its site costs at most `cost` less `bound` more than the best. Take a wider gap, or cut the \
    region into strips (docs/GUIDE.md, \"When it isn't solved\")";
