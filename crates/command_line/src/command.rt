//! A command, with the numbers that its words say.

use siting_definitions::GapRule;

/// A command with its settings.
#[derive(Clone, Copy, Debug, PartialEq, Eq)]
pub enum Command {
    /// Reads an instance and writes an answer.
    Solve(Settings),
    /// Reads an answer and says whether it is valid.
    Check {
        /// How many workers, 1 to 64.
        workers: u32,
    },
    /// Reads an answer and goes on from it.
    Resume {
        /// How many leases may be given, 0 to 1,000,000. Those that the answer's splits took count.
        budget: u32,
        /// How many squares may be open at a time, 1 to 1,000,000; as many as in the answer
        /// where it isn't said.
        pool: Option<u32>,
        /// How many workers, 1 to 64.
        workers: u32,
    },
    /// Reads an answer and writes a better bound for it.
    Polish,
    /// Reads an answer and writes the squares in which a point may cost little more than its site.
    Near {
        /// How much more such a point may cost than the site, in cost units: 0 to 2^60, which is
        /// 1,152,921,504,606,846,976.
        slack: i64,
        /// How many levels below the starting square the squares lie, 0 to 16.
        depth: u8,
        /// How many squares may be written, 1 to 1,000,000.
        limit: u32,
    },
    /// Writes a made instance.
    Make {
        /// Where the generator begins, 0 to 2,147,483,647.
        seed: u32,
        /// How many points, 1 to 4,096.
        points: u32,
    },
    /// Solves a made instance, checks the answer, and writes a summary.
    Trial {
        /// Where the generator begins, 0 to 2,147,483,647.
        seed: u32,
        /// How many points, 1 to 4,096.
        points: u32,
        /// How it is solved, with one worker.
        settings: Settings,
    },
}

/// How an instance is solved.
#[derive(Clone, Copy, Debug, PartialEq, Eq)]
pub struct Settings {
    /// How the gap asked is found.
    pub gap: GapRule,
    /// How many leases may be given, 0 to 1,000,000.
    pub budget: u32,
    /// How many squares may be open, 1 to 1,000,000.
    pub pool: u32,
    /// How many workers, 1 to 64.
    pub workers: u32,
}
