//! The check by several workers: the same verdicts as by one, which parts pass, and two at once.

ghost use Rattle.std.specs.Prelude.{◌≤◌};

use super::*;
use answer_model::leaf_mark;
use cert_checker::{Accepted, CheckError, CheckFault, Differ, Walk, check};
use convex_region::Polygon;
use exact_geometry::Place;
use exclusion::excluded;
use port_io::{MemSource, Source};
use site_model::{DemandPt, Instance, Kind, Site};
use siting_definitions::{Mark, Word};
use std::alloc::Global;
use std::process::Abort;
use std::sync::atomic::{AtomicBool, AtomicU64, Ordering};
use std::test::Fail;
use std::thread::Threads;

/// An answer whose root is split.
const FIVE_SQUARES: &str = "siting answer 1\nsiting 1\nkind sum\npoint 2 2 1\n\
    permit 0 0 4 0 4 4 0 4\nend\ngap 185\nbudget 1\npool 100000\nsite 0 0\ncost 185363 185364\n\
    bound 0\nanswer budget\nopen 0\nleases 1\nroot 0 0 19\n\
    S 185364\nO 0\nO 131072\nO 131072\nB 185363\nend\n";

/// A source of a text, in chunks of 64 bytes, which fails at this call, counted from 1.
fn source_of(alloc: Global, text: &str, fails: u64) -> Result<MemSource, Fail> {
    let bytes = Vec::from_slice(alloc, text.as_bytes())?;
    Ok(MemSource::new(bytes, 64, Vec::from_slice(alloc, &[fails])?))
}

/// The number of a line, and what stands in its place.
type Change = (usize, &'static str);

/// No line is changed.
const NONE: Change = (0, "");

/// The first lines of a text, with these changes.
fn lines_of<'x>(
    alloc: Global,
    text: &'x str,
    count: usize,
    changes: &'x [Change],
) -> Result<String, Fail> {
    let mut lines = String::new(alloc);
    for (i, line) in text.split_inclusive('\n').enumerate() {
        if i < count {
            let mut now = line;
            for (number, instead) in changes {
                if *number == i + 1 {
                    now = instead;
                }
            }
            lines.push_str(now)?;
        }
    }
    Ok(lines)
}

/// The fault of this number in this line.
fn fault(number: u8, line: u64, differ: Option<Differ>) -> Result<Accepted, CheckError> {
    Err(CheckError::Fault(CheckFault {
        number,
        line,
        differ,
    }))
}

/// Sees that this is said of a text by so many workers, where the source fails at this call.
fn expect_of(
    rt: &(impl Threads + Sync + Abort),
    alloc: Global,
    text: &str,
    fails: u64,
    workers: u32,
    want: &Result<Accepted, CheckError>,
) -> Result<(), Fail>
    requires least { 1 ≤ workers }
    requires most { workers ≤ 64 }
{
    let mut source = source_of(alloc, text, fails)?;
    assert!(rt; check_with(rt, alloc, &mut source, workers, &OpenCheckGate) == *want);
    Ok(())
}

/// Sees that this is said of a text, by one worker and by several, where the source fails at this
/// call.
fn expect(
    rt: &(impl Threads + Sync + Abort),
    alloc: Global,
    text: &str,
    fails: u64,
    want: &Result<Accepted, CheckError>,
) -> Result<(), Fail> {
    let mut source = source_of(alloc, text, fails)?;
    assert!(rt; check(alloc, &mut source) == *want);
    for workers in [1, 2, 3, 64] {
        expect_of(rt, alloc, text, fails, workers, want)?;
    }
    Ok(())
}

#[test]
fn verdicts_are_those_of_one_worker(rt: HostRuntime) -> Result<(), Fail> {
    let differ = Some(Differ {
        has: Some(131_073),
        wants: Some(131_072),
    });
    let accepted = Accepted {
        word: Word::Budget,
        best: Some((Site::of(0, 0), 185_363, 185_364)),
        bound: Some(0),
        nodes: 5,
    };
    let wrong = (19, "O 131073\n");
    // What is changed, the call at which the source fails, and the verdict.
    let cases: [([Change; 2], u64, Result<Accepted, CheckError>); 11] = [
        ([NONE, NONE], 0, Ok(accepted)),
        // A fault, and one in another part, a square that is still to come, a line that isn't of
        // its form, a byte after the last line, a read that fails.
        ([wrong, (21, "O 185363\n")], 0, fault(8, 19, differ)),
        ([wrong, (21, "")], 0, fault(8, 19, differ)),
        ([wrong, (20, "O 00\n")], 0, fault(8, 19, differ)),
        ([wrong, (22, "end\ne")], 0, fault(8, 19, differ)),
        ([wrong, (22, "")], 5, fault(8, 19, differ)),
        // A line where no square is to come.
        ([(22, "X\nend\n"), NONE], 0, fault(6, 22, None)),
        // The word of the head isn't the one that the marks call for.
        ([(13, "answer solved\n"), NONE], 0, fault(12, 22, None)),
        // A byte after the last line.
        ([(22, "end\ne"), NONE], 0, fault(1, 23, None)),
        ([NONE, NONE], 2, Err(CheckError::ReadFault)),
        ([NONE, (22, "")], 5, Err(CheckError::ReadFault)),
    ];
    for (changes, fails, want) in cases.iter() {
        let text = lines_of(rt.alloc(), FIVE_SQUARES, 22, changes)?;
        expect(&rt, rt.alloc(), text.as_str(), *fails, want)?;
    }
    Ok(())
}

/// Sees that several workers say what one says of the answer with this in the place of the line of
/// this number, counted from 0.
fn expect_changed<'x>(
    rt: &(impl Threads + Sync + Abort),
    alloc: Global,
    number: usize,
    instead: &'x str,
) -> Result<(), Fail> {
    let answer: &'x str = FIVE_SQUARES;
    let mut text = String::new(alloc);
    for (i, line) in answer.split_inclusive('\n').enumerate() {
        text.push_str(if i == number { instead } else { line })?;
    }
    let mut source = source_of(alloc, text.as_str(), 0)?;
    let want = check(alloc, &mut source);
    expect(rt, alloc, text.as_str(), 0, &want)
}

#[test]
fn changed_lines_have_the_same_verdicts(rt: HostRuntime) -> Result<(), Fail> {
    for (i, line) in FIVE_SQUARES.split_inclusive('\n').enumerate() {
        let content = line.strip_suffix('\n').ok_or("no line feed")?;
        let twice = format!(in rt.alloc(); "{line}{line}")?;
        let longer = format!(in rt.alloc(); "{content}0\n")?;
        expect_changed(&rt, rt.alloc(), i, "")?;
        expect_changed(&rt, rt.alloc(), i, twice.as_str())?;
        expect_changed(&rt, rt.alloc(), i, longer.as_str())?;
    }
    Ok(())
}

/// Two towns at one place, whose terms take each other away.
#[tactic(auto, unfolding(siting_definitions::specs::Instance::weight))]
fn two_towns(rt: &impl Abort, alloc: Global) -> Instance {
    let square = [
        Place::of(0, 0),
        Place::of(4, 0),
        Place::of(4, 4),
        Place::of(0, 4),
    ];
    let polygon = Polygon::build(alloc, &square).expect(rt, "a polygon");
    let towns = [DemandPt::of(0, 0, 1, None), DemandPt::of(0, 0, -1, None)];
    let points = Vec::from_array(alloc, towns).expect(rt, "memory");
    let permitted = Vec::from_array(alloc, [polygon]).expect(rt, "memory");
    Instance::build(Kind::Sum, points, permitted, Vec::new(alloc))
}

/// Goes on past the square to come, which is split or not.
fn go_on(walk: &mut Walk, split: bool) {
    if let Some(square) = walk.coming() {
        if square.level > 0 || !split {
            walk.step(split);
        }
    }
}

/// An answer to the two towns. The bound of a square is less than the cost of each site, so each
/// square may be split: so many are, the first in preorder that are above this level. Its node
/// lines begin at line 18.
fn answer_of(rt: &impl Abort, alloc: Global, splits: u32, level: u8) -> Result<String, Fail>
    requires { splits ≤ 1000000 }
{
    let instance = two_towns(rt, alloc);
    let mut walk = Walk::begin(instance.root());
    let mut left = splits;
    let mut least = 0;
    let mut lines = String::new(alloc);
    for _ in 0..=4 * splits {
        if let Some(square) = walk.coming() {
            let split = left > 0 && square.level > level && !excluded(&instance, square);
            if split {
                left -= 1;
                lines.push_str("S 0\n")?;
            } else {
                let line = match leaf_mark(&instance, 0, Some(0), square) {
                    Mark::Left(bound) => {
                        least = bound.min(least);
                        format!(in alloc; "O {bound}\n")?
                    }
                    Mark::Floor(bound) => {
                        least = bound.min(least);
                        format!(in alloc; "F {bound}\n")?
                    }
                    _ => format!(in alloc; "X\n")?,
                };
                lines.push_str(line.as_str())?;
            }
            go_on(&mut walk, split);
        }
    }
    Ok(format!(in alloc;
        "siting answer 1\nsiting 1\nkind sum\npoint 0 0 1\npoint 0 0 -1\npermit 0 0 4 0 4 4 0 4\n\
        end\ngap 0\nbudget {splits}\npool 100000\nsite 0 0\ncost 0 0\nbound {least}\n\
        answer budget\nopen 0\nleases {splits}\nroot 0 0 19\n{lines}end\n"
    )?)
}

/// What the answer with so many nodes says, where the quarter that lies farthest is a leaf.
fn accepted_of(nodes: u64) -> Accepted {
    Accepted {
        word: Word::Budget,
        best: Some((Site::of(0, 0), 0, 0)),
        bound: Some(-370_728),
        nodes,
    }
}

#[test]
fn faults_at_the_end_of_a_batch(rt: HostRuntime) -> Result<(), Fail> {
    // One node line more than a batch has. The last of the first batch is line 65,553.
    let answer = answer_of(&rt, rt.alloc(), 16_384, 8)?;
    let cases: [([Change; 2], Result<Accepted, CheckError>); 5] = [
        ([NONE, NONE], Ok(accepted_of(65_537))),
        ([(65_553, "X\n"), (65_554, "X\n")], fault(7, 65_553, None)),
        ([(65_554, "X\n"), NONE], fault(7, 65_554, None)),
        // As many node lines as a batch has, and then the last line.
        ([(65_554, ""), NONE], fault(5, 65_554, None)),
        // A line where no square is to come.
        ([(65_555, "X\nend\n"), NONE], fault(6, 65_555, None)),
    ];
    for (changes, want) in cases.iter() {
        let text = lines_of(rt.alloc(), answer.as_str(), 65_555, changes)?;
        expect_of(&rt, rt.alloc(), text.as_str(), 0, 3, want)?;
    }
    Ok(())
}

#[test]
fn ends_in_the_second_batch(rt: HostRuntime) -> Result<(), Fail> {
    let answer = answer_of(&rt, rt.alloc(), 17_500, 8)?;
    let wrong = (65_554, "X\n");
    // What is changed in the first 69,000 lines, of which a byte is missing, and the verdict where
    // the text ends there, and where the source fails there.
    let cases = [
        ([NONE], fault(1, 69_000, None), Err(CheckError::ReadFault)),
        ([wrong], fault(7, 65_554, None), fault(7, 65_554, None)),
    ];
    for (changes, cut, failed) in cases.iter() {
        let mut front = lines_of(rt.alloc(), answer.as_str(), 69_000, changes)?;
        front.pop();
        expect_of(&rt, rt.alloc(), front.as_str(), 0, 3, cut)?;
        let fails = front.len() as u64 / 64 + 1;
        expect_of(&rt, rt.alloc(), front.as_str(), fails, 3, failed)?;
    }
    Ok(())
}

#[test]
fn a_split_of_level_0_ends_a_batch(rt: HostRuntime) -> Result<(), Fail> {
    // Line 37 is that of the first square of level 0.
    let answer = answer_of(&rt, rt.alloc(), 19, 0)?;
    let cases: [([Change; 2], Result<Accepted, CheckError>); 3] = [
        ([NONE, NONE], Ok(accepted_of(77))),
        ([(37, "S 0\n"), NONE], fault(10, 37, None)),
        ([(37, "S 0\n"), (36, "X\n")], fault(7, 36, None)),
    ];
    for (changes, want) in cases.iter() {
        let text = lines_of(rt.alloc(), answer.as_str(), 95, changes)?;
        expect(&rt, rt.alloc(), text.as_str(), 0, want)?;
    }
    Ok(())
}

/// A gate that counts which parts pass: a digit of base 16 for each.
#[derive(Drop)]
struct Record {
    parts: AtomicU64,
}

impl CheckGate for Record {
    fn pass(&self, part: u32) {
        if part < 16 {
            self.parts.fetch_add(1 << (4 * part), Ordering::SeqCst);
        }
    }
}

#[test]
fn each_part_with_a_line_passes_once(rt: HostRuntime) -> Result<(), Fail> {
    let wrong = lines_of(rt.alloc(), FIVE_SQUARES, 22, &[(19, "O 131073\n")])?;
    // A part passes before it is checked, so also where it has a fault.
    for (text, accepted) in [(FIVE_SQUARES, true), (wrong.as_str(), false)] {
        for (workers, parts) in [(1, 0x1), (2, 0x11), (3, 0x111), (5, 0x11111), (8, 0x11111)] {
            let gate = Record {
                parts: AtomicU64::new(0),
            };
            let mut source = source_of(rt.alloc(), text, 0)?;
            let verdict = check_with(&rt, rt.alloc(), &mut source, workers, &gate);
            assert_eq!(rt; verdict.is_ok(), accepted);
            assert_eq!(rt; gate.parts.load(Ordering::SeqCst), parts);
        }
    }
    Ok(())
}

/// How often the gate that waits looks before it gives up.
const LOOKS: u32 = 200_000_000;

/// A gate that holds the part that passes first until another one passes.
#[derive(Drop)]
struct Meeting {
    passed: AtomicU64,
    gave_up: AtomicBool,
}

impl CheckGate for Meeting {
    fn pass(&self, _part: u32) {
        if self.passed.fetch_add(1, Ordering::SeqCst) != 0 {
            return;
        }
        for _ in 0..LOOKS {
            if self.passed.load(Ordering::SeqCst) > 1 {
                return;
            }
        }
        self.gave_up.store(true, Ordering::SeqCst);
    }
}

#[test]
fn two_parts_at_once(rt: HostRuntime) -> Result<(), Fail> {
    let gate = Meeting {
        passed: AtomicU64::new(0),
        gave_up: AtomicBool::new(false),
    };
    let mut source = source_of(rt.alloc(), FIVE_SQUARES, 0)?;
    assert!(rt; check_with(&rt, rt.alloc(), &mut source, 2, &gate).is_ok());
    assert!(rt; !gate.gave_up.load(Ordering::SeqCst));
    Ok(())
}

/// How many bytes a source has left.
fn bytes_left(source: &mut MemSource) -> u64 {
    let mut left: u64 = 0;
    let mut room = [0; 64];
    for _ in 0..100_000 {
        match source.read(&mut room) {
            Ok(0) | Err(_) => return left,
            Ok(count) => left = left.saturating_add(count as u64),
        }
    }
    left
}

#[test]
fn a_team_reads_at_most_a_batch_ahead(rt: HostRuntime) -> Result<(), Fail> {
    // The first node line has a fault. With those after it there are 93,338, of four bytes each.
    let mut text = lines_of(rt.alloc(), FIVE_SQUARES, 16, &[])?;
    for leaf in 0..70_000_u32 {
        let splits = if leaf == 0 {
            9
        } else {
            leaf.trailing_zeros() / 2
        };
        for _ in 0..splits {
            text.push_str("S 0\n")?;
        }
        text.push_str("O 0\n")?;
    }
    for workers in [1, 3] {
        let mut source = source_of(rt.alloc(), text.as_str(), 0)?;
        match check_with(&rt, rt.alloc(), &mut source, workers, &OpenCheckGate) {
            Err(CheckError::Fault(fault)) => assert_eq!(rt; fault.line, 17),
            _ => assert!(rt; false, "a fault that was not found"),
        }
        assert!(rt; bytes_left(&mut source) >= 4 * (93_338 - 65_536) - 4_096);
    }
    Ok(())
}
