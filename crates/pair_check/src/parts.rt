//! The lines of a batch, checked in parts at the same time.

ghost use Rattle.std.specs.Prelude.{◌≡◌, ◌+◌, ◌*◌, ◌/◌, ◌%◌, ◌<◌, ◌≤◌, ◌^◌, min, IfOk, length};
ghost use Rattle.std.specs.Result.{result_err};
ghost use denote.Param.Send.{IsSync};
ghost use Rattle.siting_definitions.specs.Sites.{opening_cost};
ghost use Rattle.answer_model.specs.Tally.{AreSmall, tally_sum};
ghost use Rattle.cert_checker.specs.Faults.{or_else};
ghost use Rattle.pair_check.specs.declared.taking.TheConstants.{BATCH_LINES};
ghost use Rattle.pair_check.specs.Lines.{AreChecked};

use crate::gate::CheckGate;
use answer_model::Head;
use cert_checker::{CheckFault, Tally, mark_fault};
use discard_log::Node;
use std::thread::{Threads, join};

/// Checks the lines of nodes in so many parts, which are numbered from `first`, each in a thread of
/// its own where one can be made: the first fault of the first part that has one, and where there
/// is none the tally of all marks. So many lines stand `above` the first.
///
/// The lengths of the parts differ by one at most, and the longer ones come first.
#[cycle(halves)]
pub(crate) fn check_parts<R: Threads + Sync, G: CheckGate + Sync>(
    rt: &R,
    gate: &G,
    head: &Head,
    opening: Option<i64>,
    nodes: &[Node],
    above: u64,
    first: u32,
    parts: u32,
) -> Result<Tally, CheckFault>
    requires opening { opening ≡ opening_cost head.now.instance }
    requires few { length nodes.now ≤ BATCH_LINES }
    requires lines { above + length nodes.now < 2 ^ 64 }
    requires some { 0 < parts }
    requires numbers { first + parts < 2 ^ 32 }
    ensures { AreChecked head.now above nodes.now result }
{
    if parts == 1 {
        return check_part(gate, head, opening, nodes, above, first);
    }
    let low = parts / 2;
    let high = parts - low;
    let (front, back) = nodes.split_at(lines_of(nodes.len(), parts as usize, low as usize));
    let between = above + front.len() as u64;
    let middle = first + low;
    let low_parts = move || -> Result<Tally, CheckFault>
        requires { IsSync R.row × IsSync G.row × (opening ≡ opening_cost head.now.instance)
            × (length front.now ≤ BATCH_LINES) × (above + length front.now < 2 ^ 64) × (0 < low)
            × (first + low < 2 ^ 32) }
        ensures { AreChecked head.entry.now above front.entry.now result }
    { check_parts(rt, gate, head, opening, front, above, first, low) };
    let high_parts = move || -> Result<Tally, CheckFault>
        requires { IsSync R.row × IsSync G.row × (opening ≡ opening_cost head.now.instance)
            × (length back.now ≤ BATCH_LINES) × (between + length back.now < 2 ^ 64) × (0 < high)
            × (middle + high < 2 ^ 32) }
        ensures { AreChecked head.entry.now between back.entry.now result }
    { check_parts(rt, gate, head, opening, back, between, middle, high) };
    let (one, other) = join(rt, low_parts, high_parts);
    joined(one, other)
}

/// How many of so many lines the first `low` of `parts` parts have, of which each has as many as the
/// others or, where it is one of the first, one more.
fn lines_of(lines: usize, parts: usize, low: usize) -> usize
    requires lines { lines ≤ BATCH_LINES }
    requires parts { low < parts }
    requires few { parts < 2 ^ 32 }
    ensures value { result ≡ low * (lines / parts) + min low (lines % parts) }
    ensures within { result ≤ lines }
{
    low * (lines / parts) + low.min(lines % parts)
}

/// Checks the lines of one part, which passes the gate if it has a line.
fn check_part<G: CheckGate>(
    gate: &G,
    head: &Head,
    opening: Option<i64>,
    nodes: &[Node],
    above: u64,
    part: u32,
) -> Result<Tally, CheckFault>
    requires opening { opening ≡ opening_cost head.now.instance }
    requires few { length nodes.now ≤ BATCH_LINES }
    requires lines { above + length nodes.now < 2 ^ 64 }
    ensures { AreChecked head.now above nodes.now result }
{
    if !nodes.is_empty() {
        gate.pass(part);
    }
    check_lines(head, opening, nodes, above)
}

/// Checks lines of nodes one after another, of which the first has so many lines `above` it.
fn check_lines(
    head: &Head,
    opening: Option<i64>,
    nodes: &[Node],
    above: u64,
) -> Result<Tally, CheckFault>
    requires opening { opening ≡ opening_cost head.now.instance }
    requires few { length nodes.now ≤ BATCH_LINES }
    requires lines { above + length nodes.now < 2 ^ 64 }
    ensures { AreChecked head.now above nodes.now result }
{
    let mut tally = Tally::new();
    let mut line = above;
    for node in nodes {
        line += 1;
        if let Some(fault) = mark_fault(head, opening, node.square, node.mark, line) {
            return Err(fault);
        }
        tally.add(node.mark);
    }
    Ok(tally)
}

/// What two parts say, one after the other: the first fault, or the tally of both.
fn joined(
    first: Result<Tally, CheckFault>,
    second: Result<Tally, CheckFault>,
) -> Result<Tally, CheckFault>
    requires first { IfOk first (λ tally. AreSmall tally) }
    requires second { IfOk second (λ tally. AreSmall tally) }
    ensures fault { result_err result ≡ or_else (result_err first) (result_err second) }
    ensures tally { IfOk result (λ tally.
        IfOk first (λ one. IfOk second (λ other. tally ≡ tally_sum one other))) }
{
    match first {
        Err(fault) => Err(fault),
        Ok(one) => match second {
            Err(later) => Err(later),
            Ok(other) => Ok(one.joined(other)),
        },
    }
}
