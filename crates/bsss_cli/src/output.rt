//! What the program writes to its sink: short texts, an instance, an answer. Each says a status.

ghost use Rattle.std.specs.Prelude.{◌≡◌, ◌≤◌, ◌-◌, ◌++◌, [], ◌∷◌, length, pos, codes, map};
ghost use Rattle.std.specs.Fmt.{signed_decimal};
ghost use Rattle.port_io.specs.Output.{IsOpen, PutOn, Wrote, sink_view};
ghost use Rattle.port_io.specs.Output as outputs;
ghost use Rattle.siting_definitions.specs.declared.TheConstants.{NODE_LIMIT};
ghost use Rattle.siting_definitions.specs.InstanceText.{instance_text};
ghost use Rattle.siting_definitions.specs.Sites.{root_of};
ghost use Rattle.siting_definitions.specs.Line.{line_text, text_of};
ghost use Rattle.siting_definitions.specs.AnswerText.{answer_text, number_line, word_field};
ghost use Rattle.discard_log.specs.Nodes.{mark_of};
ghost use Rattle.near_set.specs.Near.{near_list};
ghost use Rattle.bsss_cli.specs.Texts as texts;
ghost use Rattle.bsss_cli.specs.Texts.{bad_instance, rejected, small_budget, small_pool};
ghost use Rattle.bsss_cli.specs.Texts.{small_text, too_many};
ghost use Rattle.bsss_cli.specs.Status as statuses;
ghost use Rattle.bsss_cli.specs.Polish.{polish_lines};
ghost use Rattle.bsss_cli.specs.Near.{near_text};
ghost use Rattle.bsss_cli.specs.Trial.{summary_lines};
ghost use Rattle.bsss_cli.specs.Ports.{sink_ghosts};
ghost use Rattle.bsss_cli.specs.Outcome.{Says};

use crate::status::{Status, report, status_of};
use answer_model::Head;
use cert_checker::{CheckFault, Differ};
use certificate::{word_bytes, write_answer, write_best, write_bound};
use discard_log::NodeList;
use instance_text::{InstanceFault, write_instance};
use near_set::write_near;
use port_io::{Out, Piece, Sink, WriteFault};
use site_model::Instance;
use siting_definitions::Word;

/// Writes a text, to say a status.
pub(crate) fn say<K: Sink>(text: &[u8], status: Status, sink: &mut K) -> Status
    ensures { Says (sink_ghosts K.room K.taken K.faults K.is_strict)
        sink.old sink.new status text.now result }
{
    report(put_text(text, sink), status)
}

/// Says which fault an instance text has.
pub(crate) fn say_bad_instance<K: Sink>(fault: InstanceFault, sink: &mut K) -> Status
    ensures { Says (sink_ghosts K.room K.taken K.faults K.is_strict) sink.old sink.new
        (Status.BadInstance fault.number fault.line) (bad_instance fault.number fault.line) result }
{
    let status = Status::BadInstance {
        number: fault.number,
        line: fault.line,
    };
    report(put_bad_instance(fault, sink), status)
}

/// Says which fault a text has that isn't that of a valid answer.
pub(crate) fn say_rejected<K: Sink>(fault: CheckFault, sink: &mut K) -> Status
    ensures { Says (sink_ghosts K.room K.taken K.faults K.is_strict) sink.old sink.new
        (Status.Rejected fault) (rejected fault) result }
{
    report(put_rejected(&fault, sink), Status::Rejected(fault))
}

/// Says that a budget is below the leases that an answer's splits took.
pub(crate) fn say_small_budget<K: Sink>(has: u32, wants: u32, sink: &mut K) -> Status
    ensures { Says (sink_ghosts K.room K.taken K.faults K.is_strict)
        sink.old sink.new (Status.SmallBudget has wants) (small_budget has wants) result }
{
    let status = Status::SmallBudget { has, wants };
    report(put_small(b"small budget has ", has, wants, sink), status)
}

/// Says that a pool has no room for the squares that an answer leaves open.
pub(crate) fn say_small_pool<K: Sink>(has: u32, wants: u32, sink: &mut K) -> Status
    ensures { Says (sink_ghosts K.room K.taken K.faults K.is_strict)
        sink.old sink.new (Status.SmallPool has wants) (small_pool has wants) result }
{
    let status = Status::SmallPool { has, wants };
    report(put_small(b"small pool has ", has, wants, sink), status)
}

/// Writes the bound of an answer, and the better one.
pub(crate) fn say_polished<K: Sink>(bound: Option<i64>, better: Option<i64>, sink: &mut K) -> Status
    ensures { Says (sink_ghosts K.room K.taken K.faults K.is_strict) sink.old sink.new
        Status.Polished (text_of (polish_lines bound better)) result }
{
    report(put_polished(bound, better, sink), Status::Polished)
}

/// Writes the near set of a cost, of squares `depth` levels below the starting square, which are
/// `count`.
pub(crate) fn say_near<K: Sink>(
    instance: &Instance,
    cost: i64,
    depth: u8,
    count: u32,
    sink: &mut K,
) -> Status
    requires depth { depth ≤ 16 }
    requires count { count ≡ length (near_list instance.now cost depth) }
    ensures { Says (sink_ghosts K.room K.taken K.faults K.is_strict) sink.old sink.new Status.Near
        (near_text cost ((root_of instance.now).level - depth)
        (near_list instance.now cost depth)) result }
{
    report(put_near(instance, cost, depth, count, sink), Status::Near)
}

/// Says that a near set has more squares than the limit.
pub(crate) fn say_too_many<K: Sink>(limit: u32, sink: &mut K) -> Status
    ensures { Says (sink_ghosts K.room K.taken K.faults K.is_strict) sink.old sink.new
        (Status.TooMany limit) (too_many limit) result }
{
    report(put_too_many(limit, sink), Status::TooMany { limit })
}

/// Writes a made instance.
pub(crate) fn say_made<K: Sink>(instance: &Instance, sink: &mut K) -> Status
    ensures { Says (sink_ghosts K.room K.taken K.faults K.is_strict) sink.old sink.new
        Status.Made (instance_text instance.now) result }
{
    report(put_instance(instance, sink), Status::Made)
}

/// Writes an answer, with the status of its word.
pub(crate) fn say_answer<K: Sink>(head: &Head, nodes: &NodeList, sink: &mut K) -> Status
    ensures { Says (sink_ghosts K.room K.taken K.faults K.is_strict)
        sink.old sink.new (statuses.status_of head.now.word)
        (answer_text (record { head = head.now; marks = map mark_of nodes.now })) result }
{
    let status = status_of(head.word);
    report(put_answer(head, nodes, sink), status)
}

/// Writes the summary of a trial, with the status of its answer's word.
pub(crate) fn say_summary<K: Sink>(
    seed: u32,
    points: u32,
    head: &Head,
    nodes: u64,
    sink: &mut K,
) -> Status
    requires { nodes ≤ NODE_LIMIT }
    ensures { Says (sink_ghosts K.room K.taken K.faults K.is_strict)
        sink.old sink.new (statuses.status_of head.now.word)
        (text_of (summary_lines seed points head.now nodes)) result }
{
    let status = status_of(head.word);
    report(put_summary(seed, points, head, nodes, sink), status)
}

/// Writes a text.
fn put_text<K: Sink>(text: &[u8], sink: &mut K) -> Result<(), WriteFault>
    ensures { Wrote (sink_view K.room K.taken K.faults K.is_strict sink.old)
        (sink_view K.room K.taken K.faults K.is_strict sink.new) text.now result }
{
    let mut out = Out::new(sink);
    out.put(text)?;
    out.finish()
}

/// Writes which fault an instance text has.
fn put_bad_instance<K: Sink>(fault: InstanceFault, sink: &mut K) -> Result<(), WriteFault>
    ensures { Wrote (sink_view K.room K.taken K.faults K.is_strict sink.old)
        (sink_view K.room K.taken K.faults K.is_strict sink.new)
        (bad_instance fault.number fault.line) result }
{
    let mut number = itoa::Buffer::new();
    let mut line = itoa::Buffer::new();
    put_two(
        b"bad instance ",
        number.format(fault.number).as_bytes(),
        b" line ",
        line.format(fault.line).as_bytes(),
        sink,
    )
}

/// Writes a number that is too small, after a word, and the one that is wanted.
fn put_small<K: Sink>(word: &[u8], has: u32, wants: u32, sink: &mut K) -> Result<(), WriteFault>
    ensures { Wrote (sink_view K.room K.taken K.faults K.is_strict sink.old)
        (sink_view K.room K.taken K.faults K.is_strict sink.new)
        (small_text word.now has wants) result }
{
    let mut first = itoa::Buffer::new();
    let mut second = itoa::Buffer::new();
    put_two(
        word,
        first.format(has).as_bytes(),
        b" wants ",
        second.format(wants).as_bytes(),
        sink,
    )
}

/// Writes which fault a text has that isn't that of a valid answer.
fn put_rejected<K: Sink>(fault: &CheckFault, sink: &mut K) -> Result<(), WriteFault>
    ensures { Wrote (sink_view K.room K.taken K.faults K.is_strict sink.old)
        (sink_view K.room K.taken K.faults K.is_strict sink.new)
        (rejected fault.now) result }
{
    let mut number = itoa::Buffer::new();
    let mut line = itoa::Buffer::new();
    let number = number.format(fault.number).as_bytes();
    let line = line.format(fault.line).as_bytes();
    match fault.differ {
        None => put_two(b"rejected ", number, b" line ", line, sink),
        Some(differ) => put_differing(number, line, differ, sink),
    }
}

/// Writes the digits of two numbers, after a word and with another between them.
fn put_two<'x, K: Sink>(
    word: &'x [u8],
    first: &'x [u8],
    between: &'x [u8],
    second: &'x [u8],
    sink: &mut K,
) -> Result<(), WriteFault>
    ensures { Wrote (sink_view K.room K.taken K.faults K.is_strict sink.old)
        (sink_view K.room K.taken K.faults K.is_strict sink.new)
        (word.now ++ (first.now ++ (between.now ++ (second.now ++ codes "\n")))) result }
{
    let mut out = Out::new(sink);
    out.put_pieces(&[
        Piece::Text(word),
        Piece::Text(first),
        Piece::Text(between),
        Piece::Text(second),
        Piece::Text(b"\n"),
    ])?;
    out.finish()
}

/// Writes a fault of a value that another was wanted for.
fn put_differing<'x, K: Sink>(
    number: &'x [u8],
    line: &'x [u8],
    differ: Differ,
    sink: &mut K,
) -> Result<(), WriteFault>
    ensures { Wrote (sink_view K.room K.taken K.faults K.is_strict sink.old)
        (sink_view K.room K.taken K.faults K.is_strict sink.new)
        (codes "rejected " ++ (number.now ++ (codes " line " ++ (line.now
        ++ (codes " has " ++ (texts.value_text differ.has
        ++ (codes " wants " ++ (texts.value_text differ.wants ++ codes "\n")))))))) result }
{
    let mut out = Out::new(sink);
    out.put_pieces(&[
        Piece::Text(b"rejected "),
        Piece::Text(number),
        Piece::Text(b" line "),
        Piece::Text(line),
        Piece::Text(b" has "),
        value_piece(differ.has),
        Piece::Text(b" wants "),
        value_piece(differ.wants),
        Piece::Text(b"\n"),
    ])?;
    out.finish()
}

/// A value, or the word `none`.
fn value_piece(value: Option<i64>) -> Piece<'static>
    ensures { outputs.piece_text result ≡ texts.value_text value }
{
    match value {
        None => Piece::Text(b"none"),
        Some(number) => Piece::Number(number),
    }
}

/// Writes that a near set has more squares than the limit.
fn put_too_many<K: Sink>(limit: u32, sink: &mut K) -> Result<(), WriteFault>
    ensures { Wrote (sink_view K.room K.taken K.faults K.is_strict sink.old)
        (sink_view K.room K.taken K.faults K.is_strict sink.new) (too_many limit) result }
{
    let mut out = Out::new(sink);
    write_count(b"too many above ", limit, &mut out)?;
    out.finish()
}

/// Writes the bound of an answer, and the better one.
fn put_polished<K: Sink>(
    bound: Option<i64>,
    better: Option<i64>,
    sink: &mut K,
) -> Result<(), WriteFault>
    ensures { Wrote (sink_view K.room K.taken K.faults K.is_strict sink.old)
        (sink_view K.room K.taken K.faults K.is_strict sink.new)
        (text_of (polish_lines bound better)) result }
{
    let mut out = Out::new(sink);
    out.put_pieces(&[
        Piece::Text(b"bound "),
        value_piece(bound),
        Piece::Text(b"\npolished "),
        value_piece(better),
        Piece::Text(b"\n"),
    ])?;
    out.finish()
}

/// Writes the canonical text of an instance.
fn put_instance<K: Sink>(instance: &Instance, sink: &mut K) -> Result<(), WriteFault>
    ensures { Wrote (sink_view K.room K.taken K.faults K.is_strict sink.old)
        (sink_view K.room K.taken K.faults K.is_strict sink.new)
        (instance_text instance.now) result }
{
    let mut out = Out::new(sink);
    write_instance(instance, &mut out)?;
    out.finish()
}

/// Writes an answer.
pub(crate) fn put_answer<K: Sink>(
    head: &Head,
    nodes: &NodeList,
    sink: &mut K,
) -> Result<(), WriteFault>
    ensures { Wrote (sink_view K.room K.taken K.faults K.is_strict sink.old)
        (sink_view K.room K.taken K.faults K.is_strict sink.new)
        (answer_text (record { head = head.now; marks = map mark_of nodes.now })) result }
{
    let mut out = Out::new(sink);
    write_answer(head, nodes, &mut out)?;
    out.finish()
}

/// Writes the near set of a cost.
fn put_near<K: Sink>(
    instance: &Instance,
    cost: i64,
    depth: u8,
    count: u32,
    sink: &mut K,
) -> Result<(), WriteFault>
    requires depth { depth ≤ 16 }
    requires count { count ≡ length (near_list instance.now cost depth) }
    ensures { Wrote (sink_view K.room K.taken K.faults K.is_strict sink.old)
        (sink_view K.room K.taken K.faults K.is_strict sink.new)
        (near_text cost ((root_of instance.now).level - depth)
        (near_list instance.now cost depth)) result }
{
    let mut out = Out::new(sink);
    write_near_text(instance, cost, depth, count, &mut out)?;
    out.finish()
}

/// Writes the summary of a trial.
fn put_summary<K: Sink>(
    seed: u32,
    points: u32,
    head: &Head,
    nodes: u64,
    sink: &mut K,
) -> Result<(), WriteFault>
    requires { nodes ≤ NODE_LIMIT }
    ensures { Wrote (sink_view K.room K.taken K.faults K.is_strict sink.old)
        (sink_view K.room K.taken K.faults K.is_strict sink.new)
        (text_of (summary_lines seed points head.now nodes)) result }
{
    let mut out = Out::new(sink);
    write_summary(seed, points, head, nodes, &mut out)?;
    out.finish()
}

/// Puts the near set of a cost.
fn write_near_text<K: Sink>(
    instance: &Instance,
    cost: i64,
    depth: u8,
    count: u32,
    out: &mut Out<K>,
) -> Result<(), WriteFault>
    requires open { IsOpen out.old }
    requires depth { depth ≤ 16 }
    requires count { count ≡ length (near_list instance.now cost depth) }
    ensures { PutOn K.room K.taken K.faults K.is_strict out.old out.new
        (near_text cost ((root_of instance.now).level - depth)
        (near_list instance.now cost depth)) result }
{
    write_near_head(cost, level_below(instance, depth), out)?;
    write_near(instance, cost, depth, out)?;
    write_near_end(count, out)
}

/// The level of the squares `depth` levels below the starting square.
fn level_below(instance: &Instance, depth: u8) -> u8
    requires { depth ≤ 16 }
    ensures { result ≡ (root_of instance.now).level - depth }
{
    let start = instance.root();
    start.level - depth
}

/// Puts the cost of a near set, and the level of its squares.
fn write_near_head<K: Sink>(cost: i64, level: u8, out: &mut Out<K>) -> Result<(), WriteFault>
    requires { IsOpen out.old }
    ensures { PutOn K.room K.taken K.faults K.is_strict out.old out.new
        (line_text (codes "near" ∷ signed_decimal cost ∷ signed_decimal (pos level) ∷ [])) result }
{
    out.put_pieces(&[
        Piece::Text(b"near "),
        Piece::Number(cost),
        Piece::Text(b" "),
        Piece::Number(i64::from(level)),
        Piece::Text(b"\n"),
    ])
}

/// Puts how many squares a near set has, and the last line.
fn write_near_end<K: Sink>(count: u32, out: &mut Out<K>) -> Result<(), WriteFault>
    requires { IsOpen out.old }
    ensures { PutOn K.room K.taken K.faults K.is_strict out.old out.new
        (text_of (number_line (codes "count") count ∷ (codes "end" ∷ []) ∷ [])) result }
{
    out.put_pieces(&[
        Piece::Text(b"count "),
        Piece::Number(i64::from(count)),
        Piece::Text(b"\nend\n"),
    ])
}

/// Puts the summary of a trial.
fn write_summary<K: Sink>(
    seed: u32,
    points: u32,
    head: &Head,
    nodes: u64,
    out: &mut Out<K>,
) -> Result<(), WriteFault>
    requires open { IsOpen out.old }
    requires nodes { nodes ≤ NODE_LIMIT }
    ensures { PutOn K.room K.taken K.faults K.is_strict out.old out.new
        (text_of (summary_lines seed points head.now nodes)) result }
{
    write_trial(seed, points, head.word, out)?;
    write_best(head.site, head.cost, out)?;
    write_bound(head.bound, out)?;
    write_counts(head.leases, nodes as u32, out)
}

/// Puts the words' values of a trial, and the word of its answer.
fn write_trial<K: Sink>(
    seed: u32,
    points: u32,
    word: Word,
    out: &mut Out<K>,
) -> Result<(), WriteFault>
    requires { IsOpen out.old }
    ensures { PutOn K.room K.taken K.faults K.is_strict out.old out.new
        (text_of ((codes "trial" ∷ signed_decimal (pos seed) ∷ signed_decimal (pos points) ∷ [])
        ∷ (codes "answer" ∷ word_field word ∷ [])
        ∷ [])) result }
{
    out.put_pieces(&[
        Piece::Text(b"trial "),
        Piece::Number(i64::from(seed)),
        Piece::Text(b" "),
        Piece::Number(i64::from(points)),
        Piece::Text(b"\nanswer "),
        Piece::Text(word_bytes(word)),
        Piece::Text(b"\n"),
    ])
}

/// Puts the leases and the nodes of an answer, and that it was accepted.
fn write_counts<K: Sink>(leases: u32, nodes: u32, out: &mut Out<K>) -> Result<(), WriteFault>
    requires { IsOpen out.old }
    ensures { PutOn K.room K.taken K.faults K.is_strict out.old out.new
        (text_of (number_line (codes "leases") leases
        ∷ number_line (codes "nodes") nodes
        ∷ (codes "check" ∷ codes "accepted" ∷ [])
        ∷ [])) result }
{
    write_count(b"leases ", leases, out)?;
    write_count(b"nodes ", nodes, out)?;
    out.put(b"check accepted\n")
}

/// Writes the line of a number, after its word.
fn write_count<K: Sink>(word: &[u8], count: u32, out: &mut Out<K>) -> Result<(), WriteFault>
    requires { IsOpen out.old }
    ensures { PutOn K.room K.taken K.faults K.is_strict out.old out.new
        (word.now ++ (signed_decimal (pos count) ++ codes "\n")) result }
{
    out.put_pieces(&[
        Piece::Text(word),
        Piece::Number(i64::from(count)),
        Piece::Text(b"\n"),
    ])
}
