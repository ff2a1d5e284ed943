//! Writing the text of an answer.

ghost use Rattle.std.specs.Prelude.{◌≡◌, [], ◌∷◌, ◌++◌, map, flat_map, codes};
ghost use Rattle.std.specs.Fmt.{signed_decimal};
ghost use Rattle.port_io.specs.Output.{IsOpen, PutOn};
ghost use Rattle.siting_definitions.specs.Line.{line_text, text_of};
ghost use Rattle.siting_definitions.specs.AnswerText.{number_line, optional_line, site_line};
ghost use Rattle.siting_definitions.specs.AnswerText.{cost_line, word_field, root_line, mark_line};
ghost use Rattle.siting_definitions.specs.AnswerText.{head_lines, answer_text};
ghost use Rattle.siting_definitions.specs.InstanceText.{version_field};
ghost use Rattle.answer_model.specs.Head.{best_of};
ghost use Rattle.discard_log.specs.Nodes.{mark_of};
ghost use Rattle.certificate.specs.Written.{node_text};

use answer_model::Head;
use discard_log::{Mark, Node, NodeList};
use dyadic_square::Square;
use instance_text::write_instance;
use port_io::{Out, Piece, Sink, WriteFault};
use site_model::{Instance, Site};
use siting_definitions::Word;

/// Puts the canonical text of an answer: of this head, and of the nodes of its tree in preorder.
pub fn write_answer<K: Sink>(
    head: &Head,
    nodes: &NodeList,
    out: &mut Out<K>,
) -> Result<(), WriteFault>
    requires { IsOpen out.old }
    ensures { PutOn K.room K.taken K.faults K.is_strict out.old out.new
        (answer_text (record { head = head.now; marks = map mark_of nodes.now })) result }
{
    write_first_line(&head.instance, out)?;
    write_instance(&head.instance, out)?;
    write_head_lines(head, out)?;
    write_marks(nodes.nodes(), out)?;
    out.put(b"end\n")
}

/// Writes the first line, which says the version of the text.
fn write_first_line<K: Sink>(instance: &Instance, out: &mut Out<K>) -> Result<(), WriteFault>
    requires { IsOpen out.old }
    ensures { PutOn K.room K.taken K.faults K.is_strict out.old out.new
        (line_text (codes "siting" ∷ codes "answer" ∷ version_field instance.now ∷ [])) result }
{
    out.put_pieces(&[
        Piece::Text(b"siting answer "),
        Piece::Text(version_bytes(instance)),
        Piece::Text(b"\n"),
    ])
}

/// The version of the texts of an instance.
fn version_bytes(instance: &Instance) -> &'static [u8]
    ensures { result.now ≡ version_field instance.now }
{
    if instance.has_cutoff() { b"2" } else { b"1" }
}

/// Writes the lines of the head that come after the instance's.
fn write_head_lines<K: Sink>(head: &Head, out: &mut Out<K>) -> Result<(), WriteFault>
    requires { IsOpen out.old }
    ensures { PutOn K.room K.taken K.faults K.is_strict out.old out.new
        (text_of (head_lines head.now)) result }
{
    write_limits(head.gap, head.budget, head.pool, out)?;
    write_best(head.site, head.cost, out)?;
    write_bound(head.bound, out)?;
    write_outcome(head.word, head.open_count, head.leases, out)?;
    write_root(head.instance.root(), out)
}

/// Writes the gap, the budget and the pool.
fn write_limits<K: Sink>(
    gap: i64,
    budget: u32,
    pool: u32,
    out: &mut Out<K>,
) -> Result<(), WriteFault>
    requires { IsOpen out.old }
    ensures { PutOn K.room K.taken K.faults K.is_strict out.old out.new
        (text_of ((codes "gap" ∷ signed_decimal gap ∷ [])
        ∷ number_line (codes "budget") budget
        ∷ number_line (codes "pool") pool
        ∷ [])) result }
{
    out.put_pieces(&[
        Piece::Text(b"gap "),
        Piece::Number(gap),
        Piece::Text(b"\nbudget "),
        Piece::Number(i64::from(budget)),
        Piece::Text(b"\npool "),
        Piece::Number(i64::from(pool)),
        Piece::Text(b"\n"),
    ])
}

/// Writes a site and its costs.
fn write_priced<K: Sink>(
    site: Site,
    lower: i64,
    upper: i64,
    out: &mut Out<K>,
) -> Result<(), WriteFault>
    requires { IsOpen out.old }
    ensures { PutOn K.room K.taken K.faults K.is_strict out.old out.new
        (text_of ((codes "site" ∷ signed_decimal site.x ∷ signed_decimal site.y ∷ [])
        ∷ (codes "cost" ∷ signed_decimal lower ∷ signed_decimal upper ∷ [])
        ∷ [])) result }
{
    out.put_pieces(&[
        Piece::Text(b"site "),
        Piece::Number(site.x),
        Piece::Text(b" "),
        Piece::Number(site.y),
        Piece::Text(b"\ncost "),
        Piece::Number(lower),
        Piece::Text(b" "),
        Piece::Number(upper),
        Piece::Text(b"\n"),
    ])
}

/// Puts the lines of the site, in grid units, and of its lower and upper cost, in cost units, each
/// with `none` where there is no site.
pub fn write_best<K: Sink>(
    site: Option<Site>,
    cost: Option<(i64, i64)>,
    out: &mut Out<K>,
) -> Result<(), WriteFault>
    requires { IsOpen out.old }
    ensures { PutOn K.room K.taken K.faults K.is_strict out.old out.new
        (text_of (site_line (best_of site cost) ∷ cost_line (best_of site cost) ∷ [])) result }
{
    match (site, cost) {
        (Some(site), Some((lower, upper))) => write_priced(site, lower, upper, out),
        _ => out.put(b"site none\ncost none\n"),
    }
}

/// Puts the line of the bound, in cost units, with `none` where there is none.
pub fn write_bound<K: Sink>(bound: Option<i64>, out: &mut Out<K>) -> Result<(), WriteFault>
    requires { IsOpen out.old }
    ensures { PutOn K.room K.taken K.faults K.is_strict out.old out.new
        (line_text (optional_line (codes "bound") bound)) result }
{
    match bound {
        None => out.put(b"bound none\n"),
        Some(b) => out.put_pieces(&[Piece::Text(b"bound "), Piece::Number(b), Piece::Text(b"\n")]),
    }
}

/// The word as it is written.
pub fn word_bytes(word: Word) -> &'static [u8]
    ensures { result.now ≡ word_field word }
{
    match word {
        Word::Solved => b"solved",
        Word::PoolFull => b"pool_full",
        Word::Budget => b"budget",
        Word::Floor => b"floor",
        Word::Empty => b"empty",
    }
}

/// Writes the word, the open squares and the leases.
fn write_outcome<K: Sink>(
    word: Word,
    open_count: u32,
    leases: u32,
    out: &mut Out<K>,
) -> Result<(), WriteFault>
    requires { IsOpen out.old }
    ensures { PutOn K.room K.taken K.faults K.is_strict out.old out.new
        (text_of ((codes "answer" ∷ word_field word ∷ [])
        ∷ number_line (codes "open") open_count
        ∷ number_line (codes "leases") leases
        ∷ [])) result }
{
    out.put_pieces(&[
        Piece::Text(b"answer "),
        Piece::Text(word_bytes(word)),
        Piece::Text(b"\nopen "),
        Piece::Number(i64::from(open_count)),
        Piece::Text(b"\nleases "),
        Piece::Number(i64::from(leases)),
        Piece::Text(b"\n"),
    ])
}

/// Writes the root.
fn write_root<K: Sink>(root: Square, out: &mut Out<K>) -> Result<(), WriteFault>
    requires { IsOpen out.old }
    ensures { PutOn K.room K.taken K.faults K.is_strict out.old out.new
        (line_text (root_line root)) result }
{
    out.put_pieces(&[
        Piece::Text(b"root "),
        Piece::Number(root.x),
        Piece::Text(b" "),
        Piece::Number(root.y),
        Piece::Text(b" "),
        Piece::Number(i64::from(root.level)),
        Piece::Text(b"\n"),
    ])
}

/// Writes a mark that has a number.
fn write_bounded<K: Sink>(letter: &[u8], bound: i64, out: &mut Out<K>) -> Result<(), WriteFault>
    requires { IsOpen out.old }
    ensures { PutOn K.room K.taken K.faults K.is_strict out.old out.new
        (letter.now ++ 32 ∷ (signed_decimal bound ++ 10 ∷ [])) result }
{
    out.put_pieces(&[
        Piece::Text(letter),
        Piece::Text(b" "),
        Piece::Number(bound),
        Piece::Text(b"\n"),
    ])
}

/// Writes a node line.
fn write_mark<K: Sink>(mark: Mark, out: &mut Out<K>) -> Result<(), WriteFault>
    requires { IsOpen out.old }
    ensures { PutOn K.room K.taken K.faults K.is_strict out.old out.new
        (line_text (mark_line mark)) result }
{
    match mark {
        Mark::Split(None) => out.put(b"S -\n"),
        Mark::Split(Some(seen)) => write_bounded(b"S", seen, out),
        Mark::Shut => out.put(b"X\n"),
        Mark::Bounded(bound) => write_bounded(b"B", bound, out),
        Mark::Floor(bound) => write_bounded(b"F", bound, out),
        Mark::Left(bound) => write_bounded(b"O", bound, out),
    }
}

/// Writes the node lines.
fn write_marks<K: Sink>(nodes: &[Node], out: &mut Out<K>) -> Result<(), WriteFault>
    requires { IsOpen out.old }
    ensures { PutOn K.room K.taken K.faults K.is_strict out.old out.new
        (flat_map node_text nodes.now) result }
{
    for node in nodes {
        write_mark(node.mark, out)?;
    }
    Ok(())
}
