//! Reading the nodes of a valid answer.

ghost use Rattle.std.specs.Prelude.{◌≡◌, List, Some, IfOk, OnErr, Err};
ghost use Rattle.siting_definitions.specs.Square.{Square};
ghost use Rattle.siting_definitions.specs.AnswerText.{answer_text};
ghost use Rattle.siting_definitions.specs.Marks as marks;
ghost use Rattle.dyadic_square.specs.Walk.{coming_after};
ghost use Rattle.certificate.specs.ReaderView.{coming, source_of};
ghost use Rattle.search_answer.specs.Ending.{answer_of};
ghost use Rattle.resume_job.specs.Loading.{AreOfValid};
ghost use Rattle.resume_job.specs.Steps.{IsNext, IsTextWithMarks};

use crate::loading::LoadError;
use answer_model::is_split;
use cert_checker::Walk;
use certificate::{AnswerReader, Head, Item};
use discard_log::{Mark, Node, NodeList};
use port_io::SliceSource;
use std::alloc::Global;

/// The head and the nodes of the valid answer with so many nodes whose text these bytes are.
pub(crate) fn read_text(
    alloc: Global,
    bytes: &[u8],
    count: u64,
) -> Result<(Head, NodeList), LoadError>
    requires { IsTextWithMarks bytes.now count }
    ensures valid { IfOk result (λ loaded. AreOfValid loaded.0 loaded.1) }
    ensures text { IfOk result (λ loaded. bytes.now ≡ answer_text (answer_of loaded.0 loaded.1)) }
    ensures memory { OnErr result (result ≡ Err LoadError.NoMemory) }
{
    let mut source = SliceSource::new(bytes);
    let mut reader = AnswerReader::new(&mut source);
    let Ok(head) = reader.read_head(alloc) else {
        return Err(LoadError::NoMemory);
    };
    let Ok(mut nodes) = Vec::with_capacity(alloc, count as usize) else {
        return Err(LoadError::NoMemory);
    };
    let mut walk = Walk::begin(head.instance.root());
    for _ in 0..count {
        let node = next_node(&mut walk, &mut reader);
        if nodes.push(node).is_err() {
            return Err(LoadError::NoMemory);
        }
    }
    Ok((head, NodeList::from_vec(nodes)))
}

/// Reads the node that comes next.
fn next_node(walk: &mut Walk, reader: &mut AnswerReader<'_, SliceSource<'_>>) -> Node
    requires { IsNext walk.old (coming Some reader.old) }
    ensures same { source_of reader.new ≡ source_of reader.old }
    ensures node { (next : IsNext walk.old (coming Some reader.old))
        → result ≡ record { square = next.square; mark = next.mark } }
    ensures walk { (next : IsNext walk.old (coming Some reader.old))
        → walk.new ≡ coming_after next.square (marks.is_split next.mark) next.later }
    ensures rest { (next : IsNext walk.old (coming Some reader.old))
        → coming Some reader.new ≡ Some next.rest }
{
    let mark = next_mark(reader);
    let Some(square) = walk.coming() else {
        unreachable!()
    };
    walk.step(is_split(mark));
    Node { square, mark }
}

/// Reads the line that comes next, which is that of a node.
fn next_mark(reader: &mut AnswerReader<'_, SliceSource<'_>>) -> Mark
    requires { (squares : List Square) × IsNext squares (coming Some reader.old) }
    ensures same { source_of reader.new ≡ source_of reader.old }
    ensures mark { (squares : List Square) (next : IsNext squares (coming Some reader.old))
        → result ≡ next.mark }
    ensures rest { (squares : List Square) (next : IsNext squares (coming Some reader.old))
        → coming Some reader.new ≡ Some next.rest }
{
    match reader.next() {
        Ok(Item::Node(mark)) => mark,
        _ => unreachable!(),
    }
}
