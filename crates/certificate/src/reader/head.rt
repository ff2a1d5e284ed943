//! Reading the lines of a head, one after another.

ghost use Rattle.std.specs.Prelude.{◌≡◌, ◌≤◌, ◌≤ℤ◌, length, IfOk, IfSome};
ghost use Rattle.line_stream.specs.Stream.{stream};
ghost use Rattle.certificate.specs.Forms as forms;
ghost use Rattle.certificate.specs.HeadReading.{formed, limits_part, best_part, outcome_part};
ghost use Rattle.certificate.specs.HeadReading.{head_from, lines_after as after_instance};
ghost use Rattle.certificate.specs.HeadReading.{head_reading};
ghost use Rattle.certificate.specs.AnswerReading.{Read, ReadInMemory};
ghost use Rattle.certificate.specs.ReaderView.{coming, source_of, faults_of, stream_of, ReadsTo};
ghost use Rattle.certificate.specs.Blames.{Blames};

use crate::reader::forms::{
    bound_form, number_form, priced_form, root_form, site_form, version_form, word_form,
};
use crate::reader::head_parts::{Limits, Outcome, Priced};
use crate::reader::instance::read_instance_lines;
use crate::reader::lines::or_bad;
use crate::reader::{AnswerError, AnswerLines, AnswerReader};
use answer_model::Head;
use dyadic_square::Square;
use port_io::Source;
use site_model::{Instance, Site};
use siting_definitions::{BUDGET_LIMIT, GAP_LIMIT, POOL_LIMIT, Word};
use std::alloc::Global;

/// Reads a line of a word and a number from `low` to `high`.
fn read_number<S: Source>(
    lines: &mut AnswerLines,
    source: &mut S,
    word: &[u8],
    low: i64,
    high: i64,
) -> Result<i64, AnswerError>
    requires { length word.now ≤ 1000 }
    ensures reads { Read (formed (forms.number_form word.now low high))
        (stream S.left S.faults S.is_strict lines.old source.old)
        (stream S.left S.faults S.is_strict lines.new source.new) result }
    ensures range { IfOk result (λ z. (low ≤ℤ z) × (z ≤ℤ high)) }
{
    lines.read_line(source)?;
    or_bad(number_form(word, low, high, lines.text()), lines.line())
}

/// Reads the first line: whether it says the second version.
fn read_version<S: Source>(lines: &mut AnswerLines, source: &mut S) -> Result<bool, AnswerError>
    ensures { Read (formed forms.version_form)
        (stream S.left S.faults S.is_strict lines.old source.old)
        (stream S.left S.faults S.is_strict lines.new source.new) result }
{
    lines.read_line(source)?;
    or_bad(version_form(lines.text()), lines.line())
}

/// Reads the lines of the gap, the budget and the pool.
fn read_limits<S: Source>(lines: &mut AnswerLines, source: &mut S) -> Result<Limits, AnswerError>
    ensures { Read limits_part
        (stream S.left S.faults S.is_strict lines.old source.old)
        (stream S.left S.faults S.is_strict lines.new source.new) result }
{
    let gap = read_number(lines, source, b"gap", 0, GAP_LIMIT as i64)?;
    let budget = read_number(lines, source, b"budget", 0, BUDGET_LIMIT as i64)?;
    let pool = read_number(lines, source, b"pool", 1, POOL_LIMIT as i64)?;
    Ok(Limits {
        gap,
        budget: budget as u32,
        pool: pool as u32,
    })
}

/// Reads the line of the site.
fn read_site<S: Source>(
    lines: &mut AnswerLines,
    source: &mut S,
) -> Result<Option<Site>, AnswerError>
    ensures { Read (formed forms.site_form)
        (stream S.left S.faults S.is_strict lines.old source.old)
        (stream S.left S.faults S.is_strict lines.new source.new) result }
{
    lines.read_line(source)?;
    or_bad(site_form(lines.text()), lines.line())
}

/// Reads the line of the costs of this site.
fn read_cost<S: Source>(
    lines: &mut AnswerLines,
    source: &mut S,
    site: Option<Site>,
) -> Result<Priced, AnswerError>
    ensures { Read (formed (forms.cost_form site))
        (stream S.left S.faults S.is_strict lines.old source.old)
        (stream S.left S.faults S.is_strict lines.new source.new) result }
{
    lines.read_line(source)?;
    or_bad(priced_form(site, lines.text()), lines.line())
}

/// Reads the lines of the site and its costs.
fn read_best<S: Source>(lines: &mut AnswerLines, source: &mut S) -> Result<Priced, AnswerError>
    ensures { Read best_part
        (stream S.left S.faults S.is_strict lines.old source.old)
        (stream S.left S.faults S.is_strict lines.new source.new) result }
{
    let site = read_site(lines, source)?;
    read_cost(lines, source, site)
}

/// Reads the line of the bound.
fn read_bound<S: Source>(
    lines: &mut AnswerLines,
    source: &mut S,
) -> Result<Option<i64>, AnswerError>
    ensures { Read (formed forms.bound_form)
        (stream S.left S.faults S.is_strict lines.old source.old)
        (stream S.left S.faults S.is_strict lines.new source.new) result }
{
    lines.read_line(source)?;
    or_bad(bound_form(lines.text()), lines.line())
}

/// Reads the line of the word.
fn read_word<S: Source>(lines: &mut AnswerLines, source: &mut S) -> Result<Word, AnswerError>
    ensures { Read (formed forms.word_form)
        (stream S.left S.faults S.is_strict lines.old source.old)
        (stream S.left S.faults S.is_strict lines.new source.new) result }
{
    lines.read_line(source)?;
    or_bad(word_form(lines.text()), lines.line())
}

/// Reads the lines of the bound, the word, the open squares and the leases.
fn read_outcome<S: Source>(lines: &mut AnswerLines, source: &mut S) -> Result<Outcome, AnswerError>
    ensures { Read outcome_part
        (stream S.left S.faults S.is_strict lines.old source.old)
        (stream S.left S.faults S.is_strict lines.new source.new) result }
{
    let bound = read_bound(lines, source)?;
    let word = read_word(lines, source)?;
    let open_count = read_number(lines, source, b"open", 0, POOL_LIMIT as i64)?;
    let leases = read_number(lines, source, b"leases", 0, BUDGET_LIMIT as i64)?;
    Ok(Outcome {
        bound,
        word,
        open_count: open_count as u32,
        leases: leases as u32,
    })
}

/// Reads the line of this root.
fn read_root<S: Source>(
    lines: &mut AnswerLines,
    source: &mut S,
    root: Square,
) -> Result<Square, AnswerError>
    ensures { Read (formed (forms.root_form root))
        (stream S.left S.faults S.is_strict lines.old source.old)
        (stream S.left S.faults S.is_strict lines.new source.new) result }
{
    lines.read_line(source)?;
    // A line as long as no square's can be wasn't kept: the square is within the largest one.
    let _level = root.level;
    or_bad(root_form(root, lines.text()), lines.line())
}

/// Reads the lines of a head after those of its instance.
fn read_lines_after<S: Source>(
    lines: &mut AnswerLines,
    source: &mut S,
    instance: Instance,
) -> Result<Head, AnswerError>
    ensures { Read (after_instance instance)
        (stream S.left S.faults S.is_strict lines.old source.old)
        (stream S.left S.faults S.is_strict lines.new source.new) result }
{
    let limits = read_limits(lines, source)?;
    let priced = read_best(lines, source)?;
    let outcome = read_outcome(lines, source)?;
    read_root(lines, source, instance.root())?;
    Ok(head_of(instance, limits, priced, outcome))
}

/// Reads the head of an answer, to the line of its root.
#[tactic(auto, unfolding(crate::specs::HeadReading::head_reading))]
pub(super) fn read_head_lines<S: Source>(
    alloc: Global,
    lines: &mut AnswerLines,
    source: &mut S,
) -> Result<Head, AnswerError>
    ensures { ReadInMemory head_reading (stream S.left S.faults S.is_strict lines.old source.old)
        (stream S.left S.faults S.is_strict lines.new source.new) result }
{
    let second = read_version(lines, source)?;
    let instance = read_instance_lines(alloc, lines, source, second)?;
    read_lines_after(lines, source, instance)
}

impl<'a, S: Source> AnswerReader<'a, S> {
    /// Reads the head of an answer, to the line of its root.
    pub fn read_head(&mut self, alloc: Global) -> Result<Head, AnswerError>
        ensures same { source_of self.new ≡ source_of self.old }
        ensures reads { IfSome (coming S.left self.old)
            (λ before. ReadsTo (head_reading before) (coming S.left self.new) result) }
        ensures blames { Blames (faults_of S.faults self.old) (faults_of S.faults self.new) result }

        // As in `next`; but memory may be wanted.
        ensures read { ReadInMemory head_reading (stream_of S.left S.faults S.is_strict self.old)
            (stream_of S.left S.faults S.is_strict self.new) result }
    {
        read_head_lines(alloc, &mut self.lines, self.source)
    }
}

/// The head of these parts.
fn head_of(instance: Instance, limits: Limits, priced: Priced, outcome: Outcome) -> Head
    ensures { result ≡ head_from instance limits priced outcome }
{
    Head {
        instance,
        gap: limits.gap,
        budget: limits.budget,
        pool: limits.pool,
        site: priced.site,
        cost: priced.cost,
        bound: outcome.bound,
        word: outcome.word,
        open_count: outcome.open_count,
        leases: outcome.leases,
    }
}
