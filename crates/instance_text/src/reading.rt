//! What the lines of an instance text say, one after another.

ghost use Rattle.std.specs.Prelude.{◌≡◌, Ok, OnErr};
ghost use Rattle.text_lines.specs.Lines.{fields_of};
ghost use Rattle.instance_text.specs.Reading.{add_polygon};
ghost use Rattle.instance_text.specs.Outcome.{TakesLine};

use crate::faults::{
    AFTER_END, BAD_HEADER, BAD_LINE, LineError, NO_END, NO_KIND, NO_PERMIT, NO_POINT,
    TOO_MANY_POINTS, TOO_MANY_POLYGONS, TWO_KINDS, WEIGHT_SUM,
};
use crate::phase::Phase;
use crate::points::{read_kind, read_point};
use crate::polygons::read_polygon;
use convex_region::Polygon;
use site_model::{DemandPt, Instance, Kind};
use siting_definitions::{POINT_LIMIT, POLYGON_LIMIT, WEIGHT_LIMIT};
use std::alloc::Global;
use std::marker::Model;
use text_lines::{is_passed_over, next_field, says};

/// What the lines say that were read.
#[derive(Drop)]
pub(crate) struct Reading {
    phase: Phase,
    kind: Option<Kind>,
    points: Vec<DemandPt>,
    permitted: Vec<Polygon>,
    forbidden: Vec<Polygon>,
    weight: u64,
}

impl Model for Reading {
    ghost use Rattle.instance_text.specs.Reading.{Found};
    ghost use Rattle.instance_text.specs.KeepsLimits.{found_of, KeepsLimits};

    ghost Value = { Found };

    ghost view = { found_of };

    ghost invariant = { λ a. KeepsLimits a.weight (found_of a) };
}

impl Reading {
    ghost use Rattle.instance_text.specs.Reading as readings;

    /// Before the first line.
    pub(crate) fn new(alloc: Global) -> Reading
        ensures { result ≡ readings.nothing_found }
    {
        Reading {
            phase: Phase::Start,
            kind: None,
            points: Vec::new(alloc),
            permitted: Vec::new(alloc),
            forbidden: Vec::new(alloc),
            weight: 0,
        }
    }

    /// Takes a line.
    pub(crate) fn take_line(&mut self, alloc: Global, line: &[u8]) -> Result<(), LineError>
        ensures { TakesLine result (readings.take_line (fields_of line.now) self.old) self.new }
    {
        if is_passed_over(line) {
            return Ok(());
        }
        match self.phase {
            Phase::Start => self.take_header(line),
            Phase::Body(cutoffs) => match next_field(line) {
                None => Ok(()),
                Some((word, fields)) => self.take_row(alloc, cutoffs, word, fields),
            },
            Phase::Ended(_) => Err(LineError::Fault(AFTER_END)),
        }
    }

    fn take_header(&mut self, fields: &[u8]) -> Result<(), LineError>
        ensures { TakesLine result (readings.take_header (fields_of fields.now) self.old) self.new }
    {
        let Some((word, rest)) = next_field(fields) else {
            return Err(LineError::Fault(BAD_HEADER));
        };
        let Some((version, rest)) = next_field(rest) else {
            return Err(LineError::Fault(BAD_HEADER));
        };
        if !says(word, b"siting") | next_field(rest).is_some() {
            return Err(LineError::Fault(BAD_HEADER));
        }
        self.take_version(version)
    }

    fn take_version(&mut self, version: &[u8]) -> Result<(), LineError>
        ensures { TakesLine result (readings.take_version version.now self.old) self.new }
    {
        if says(version, b"1") {
            self.phase = Phase::Body(false);
            Ok(())
        } else if says(version, b"2") {
            self.phase = Phase::Body(true);
            Ok(())
        } else {
            Err(LineError::Fault(BAD_HEADER))
        }
    }

    #[tactic(auto, unfolding(crate::specs::Reading::take_row))]
    fn take_row(
        &mut self,
        alloc: Global,
        cutoffs: bool,
        word: &[u8],
        fields: &[u8],
    ) -> Result<(), LineError>
        ensures { TakesLine result
            (readings.take_row cutoffs word.now (fields_of fields.now) self.old) self.new }
    {
        if says(word, b"kind") {
            self.take_kind(read_kind(fields)?)
        } else if says(word, b"point") {
            self.take_point(read_point(cutoffs, fields)?)
        } else if says(word, b"permit") {
            self.take_permit(read_polygon(alloc, fields)?)
        } else if says(word, b"forbid") {
            self.take_forbid(read_polygon(alloc, fields)?)
        } else if says(word, b"end") {
            self.take_end(fields)
        } else {
            Err(LineError::Fault(BAD_LINE))
        }
    }

    fn take_kind(&mut self, kind: Kind) -> Result<(), LineError>
        ensures { TakesLine result (readings.take_kind (Ok kind) self.old) self.new }
    {
        if self.kind.is_some() {
            return Err(LineError::Fault(TWO_KINDS));
        }
        self.kind = Some(kind);
        Ok(())
    }

    #[tactic(auto, using(crate::proofs::Limits::weight_push))]
    fn take_point(&mut self, point: DemandPt) -> Result<(), LineError>
        ensures { TakesLine result (readings.take_point (Ok point) self.old) self.new }
    {
        if self.points.len() >= POINT_LIMIT {
            return Err(LineError::Fault(TOO_MANY_POINTS));
        }
        let weight = self.weight + point.w.unsigned_abs();
        if weight > WEIGHT_LIMIT {
            return Err(LineError::Fault(WEIGHT_SUM));
        }
        if self.points.push(point).is_err() {
            return Err(LineError::NoMemory);
        }
        self.weight = weight;
        Ok(())
    }

    fn take_permit(&mut self, polygon: Polygon) -> Result<(), LineError>
        ensures { TakesLine result (readings.take_permit (Ok polygon) self.old) self.new }
    {
        push_polygon(&mut self.permitted, polygon)
    }

    fn take_forbid(&mut self, polygon: Polygon) -> Result<(), LineError>
        ensures { TakesLine result (readings.take_forbid (Ok polygon) self.old) self.new }
    {
        push_polygon(&mut self.forbidden, polygon)
    }

    fn take_end(&mut self, fields: &[u8]) -> Result<(), LineError>
        ensures { TakesLine result (readings.take_end (fields_of fields.now) self.old) self.new }
    {
        if next_field(fields).is_some() {
            return Err(LineError::Fault(BAD_LINE));
        }
        let Some(kind) = self.kind else {
            return Err(LineError::Fault(NO_KIND));
        };
        if self.points.is_empty() {
            return Err(LineError::Fault(NO_POINT));
        }
        if self.permitted.is_empty() {
            return Err(LineError::Fault(NO_PERMIT));
        }
        self.phase = Phase::Ended(kind);
        Ok(())
    }

    /// The instance that the lines said, or the fault that there is no more of them.
    pub(crate) fn finish(self) -> Result<Instance, u8>
        ensures { result ≡ readings.finish self.phase self }
    {
        let Reading {
            phase,
            kind: _,
            points,
            permitted,
            forbidden,
            weight: _,
        } = self;
        match phase {
            Phase::Start => Err(BAD_HEADER),
            Phase::Body(_) => Err(NO_END),
            Phase::Ended(kind) => Ok(Instance::build(kind, points, permitted, forbidden)),
        }
    }
}

/// One polygon more, where there is room for it; else they stay the same.
fn push_polygon(polygons: &mut Vec<Polygon>, polygon: Polygon) -> Result<(), LineError>
    ensures more { TakesLine result (add_polygon (Ok polygon) polygons.old.items)
        polygons.new.items }
    ensures same { OnErr result (polygons.new.items ≡ polygons.old.items) }
{
    if polygons.len() >= POLYGON_LIMIT {
        return Err(LineError::Fault(TOO_MANY_POLYGONS));
    }
    if polygons.push(polygon).is_err() {
        return Err(LineError::NoMemory);
    }
    Ok(())
}
