//! What the lines of a cover say, one after another.

ghost use Rattle.std.specs.Prelude.{◌≡◌, ◌≤◌, Ok};
ghost use Rattle.text_lines.specs.Lines.{fields_of};
ghost use Rattle.cover_text.specs.Outcome.{TakesLine};

use crate::faults::{
    BAD_HEADER, BAD_LINE, LineError, NO_END, TOO_MANY_TRIANGLES, TOO_MANY_VERTICES,
};
use crate::phase::Phase;
use crate::rows::{read_ring, read_shift, read_tile, read_triangle};
use crate::{RING_LIMIT, TRIANGLE_LIMIT};
use cover_check::{Cover, Owned, Ring, Tile};
use site_model::Instance;
use std::alloc::Global;
use std::marker::Model;
use text_lines::{is_passed_over, next_field, says};

/// What the lines say that were read.
#[derive(Drop)]
pub(crate) struct Reading {
    phase: Phase,
    shift: u8,
    tile: Tile,
    region: Vec<Ring>,
    forbidden: Vec<Ring>,
    triangles: Vec<Owned>,
    vertices: u64,
}

impl Model for Reading {
    ghost use Rattle.cover_text.specs.Reading.{Found};
    ghost use Rattle.cover_text.specs.KeepsLimits.{found_of, KeepsLimits};

    ghost Value = { Found };

    ghost view = { found_of };

    ghost invariant = { λ a. KeepsLimits (found_of a) };
}

impl Reading {
    ghost use Rattle.cover_text.specs.Reading as readings;

    /// Before the first line.
    pub(crate) fn new(alloc: Global) -> Reading
        ensures { result ≡ readings.nothing_found }
    {
        Reading {
            phase: Phase::Header,
            shift: 0,
            tile: Tile::of(0, 0, 0, 0),
            region: Vec::new(alloc),
            forbidden: Vec::new(alloc),
            triangles: Vec::new(alloc),
            vertices: 0,
        }
    }

    /// Takes a line, which has this number.
    pub(crate) fn take_line(
        &mut self,
        alloc: Global,
        number: u64,
        line: &[u8],
    ) -> Result<(), LineError>
        ensures { TakesLine result (readings.take_line number (fields_of line.now) self.old) self.new }
    {
        if is_passed_over(line) {
            return Ok(());
        }
        if let Phase::Header = self.phase {
            return self.take_header(line);
        }
        match next_field(line) {
            None => Ok(()),
            Some((word, fields)) => self.take_word(alloc, number, word, fields),
        }
    }

    fn take_header(&mut self, fields: &[u8]) -> Result<(), LineError>
        ensures { TakesLine result (readings.take_header (fields_of fields.now) self.old) self.new }
    {
        let Some((word, rest)) = next_field(fields) else {
            return Err(LineError::Fault(BAD_HEADER));
        };
        let Some((version, rest)) = next_field(rest) else {
            return Err(LineError::Fault(BAD_HEADER));
        };
        if !says(word, b"cover") | !says(version, b"1") | next_field(rest).is_some() {
            return Err(LineError::Fault(BAD_HEADER));
        }
        self.phase = Phase::Shift;
        Ok(())
    }

    fn take_word(
        &mut self,
        alloc: Global,
        number: u64,
        word: &[u8],
        fields: &[u8],
    ) -> Result<(), LineError>
        ensures { TakesLine result
            (readings.take_word number word.now (fields_of fields.now) self.old.phase self.old)
            self.new }
    {
        match self.phase {
            Phase::Shift if says(word, b"shift") => self.take_shift(read_shift(fields)?),
            Phase::Tile if says(word, b"tile") => self.take_tile(read_tile(fields)?),
            Phase::Body => self.take_row(alloc, number, word, fields),
            _ => Err(LineError::Fault(BAD_LINE)),
        }
    }

    fn take_shift(&mut self, shift: u8) -> Result<(), LineError>
        requires { shift ≤ 20 }
        ensures { TakesLine result (readings.take_shift (Ok shift) self.old) self.new }
    {
        self.shift = shift;
        self.phase = Phase::Tile;
        Ok(())
    }

    fn take_tile(&mut self, tile: Tile) -> Result<(), LineError>
        ensures { TakesLine result (readings.take_tile (Ok tile) self.old) self.new }
    {
        self.tile = tile;
        self.phase = Phase::Body;
        Ok(())
    }

    #[tactic(auto, unfolding(crate::specs::Reading::take_row))]
    fn take_row(
        &mut self,
        alloc: Global,
        number: u64,
        word: &[u8],
        fields: &[u8],
    ) -> Result<(), LineError>
        ensures { TakesLine result
            (readings.take_row number word.now (fields_of fields.now) self.old) self.new }
    {
        if says(word, b"region") {
            self.take_region(read_ring(alloc, fields)?)
        } else if says(word, b"forbidden") {
            self.take_forbidden(read_ring(alloc, fields)?)
        } else if says(word, b"triangle") {
            self.take_triangle(read_triangle(number, fields)?)
        } else if says(word, b"end") {
            self.take_end(fields)
        } else {
            Err(LineError::Fault(BAD_LINE))
        }
    }

    fn take_region(&mut self, ring: Ring) -> Result<(), LineError>
        ensures { TakesLine result (readings.take_region (Ok ring) self.old) self.new }
    {
        let count = ring.vertices().len() as u64;
        if count > RING_LIMIT - self.vertices {
            return Err(LineError::Fault(TOO_MANY_VERTICES));
        }
        if self.region.push(ring).is_err() {
            return Err(LineError::NoMemory);
        }
        self.vertices += count;
        Ok(())
    }

    fn take_forbidden(&mut self, ring: Ring) -> Result<(), LineError>
        ensures { TakesLine result (readings.take_forbidden (Ok ring) self.old) self.new }
    {
        let count = ring.vertices().len() as u64;
        if count > RING_LIMIT - self.vertices {
            return Err(LineError::Fault(TOO_MANY_VERTICES));
        }
        if self.forbidden.push(ring).is_err() {
            return Err(LineError::NoMemory);
        }
        self.vertices += count;
        Ok(())
    }

    fn take_triangle(&mut self, owned: Owned) -> Result<(), LineError>
        ensures { TakesLine result (readings.take_triangle (Ok owned) self.old) self.new }
    {
        if self.triangles.len() >= TRIANGLE_LIMIT {
            return Err(LineError::Fault(TOO_MANY_TRIANGLES));
        }
        if self.triangles.push(owned).is_err() {
            return Err(LineError::NoMemory);
        }
        Ok(())
    }

    fn take_end(&mut self, fields: &[u8]) -> Result<(), LineError>
        ensures { TakesLine result (readings.take_end (fields_of fields.now) self.old) self.new }
    {
        if next_field(fields).is_some() {
            return Err(LineError::Fault(BAD_LINE));
        }
        self.phase = Phase::Ended;
        Ok(())
    }

    /// Whether the end was read.
    pub(crate) fn has_ended(&self) -> bool
        ensures { result ≡ readings.has_ended self.now.phase }
    {
        matches!(self.phase, Phase::Ended)
    }

    /// The fault that there is no more of the text.
    pub(crate) fn missing(&self) -> u8
        ensures { result ≡ readings.missing self.now.phase }
    {
        if let Phase::Header = self.phase {
            BAD_HEADER
        } else {
            NO_END
        }
    }

    /// The cover that the lines said, with this instance.
    pub(crate) fn finish(self, instance: Instance) -> Cover
        ensures { result ≡ readings.finish self instance }
    {
        let Reading {
            phase: _,
            shift,
            tile,
            region,
            forbidden,
            triangles,
            vertices: _,
        } = self;
        Cover::of(shift, tile, region, forbidden, triangles, instance)
    }
}
