//! Writing an instance text.

ghost use Rattle.std.specs.Prelude.{◌≡◌};
ghost use Rattle.std.specs.List.{flat_map};
ghost use Rattle.siting_definitions.specs.InstanceText.{kind_field, instance_text};
ghost use Rattle.port_io.specs.Output.{IsOpen, PutOn};
ghost use Rattle.instance_text.specs.Written.{front_text, point_text, vertex_text, polygon_text};

use convex_region::Polygon;
use exact_geometry::Place;
use port_io::{Out, Piece, Sink, WriteFault};
use site_model::{DemandPt, Instance, Kind};

/// Puts the canonical text of an instance, which reads back as that instance, to an output on which
/// no call failed. `WriteFault` only where the sink's count of faults rose in this call: the sink
/// then took a front of what was put.
pub fn write_instance<K: Sink>(instance: &Instance, out: &mut Out<K>) -> Result<(), WriteFault>
    requires { IsOpen out.old }
    ensures { PutOn K.room K.taken K.faults K.is_strict out.old out.new
        (instance_text instance.now) result }
{
    write_front(instance, out)?;
    write_points(instance.points(), out)?;
    write_polygons(b"permit", instance.permitted(), out)?;
    write_polygons(b"forbid", instance.forbidden(), out)?;
    out.put(b"end\n")
}

/// Puts the header and the kind.
fn write_front<K: Sink>(instance: &Instance, out: &mut Out<K>) -> Result<(), WriteFault>
    requires { IsOpen out.old }
    ensures { PutOn K.room K.taken K.faults K.is_strict out.old out.new
        (front_text instance.now) result }
{
    let version: &[u8] = if instance.has_cutoff() { b"2" } else { b"1" };
    out.put_pieces(&[
        Piece::Text(b"siting "),
        Piece::Text(version),
        Piece::Text(b"\nkind "),
        Piece::Text(kind_word(instance.kind())),
        Piece::Text(b"\n"),
    ])
}

/// The word of a kind.
fn kind_word(kind: Kind) -> &'static [u8]
    ensures { result.now ≡ kind_field kind }
{
    match kind {
        Kind::Sum => b"sum",
        Kind::Max => b"max",
    }
}

/// Puts the lines of points.
fn write_points<K: Sink>(points: &[DemandPt], out: &mut Out<K>) -> Result<(), WriteFault>
    requires { IsOpen out.old }
    ensures { PutOn K.room K.taken K.faults K.is_strict out.old out.new
        (flat_map point_text points.now) result }
{
    for point in points {
        write_point(point, out)?;
    }
    Ok(())
}

/// Puts the line of a point.
fn write_point<K: Sink>(point: &DemandPt, out: &mut Out<K>) -> Result<(), WriteFault>
    requires { IsOpen out.old }
    ensures { PutOn K.room K.taken K.faults K.is_strict out.old out.new
        (point_text point.now) result }
{
    let (x, y) = (i64::from(point.x), i64::from(point.y));
    match point.cutoff {
        None => out.put_pieces(&[
            Piece::Text(b"point "),
            Piece::Number(x),
            Piece::Text(b" "),
            Piece::Number(y),
            Piece::Text(b" "),
            Piece::Number(point.w),
            Piece::Text(b"\n"),
        ]),
        Some(cutoff) => out.put_pieces(&[
            Piece::Text(b"point "),
            Piece::Number(x),
            Piece::Text(b" "),
            Piece::Number(y),
            Piece::Text(b" "),
            Piece::Number(point.w),
            Piece::Text(b" "),
            Piece::Number(i64::from(cutoff)),
            Piece::Text(b"\n"),
        ]),
    }
}

/// Puts the lines of polygons, each beginning with this word.
fn write_polygons<K: Sink>(
    word: &[u8],
    polygons: &[Polygon],
    out: &mut Out<K>,
) -> Result<(), WriteFault>
    requires { IsOpen out.old }
    ensures { PutOn K.room K.taken K.faults K.is_strict out.old out.new
        (flat_map (polygon_text word.now) polygons.now) result }
{
    for polygon in polygons {
        write_polygon(word, polygon, out)?;
    }
    Ok(())
}

/// Puts the line of a polygon, beginning with this word.
fn write_polygon<K: Sink>(
    word: &[u8],
    polygon: &Polygon,
    out: &mut Out<K>,
) -> Result<(), WriteFault>
    requires { IsOpen out.old }
    ensures { PutOn K.room K.taken K.faults K.is_strict out.old out.new
        (polygon_text word.now polygon.now) result }
{
    out.put(word)?;
    write_vertices(polygon, out)?;
    out.put(b"\n")
}

/// Puts the vertices of a polygon, each coordinate after a space.
fn write_vertices<K: Sink>(polygon: &Polygon, out: &mut Out<K>) -> Result<(), WriteFault>
    requires { IsOpen out.old }
    ensures { PutOn K.room K.taken K.faults K.is_strict out.old out.new
        (flat_map vertex_text polygon.now) result }
{
    for i in 0..polygon.len() {
        write_vertex(polygon.vertex(i), out)?;
    }
    Ok(())
}

/// Puts a vertex, each coordinate after a space.
fn write_vertex<K: Sink>(vertex: Place, out: &mut Out<K>) -> Result<(), WriteFault>
    requires { IsOpen out.old }
    ensures { PutOn K.room K.taken K.faults K.is_strict out.old out.new
        (vertex_text vertex) result }
{
    out.put_pieces(&[
        Piece::Text(b" "),
        Piece::Number(i64::from(vertex.x)),
        Piece::Text(b" "),
        Piece::Number(i64::from(vertex.y)),
    ])
}
