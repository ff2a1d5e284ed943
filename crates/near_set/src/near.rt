//! The squares of a near set, counted and written.

ghost use Rattle.std.specs.Prelude.{◌≡◌, ◌<◌, ◌≤◌, min, length, MatchOption};
ghost use Rattle.port_io.specs.Output.{IsOpen, PutOn};
ghost use Rattle.siting_definitions.specs.Line.{line_text};
ghost use Rattle.near_set.specs.Near.{near_below, near_list, square_line, squares_text};
ghost use Rattle.near_set.specs.Standing.{FitsBelow};

use crate::standing::{Standing, standing_of};
use dyadic_square::Square;
use port_io::{Out, Piece, Sink, WriteFault};
use site_model::Instance;

/// How many squares the near set of `cost` has at this depth, or `None` exactly where it has more
/// than `limit`. The cost is in cost units; the squares lie `depth` levels below the starting
/// square, at most 16. It counts no further than one above the limit, and takes no memory.
pub fn count_near(instance: &Instance, cost: i64, depth: u8, limit: u32) -> Option<u32>
    requires { depth ≤ 16 }
    ensures { MatchOption result (limit < length (near_list instance.now cost depth))
        (λ n. (n ≡ length (near_list instance.now cost depth)) × (n ≤ limit)) }
{
    let most = limit as u64 + 1;
    let count = count_below(instance, cost, instance.root(), Standing::Near, depth, most);
    if count < most {
        Some(count as u32)
    } else {
        None
    }
}

/// Puts a line `square X Y` for each square of the near set of `cost` at this depth, in preorder: X
/// and Y are its lower left corner in grid units. The cost is in cost units; the squares lie
/// `depth` levels below the starting square, at most 16. It takes no memory.
pub fn write_near<K: Sink>(
    instance: &Instance,
    cost: i64,
    depth: u8,
    out: &mut Out<K>,
) -> Result<(), WriteFault>
    requires is_open { IsOpen out.old }
    requires depth { depth ≤ 16 }
    ensures { PutOn K.room K.taken K.faults K.is_strict out.old out.new
        (squares_text (near_list instance.now cost depth)) result }
{
    write_below(instance, cost, instance.root(), Standing::Near, depth, out)
}

/// How many near squares lie `depth` levels below a square, counted no further than `most`. `above`
/// is as in `standing_of`.
fn count_below(
    instance: &Instance,
    cost: i64,
    sq: Square,
    above: Standing,
    depth: u8,
    most: u64,
) -> u64
    requires depth { depth ≤ sq.level }
    requires above { FitsBelow instance.now cost sq above }
    ensures { result ≡ min most (length (near_below instance.now cost depth sq)) }
{
    if most == 0 {
        return 0;
    }
    let standing = standing_of(instance, cost, sq, above);
    match standing {
        Standing::Far => 0,
        Standing::Near | Standing::Inside => {
            if depth == 0 {
                return 1;
            }
            let next = depth - 1;
            let one = count_below(instance, cost, sq.quarter(0), standing, next, most);
            let two = one + count_below(instance, cost, sq.quarter(1), standing, next, most - one);
            let three = two
                + count_below(instance, cost, sq.quarter(2), standing, next, most - two);
            three + count_below(instance, cost, sq.quarter(3), standing, next, most - three)
        }
    }
}

/// Puts the lines of the near squares that lie `depth` levels below a square. `above` is as in
/// `standing_of`.
fn write_below<K: Sink>(
    instance: &Instance,
    cost: i64,
    sq: Square,
    above: Standing,
    depth: u8,
    out: &mut Out<K>,
) -> Result<(), WriteFault>
    requires is_open { IsOpen out.old }
    requires depth { depth ≤ sq.level }
    requires above { FitsBelow instance.now cost sq above }
    ensures { PutOn K.room K.taken K.faults K.is_strict out.old out.new
        (squares_text (near_below instance.now cost depth sq)) result }
{
    let standing = standing_of(instance, cost, sq, above);
    match standing {
        Standing::Far => Ok(()),
        Standing::Near | Standing::Inside => {
            if depth == 0 {
                return write_square(sq, out);
            }
            let next = depth - 1;
            write_below(instance, cost, sq.quarter(0), standing, next, out)?;
            write_below(instance, cost, sq.quarter(1), standing, next, out)?;
            write_below(instance, cost, sq.quarter(2), standing, next, out)?;
            write_below(instance, cost, sq.quarter(3), standing, next, out)
        }
    }
}

/// Puts the line of a square.
fn write_square<K: Sink>(sq: Square, out: &mut Out<K>) -> Result<(), WriteFault>
    requires { IsOpen out.old }
    ensures { PutOn K.room K.taken K.faults K.is_strict out.old out.new
        (line_text (square_line sq)) result }
{
    out.put_pieces(&[
        Piece::Text(b"square "),
        Piece::Number(sq.x),
        Piece::Text(b" "),
        Piece::Number(sq.y),
        Piece::Text(b"\n"),
    ])
}
