//! Bounds of squares and costs of sites.

ghost use Rattle.std.specs.Prelude.{◌≡◌, ◌≤◌, length, All, IfSome, unsigned_abs};
ghost use Rattle.siting_definitions.specs.Instance.{DemandPt};

use centre_bound::centre_bound;
use convex_region::Polygon;
use dyadic_square::Square;
use exact_geometry::Place;
use objectives::{coarse, coarse_and_fine, cost_of, fine, fine_and_upper, upper_cost};
use site_model::{DemandPt, Instance, Kind, Site};
use siting_definitions::POINT_LIMIT;
use std::alloc::Global;

/// A demand point with a weight of at most 3,906 in size, so that 4,096 of them make an instance. A
/// cutoff of 0 is none.
#[repr(C)]
#[derive(Clone, Copy)]
pub struct PointRow {
    /// The coordinate to the right, in lengths.
    pub x: i32,
    /// The coordinate upwards, in lengths.
    pub y: i32,
    /// The weight.
    pub w: i32,
    /// The cutoff, in lengths.
    pub cutoff: i32,
}

/// A square with a corner of at most 2^37 grid units in size both ways.
#[repr(C)]
#[derive(Clone, Copy)]
pub struct SquareRow {
    /// The left border, in grid units.
    pub x: i64,
    /// The lower border, in grid units.
    pub y: i64,
    /// The level.
    pub level: u8,
}

/// What is computed of each square.
#[derive(Clone, Copy)]
enum Measure {
    CoarseBound,
    FineBound,
    CentreBound,
    /// The upper cost of the lower left corner.
    UpperCost,
}

/// Which two numbers are computed of each square, in one pass over the points.
#[derive(Clone, Copy)]
enum Pair {
    CoarseAndFineBound,
    /// The fine bound, and the upper cost of the lower left corner.
    FineBoundAndUpperCost,
    /// The lower and the upper cost of the lower left corner.
    BothCosts,
}

/// Writes the coarse bound of each square, and answers whether the rows make an instance and
/// squares.
#[unsafe(no_mangle)]
pub extern "C" fn bsss_bench_coarse(
    alloc: Global,
    points: &[PointRow],
    squares: &[SquareRow],
    bounds: &mut [i64],
) -> bool {
    write_values(alloc, Measure::CoarseBound, points, squares, bounds)
}

/// Writes the fine bound of each square, and answers whether the rows make an instance and squares.
#[unsafe(no_mangle)]
pub extern "C" fn bsss_bench_fine(
    alloc: Global,
    points: &[PointRow],
    squares: &[SquareRow],
    bounds: &mut [i64],
) -> bool {
    write_values(alloc, Measure::FineBound, points, squares, bounds)
}

/// Writes the centre bound of each square, and answers whether the rows make an instance and
/// squares.
#[unsafe(no_mangle)]
pub extern "C" fn bsss_bench_centre(
    alloc: Global,
    points: &[PointRow],
    squares: &[SquareRow],
    bounds: &mut [i64],
) -> bool {
    write_values(alloc, Measure::CentreBound, points, squares, bounds)
}

/// Writes the upper cost of the lower left corner of each square, and answers whether the rows make
/// an instance and squares.
#[unsafe(no_mangle)]
pub extern "C" fn bsss_bench_upper(
    alloc: Global,
    points: &[PointRow],
    squares: &[SquareRow],
    costs: &mut [i64],
) -> bool {
    write_values(alloc, Measure::UpperCost, points, squares, costs)
}

/// Writes the coarse and the fine bound of each square, and answers whether the rows make an
/// instance and squares.
#[unsafe(no_mangle)]
pub extern "C" fn bsss_bench_coarse_and_fine(
    alloc: Global,
    points: &[PointRow],
    squares: &[SquareRow],
    coarse: &mut [i64],
    fine: &mut [i64],
) -> bool {
    write_pairs(
        alloc,
        Pair::CoarseAndFineBound,
        points,
        squares,
        coarse,
        fine,
    )
}

/// Writes the fine bound of each square and the upper cost of its lower left corner, and answers
/// whether the rows make an instance and squares.
#[unsafe(no_mangle)]
pub extern "C" fn bsss_bench_fine_and_upper(
    alloc: Global,
    points: &[PointRow],
    squares: &[SquareRow],
    fine: &mut [i64],
    upper: &mut [i64],
) -> bool {
    write_pairs(
        alloc,
        Pair::FineBoundAndUpperCost,
        points,
        squares,
        fine,
        upper,
    )
}

/// Writes the lower and the upper cost of the lower left corner of each square, and answers whether
/// the rows make an instance and squares.
#[unsafe(no_mangle)]
pub extern "C" fn bsss_bench_costs(
    alloc: Global,
    points: &[PointRow],
    squares: &[SquareRow],
    lower: &mut [i64],
    upper: &mut [i64],
) -> bool {
    write_pairs(alloc, Pair::BothCosts, points, squares, lower, upper)
}

/// Writes this measure of each square, and answers whether the rows make an instance and squares.
fn write_values(
    alloc: Global,
    measure: Measure,
    points: &[PointRow],
    squares: &[SquareRow],
    values: &mut [i64],
) -> bool {
    let Some(instance) = instance_of(alloc, points) else {
        return false;
    };
    for (row, value) in squares.iter().zip(values.iter_mut()) {
        let Some(square) = square_of(*row) else {
            return false;
        };
        *value = value_of(measure, &instance, square);
    }
    true
}

/// The measure of a square, in cost units.
fn value_of(measure: Measure, instance: &Instance, square: Square) -> i64 {
    match measure {
        Measure::CoarseBound => coarse(instance, square),
        Measure::FineBound => fine(instance, square),
        Measure::CentreBound => centre_bound(instance, square),
        Measure::UpperCost => upper_cost(instance, corner_of(square)),
    }
}

/// Writes this pair of each square, and answers whether the rows make an instance and squares.
fn write_pairs(
    alloc: Global,
    pair: Pair,
    points: &[PointRow],
    squares: &[SquareRow],
    firsts: &mut [i64],
    seconds: &mut [i64],
) -> bool {
    let Some(instance) = instance_of(alloc, points) else {
        return false;
    };
    let values = firsts.iter_mut().zip(seconds.iter_mut());
    for (row, (first, second)) in squares.iter().zip(values) {
        let Some(square) = square_of(*row) else {
            return false;
        };
        let (one, other) = pair_of(pair, &instance, square);
        *first = one;
        *second = other;
    }
    true
}

/// The pair of a square, in cost units.
fn pair_of(pair: Pair, instance: &Instance, square: Square) -> (i64, i64) {
    match pair {
        Pair::CoarseAndFineBound => coarse_and_fine(instance, square),
        Pair::FineBoundAndUpperCost => fine_and_upper(instance, square, corner_of(square)),
        Pair::BothCosts => cost_of(instance, corner_of(square)),
    }
}

/// The lower left corner of a square.
fn corner_of(square: Square) -> Site {
    Site::of(square.x, square.y)
}

pub(crate) fn square_of(row: SquareRow) -> Option<Square> {
    let limit = 137_438_953_472;
    if row.level <= 37 && row.x.unsigned_abs() <= limit && row.y.unsigned_abs() <= limit {
        Some(Square::of(row.x, row.y, row.level))
    } else {
        None
    }
}

fn point_of(row: PointRow) -> Option<DemandPt>
    ensures { IfSome result (λ d. unsigned_abs d.w ≤ 3906) }
{
    if row.x.unsigned_abs() > 1_000_000 || row.y.unsigned_abs() > 1_000_000 {
        return None;
    }
    if row.w == 0 || row.w.unsigned_abs() > 3906 || row.cutoff < 0 || row.cutoff > 4_000_000 {
        return None;
    }
    let cutoff = if row.cutoff == 0 {
        None
    } else {
        Some(row.cutoff)
    };
    Some(DemandPt::of(row.x, row.y, row.w as i64, cutoff))
}

fn points_of(alloc: Global, rows: &[PointRow]) -> Option<Vec<DemandPt>>
    ensures count { IfSome result (λ v. length v.items ≡ length rows.now) }
    ensures small { IfSome result (λ v. All (λ (d : DemandPt). unsigned_abs d.w ≤ 3906) v.items) }
{
    let mut points = Vec::new(alloc);
    for row in rows {
        points.push(point_of(*row)?).ok()?;
    }
    Some(points)
}

fn instance_of(alloc: Global, rows: &[PointRow]) -> Option<Instance> {
    if rows.is_empty() || rows.len() > POINT_LIMIT {
        return None;
    }
    let points = points_of(alloc, rows)?;
    let corners = [Place::of(0, 0), Place::of(1, 0), Place::of(0, 1)];
    let mut permitted = Vec::new(alloc);
    permitted.push(Polygon::build(alloc, &corners).ok()?).ok()?;
    Some(Instance::build(Kind::Sum, points, permitted, Vec::new(alloc)))
}
