//! Drawing demand points.

ghost use Rattle.std.specs.Prelude.{◌≡◌, ◌≤◌, ◌+◌, ◌*◌, map, IfOk};
ghost use Rattle.std.specs.List.{range_with_len};
ghost use Rattle.siting_definitions.specs.declared.TheConstants.{SEED_LIMIT};
ghost use Rattle.siting_definitions.specs.declared.TheConstants.{POINT_LIMIT, WEIGHT_LIMIT};
ghost use Rattle.siting_definitions.specs.Instance.{weight};
ghost use Rattle.case_maker.specs.Made.{state, draw, point_of_draws, made_point};

use site_model::DemandPt;
use std::alloc::{AllocError, Global};

/// A linear congruential generator: its state is below 2^31.
#[derive(Drop)]
struct Generator {
    state: u32,
}

impl Generator {
    /// The next draw, 0 to 32767.
    fn draw(&mut self) -> u32
        requires { self.old.state ≤ SEED_LIMIT }
        ensures state { self.new.state ≡ state self.old.state 1 }
        ensures value { result ≡ draw self.old.state 1 }
        ensures small { self.new.state ≤ SEED_LIMIT }
        ensures size { result ≤ 32767 }
    {
        let state = (1103515245 * self.state as u64 + 12345) % 2147483648;
        self.state = state as u32;
        self.state / 65536
    }

    /// The point of the next three draws: its coordinates and its weight.
    fn point(&mut self) -> DemandPt
        requires { self.old.state ≤ SEED_LIMIT }
        ensures state { self.new.state ≡ state self.old.state 3 }
        ensures value { result ≡ point_of_draws (draw self.old.state 1) (draw self.old.state 2)
            (draw self.old.state 3) }
        ensures small { self.new.state ≤ SEED_LIMIT }
    {
        let x = 3 * self.draw();
        let y = 3 * self.draw();
        let weight = 1 + self.draw() % 1000;
        DemandPt::of(x as i32, y as i32, weight as i64, None)
    }
}

/// The points that a seed makes.
pub(crate) fn make_points(alloc: Global, seed: u32, count: u32) -> Result<Vec<DemandPt>, AllocError>
    requires seed { seed ≤ SEED_LIMIT }
    requires many { count ≤ POINT_LIMIT }
    ensures points { IfOk result (λ v. v.items ≡ map (made_point seed) (range_with_len 0 count)) }
    ensures weight { IfOk result (λ v. weight v.items ≤ WEIGHT_LIMIT) }
{
    let mut generator = Generator { state: seed };
    let mut points = Vec::new(alloc);
    for _ in 0..count {
        points.push(generator.point())?;
    }
    Ok(points)
}

#[cfg(test)]
mod tests {
    use super::*;

    #[test]
    fn draws_of_seed_7(rt: HostRuntime) {
        let mut generator = Generator { state: 7 };
        let table = [(19564, 1282168116), (9806, 642666333), (10868, 712265938)];
        for (draw, state) in table {
            assert!(rt; generator.state <= 2147483647);
            assert_eq!(rt; generator.draw(), draw);
            assert_eq!(rt; generator.state, state);
        }
    }
}
