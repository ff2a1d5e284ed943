//! Whole square roots.

ghost use Rattle.std.specs.Prelude.{◌+◌, ◌*◌, ◌^◌, ◌<◌};
ghost use Rattle.siting_definitions.specs.Root.{IsFloorRoot, IsCeilRoot};

use root_enclosure::{ceil_root, floor_root};

/// The root of `upper * 2^64 + lower`, rounded down.
#[unsafe(no_mangle)]
pub extern "C" fn bsss_bench_floor_root(upper: u64, lower: u64) -> u64
    requires { upper < 2 ^ 62 }
    ensures { IsFloorRoot (upper * 2 ^ 64 + lower) result }
{
    floor_root((upper as u128) * 0x1_0000_0000_0000_0000 + lower as u128)
}

/// The root of `upper * 2^64 + lower`, rounded up.
#[unsafe(no_mangle)]
pub extern "C" fn bsss_bench_ceil_root(upper: u64, lower: u64) -> u64
    requires { upper < 2 ^ 62 }
    ensures { IsCeilRoot (upper * 2 ^ 64 + lower) result }
{
    ceil_root((upper as u128) * 0x1_0000_0000_0000_0000 + lower as u128)
}
