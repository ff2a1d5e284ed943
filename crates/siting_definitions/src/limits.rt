//! The numbers of the limits.

ghost use Rattle.std.specs.Prelude.{◌≡◌, ◌+◌, ◌*◌, ◌^◌};
ghost use Rattle.siting_definitions.specs.declared.TheConstants as limits;

/// Each limit has its number.
pub fn limits_have_their_numbers()
    ensures unit { limits.UNIT ≡ 65536 }
    ensures coordinate { limits.COORDINATE_LIMIT ≡ 1000000 }
    ensures weight { limits.WEIGHT_LIMIT ≡ 16000000 }
    ensures cutoff { limits.CUTOFF_LIMIT ≡ 4000000 }
    ensures points { limits.POINT_LIMIT ≡ 4096 }
    ensures polygons { limits.POLYGON_LIMIT ≡ 64 }
    ensures vertices { limits.VERTEX_LIMIT ≡ 64 }
    ensures gap { limits.GAP_LIMIT ≡ 2 ^ 62 }
    ensures ppm { limits.PPM_LIMIT ≡ 1000000 }
    ensures budget { limits.BUDGET_LIMIT ≡ 1000000 }
    ensures pool { limits.POOL_LIMIT ≡ 1000000 }
    ensures nodes { limits.NODE_LIMIT ≡ 4 * limits.BUDGET_LIMIT + 1 }
    ensures workers { limits.WORKER_LIMIT ≡ 64 }
    ensures seed { limits.SEED_LIMIT + 1 ≡ 2 ^ 31 }
    ensures slack { limits.SLACK_LIMIT ≡ 2 ^ 60 }
    ensures depth { limits.DEPTH_LIMIT ≡ 16 }
    ensures squares { limits.SQUARE_LIMIT ≡ 1000000 }
    ensures instance_bytes { limits.INSTANCE_LIMIT ≡ 2 ^ 20 }
    ensures check_bytes { limits.CHECK_LIMIT ≡ 2 ^ 30 }
    ensures load_bytes { limits.LOAD_LIMIT ≡ 100000000 }
{}
