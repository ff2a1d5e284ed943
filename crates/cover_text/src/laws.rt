//! Laws of the texts of covers. Each is a clause of a function that does nothing.

ghost use Rattle.std.specs.Prelude.{◌≡◌};
ghost use Rattle.cover_text.specs.declared.TheConstants.{FINE_LIMIT, SHIFT_LIMIT, OWNER_LIMIT};
ghost use Rattle.cover_text.specs.declared.TheConstants.{RING_LIMIT, TRIANGLE_LIMIT};
ghost use Rattle.cover_text.specs.declared.faults.TheConstants.{BAD_HEADER, BAD_LINE, BAD_NUMBER};
ghost use Rattle.cover_text.specs.declared.faults.TheConstants.{OUT_OF_RANGE, EMPTY_TILE};
ghost use Rattle.cover_text.specs.declared.faults.TheConstants.{TOO_FEW_VERTICES};
ghost use Rattle.cover_text.specs.declared.faults.TheConstants.{TOO_MANY_VERTICES};
ghost use Rattle.cover_text.specs.declared.faults.TheConstants.{TOO_MANY_TRIANGLES, NO_END};

/// The number of each fault.
pub fn faults_have_their_numbers()
    ensures bad_header { BAD_HEADER ≡ 1 }
    ensures bad_line { BAD_LINE ≡ 2 }
    ensures bad_number { BAD_NUMBER ≡ 3 }
    ensures out_of_range { OUT_OF_RANGE ≡ 4 }
    ensures empty_tile { EMPTY_TILE ≡ 5 }
    ensures too_few_vertices { TOO_FEW_VERTICES ≡ 6 }
    ensures too_many_vertices { TOO_MANY_VERTICES ≡ 7 }
    ensures too_many_triangles { TOO_MANY_TRIANGLES ≡ 8 }
    ensures no_end { NO_END ≡ 9 }
{}

/// The limits of a text.
pub fn limits_have_their_numbers()
    ensures fine { FINE_LIMIT ≡ 2147483648 }
    ensures shift { SHIFT_LIMIT ≡ 20 }
    ensures owner { OWNER_LIMIT ≡ 1000000 }
    ensures rings { RING_LIMIT ≡ 1048576 }
    ensures triangles { TRIANGLE_LIMIT ≡ 2097152 }
{}
