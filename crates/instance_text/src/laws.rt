//! Laws of the texts of instances. Each is a function without parameters whose contract is the law.

ghost use Rattle.std.specs.Prelude.{◌≡◌};
ghost use Rattle.instance_text.specs.declared.faults.TheConstants.{BAD_HEADER, BAD_LINE};
ghost use Rattle.instance_text.specs.declared.faults.TheConstants.{BAD_NUMBER, OUT_OF_RANGE};
ghost use Rattle.instance_text.specs.declared.faults.TheConstants.{ZERO_WEIGHT, TOO_MANY_POINTS};
ghost use Rattle.instance_text.specs.declared.faults.TheConstants.{WEIGHT_SUM, TOO_FEW_VERTICES};
ghost use Rattle.instance_text.specs.declared.faults.TheConstants.{TOO_MANY_VERTICES, NOT_CONVEX};
ghost use Rattle.instance_text.specs.declared.faults.TheConstants.{TOO_MANY_POLYGONS, NO_KIND};
ghost use Rattle.instance_text.specs.declared.faults.TheConstants.{TWO_KINDS, NO_POINT, NO_PERMIT};
ghost use Rattle.instance_text.specs.declared.faults.TheConstants.{NO_END, AFTER_END};
ghost use Rattle.instance_text.specs.Laws.{TextReadsBack, TextsDiffer, TextKeepsLimits};
ghost use Rattle.instance_text.specs.Laws.{TextSaysItsRows, CanonicalTextIsShort};
ghost use Rattle.instance_text.specs.Laws.{CanonicalLinesAreShort, UnendedTextReadsBack};
ghost use Rattle.instance_text.specs.Laws.{CutTextIsRefused, TextHasItsFirstFault};

/// The canonical text of an instance within the limits is an instance text of that instance, and so
/// of no other.
pub fn text_reads_back()
    ensures { TextReadsBack }
{}

/// Two instances within the limits that have the same canonical text are equal.
pub fn texts_differ()
    ensures { TextsDiffer }
{}

/// An instance that a text says is within the limits.
pub fn text_keeps_limits()
    ensures { TextKeepsLimits }
{}

/// A text is read as an instance exactly where the rows of its lines that count, those that are
/// neither blank nor comments, are a header, those of the kind, the points and the polygons of this
/// instance in any order, and the end.
pub fn text_says_its_rows()
    ensures { TextSaysItsRows }
{}

/// A text is refused with a fault exactly where that is its first one, by its lines as they stand:
/// each is judged by the lines before it.
pub fn text_has_its_first_fault()
    ensures { TextHasItsFirstFault }
{}

/// A canonical text that is cut short: without its last line feed it is read as the same instance,
/// and a front of it that lacks more has a fault.
pub fn cut_texts_are_refused()
    ensures line_feed { UnendedTextReadsBack }
    ensures more { CutTextIsRefused }
{}

/// The canonical text of an instance within the limits has fewer than 310,000 bytes, and each of
/// its lines fewer than 1,200 with its line feed.
pub fn canonical_texts_are_short()
    ensures text { CanonicalTextIsShort }
    ensures lines { CanonicalLinesAreShort }
{}

/// The number of each fault.
pub fn faults_have_their_numbers()
    ensures bad_header { BAD_HEADER ≡ 1 }
    ensures bad_line { BAD_LINE ≡ 2 }
    ensures bad_number { BAD_NUMBER ≡ 3 }
    ensures out_of_range { OUT_OF_RANGE ≡ 4 }
    ensures zero_weight { ZERO_WEIGHT ≡ 5 }
    ensures too_many_points { TOO_MANY_POINTS ≡ 6 }
    ensures weight_sum { WEIGHT_SUM ≡ 7 }
    ensures too_few_vertices { TOO_FEW_VERTICES ≡ 8 }
    ensures too_many_vertices { TOO_MANY_VERTICES ≡ 9 }
    ensures not_convex { NOT_CONVEX ≡ 10 }
    ensures too_many_polygons { TOO_MANY_POLYGONS ≡ 11 }
    ensures no_kind { NO_KIND ≡ 12 }
    ensures two_kinds { TWO_KINDS ≡ 13 }
    ensures no_point { NO_POINT ≡ 14 }
    ensures no_permit { NO_PERMIT ≡ 15 }
    ensures no_end { NO_END ≡ 16 }
    ensures after_end { AFTER_END ≡ 17 }
{}
