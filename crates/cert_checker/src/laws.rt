//! Laws of checking. Each is a clause of a function that does nothing.

ghost use Rattle.std.specs.Prelude.{◌≡◌, ◌↔◌, ℕ, ◌+◌, ◌<◌, ◌≤◌, ◌==◌, List, ◌++◌, length, map};
ghost use Rattle.std.specs.Prelude.{count_by, None, Ok, Err};
ghost use Rattle.siting_definitions.specs.declared.TheConstants.{CHECK_LIMIT};
ghost use Rattle.siting_definitions.specs.declared.Mark.{Mark};
ghost use Rattle.siting_definitions.specs.Square.{Square};
ghost use Rattle.siting_definitions.specs.Marks.{Tally, tally_of, MarkFits, is_split};
ghost use Rattle.siting_definitions.specs.Answer.{Answer, Head, upper_cost, HeadFits, EndFits};
ghost use Rattle.siting_definitions.specs.Answer.{IsValid};
ghost use Rattle.siting_definitions.specs.AnswerText.{answer_text};
ghost use Rattle.instance_text.specs.Reading.{and_then};
ghost use Rattle.port_io.specs.Bytes.{piece_size};
ghost use Rattle.line_stream.specs.Coming.{Coming};
ghost use Rattle.certificate.specs.Forms.{item_form};
ghost use Rattle.answer_model.specs.Tally.{tally_sum};
ghost use Rattle.cert_checker.specs.declared.faults.TheConstants.{FORM, INSTANCE, SITE_OUTSIDE};
ghost use Rattle.cert_checker.specs.declared.faults.TheConstants.{COST_DIFFERS, TREE_SHORT};
ghost use Rattle.cert_checker.specs.declared.faults.TheConstants.{TREE_LONG, NOT_SHUT};
ghost use Rattle.cert_checker.specs.declared.faults.TheConstants.{BOUND_DIFFERS, WRONG_MARK};
ghost use Rattle.cert_checker.specs.declared.faults.TheConstants.{SPLIT_UNCALLED, LEAST_DIFFERS};
ghost use Rattle.cert_checker.specs.declared.faults.TheConstants.{WRONG_WORD, WRONG_COUNT};
ghost use Rattle.cert_checker.specs.declared.faults.TheConstants.{SITE_WORSE};
ghost use Rattle.cert_checker.specs.declared.faults.CheckError.TheVariants.{Fault};
ghost use Rattle.cert_checker.specs.declared.checking.Accepted.{Accepted};
ghost use Rattle.cert_checker.specs.Faults.{fault_at, head_fault_of, mark_fault_of, end_fault_of};
ghost use Rattle.cert_checker.specs.Checking.{Progress, accepted_of, checking, items_of};
ghost use Rattle.cert_checker.specs.Checking.{node_item, take_marks};
ghost use Rattle.cert_checker.specs.CheckReading.{IsNeededSoFar};

/// A head has no fault exactly where its site is permitted, with its own costs, and costs no more
/// than the opening.
pub fn heads_without_a_fault_fit()
    ensures { (h : Head) → (head_fault_of h ≡ None) ↔ HeadFits h }
{}

/// A mark has no fault exactly where it is a split that was called for, or the finished mark of a
/// leaf.
pub fn marks_without_a_fault_fit()
    ensures { (h : Head) (s : Square) (m : Mark) (line : ℕ)
        → (mark_fault_of h s m line ≡ None)
        ↔ MarkFits h.instance h.gap (upper_cost h.best)
        (record { square = s; is_split = is_split m }) m }
{}

/// The last line has no fault exactly where the bound, the word and the counts are those of the
/// marks.
pub fn ends_without_a_fault_fit()
    ensures { (h : Head) (t : Tally) (line : ℕ) → (end_fault_of h t line ≡ None) ↔ EndFits h t }
{}

/// A text is accepted exactly where it is that of a valid answer, and what is then said of it is
/// what the answer says.
pub fn accepted_exactly_where_valid()
    ensures accepted { (bytes : List ℕ) (x : Accepted) → checking bytes ≡ Ok x
        → (a : Answer) × IsValid a × (bytes ≡ answer_text a)
        × (x ≡ accepted_of a.head (tally_of a.marks)) }
    ensures valid { (a : Answer) → IsValid a
        → checking (answer_text a) ≡ Ok (accepted_of a.head (tally_of a.marks)) }
{}

/// A check of node lines that are cut in two is one of the first part, and then, from the squares,
/// the tally and the line that it leaves, one of the second. The tally that it leaves is that of
/// the marks. Where node lines come first, the rest of a check begins where they leave it.
pub fn a_check_is_cut_in_two()
    ensures marks { (h : Head) (line : ℕ) (ms ns : List Mark) (p : Progress)
        → take_marks h line (ms ++ ns) p
        ≡ and_then (take_marks h line ms p) (take_marks h (line + length ms) ns) }
    ensures tally { (h : Head) (line : ℕ) (ms : List Mark) (p q : Progress)
        → take_marks h line ms p ≡ Ok q → q.tally ≡ tally_sum p.tally (tally_of ms) }
    ensures lines { (h : Head) (ms : List Mark) (p : Progress) (r : Coming)
        → (front rest : List (List ℕ))
        → map item_form front ≡ map node_item ms
        → items_of h p r (front ++ rest)
        ≡ and_then (take_marks h (r.line + 1) ms p)
        (λ q. items_of h q (record r { line = r.line + length ms }) rest) }
{}

/// The text of a valid answer that is cut short, wherever that is, has its fault at the line that
/// is missing: the line after the last whole one.
pub fn cut_answers_are_refused()
    ensures { (a : Answer) → IsValid a → (front rest : List ℕ)
        → answer_text a ≡ front ++ rest → 0 < length rest
        → checking front ≡ Err (Fault (fault_at FORM (count_by (λ b. b == 10) front + 1))) }
{}

/// A check reads at most 4,096 bytes past the 2^30 that an answer may have.
pub fn a_check_reads_one_piece_past_its_limit()
    ensures { (got : List ℕ) → IsNeededSoFar got → length got ≤ CHECK_LIMIT + piece_size }
{}

/// The number of each fault.
pub fn faults_have_their_numbers()
    ensures form { FORM ≡ 1 }
    ensures instance { INSTANCE ≡ 2 }
    ensures site_outside { SITE_OUTSIDE ≡ 3 }
    ensures cost_differs { COST_DIFFERS ≡ 4 }
    ensures tree_short { TREE_SHORT ≡ 5 }
    ensures tree_long { TREE_LONG ≡ 6 }
    ensures not_shut { NOT_SHUT ≡ 7 }
    ensures bound_differs { BOUND_DIFFERS ≡ 8 }
    ensures wrong_mark { WRONG_MARK ≡ 9 }
    ensures split_uncalled { SPLIT_UNCALLED ≡ 10 }
    ensures least_differs { LEAST_DIFFERS ≡ 11 }
    ensures wrong_word { WRONG_WORD ≡ 12 }
    ensures wrong_count { WRONG_COUNT ≡ 13 }
    ensures site_worse { SITE_WORSE ≡ 14 }
{}
