//! Laws of the texts of answers.

ghost use Rattle.std.specs.Prelude.{◌≡◌, ◌↔◌, ◌+◌, ◌*◌, ◌<◌, ◌≤◌, ℕ, true, List};
ghost use Rattle.std.specs.Prelude.{length, codes, Some, Ok, All};
ghost use Rattle.text_lines.specs.Words.{line_bytes};
ghost use Rattle.siting_definitions.specs.declared.TheConstants.{NODE_LIMIT, LOAD_LIMIT};
ghost use Rattle.siting_definitions.specs.declared.Mark.{Mark};
ghost use Rattle.siting_definitions.specs.Answer.{Answer, Head, IsHead, IsMark, IsValid};
ghost use Rattle.siting_definitions.specs.AnswerText.{answer_text, mark_line};
ghost use Rattle.line_stream.specs.Coming.{Coming};
ghost use Rattle.line_stream.specs.Feeds.{are_feedless};
ghost use Rattle.certificate.specs.declared.reader.Item.TheVariants.{Node, End};
ghost use Rattle.certificate.specs.Forms.{item_form};
ghost use Rattle.certificate.specs.HeadReading.{head_reading};
ghost use Rattle.certificate.specs.HeadText.{IsHeadText};

/// Two answers whose fields are in their ranges, and which have the same canonical text, are equal.
pub fn no_text_is_of_two_answers()
    ensures { (a b : Answer) → IsHead a.head → IsHead b.head
        → All IsMark a.marks → All IsMark b.marks → answer_text a ≡ answer_text b → a ≡ b }
{}

/// Canonical texts are read, and no others. A head is read exactly where its canonical lines come
/// and its fields are in their ranges. A line after the head is that of a mark exactly where it is
/// the mark's canonical line and the mark's number is in its range, and the last line exactly where
/// it is `end`.
pub fn texts_read_back()
    ensures head { (h : Head) (before after : Coming) → are_feedless before.input.lines ≡ true
        → head_reading before ≡ Ok (h, after) → IsHead h × IsHeadText h before after }
    ensures head_back { (h : Head) (before after : Coming) → IsHead h → IsHeadText h before after
        → head_reading before ≡ Ok (h, after) }
    ensures mark { (line : List ℕ) (m : Mark) → item_form line ≡ Some (Node m)
        → IsMark m × (line ≡ line_bytes (mark_line m)) }
    ensures mark_back { (m : Mark) → IsMark m
        → item_form (line_bytes (mark_line m)) ≡ Some (Node m) }
    ensures end { (line : List ℕ) → (item_form line ≡ Some End) ↔ (line ≡ codes "end") }
{}

/// A valid answer has at most 4,000,001 marks, and its text fewer than 100,000,000 bytes: at most
/// 310,000, and 23 more for each mark.
pub fn valid_texts_are_short()
    ensures marks { (a : Answer) → IsValid a → length a.marks ≤ NODE_LIMIT }
    ensures bytes { (a : Answer) → IsValid a → length (answer_text a) < LOAD_LIMIT }
    ensures by_marks { (a : Answer) → IsHead a.head → All IsMark a.marks
        → length (answer_text a) ≤ 310000 + 23 * length a.marks }
{}
