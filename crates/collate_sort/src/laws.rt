//! Laws of lines in order: the functions do nothing, and their contracts are the laws.

ghost use Rattle.std.specs.Prelude.{◌≡◌, ℕ, List};
ghost use Rattle.std.specs.Cmp.{IsTotalOrder};
ghost use Rattle.std.specs.List.Sorted.{IsPermutation, IsSorted, IsStable};
ghost use Rattle.icu_normalizer_core.specs.Decoding.{utf8_chars};
ghost use Rattle.icu_collator_types.specs.declared.options.CollatorOptions.{CollatorOptions};
ghost use Rattle.icu_collator_types.specs.declared.options.CollatorPreferences.{CollatorPreferences};
ghost use Rattle.collate_laws.specs.Files.{HasPlainLeads, file_order};
ghost use Rattle.collate_keyed_lines.specs.KeyedLines.{turned};
ghost use Rattle.collate_keyed_lines.specs.declared.direction.Direction.{Direction};
ghost use Rattle.collate_lines.specs.Lines.{records_of};
ghost use Rattle.collate_lines.specs.declared.limits.Limits.{Limits};
ghost use Rattle.collate_lists.specs.Names.{in_order};
ghost use Rattle.collate_sort.specs.Orders.{Line, LineRule, line_order, rule_of};

/// Over a file of plain leads lines compare as the file says of the characters of what is compared of them, turned round
/// where the greatest comes first.
pub fn lines_compare_as_the_file_says()
    ensures { (limits : Limits) (file : List ℕ) (options : CollatorOptions) (preferences : CollatorPreferences) (direction : Direction) (a b : Line)
        → HasPlainLeads file options preferences
        → line_order (rule_of (record { limits = limits; lines = records_of file }) options preferences direction) a b
        ≡ turned direction (λ x y. file_order file options preferences (utf8_chars x) (utf8_chars y)) a.text b.text }
{}

/// Lines compare as a total preorder, whatever the rule: two lines the other way round have the reverse of the answer, "below"
/// and "equal" are transitive, and equal ones compare alike with any third.
pub fn lines_are_in_total_order()
    ensures { (rule : LineRule) → IsTotalOrder (line_order rule) }
{}

/// Lines in order are the lines that were given, each as often; none is below the one before it by the order, which where
/// the greatest comes first is: above it; and equal ones stand as they came.
pub fn lines_in_order_are_sorted()
    ensures same { (rule : LineRule) (lines : List Line) → IsPermutation lines (in_order (line_order rule) lines) }
    ensures sorted { (rule : LineRule) (lines : List Line) → IsSorted (line_order rule) (in_order (line_order rule) lines) }
    ensures stable { (rule : LineRule) (lines : List Line) → IsStable (line_order rule) lines (in_order (line_order rule) lines) }
{}
