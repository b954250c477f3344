//! Laws of whole runs of `collate`. Each function's contract is the law, and its body is empty.

ghost use Rattle.std.specs.List.Sorted.{IsPermutation};
ghost use Rattle.std.specs.Prelude.{◌+◌, ◌↔◌, ℕ, List, Option, Result, take};
ghost use Rattle.icu_collator_types.specs.declared.options.CollatorOptions.{CollatorOptions};
ghost use Rattle.icu_collator_types.specs.declared.options.CollatorPreferences.{CollatorPreferences};
ghost use Rattle.collate_choice.specs.declared.Choice.{Choice};
ghost use Rattle.collate_index.specs.Catalogue.{opened_by};
ghost use Rattle.collate_lines.specs.declared.limits.Limits.{Limits};
ghost use Rattle.collate_lines.specs.Lines.{lines_of};
ghost use Rattle.collate_records.specs.Files.{IsAcceptedWithin};
ghost use Rattle.collate_run.specs.Replies.{AreReplies};
ghost use Rattle.collate_run.specs.Runs.{Ran};
ghost use Rattle.collate_run.specs.Served.{ServesFile};
ghost use Rattle.collate_run.specs.declared.run.RunFault.{RunFault};

/// Runs over files that are accepted within some limits, and have the same lines in another order, reply alike, whatever the
/// commands, reloads included: what are replies over the one file are replies over the other, and what a run over the one may
/// do a run over the other may do. The type of the tables' tries is in neither, so it changes no reply.
pub fn files_in_another_order_reply_alike()
    ensures replies { (limits : Limits) (file moved : List ℕ) (preferences : CollatorPreferences) (options : CollatorOptions) (lines : List (List ℕ)) (out : List ℕ)
        → IsAcceptedWithin limits file → IsPermutation (lines_of file) (lines_of moved)
        → AreReplies (opened_by limits file preferences options) lines out → AreReplies (opened_by limits moved preferences options) lines out }
    ensures runs { (limits : Limits) (file moved : List ℕ) (preferences : CollatorPreferences) (options : CollatorOptions)
        (result : Result (Unit {0}) RunFault) (reader_old reader_new writer_old writer_new : Option (List ℕ))
        → IsAcceptedWithin limits file → IsPermutation (lines_of file) (lines_of moved)
        → Ran (opened_by limits file preferences options) result reader_old reader_new writer_old writer_new
        → Ran (opened_by limits moved preferences options) result reader_old reader_new writer_old writer_new }
{}

/// What the program serves of a file that is cut after the first byte past its most bytes is what it serves of the whole file,
/// and the other way round: so it need read no more of FILE, and a longer one is refused as it would be whole.
pub fn files_cut_past_their_size_are_served_alike()
    ensures { (limits : Limits) (status : ℕ) (reader_old reader_new writer_old writer_new errors_old errors_new : Option (List ℕ)) (choice : Choice) (file : List ℕ)
        → ServesFile limits status reader_old reader_new writer_old writer_new errors_old errors_new choice (take (limits.bytes + 1) file)
        ↔ ServesFile limits status reader_old reader_new writer_old writer_new errors_old errors_new choice file }
{}
