//! A whole run by the bytes of a records file: commands, reloads among them, and their replies.
ghost use Rattle.std.specs.Prelude.{◌≡◌, ℕ, false, List, IfSome};
ghost use Rattle.std.specs.Io.KnownBytes.{Appends};
ghost use Rattle.collate_index.specs.Catalogue.{opened_by};
ghost use Rattle.collate_lines.specs.Limits.{standard};
ghost use Rattle.collate_records.specs.Files.{IsAccepted};
ghost use Rattle.collate_run.specs.Replies.{AreReplies};
ghost use Rattle.collate_run.specs.Runs.{lines_of};
ghost use Rattle.collate_run.specs.Watched.{watched_failed, watched_inner};

use collate_records::records::Records;
use collate_run::run::run;
use collate_run::watched::Watched;
use icu_collator_types::options::{CollatorOptions, CollatorPreferences};
use std::alloc::Global;
use std::io::Write;

/// Writes the replies to commands, a line each, which an index over a records file answers in turn. `None` where the
/// file breaks a rule, memory is refused to the run, or a command is cut off or too long.
pub fn reply_by_file<W: Write>(
    alloc: Global,
    file: &[u8],
    preferences: &CollatorPreferences<'_>,
    options: &CollatorOptions,
    commands: &[u8],
    writer: &mut Watched<W>,
) -> Option<()>
    requires { watched_failed writer.old ≡ false }
    ensures accepted { IfSome result (λ _. IsAccepted file.now) }
    ensures replies { IfSome result (λ _. (replies : List ℕ)
        × AreReplies (opened_by standard file.now preferences.now options.now) (lines_of commands.now) replies
        × Appends (W.contents (watched_inner writer.old)) (W.contents (watched_inner writer.new)) replies) }
{
    let records = Records::read(alloc, file).ok()?;
    let mut reader = Watched::new(commands);
    run(alloc, records, preferences, options, &mut reader, writer).ok()
}
