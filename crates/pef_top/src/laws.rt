ghost use Rattle.pef_top.specs.MayEnd.{EndsByTheTable};
ghost use Rattle.pef_top.specs.Laws.{BuiltFilesAnswer, BuiltFilesComeBack, MergedFilesAnswer, MergedFilesComeBack, MigratedFilesAnswer, MigratedFilesComeBack};

use index_file::{one_index, words_and_bytes_undo_each_other};
use segments::joined_lists_follow;

/// Where `build` is done and then `query` of what it left, the replies are those of the collection
/// that `build` found.
pub fn built_files_answer()
    ensures { BuiltFilesAnswer }
{
    one_index();
    words_and_bytes_undo_each_other();
}

/// Where `migrate`, or `repack`, is done and then `query` of what it left, the replies are those of
/// the collection of which it found an index.
pub fn migrated_files_answer()
    ensures { MigratedFilesAnswer }
{
    one_index();
    words_and_bytes_undo_each_other();
}

/// Where `build`, or `pack`, is done over the files of a collection and then `export` of what it
/// left, the three files are those of the collection, byte for byte.
pub fn built_files_come_back()
    ensures { BuiltFilesComeBack }
{
    one_index();
    words_and_bytes_undo_each_other();
}

/// Where `migrate`, or `repack`, is done and then `export` of what it left, the three files are
/// those that `export` leaves of the old index.
pub fn migrated_files_come_back()
    ensures { MigratedFilesComeBack }
{
    one_index();
    words_and_bytes_undo_each_other();
}

/// Where `merge` is done and then `query` of what it left, the replies are those that `segments`
/// gives over the same files, where it is done.
pub fn merged_files_answer()
    ensures { MergedFilesAnswer }
{
    one_index();
    words_and_bytes_undo_each_other();
    joined_lists_follow();
}

/// Where `merge` is done and then `export` of what it left, the three files are those of the
/// collection to which the indexes are joined, byte for byte.
pub fn merged_files_come_back()
    ensures { MergedFilesComeBack }
{
    one_index();
    words_and_bytes_undo_each_other();
}

/// Each command ends only as the table of its outcomes says.
#[tactic(auto, using(crate::proofs::Tabled::may_end))]
pub fn commands_end_by_the_table()
    ensures { EndsByTheTable }
{}
