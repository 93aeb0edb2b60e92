//! The laws of the answer to bytes: a file is answered by its objects, and what is none by its first bad line.
ghost use Rattle.std.specs.Prelude.{◌≡◌, ℕ, List};
ghost use Rattle.backup_machine.specs.declared.objects.Kept.{Kept};
ghost use Rattle.restore_core.specs.Files.{BadLine, IsFile, IsFirstBad, Restores, answer_of};

/// The text of a file is answered by the objects of the file: it is restored, unless a fault is counted or memory runs out.
pub fn a_file_is_restored()
    ensures { (bytes : List ℕ) (kept : List Kept) → IsFile bytes kept → answer_of bytes ≡ Restores kept }
{}

/// Bytes that are answered by objects are the text of a file that has them.
pub fn what_is_restored_is_a_file()
    ensures { (bytes : List ℕ) (kept : List Kept) → answer_of bytes ≡ Restores kept → IsFile bytes kept }
{}

/// A line that the answer names is the first bad one.
pub fn the_bad_line_is_the_first()
    ensures { (bytes : List ℕ) (number : ℕ) → answer_of bytes ≡ BadLine number → IsFirstBad bytes number }
{}
