//! A law of the words of command lines: what the two programs take for `points` is the same.

ghost use Rattle.arguments.specs.Words.{request_of};
ghost use Rattle.arguments.specs.declared.request.Request.TheVariants.{Points};
ghost use Rattle.point_command.specs.Words.{asked_of};
ghost use Rattle.point_command.specs.declared.words.Asked.TheVariants as alone;
ghost use Rattle.std.specs.Prelude.{List, Some, ℕ, ℤ, ◌↔◌, ◌≡◌};

/// The words by which the program of `points` alone is asked for the points at a level are those by which the workbench is
/// asked for them.
pub fn points_words_agree()
    ensures { (words : List (List ℕ)) (level : ℤ) →
        (asked_of words ≡ Some (alone.Points level)) ↔ (request_of words ≡ Some (Points level)) }
{}
