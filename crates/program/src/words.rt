//! The words of a command line.

ghost use Rattle.std.specs.Prelude.{◌≡◌, ◌↔◌, [], IfOk, IsErr, MatchResult, drop};
ghost use Rattle.std.specs.IoError.{error_kind};
ghost use Rattle.std.specs.Vec.Iter.{into_iter_items};
ghost use Rattle.std.specs.declared.io.ErrorKind.TheVariants.{OutOfMemory};

use std::alloc::{AllocError, Global};
use std::env::Args;
use std::io::{self, ErrorKind};

/// The words after the program's name: all arguments but the first.
pub fn words_of(alloc: Global, args: Args) -> Result<Vec<String>, AllocError>
    ensures { IfOk result (λ words. words.items ≡ drop 1 (into_iter_items args)) }
{
    args.skip(1).collect(alloc)
}

/// The words of a program that was given these arguments. Arguments that are no text are taken as none.
pub fn given_words(alloc: Global, given: io::Result<Args>) -> Result<Vec<String>, AllocError>
    ensures words { IfOk result (λ words. MatchResult given (λ args. words.items ≡ drop 1 (into_iter_items args))
        (λ _. words.items ≡ [])) }
    // Where memory was wanting for the arguments, it is for the words.
    ensures memory { MatchResult given (λ _. Unit {0}) (λ error. IsErr result ↔ (error_kind error ≡ OutOfMemory)) }
{
    match given {
        Ok(args) => words_of(alloc, args),
        Err(error) if error.kind() == ErrorKind::OutOfMemory => Err(AllocError),
        Err(_) => Ok(Vec::new(alloc)),
    }
}
