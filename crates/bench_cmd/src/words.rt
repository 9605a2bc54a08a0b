//! The command words of a program.

ghost use Rattle.std.specs.Prelude.{◌≡◌, Err, drop, map, string_bytes, IfErr, IfOk, MatchResult};
ghost use Rattle.std.specs.Vec.Iter.{into_iter_items};
ghost use Rattle.std.specs.IoError.{error_kind};
ghost use Rattle.bench_cmd.specs.Statuses.{without_arguments};

use crate::status::Status;
use ld_base::NoMemory;
use std::alloc::Global;
use std::env::Args;
use std::io;

/// The command words of a program's arguments: the bytes of all but the first, which is the program's name. Otherwise the
/// status that the program ends with.
pub fn words_of(alloc: Global, arguments: io::Result<Args>) -> Result<Vec<Vec<u8>>, Status>
    ensures words { IfOk arguments (λ given. MatchResult result
        (λ words. map (λ word. word.items) words.items ≡ map (λ text. string_bytes text) (drop 1 (into_iter_items given)))
        (λ status. status ≡ Status.NoMemory)) }
    ensures without { IfErr arguments (λ error. result ≡ Err (without_arguments (error_kind error))) }
{
    match arguments {
        Ok(given) => match words_from(alloc, given) {
            Ok(words) => Ok(words),
            Err(NoMemory) => Err(Status::NoMemory),
        },
        Err(error) => Err(Status::without_arguments(error.kind())),
    }
}

// The words behind the first.
fn words_from(alloc: Global, mut given: Args) -> Result<Vec<Vec<u8>>, NoMemory>
    ensures { IfOk result (λ words.
        map (λ word. word.items) words.items ≡ map (λ text. string_bytes text) (drop 1 (into_iter_items given))) }
{
    let _ = given.next();
    let mut words = Vec::new(alloc);
    for word in given {
        words.push(word.into_bytes())?;
    }
    Ok(words)
}
