//! The words of a command, from a program's arguments.

use bench_cmd::{Status, words_of};
use std::io::{self, ErrorKind};
use std::test::Fail;

#[test]
fn the_words_are_the_arguments_behind_the_first(rt: HostRuntime) -> Result<(), Fail> {
    let alloc = rt.alloc();
    let mut arguments = Vec::new(alloc);
    for argument in ["linediff", "", "JUDGE", "4 ", "4"] {
        arguments.push(argument.to_string(alloc)?)?;
    }
    let words = words_of(alloc, Ok(arguments.into_iter())).or(Err("no words"))?;
    let wants: [&[u8]; 4] = [b"", b"JUDGE", b"4 ", b"4"];
    assert_eq!(rt; words.len(), 4);
    for (word, want) in words.iter().zip(wants) {
        assert_eq!(rt; word.as_slice(), want);
    }
    let none = words_of(alloc, Ok(Vec::new(alloc).into_iter())).or(Err("no words"))?;
    assert!(rt; none.is_empty());
    for (kind, status) in [
        (ErrorKind::InvalidData, Status::Usage),
        (ErrorKind::OutOfMemory, Status::NoMemory),
    ] {
        assert_eq!(rt;
            words_of(alloc, Err(io::Error::from(kind))).err(),
            Some(status)
        );
    }
    Ok(())
}
