//! What is a row, a field and a number in a text.

use super::{BODY, HEAD, bad, verdict, verdict_behind};
use crate::ReadScenario;
use ld_base::Reason;
use std::test::Fail;

#[test]
fn numbers_are_digits_with_a_minus_at_most(rt: HostRuntime) -> Result<(), Fail> {
    let odd = [
        "",
        "-",
        "+1",
        "1_0",
        " 1",
        "1 ",
        "1.0",
        "0x",
        "--1",
        "1-",
        "١",
        "１",
        "1000000000000000000",
        "0000000000000000001",
        "-0000000000000000001",
    ];
    for number in odd {
        let row = format!(in rt.alloc(); "clock,1,{number}")?;
        assert_eq!(rt;
            verdict_behind(rt.alloc(), &row)?,
            bad(7, Reason::Number),
            "at {row:?}"
        );
    }
    for number in ["0", "-0", "007", "000000000000000001", "\"5\"", "\"5"] {
        let row = format!(in rt.alloc(); "clock,1,{number}")?;
        assert_eq!(rt; verdict_behind(rt.alloc(), &row)?, Ok(()), "at {row:?}");
    }
    Ok(())
}

#[test]
fn rows_are_those_of_the_text(rt: HostRuntime) -> Result<(), Fail> {
    let cases: [(&str, Result<(), ReadScenario>); 17] = [
        // Empty lines are no rows.
        ("\n\r\n\nclocks\n", bad(7, Reason::Kind)),
        ("\"\"\nclocks\n", bad(7, Reason::Kind)),
        // Rows end by any line end, and the last by none.
        ("clock,1,0\r\nclock,2,0\rclocks", bad(9, Reason::Kind)),
        ("clock,1,0\rclock,1,0", bad(8, Reason::Order)),
        // A remark has any fields.
        (
            "#\n#,\n#,set,1\n#,,,,,,,,,,,\n\"#\",x\nclocks\n",
            bad(12, Reason::Kind),
        ),
        (
            "#,\"set,drift,1\nclock,1,0\"\nclocks\n",
            bad(8, Reason::Kind),
        ),
        ("#,a\"b\nclocks\n", bad(8, Reason::Kind)),
        // Quotes aren't part of a field.
        ("\"clock\",\"1\",\"0\"\nclocks\n", bad(8, Reason::Kind)),
        ("\"clock,1,0\"\n", bad(7, Reason::Kind)),
        ("\"clock\n\",1,0\n", bad(7, Reason::Kind)),
        ("\"clo\"\"ck\",1,0\n", bad(7, Reason::Kind)),
        ("clock,1,\"0\n1\"\n", bad(7, Reason::Number)),
        // A text that ends within quotes ends there.
        ("clock,1,\"0", Ok(())),
        ("clock,\"1,0\n", bad(7, Reason::Fields)),
        ("clock,1,\"0\n", bad(7, Reason::Number)),
        // A byte order mark is one at the start of the text alone.
        ("\u{feff}clock,1,0\n", bad(7, Reason::Kind)),
        ("clock,1,0,\n", bad(7, Reason::Fields)),
    ];
    for (rows, want) in cases {
        assert_eq!(rt; verdict_behind(rt.alloc(), rows)?, want, "at {rows:?}");
    }
    Ok(())
}

#[test]
fn a_byte_order_mark_is_taken_off(rt: HostRuntime) -> Result<(), Fail> {
    let once = format!(in rt.alloc(); "\u{feff}{HEAD}{BODY}")?;
    assert_eq!(rt; verdict(rt.alloc(), once.as_bytes()), Ok(()));
    let twice = format!(in rt.alloc(); "\u{feff}\u{feff}{HEAD}{BODY}")?;
    assert_eq!(rt;
        verdict(rt.alloc(), twice.as_bytes()),
        bad(0, Reason::Settings)
    );
    Ok(())
}

#[test]
fn any_bytes_are_read(rt: HostRuntime) -> Result<(), Fail> {
    let cases: [(&[u8], Reason); 6] = [
        (b"\xFF,1,0\n", Reason::Kind),
        (b"clock\x00,1,0\n", Reason::Kind),
        (b"clock,1,\xFF\n", Reason::Number),
        (b"clock,1,\x00\n", Reason::Number),
        (b"clock,1,0x\n", Reason::Number),
        (b"clock,1,1000000000001\n", Reason::Range),
    ];
    let (_, rest) = BODY.split_once('\n').ok_or("a first row")?;
    for (row, reason) in cases {
        let mut text = Vec::new(rt.alloc());
        text.extend_from_slice(HEAD.as_bytes())?;
        text.extend_from_slice(row)?;
        text.extend_from_slice(rest.as_bytes())?;
        assert_eq!(rt; verdict(rt.alloc(), &text), bad(7, reason), "at {row:?}");
    }
    Ok(())
}
