use fw_lex::{LexFault, tokens};
use std::test::Fail;

// The line, and where each word begins and ends.
const LINES: [(&str, &[(u32, u32)]); 8] = [
    ("", &[]),
    (" \t\r", &[]),
    ("add", &[(0, 3)]),
    ("add 100 alow", &[(0, 3), (4, 7), (8, 12)]),
    ("  add\t5 \r", &[(2, 5), (6, 7)]),
    ("list#all", &[(0, 4)]),
    ("list # caf\u{e9}", &[(0, 4)]),
    ("#", &[]),
];

#[test]
fn words_of_lines(rt: HostRuntime) -> Result<(), Fail> {
    for (line, want) in LINES {
        let found = tokens(rt.alloc(), line.as_bytes())?;
        let mut spans = Vec::new(rt.alloc());
        for token in &found {
            spans.push((token.start, token.end))?;
        }
        assert_eq!(rt; spans.as_slice(), want, "{line}");
    }
    Ok(())
}

#[test]
fn bytes_that_may_not_stand(rt: HostRuntime) -> Result<(), Fail> {
    let lines: [(&[u8], u32, u8); 5] = [
        (b"\0", 1, 0),
        (b"list\x1f", 5, 31),
        (b" \x7f x\x80", 2, 127),
        (b"add \xff # \xff", 5, 255),
        (b"a\x0bb\x0c", 2, 11),
    ];
    for (line, column, byte) in lines {
        let want = LexFault::BadByte { column, byte };
        assert_eq!(rt; tokens(rt.alloc(), line).err(), Some(want));
    }
    Ok(())
}
