//! Tables of texts, each with what reading it answers, worked out by a model of the format in another language.
#![tactic(auto)]

#[cfg(test)]
mod tests {
    use reader::read;
    use report::report;
    use rules::Reason;
    use std::alloc::{AllocError, Global};
    use std::process::Abort;
    use std::test::Fail;

    // The program's first line.
    const FIRST_LINES: [(&'static [u8], &'static str); 17] = [
        (b"", "refused,10,0\n"),
        (b"depth,1", "refused,11,0\n"),
        (b"depth,1\n", "refused,11,0\n"),
        (b"depth,0\np cnf 0 0", "read,0,0,0\n"),
        (b"depth,2048\np cnf 1 0", "read,1,0,0\n"),
        (b"depth,2049\np cnf 1 0\n", "refused,10,0\n"),
        (b"depth,01\np cnf 1 0\n", "refused,10,0\n"),
        (b"depth,-1\np cnf 1 0\n", "refused,10,0\n"),
        (b"depth, 1\np cnf 1 0\n", "refused,10,0\n"),
        (b"depth,1 \np cnf 1 0\n", "refused,10,0\n"),
        (b"depth,1\r\np cnf 1 0\n", "refused,10,0\n"),
        (b"Depth,1\np cnf 1 0\n", "refused,10,0\n"),
        (b"depth\n", "refused,10,0\n"),
        (b"depth,\n", "refused,10,0\n"),
        (b"\ndepth,1\n", "refused,10,0\n"),
        (b"depth,1000000000\np cnf 0 0\n", "refused,10,0\n"),
        (b"depth,1\x00\np cnf 1 0\n", "refused,10,0\n"),
    ];

    // The header: its words, its limits, and where it is looked for.
    const HEADERS: [(&'static [u8], &'static str); 33] = [
        (b"depth,1\np cnf 2048 0", "read,2048,0,0\n"),
        (b"depth,1\np cnf 2049 0", "refused,11,0\n"),
        (b"depth,1\np cnf 1 16384\n", "refused,16,14\n"),
        (b"depth,1\np cnf 1 16385\n", "refused,11,0\n"),
        (b"depth,1\np cnf 0 0\n", "read,0,0,0\n"),
        (b"depth,1\n\n\n  \t\r\nc note\np cnf 3 0\n", "read,3,0,0\n"),
        (b"depth,1\nc only a comment", "refused,11,16\n"),
        (b"depth,1\nc one\nc two\n", "refused,11,12\n"),
        (b"depth,1\n \t \r", "refused,11,4\n"),
        (b"depth,1\n  p\tcnf 7  0 \r\n", "read,7,0,0\n"),
        (b"depth,1\np cnf 7\n", "refused,11,0\n"),
        (b"depth,1\np cnf 7 0 0\n", "refused,11,0\n"),
        (b"depth,1\np cnf 07 0\n", "refused,11,0\n"),
        (b"depth,1\np cnf +7 0\n", "refused,11,0\n"),
        (b"depth,1\np cnf 7 -0\n", "refused,11,0\n"),
        (b"depth,1\np cnf -7 0\n", "refused,11,0\n"),
        (b"depth,1\np cnf 7 00\n", "refused,11,0\n"),
        (b"depth,1\np cnf 1000000000 0\n", "refused,11,0\n"),
        (b"depth,1\np cnf 999999999 0\n", "refused,11,0\n"),
        (b"depth,1\np\ncnf 7 0\n", "refused,11,0\n"),
        (b"depth,1\nP cnf 7 0\n", "refused,11,0\n"),
        (b"depth,1\np dnf 7 0\n", "refused,11,0\n"),
        (b"depth,1\npcnf 7 0\n", "refused,11,0\n"),
        (b"depth,1\np cnfx 7 0\n", "refused,11,0\n"),
        (b"depth,1\np cn 7 0\n", "refused,11,0\n"),
        (b"depth,1\npp cnf 7 0\n", "refused,11,0\n"),
        (b"depth,1\n1 0\np cnf 7 1\n", "refused,11,0\n"),
        (b"depth,1\n c not a comment\np cnf 7 0\n", "refused,11,0\n"),
        (b"depth,1\n\np cnf x 0\n", "refused,11,1\n"),
        (b"depth,1\nc\n\n p cnf 1\n", "refused,11,3\n"),
        (b"depth,1\np cnf 7 0 c tail\n", "refused,11,0\n"),
        (b"depth,1\np cnf 7 0c\n", "refused,11,0\n"),
        (b"depth,1\n\x00\np cnf 1 0\n", "refused,11,0\n"),
    ];

    // A word out of form, a variable above n, a variable twice: the first such word decides.
    const WORDS: [(&'static [u8], &'static str); 47] = [
        (b"depth,1\np cnf 3 1\nx 0\n", "refused,12,10\n"),
        (b"depth,1\np cnf 3 1\n1 2 x 0\n", "refused,12,14\n"),
        (b"depth,1\np cnf 3 1\n1 2 3 0 x", "refused,12,18\n"),
        (b"depth,1\np cnf 3 1\n1 2 -0\n", "refused,12,14\n"),
        (b"depth,1\np cnf 3 1\n1 00\n", "refused,12,12\n"),
        (b"depth,1\np cnf 3 1\n1 01 0\n", "refused,12,12\n"),
        (b"depth,1\np cnf 3 1\n+1 0\n", "refused,12,10\n"),
        (b"depth,1\np cnf 3 1\n1 - 2 0\n", "refused,12,12\n"),
        (b"depth,1\np cnf 3 1\n1 --2 0\n", "refused,12,12\n"),
        (b"depth,1\np cnf 3 1\n1 2- 0\n", "refused,12,12\n"),
        (b"depth,1\np cnf 3 1\n1.0 0\n", "refused,12,10\n"),
        (b"depth,1\np cnf 3 1\n1 2,3 0\n", "refused,12,12\n"),
        (b"depth,1\np cnf 3 1\n000 0\n", "refused,12,10\n"),
        (b"depth,1\np cnf 3 1\n123456789 0\n", "refused,13,10\n"),
        (b"depth,1\np cnf 3 1\n1234567890 0\n", "refused,12,10\n"),
        (b"depth,1\np cnf 3 1\n-123456789 0\n", "refused,13,10\n"),
        (b"depth,1\np cnf 3 1\n-1234567890 0\n", "refused,12,10\n"),
        (b"depth,1\np cnf 3 1\n4 0\n", "refused,13,10\n"),
        (b"depth,1\np cnf 3 1\n-4 0\n", "refused,13,10\n"),
        (b"depth,1\np cnf 3 1\n1 2 3 4 0\n", "refused,13,16\n"),
        (b"depth,1\np cnf 3 1\n1 1 0\n", "refused,14,12\n"),
        (b"depth,1\np cnf 3 1\n1 -1 0\n", "refused,14,12\n"),
        (b"depth,1\np cnf 3 1\n3 2 1 -3 0\n", "refused,14,16\n"),
        (b"depth,1\np cnf 3 1\n-2 -2 0\n", "refused,14,13\n"),
        (b"depth,1\np cnf 3 1\n1 2 0 x 0\n", "refused,12,16\n"),
        (b"depth,1\np cnf 3 1\n1 2 0 0 0 4 0\n", "refused,13,20\n"),
        (b"depth,1\np cnf 3 1\n1 2 0 3 3 0\n", "refused,14,18\n"),
        (b"depth,1\np cnf 3 1\n\xff\xfe 0\n", "refused,12,10\n"),
        (b"depth,1\np cnf 3 1\n1 \x00 0\n", "refused,12,12\n"),
        (b"depth,1\np cnf 3 1\n1\x0b2 0\n", "refused,12,10\n"),
        (b"depth,1\np cnf 3 1\nc x y z\n1 2 0 y\n", "refused,12,24\n"),
        (
            b"depth,1\np cnf 3 1\n1 2\nc 9 9 9\n9 0\n",
            "refused,13,22\n",
        ),
        (b"depth,1\np cnf 3 1\nodd odd 0\n", "refused,12,14\n"),
        (b"depth,1\np cnf 3 1\n1 odd 2 0\n", "refused,12,12\n"),
        (b"depth,1\np cnf 3 1\nodd 1 odd 2 0\n", "refused,12,16\n"),
        (b"depth,1\np cnf 3 1\nodd1 2 0\n", "refused,12,10\n"),
        (b"depth,1\np cnf 3 1\nOdd 1 0\n", "refused,12,10\n"),
        (b"depth,1\np cnf 3 1\nODD 1 0\n", "refused,12,10\n"),
        (b"depth,1\np cnf 3 1\nodd 1 1 0\n", "refused,14,16\n"),
        (b"depth,1\np cnf 3 1\nodd 1 -1 0\n", "refused,14,16\n"),
        (b"depth,1\np cnf 3 1\nodd 4 0\n", "refused,13,14\n"),
        (b"depth,1\np cnf 3 1\nod 1 0\n", "refused,12,10\n"),
        (b"depth,1\np cnf 3 1\noddd 1 0\n", "refused,12,10\n"),
        (b"depth,1\np cnf 3 1\nodd x", "refused,12,14\n"),
        (b"depth,1\np cnf 3 1\n1 c 0\n", "refused,12,12\n"),
        (b"depth,1\np cnf 3 1\n1 c2 0\n", "refused,12,12\n"),
        (b"depth,1\np cnf 3 1\n1 2\n c 0\n", "refused,12,15\n"),
    ];

    // An end inside a rule, and a number of rules that is not the header's.
    const ENDS: [(&'static [u8], &'static str); 15] = [
        (b"depth,1\np cnf 3 2\n", "refused,16,10\n"),
        (b"depth,1\np cnf 3 2\n1 2", "refused,15,13\n"),
        (b"depth,1\np cnf 3 2\n1 2\n", "refused,15,14\n"),
        (b"depth,1\np cnf 3 2\n1 2 0", "refused,16,15\n"),
        (b"depth,1\np cnf 3 2\n1 2 0\n3", "refused,15,17\n"),
        (b"depth,1\np cnf 3 2\n1 2 0 odd", "refused,15,19\n"),
        (b"depth,1\np cnf 3 2\n1 2 0 odd\n", "refused,15,20\n"),
        (b"depth,1\np cnf 3 2\n1 2 0 odd 3", "refused,15,21\n"),
        (b"depth,1\np cnf 3 2\nodd", "refused,15,13\n"),
        (b"depth,1\np cnf 3 2\n1 0 2 0 3", "refused,15,19\n"),
        (b"depth,1\np cnf 3 2\n1 0 2 0 3 0", "refused,16,21\n"),
        (b"depth,1\np cnf 3 2\n0", "refused,16,11\n"),
        (b"depth,1\np cnf 3 2\n0 0 0", "refused,16,15\n"),
        (
            b"depth,1\np cnf 3 2\n1 2 0 \n \t\r\nc end",
            "refused,16,26\n",
        ),
        (
            b"depth,1\np cnf 3 2\n1 2 0 3\nc no end of line",
            "refused,15,34\n",
        ),
    ];

    // Texts that are well formed.
    const ACCEPTED: [(&'static [u8], &'static str); 16] = [
        (b"depth,1\np cnf 0 0", "read,0,0,0\n"),
        (b"depth,1\np cnf 0 0\n", "read,0,0,0\n"),
        (b"depth,1\np cnf 3 0\n\n\n", "read,3,0,0\n"),
        (b"depth,1\np cnf 0 1\n0\n", "read,0,1,0\n"),
        (b"depth,1\np cnf 0 1\nodd 0\n", "read,0,0,1\n"),
        (b"depth,1\np cnf 3 1\nodd 1 2 3 0\n", "read,3,0,1\n"),
        (b"depth,1\np cnf 3 2\n1 -2 3 0 odd -1 2 0\n", "read,3,1,1\n"),
        (
            b"depth,1\np cnf 3 2\n1\n-2\n3\n0\nodd\n-1 2\n0",
            "read,3,1,1\n",
        ),
        (
            b"depth,1\np cnf 3 2\r\n1 2 0\r\nodd 3 0\r\n",
            "read,3,1,1\n",
        ),
        (
            b"depth,1\n\tp\tcnf\t3\t2\t\n\t1\t0\todd\t0\t",
            "read,3,1,1\n",
        ),
        (
            b"depth,1\nc a\nc b\n\np cnf 3 2\nc in\n1 2\nc between the words\n3 0\nodd\nc after odd\n1 0\nc last",
            "read,3,1,1\n",
        ),
        (
            b"depth,1\np cnf 2048 2\n2048 -1 0 odd -2048 1 0\n",
            "read,2048,1,1\n",
        ),
        (b"depth,1\np cnf 3 3\n0 0 0\n", "read,3,3,0\n"),
        (b"depth,1\np cnf 3 3\nodd 0 odd 0 odd 0\n", "read,3,0,3\n"),
        (b"depth,1\np cnf 3 1\n1 2 3 0\nc 4 0", "read,3,1,0\n"),
        (b"depth,1\np cnf 3 1\n1 2 3 0\n\r\n", "read,3,1,0\n"),
    ];

    fn says(
        rt: &impl Abort,
        heap: Global,
        table: &[(&'static [u8], &'static str)],
    ) -> Result<(), Fail> {
        for (input, expected) in table {
            let said = report(heap, input)?;
            assert_eq!(rt; said.as_str(), *expected);
        }
        Ok(())
    }

    #[test]
    fn first_lines(rt: HostRuntime) -> Result<(), Fail> {
        says(&rt, rt.alloc(), &FIRST_LINES)
    }

    #[test]
    fn headers(rt: HostRuntime) -> Result<(), Fail> {
        says(&rt, rt.alloc(), &HEADERS)
    }

    #[test]
    fn words(rt: HostRuntime) -> Result<(), Fail> {
        says(&rt, rt.alloc(), &WORDS)
    }

    #[test]
    fn ends(rt: HostRuntime) -> Result<(), Fail> {
        says(&rt, rt.alloc(), &ENDS)
    }

    #[test]
    fn accepted(rt: HostRuntime) -> Result<(), Fail> {
        says(&rt, rt.alloc(), &ACCEPTED)
    }

    // A text of a head, a piece many times over, and a tail.
    fn repeated(
        heap: Global,
        head: &[u8],
        piece: &[u8],
        times: u32,
        tail: &[u8],
    ) -> Result<Vec<u8>, AllocError> {
        let mut text = Vec::new(heap);
        text.extend_from_slice(head)?;
        for _ in 0..times {
            text.extend_from_slice(piece)?;
        }
        text.extend_from_slice(tail)?;
        Ok(text)
    }

    // Head, piece, how often, tail, and what is written.
    const LONG: [(
        &'static [u8],
        &'static [u8],
        u32,
        &'static [u8],
        &'static str,
    ); 10] = [
        (
            b"depth,1\np cnf 1 16384\n",
            b"0 ",
            16384,
            b"",
            "read,1,16384,0\n",
        ),
        (
            b"depth,1\np cnf 1 16384\n",
            b"0 ",
            16383,
            b"",
            "refused,16,32780\n",
        ),
        (
            b"depth,1\np cnf 1 16384\n",
            b"0 ",
            16385,
            b"",
            "refused,16,32784\n",
        ),
        (
            b"depth,1\np cnf 1 8192\n",
            b"1 0 ",
            8192,
            b"",
            "read,1,8192,0\n",
        ),
        (
            b"depth,1\np cnf 2 8192\n",
            b"1 0 ",
            8191,
            b"1 2 0",
            "refused,17,32782\n",
        ),
        (
            b"depth,1\np cnf 3 4096\n",
            b"odd 1 2 3 0 ",
            4096,
            b"",
            "read,3,0,4096\n",
        ),
        (
            b"depth,1\np cnf 3 4097\n",
            b"odd 1 2 3 0 ",
            4096,
            b"odd 0",
            "refused,17,49170\n",
        ),
        (b"depth,1\np cnf 0 0\nc", b"x", 65517, b"", "read,0,0,0\n"),
        (b"depth,1\np cnf 0 0\nc", b"x", 65518, b"", "refused,10,0\n"),
        (
            b"depth,1\np cnf 1 16384\n",
            b"0 ",
            16384,
            b"x",
            "refused,12,32782\n",
        ),
    ];

    #[test]
    fn long_texts(rt: HostRuntime) -> Result<(), Fail> {
        for (head, piece, times, tail, expected) in &LONG {
            let input = repeated(rt.alloc(), head, piece, *times, tail)?;
            let said = report(rt.alloc(), input.as_slice())?;
            assert_eq!(rt; said.as_str(), *expected);
        }
        Ok(())
    }

    const TEXT: &'static [u8] = b"p cnf 3 3\n1 -2 0\nodd 3 -1 0 0";

    // Each table is filled from its start, and its other places are untouched.
    #[test]
    fn tables_are_filled(rt: HostRuntime) -> Result<(), Fail> {
        let mut clauses = [77; 6];
        let mut odds = [-9; 4];
        let counts = read(TEXT, &mut clauses, &mut odds)?;
        assert_eq!(rt; counts.variables, 3);
        assert_eq!(rt; counts.clauses.rules, 2);
        assert_eq!(rt; counts.odds.rules, 1);
        assert_eq!(rt; clauses, [1, -2, 0, 0, 77, 77]);
        assert_eq!(rt; odds, [3, -1, 0, -9]);
        Ok(())
    }

    #[test]
    fn tables_just_fit(rt: HostRuntime) -> Result<(), Fail> {
        let mut clauses = [77; 4];
        let mut odds = [77; 3];
        let counts = read(TEXT, &mut clauses, &mut odds)?;
        assert_eq!(rt; counts.clauses.rules, 2);
        assert_eq!(rt; clauses, [1, -2, 0, 0]);
        assert_eq!(rt; odds, [3, -1, 0]);
        Ok(())
    }

    // A table that is one place too short refuses the text, and both are as before.
    #[test]
    fn tables_too_short(rt: HostRuntime) -> Result<(), Fail> {
        let mut short = [77; 3];
        let mut long = [77; 5];
        let refused = Err(Reason::Short.at(TEXT.len()));
        assert_eq!(rt; Reason::Short.number(), 17);
        assert_eq!(rt; read(TEXT, &mut short, &mut long), refused);
        assert_eq!(rt; short, [77; 3]);
        assert_eq!(rt; long, [77; 5]);
        let mut none = [77; 2];
        assert_eq!(rt; read(TEXT, &mut long, &mut none), refused);
        assert_eq!(rt; none, [77; 2]);
        assert_eq!(rt; long, [77; 5]);
        Ok(())
    }

    // A refused text leaves what its first rules would have filled.
    #[test]
    fn refused_texts_write_nothing(rt: HostRuntime) -> Result<(), Fail> {
        let mut clauses = [77; 8];
        let mut odds = [77; 8];
        let answer = read(b"p cnf 3 2\n1 2 0 odd 3 0 4", &mut clauses, &mut odds);
        assert_eq!(rt; answer, Err(Reason::Variable.at(24)));
        assert_eq!(rt; clauses, [77; 8]);
        assert_eq!(rt; odds, [77; 8]);
        Ok(())
    }
}
