//! Examples of what the bench program prints, over the bench's four channels and 64 slots. Each is a test of its own, so that a failure
//! names it.
#![tactic(auto)]

#[cfg(test)]
mod tests {
    use bench::{FORMAT, bench};
    use engine::records::{Candidate, Neighbor};
    use index::pivot_index::PivotIndex;
    use queue::rank::Upper;
    use search_console::run;
    use std::alloc::{AllocError, Global};
    use std::process::Abort;
    use std::test::Fail;

    // What an input prints.
    fn printed(heap: Global, input: &[u8]) -> Result<String, Fail> {
        let mut store = [0u8; 5088];
        let mut index = PivotIndex::new(bench(), 64, &mut store)?;
        let mut hits = [Neighbor::BLANK; 64];
        let mut candidates = [Candidate::BLANK; 64];
        let mut uppers = [Upper(0); 64];
        let mut lines = String::new(heap);
        run(
            &mut index,
            &mut store,
            FORMAT,
            input,
            &mut hits,
            &mut candidates,
            &mut uppers,
            &mut lines,
        )?;
        Ok(lines)
    }

    fn prints(rt: &impl Abort, heap: Global, input: &[u8], expected: &str) -> Result<(), Fail> {
        let lines = printed(heap, input)?;
        assert_eq!(rt; lines.as_str(), expected);
        Ok(())
    }

    // A patch is 4 bytes of bands, 4 of ink, 2 of grain and 2 of depth.
    const FIVE: &[u8] = b"L\x00\x05\x0a\x0a\x0a\x0a\x00\x00\x00\x00\x00\x00\x10\x10";

    const NINE: &[u8] = b"L\x00\x09\x14\x0a\x0a\x0a\x00\x00\x00\x0f\xf8\x00\x10\x12";

    const QUERY: &[u8] = b"\x0c\x0a\x0a\x0a\x00\x00\x00\x01\x04\x00\x10\x11";

    // Patches 5 and 9 are held, then `before` is served, then a search with the operands in front of its rows.
    fn searches(
        rt: &impl Abort,
        heap: Global,
        before: &[u8],
        operands: &[u8],
        expected: &str,
    ) -> Result<(), Fail> {
        let mut input = Vec::new(heap);
        input.extend_from_slice(FIVE)?;
        input.extend_from_slice(NINE)?;
        input.extend_from_slice(before)?;
        input.extend_from_slice(b"C")?;
        input.extend_from_slice(operands)?;
        input.extend_from_slice(QUERY)?;
        prints(rt, heap, input.as_slice(), expected)
    }

    #[test]
    fn patches_are_held_searched_and_removed(rt: HostRuntime) -> Result<(), Fail> {
        prints(
            &rt,
            rt.alloc(),
            b"L\x00\x05\x0a\x0a\x0a\x0a\x00\x00\x00\x00\x00\x00\x10\x10\
            L\x00\x09\x14\x0a\x0a\x0a\x00\x00\x00\x0f\xf8\x00\x10\x12\
            C\x00\x01\x01\x01\x01\x00\x01\x00\x00\x03\xe8\x00\x00\x00\x08\x0c\x0a\x0a\x0a\x00\x00\x00\x01\x04\x00\x10\x11\
            U\x00\x08",
            "L 0\nL 0\nC 0 1 1 5 2\nN 5 8\nU 4\n",
        )
    }

    #[test]
    fn budget_stops_a_search(rt: HostRuntime) -> Result<(), Fail> {
        let operands = b"\x00\x01\x01\x01\x01\x00\x01\x00\x00\x03\xe8\x00\x00\x00\x04";
        searches(&rt, rt.alloc(), b"", operands, "L 0\nL 0\nC 0 0 0 4 2\n")
    }

    #[test]
    fn more_are_wanted_than_held(rt: HostRuntime) -> Result<(), Fail> {
        let sum = b"\x00\x01\x01\x01\x01\x00\x05\x00\x00\x03\xe8\x00\x00\x00\x64";
        let max = b"\x01\x01\x01\x01\x01\x00\x05\x00\x00\x03\xe8\x00\x00\x00\x64";
        let min = b"\x02\x01\x01\x01\x01\x00\x05\x00\x00\x03\xe8\x00\x00\x00\x64";
        searches(
            &rt,
            rt.alloc(),
            b"",
            sum,
            "L 0\nL 0\nC 0 1 2 8 2\nN 5 8\nN 9 24\n",
        )?;
        searches(
            &rt,
            rt.alloc(),
            b"",
            max,
            "L 0\nL 0\nC 0 1 2 8 2\nN 5 4\nN 9 12\n",
        )?;
        searches(
            &rt,
            rt.alloc(),
            b"",
            min,
            "L 0\nL 0\nC 0 1 2 8 2\nN 5 1\nN 9 1\n",
        )
    }

    #[test]
    fn pivot_saves_a_measurement(rt: HostRuntime) -> Result<(), Fail> {
        let operands = b"\x00\x01\x01\x01\x01\x00\x01\x00\x00\x03\xe8\x00\x00\x00\x64";
        searches(
            &rt,
            rt.alloc(),
            b"P\x00\x00\x05",
            operands,
            "L 0\nL 0\nP 0\nC 0 1 1 4 2\nN 5 8\n",
        )
    }

    #[test]
    fn nothing_is_held(rt: HostRuntime) -> Result<(), Fail> {
        prints(
            &rt,
            rt.alloc(),
            b"C\x00\x01\x01\x01\x01\x00\x01\x00\x00\x03\xe8\x00\x00\x00\x00\x0c\x0a\x0a\x0a\x00\x00\x00\x01\x04\x00\x10\x11",
            "C 0 1 0 0 0\n",
        )
    }

    #[test]
    fn refused_searches(rt: HostRuntime) -> Result<(), Fail> {
        let none_wanted = b"\x00\x01\x01\x01\x01\x00\x00\x00\x00\x03\xe8\x00\x00\x00\x08";
        let no_aggregate = b"\x03\x01\x01\x01\x01\x00\x00\x00\x00\x03\xe8\x00\x00\x00\x08";
        let cut_short = b"\x03\x01\x01\x01\x01\x00\x00\x00\x00\x03\xe8\x00\x00\x00";
        searches(&rt, rt.alloc(), b"", none_wanted, "L 0\nL 0\nC 9\n")?;
        searches(&rt, rt.alloc(), b"", no_aggregate, "L 0\nL 0\nC 16\n")?;
        searches(&rt, rt.alloc(), b"", cut_short, "L 0\nL 0\n? 15\n")
    }

    #[test]
    fn refused_calls(rt: HostRuntime) -> Result<(), Fail> {
        prints(
            &rt,
            rt.alloc(),
            b"L\x00\x05\x0a\x0a\x0a\x0a\x00\x00\x00\x00\x00\x00\x10\x10\
            L\x00\x05\x14\x0a\x0a\x0a\x00\x00\x00\x0f\xf8\x00\x10\x12\
            P\x00\x00\x09P\x04\x00\x05R\x00\x00R\x04\x00U\x00\x09\
            U\x00\x05U\x00\x05X",
            "L 0\nL 2\nP 4\nP 5\nR 7\nR 5\nU 4\nU 0\nU 4\n? 14\n",
        )
    }

    #[test]
    fn ninth_pivot(rt: HostRuntime) -> Result<(), Fail> {
        prints(
            &rt,
            rt.alloc(),
            b"L\x00\x05\x0a\x0a\x0a\x0a\x00\x00\x00\x00\x00\x00\x10\x10\
            P\x00\x00\x05P\x00\x00\x05P\x00\x00\x05P\x00\x00\x05P\x00\x00\x05P\x00\x00\x05P\x00\x00\x05P\x00\x00\x05\
            P\x00\x00\x05",
            "L 0\nP 0\nP 0\nP 0\nP 0\nP 0\nP 0\nP 0\nP 0\nP 6\n",
        )
    }

    // n patches, numbered from 0, and the lines of their inserts.
    fn many(heap: Global, n: u8) -> Result<(Vec<u8>, String), AllocError> {
        let mut input = Vec::new(heap);
        let mut lines = String::new(heap);
        for number in 0..n {
            input.extend_from_slice(&[0x4c, 0, number, 1, 1, 1, 1, 1, 1, 1, 1, 1, 1, 1, 1])?;
            lines.push_str("L 0\n")?;
        }
        Ok((input, lines))
    }

    #[test]
    fn last_slot(rt: HostRuntime) -> Result<(), Fail> {
        let (mut input, mut lines) = many(rt.alloc(), 64)?;
        input.extend_from_slice(b"L\x00\xff\x00\x00\x00\x00\x00\x00\x00\x00\x00\x00\x00\x00")?;
        lines.push_str("L 3\n")?;
        prints(&rt, rt.alloc(), input.as_slice(), lines.as_str())
    }
}
