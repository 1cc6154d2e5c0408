#![tactic(auto)]

// Tests of the way from an input to the text that is printed.
#[cfg(test)]
mod tests {
    use choosing::choose::choose;
    use choosing::chosen::ChooseError;
    use std::alloc::{AllocError, Global};
    use std::process::Abort;
    use std::test::Fail;

    // card(step(warn(#)) step(step(warn)) warn), the names first.
    fn example(heap: Global) -> Result<Vec<u8>, AllocError> {
        let mut feed = Vec::new(heap);
        for name in [b"card", b"step", b"warn"] {
            add_name(&mut feed, name)?;
        }
        feed.extend_from_slice(&[1, 0, 2, 1, 0, 3, 1, 0, 4, 3, 2, 2])?;
        feed.extend_from_slice(&[1, 0, 3, 1, 0, 3, 1, 0, 4, 2, 2, 2])?;
        feed.extend_from_slice(&[1, 0, 4, 2, 2, 15])?;
        Ok(feed)
    }

    // NAME with a name of four bytes.
    fn add_name(feed: &mut Vec<u8>, name: &[u8; 4]) -> Result<(), AllocError> {
        feed.push(4)?;
        feed.extend_from_slice(name)?;
        feed.extend_from_slice(&[0u8; 28])
    }

    // What is printed for an input.
    fn printed(heap: Global, input: &[u8]) -> Result<String, AllocError> {
        match choose(heap, input) {
            Ok(text) => Ok(text),
            Err(ChooseError::Refused(fault)) => format!(in heap; "{fault}\n"),
            Err(ChooseError::OutOfMemory) => Err(AllocError),
        }
    }

    fn prints(rt: &impl Abort, heap: Global, input: &[u8], expected: &str) -> Result<(), Fail> {
        let text = printed(heap, input)?;
        assert_eq!(rt; text.as_str(), expected);
        Ok(())
    }

    // A query after the example.
    fn selects(rt: &impl Abort, heap: Global, query: &[u8], expected: &str) -> Result<(), Fail> {
        let mut input = example(heap)?;
        input.extend_from_slice(query)?;
        prints(rt, heap, input.as_slice(), expected)
    }

    #[test]
    fn queries(rt: HostRuntime) -> Result<(), Fail> {
        let heap = rt.alloc();
        selects(
            &rt,
            heap,
            b"//step//warn",
            "nodes 9\nselected 2\nfrom 3 to 7\n3\n7\nend\n",
        )?;
        selects(
            &rt,
            heap,
            b"/card/warn",
            "nodes 9\nselected 1\nfrom 8 to 8\n8\nend\n",
        )?;
        selects(
            &rt,
            heap,
            b" //step[ step ]\n",
            "nodes 9\nselected 1\nfrom 5 to 5\n5\nend\n",
        )?;
        selects(
            &rt,
            heap,
            b"//warn[/text()]",
            "nodes 9\nselected 1\nfrom 3 to 3\n3\nend\n",
        )?;
        selects(
            &rt,
            heap,
            b"/self::node()",
            "nodes 9\nselected 1\nfrom 0 to 0\n0\nend\n",
        )?;
        selects(
            &rt,
            heap,
            b"//*",
            "nodes 9\nselected 7\nfrom 1 to 8\n1\n2\n3\n5\n6\n7\n8\nend\n",
        )?;
        selects(
            &rt,
            heap,
            b"/warn",
            "nodes 9\nselected 0\nfrom - to -\nend\n",
        )
    }

    #[test]
    fn query_refusals(rt: HostRuntime) -> Result<(), Fail> {
        let heap = rt.alloc();
        selects(&rt, heap, b"", "refused 4 at 0\n")?;
        selects(&rt, heap, b"a:b", "refused 2 at 1\n")?;
        selects(&rt, heap, b"foo::b", "refused 4 at 3\n")?;
        selects(&rt, heap, b"a//self::b", "refused 4 at 7\n")?;
        selects(&rt, heap, b"//a[b", "refused 4 at 5\n")?;
        selects(
            &rt,
            heap,
            b"a/bbbbbbbbbbbbbbbbbbbbbbbbbbbbbbbbb",
            "refused 3 at 2\n",
        )?;
        selects(
            &rt,
            heap,
            b"a[((((((((((((b))))))))))))]",
            "refused 5 at 13\n",
        )?;
        selects(
            &rt,
            heap,
            b"a/a/a/a/a/a/a/a/a/a/a/a/a/a/a/a/a",
            "refused 6 at 32\n",
        )?;
        selects(&rt, heap, &[b' '; 513], "refused 1 at 512\n")
    }

    #[test]
    fn feed_refusals(rt: HostRuntime) -> Result<(), Fail> {
        let heap = rt.alloc();
        prints(&rt, heap, &[], "refused 7 at 0\n")?;
        prints(&rt, heap, &[3, 3], "refused 7 at 2\n")?;
        prints(&rt, heap, &[3, 9, 15], "refused 7 at 1\n")?;
        prints(&rt, heap, &[3, 1, 0], "refused 7 at 1\n")?;
        prints(&rt, heap, &[1, 0, 2, 15], "refused 9 at 0\n")?;
        prints(&rt, heap, &[3, 2, 15], "refused 12 at 1\n")?;
        let mut same = Vec::new(heap);
        add_name(&mut same, b"card")?;
        add_name(&mut same, b"card")?;
        prints(&rt, heap, same.as_slice(), "refused 8 at 33\n")?;
        let mut open = Vec::new(heap);
        add_name(&mut open, b"card")?;
        open.extend_from_slice(&[1, 0, 2, 15])?;
        prints(&rt, heap, open.as_slice(), "refused 13 at 36\n")
    }

    // So many texts under the root, and the query for all nodes below it.
    fn texts(heap: Global, count: usize) -> Result<Vec<u8>, AllocError> {
        let mut input = vec![in heap; 3u8; count]?;
        input.push(15)?;
        input.extend_from_slice(b"//node()")?;
        Ok(input)
    }

    #[test]
    fn leading_twelve(rt: HostRuntime) -> Result<(), Fail> {
        let heap = rt.alloc();
        let twelve = texts(heap, 12)?;
        prints(
            &rt,
            heap,
            twelve.as_slice(),
            "nodes 13\nselected 12\nfrom 1 to 12\n1\n2\n3\n4\n5\n6\n7\n8\n9\n10\n11\n12\nend\n",
        )?;
        let more = texts(heap, 13)?;
        prints(
            &rt,
            heap,
            more.as_slice(),
            "nodes 14\nselected 13\nfrom 1 to 13\n1\n2\n3\n4\n5\n6\n7\n8\n9\n10\n11\n12\nmore\nend\n",
        )?;
        let most = texts(heap, 8191)?;
        prints(
            &rt,
            heap,
            most.as_slice(),
            "nodes 8192\nselected 8191\nfrom 1 to 8191\n1\n2\n3\n4\n5\n6\n7\n8\n9\n10\n11\n12\nmore\nend\n",
        )?;
        let many = texts(heap, 8192)?;
        prints(&rt, heap, many.as_slice(), "refused 10 at 8191\n")
    }

    #[test]
    fn deep(rt: HostRuntime) -> Result<(), Fail> {
        let heap = rt.alloc();
        let mut input = Vec::new(heap);
        add_name(&mut input, b"step")?;
        for _ in 0..8191 {
            input.extend_from_slice(&[1, 0, 2])?;
        }
        for _ in 0..8191 {
            input.push(2)?;
        }
        input.push(15)?;
        input.extend_from_slice(b"//step[not(step)]")?;
        prints(
            &rt,
            heap,
            input.as_slice(),
            "nodes 8192\nselected 1\nfrom 8191 to 8191\n8191\nend\n",
        )
    }

    // `//warn[text() or text() ..]` with so many steps in the bracket.
    fn inside_steps(heap: Global, count: usize) -> Result<Vec<u8>, AllocError> {
        let mut query = Vec::new(heap);
        query.extend_from_slice(b"//warn[text()")?;
        for _ in 1..count {
            query.extend_from_slice(b" or text()")?;
        }
        query.push(b']')?;
        Ok(query)
    }

    // Texts with the most of what is limited, and with one more.
    #[test]
    fn limits(rt: HostRuntime) -> Result<(), Fail> {
        let heap = rt.alloc();
        let root = "nodes 9\nselected 1\nfrom 0 to 0\n0\nend\n";
        let third = "nodes 9\nselected 1\nfrom 3 to 3\n3\nend\n";
        let mut steps = Vec::new(heap);
        for _ in 0..16 {
            steps.extend_from_slice(b"/self::node()")?;
        }
        selects(&rt, heap, steps.as_slice(), root)?;
        steps.extend_from_slice(b"/self::node()")?;
        selects(&rt, heap, steps.as_slice(), "refused 6 at 209\n")?;
        selects(&rt, heap, b"//warn[(((((((((((text())))))))))))]", third)?;
        selects(
            &rt,
            heap,
            b"//warn[((((((((((((text()))))))))))))]",
            "refused 5 at 18\n",
        )?;
        let most = inside_steps(heap, 23)?;
        selects(&rt, heap, most.as_slice(), third)?;
        let more = inside_steps(heap, 24)?;
        selects(&rt, heap, more.as_slice(), "refused 6 at 237\n")?;
        let mut long = vec![in heap; b' '; 506]?;
        long.extend_from_slice(b"//warn")?;
        selects(
            &rt,
            heap,
            long.as_slice(),
            "nodes 9\nselected 3\nfrom 3 to 8\n3\n7\n8\nend\n",
        )?;
        long.push(b' ')?;
        selects(&rt, heap, long.as_slice(), "refused 1 at 512\n")
    }

    #[test]
    fn lengths(rt: HostRuntime) -> Result<(), Fail> {
        let heap = rt.alloc();
        let mut input = vec![in heap; 15u8; 65536]?;
        prints(&rt, heap, input.as_slice(), "refused 1 at 512\n")?;
        input.push(15)?;
        prints(&rt, heap, input.as_slice(), "refused 11 at 65536\n")
    }
}
