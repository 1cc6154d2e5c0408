#![tactic(auto)]

// Texts that are read and texts that are refused, with what the rules of queries say of them.
#[cfg(test)]
mod tests {
    use query::table::{Axis, NodeTest, Shape};
    use std::process::Abort;
    use std::test::Fail;

    // Refused with the code, at the place.
    fn refused(rt: &impl Abort, text: &[u8], code: u8, place: usize) -> Result<(), Fail> {
        match reader::read(text) {
            Ok(_) => Err(Fail::new("accepted")),
            Err(fault) => {
                assert_eq!(rt; fault.code(), code);
                assert_eq!(rt; fault.place(), place);
                Ok(())
            }
        }
    }

    // Accepted, with so many steps outside and inside, and predicates.
    fn accepted(
        rt: &impl Abort,
        text: &[u8],
        outside: u8,
        inside: u8,
        predicates: u8,
    ) -> Result<(), Fail> {
        match reader::read(text) {
            Ok(query) => {
                assert_eq!(rt; query.table.outside_count, outside);
                assert_eq!(rt; query.table.inside_count, inside);
                assert_eq!(rt; query.table.predicate_count, predicates);
                Ok(())
            }
            Err(_) => Err(Fail::new("refused")),
        }
    }

    // Read, and spelt so.
    fn spelt(rt: &impl Abort, text: &[u8], short: &[u8]) -> Result<(), Fail> {
        let Ok(query) = reader::read(text) else {
            return Err(Fail::new("refused"));
        };
        let mut memory = [1; 513];
        let Ok(len) = spelling::write_spelling(&query, &mut memory) else {
            return Err(Fail::new("no memory"));
        };
        if len > 512 {
            return Err(Fail::new("too long"));
        }
        assert!(rt; &memory[0..len] == short);
        assert!(rt; memory[len] == 1);
        Ok(())
    }

    // Short spellings.
    #[test]
    fn spells(rt: HostRuntime) -> Result<(), Fail> {
        spelt(&rt, b" / child :: a / descendant :: b ", b"/a//b")?;
        spelt(
            &rt,
            b"self::a[child::b]/following-sibling::*",
            b"self::a[b]/following-sibling::*",
        )?;
        spelt(
            &rt,
            b"a[ ( b or c ) or ( d and ( e ) ) ]",
            b"a[b or c or d and e]",
        )?;
        spelt(
            &rt,
            b"a[(b or c) and (d and e)]",
            b"a[(b or c)and(d and e)]",
        )?;
        spelt(&rt, b"a[b or (c or d)]", b"a[b or(c or d)]")?;
        spelt(
            &rt,
            b"a[not ( not ( (b) ) ) and text ( )]",
            b"a[not(not(b))and text()]",
        )?;
        spelt(&rt, b"a[/b or //c]", b"a[/b or//c]")?;
        spelt(&rt, b"a[descendant::b]", b"a[descendant::b]")?;
        spelt(&rt, b"a[or or and and not]", b"a[or or and and not]")
    }

    // A spelling wants 512 bytes.
    #[test]
    fn spells_in_memory(rt: HostRuntime) -> Result<(), Fail> {
        let Ok(query) = reader::read(b"a") else {
            return Err(Fail::new("refused"));
        };
        let mut memory = [1; 511];
        match spelling::write_spelling(&query, &mut memory) {
            Ok(_) => Err(Fail::new("written")),
            Err(fault) => {
                assert_eq!(rt; fault.code(), 11);
                assert!(rt; memory[0] == 1);
                Ok(())
            }
        }
    }

    // Texts that leave the grammar.
    #[test]
    fn refuses_by_grammar(rt: HostRuntime) -> Result<(), Fail> {
        refused(&rt, b"", 4, 0)?;
        refused(&rt, b"foo::b", 4, 3)?;
        refused(&rt, b"a//self::b", 4, 7)?;
        refused(&rt, b"//a[b", 4, 5)?;
        refused(&rt, b"/", 4, 1)?;
        refused(&rt, b"a/", 4, 2)?;
        refused(&rt, b"a b", 4, 2)?;
        refused(&rt, b"a]", 4, 1)?;
        refused(&rt, b"a[]", 4, 2)?;
        refused(&rt, b"a[b]c", 4, 4)?;
        refused(&rt, b"a[b][c]", 4, 4)?;
        refused(&rt, b"(a)", 4, 0)?;
        refused(&rt, b"a[(b]", 4, 4)?;
        refused(&rt, b"a[b)]", 4, 3)?;
        refused(&rt, b"a[b or]", 4, 6)
    }

    // Words that may not stand where they stand.
    #[test]
    fn refuses_words(rt: HostRuntime) -> Result<(), Fail> {
        refused(&rt, b"a[b xor c]", 4, 4)?;
        refused(&rt, b"self::self::a", 4, 10)?;
        refused(&rt, b"comment()", 4, 7)?;
        refused(&rt, b"text(a)", 4, 5)?;
        refused(&rt, b"text(", 4, 5)?;
        refused(&rt, b"not(a)", 4, 3)?;
        refused(&rt, b"a[not(b]", 4, 7)?;
        refused(&rt, b"a[or or]", 4, 7)?;
        refused(&rt, b"///a", 4, 2)?;
        refused(&rt, b"::a", 4, 0)?;
        refused(&rt, b"child::", 4, 7)?;
        refused(&rt, b"*::a", 4, 1)
    }

    // Bytes that begin no token, and names that are too long.
    #[test]
    fn refuses_tokens(rt: HostRuntime) -> Result<(), Fail> {
        refused(&rt, b"a:b", 2, 1)?;
        refused(&rt, b"1a", 2, 0)?;
        refused(&rt, b"a$", 2, 1)?;
        refused(&rt, b"a[b", 4, 3)?;
        refused(&rt, b"a[b:", 2, 3)?;
        refused(&rt, b"-a", 2, 0)?;
        refused(&rt, b"aaaaaaaaaaaaaaaaaaaaaaaaaaaaaaaaa", 3, 0)?;
        refused(&rt, b"b/aaaaaaaaaaaaaaaaaaaaaaaaaaaaaaaaa", 3, 2)?;
        refused(&rt, b"a aaaaaaaaaaaaaaaaaaaaaaaaaaaaaaaaa", 3, 2)?;
        accepted(&rt, b"aaaaaaaaaaaaaaaaaaaaaaaaaaaaaaaa", 1, 0, 0)
    }

    // Paths.
    #[test]
    fn reads_paths(rt: HostRuntime) -> Result<(), Fail> {
        accepted(&rt, b"a", 1, 0, 0)?;
        accepted(&rt, b"/a", 1, 0, 0)?;
        accepted(&rt, b"//a", 1, 0, 0)?;
        accepted(&rt, b"a/b//c", 3, 0, 0)?;
        accepted(&rt, b"/self::node()", 1, 0, 0)?;
        accepted(&rt, b"//text()", 1, 0, 0)?;
        accepted(&rt, b"descendant::*", 1, 0, 0)?;
        accepted(&rt, b"a/following-sibling::b-1.c_", 2, 0, 0)?;
        accepted(&rt, b" \t\n\ra / b ", 2, 0, 0)
    }

    // Predicates: each path is one, and so is each join; `not` and grouping are none.
    #[test]
    fn reads_predicates(rt: HostRuntime) -> Result<(), Fail> {
        accepted(&rt, b"a[b]", 1, 1, 1)?;
        accepted(&rt, b"a[b/c]", 1, 2, 1)?;
        accepted(&rt, b"a[b or c]", 1, 2, 3)?;
        accepted(&rt, b"a[b and c or d]", 1, 3, 5)?;
        accepted(&rt, b"a[not(b)]", 1, 1, 1)?;
        accepted(&rt, b"a[not(not(b))]", 1, 1, 1)?;
        accepted(&rt, b"a[(b)]", 1, 1, 1)?;
        accepted(&rt, b"a[(b or c) and d]", 1, 3, 5)?;
        accepted(&rt, b"a[b[c]/d]/e[f]", 2, 4, 3)?;
        accepted(&rt, b"a[/b]", 1, 1, 1)
    }

    // Words that are names where a step is due.
    #[test]
    fn reads_words_as_names(rt: HostRuntime) -> Result<(), Fail> {
        accepted(&rt, b"or", 1, 0, 0)?;
        accepted(&rt, b"and/not/text/self/node", 5, 0, 0)?;
        accepted(&rt, b"a[or or and and not]", 1, 3, 5)?;
        accepted(&rt, b"a[not]", 1, 1, 1)?;
        accepted(&rt, b"a[not or not(not)]", 1, 2, 3)?;
        accepted(&rt, b"child::child", 1, 0, 0)?;
        accepted(&rt, b"self::self[self]", 1, 1, 1)?;
        accepted(&rt, b"a[text or text()]", 1, 2, 3)
    }

    // Twelve levels and not thirteen, 16 steps outside and not 17, 23 inside and not 24.
    #[test]
    fn keeps_limits(rt: HostRuntime) -> Result<(), Fail> {
        accepted(&rt, b"a[a[a[a[a[a[a[a[a[a[a[a[a]]]]]]]]]]]]", 1, 12, 12)?;
        refused(&rt, b"a[a[a[a[a[a[a[a[a[a[a[a[a[a]]]]]]]]]]]]]", 5, 25)?;
        accepted(
            &rt,
            b"a[not(not(not(not(not(not(not(not(not(not(not(a)))))))))))]",
            1,
            1,
            1,
        )?;
        refused(
            &rt,
            b"a[not(not(not(not(not(not(not(not(not(not(not(not(a))))))))))))]",
            5,
            49,
        )?;
        accepted(&rt, b"a[(((((((((((a)))))))))))]", 1, 1, 1)?;
        refused(&rt, b"a[((((((((((((a))))))))))))]", 5, 13)?;
        accepted(&rt, b"a/a/a/a/a/a/a/a/a/a/a/a/a/a/a/a", 16, 0, 0)?;
        refused(&rt, b"a/a/a/a/a/a/a/a/a/a/a/a/a/a/a/a/a", 6, 32)?;
        accepted(
            &rt,
            b"a[a/a/a/a/a/a/a/a/a/a/a/a/a/a/a/a/a/a/a/a/a/a/a]",
            1,
            23,
            1,
        )?;
        refused(
            &rt,
            b"a[a/a/a/a/a/a/a/a/a/a/a/a/a/a/a/a/a/a/a/a/a/a/a/a]",
            6,
            48,
        )?;
        accepted(
            &rt,
            b"a[a or a or a or a or a or a or a or a or a or a or a or a or a or a or a or a or a or a or a or a or a or a or a]",
            1,
            23,
            45,
        )?;
        refused(
            &rt,
            b"a[a or a or a or a or a or a or a or a or a or a or a or a or a or a or a or a or a or a or a or a or a or a or a or a]",
            6,
            117,
        )
    }

    // Of several faults the first place counts, and at one place the smaller code.
    #[test]
    fn chooses_first(rt: HostRuntime) -> Result<(), Fail> {
        refused(
            &rt,
            b"a[a/a/a/a/a/a/a/a/a/a/a/a/a/a/a/a/a/a/a/a/a/a/a/not(",
            6,
            48,
        )?;
        refused(
            &rt,
            b"a[a/a/a/a/a/a/a/a/a/a/a/a/a/a/a/a/a/a/a/a/a/a/a and not(b)]",
            6,
            56,
        )?;
        refused(&rt, b"a/a/a/a/a/a/a/a/a/a/a/a/a/a/a/a/$", 2, 32)?;
        refused(&rt, b"a/a/a/a/a/a/a/a/a/a/a/a/a/a/a/a/]", 4, 32)?;
        refused(&rt, b"a[a[a[a[a[a[a[a[a[a[a[a[($", 5, 24)?;
        refused(&rt, b"a[a[a[a[a[a[a[a[a[a[a[a[$", 2, 24)
    }

    // At most 512 bytes.
    #[test]
    fn keeps_length(rt: HostRuntime) -> Result<(), Fail> {
        let mut text = [b' '; 513];
        text[0] = b'a';
        accepted(&rt, &text[0..512], 1, 0, 0)?;
        refused(&rt, &text, 1, 512)?;
        text[511] = b'$';
        refused(&rt, &text[0..512], 2, 511)
    }

    // The rows of a query.
    #[test]
    fn shows_rows(rt: HostRuntime) -> Result<(), Fail> {
        let Ok(query) = reader::read(b"//a[not(b/self::*) and text()]/c") else {
            return Err(Fail::new("refused"));
        };
        let table = query.table;
        assert!(rt; table.outside[0].slash);
        assert_eq!(rt; table.outside[0].axis, Axis::Descendant);
        assert_eq!(rt; table.outside[0].test, NodeTest::Name { at: 2, len: 1 });
        assert_eq!(rt; table.outside[0].bracket, Some(2));
        assert_eq!(rt; table.outside[0].next, Some(1));
        assert_eq!(rt; table.inside[0].next, Some(1));
        assert_eq!(rt; table.inside[1].axis, Axis::SelfNode);
        assert_eq!(rt; table.inside[1].test, NodeTest::Element);
        assert_eq!(rt; table.inside[1].next, None);
        assert_eq!(rt; table.inside[2].test, NodeTest::Text);
        assert_eq!(rt; table.predicates[0].negations, 1);
        assert_eq!(rt; table.predicates[0].shape, Shape::Path(0));
        assert_eq!(rt; table.predicates[1].shape, Shape::Path(2));
        assert_eq!(rt; table.predicates[2].shape, Shape::And(0, 1));
        Ok(())
    }
}
