#![tactic(auto)]

// Queries that are translated, and the check of what was written.
#[cfg(test)]
mod tests {
    use program::check::check as check_program;
    use query::parsed::Query;
    use std::process::Abort;
    use std::test::Fail;

    fn read(text: &[u8]) -> Result<Query, Fail> {
        reader::read(text).map_err(|_| Fail::new("not read"))
    }

    // Reads and translates the text, and gives the number of the bytes.
    fn translate(text: &[u8], names: &[[u8; 32]], out: &mut [u8]) -> Result<usize, Fail> {
        translate::translate(&read(text)?, names, out).map_err(|_| Fail::new("not translated"))
    }

    // The text is read and translated, and the check of programs accepts the bytes; those after them are as before.
    fn translated(rt: &impl Abort, text: &[u8], names: &[[u8; 32]]) -> Result<usize, Fail> {
        let mut out = [0x55_u8; 2060];
        let end = translate(text, names, &mut out)?;
        assert!(rt; end <= 2048);
        assert!(rt; check_program(&out[..end]).is_ok());
        assert!(rt; out[end..].iter().all(|&byte| byte == 0x55));
        Ok(end)
    }

    // Written are these bytes.
    fn written(
        rt: &impl Abort,
        text: &[u8],
        names: &[[u8; 32]],
        expected: &[u8],
    ) -> Result<(), Fail> {
        let mut out = [0_u8; 2048];
        let end = translate(text, names, &mut out)?;
        assert!(rt; end <= 2048);
        assert!(rt; &out[..end] == expected);
        Ok(())
    }

    // 16 steps outside brackets, 23 inside, 12 levels.
    #[test]
    fn largest(rt: HostRuntime) -> Result<(), Fail> {
        let _ = translated(
            &rt,
            b"a/a/a/a/a/a/a/a/a/a/a/a/a/a/a/a[b[b[b[b[b[b[b[b[b[b[b[b//c/c/c/c/c/c or c and c and c or c/c]]]]]]]]]]]]",
            &[],
        )?;
        Ok(())
    }

    #[test]
    fn short(rt: HostRuntime) -> Result<(), Fail> {
        written(
            &rt,
            b"/self::node()",
            &[],
            &[
                0x12, 0x1f, 0x12, 0x1f, 0x20, 0, 0x23, 1, 0x2f, 0x20, 1, 0x24, 0x2f, 0xff,
            ],
        )?;
        written(
            &rt,
            b"//*",
            &[],
            &[
                0x12, 0x1f, 0x10, 2, 0x1f, 0x20, 0, 0x21, 1, 0x2f, 0x20, 0, 0x21, 1, 0x22, 1, 0x20,
                1, 0x24, 0x2f, 0xff,
            ],
        )
    }

    #[test]
    fn refused(rt: HostRuntime) -> Result<(), Fail> {
        let query = read(b"a")?;
        let mut out = [7_u8; 2047];
        match translate::translate(&query, &[], &mut out) {
            Ok(_) => Err(Fail::new("granted")),
            Err(fault) => {
                assert_eq!(rt; fault.code(), 11);
                assert!(rt; out.iter().all(|&byte| byte == 7));
                Ok(())
            }
        }
    }
}
