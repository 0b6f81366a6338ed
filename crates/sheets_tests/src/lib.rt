// Examples of sheets and of texts that are none.
#![tactic(auto)]

#[cfg(test)]
mod tests {
    use refusals::Refusal;
    use sheets::read_sheet;
    use std::process::Abort;
    use std::test::Fail;

    fn refused(rt: &impl Abort, text: &[u8], refusal: Refusal) {
        assert_eq!(rt; read_sheet(text).err(), Some(refusal));
    }

    #[test]
    fn lawful(rt: HostRuntime) -> Result<(), Fail> {
        let sheet = read_sheet(b"2 3\n01\n11\n")?;
        assert_eq!(rt; sheet.width, 2);
        assert_eq!(rt; sheet.order, 3);
        assert_eq!(rt; &sheet.rows[..3], [2, 3, 0].as_slice());
        Ok(())
    }

    #[test]
    fn narrow_and_wide(rt: HostRuntime) -> Result<(), Fail> {
        let one = read_sheet(b"1 255\n1\n")?;
        assert_eq!(rt; one.order, 255);
        assert_eq!(rt; one.rows[0], 1);
        let wide = read_sheet(
            b"16 3\n1000000000000000\n0100000000000000\n0010000000000000\n0001000000000000\n0000100000000000\n0000010000000000\n0000001000000000\n0000000100000000\n0000000010000000\n0000000001000000\n0000000000100000\n0000000000010000\n0000000000001000\n0000000000000100\n0000000000000010\n1000000000000001\n",
        )?;
        assert_eq!(rt; wide.width, 16);
        assert_eq!(rt; wide.rows[1], 2);
        assert_eq!(rt; wide.rows[15], 32769);
        Ok(())
    }

    #[test]
    fn line_one(rt: HostRuntime) {
        let cases: [(&[u8], u32); 16] = [
            (b"", 1),
            (b"\n", 1),
            (b"2 3", 1),
            (b"\xff\x00\xfe\n", 1),
            (b"02 3\n01\n11\n", 1),
            (b"2 03\n01\n11\n", 1),
            (b"00 3\n01\n11\n", 1),
            (b"2  3\n01\n11\n", 1),
            (b" 2 3\n01\n11\n", 1),
            (b"2 3 \n01\n11\n", 1),
            (b"2\t3\n01\n11\n", 1),
            (b"2 3\r\n01\n11\n", 1),
            (b"2 1000\n01\n11\n", 1),
            (b"1000 3\n01\n11\n", 1),
            (b"2 \n01\n11\n", 1),
            (b"+2 3\n01\n11\n", 1),
        ];
        for (text, line) in cases {
            refused(&rt, text, Refusal::SheetForm { line });
        }
    }

    #[test]
    fn width_and_order_first(rt: HostRuntime) {
        let cases: [(&[u8], Refusal); 6] = [
            (b"0 3\n", Refusal::Width),
            (b"17 3\nnothing", Refusal::Width),
            (b"999 0\n", Refusal::Width),
            (b"2 0\n", Refusal::Order),
            (b"2 1\nxx\n", Refusal::Order),
            (b"2 256\n01\n11\n", Refusal::Order),
        ];
        for (text, refusal) in cases {
            refused(&rt, text, refusal);
        }
    }

    #[test]
    fn rows_and_end(rt: HostRuntime) {
        let cases: [(&[u8], u32); 14] = [
            (b"2 3\n", 2),
            (b"2 3\n01", 2),
            (b"2 3\n01\r\n11\r\n", 2),
            (b"2 3\n0\n11\n", 2),
            (b"2 3\n011\n11\n", 2),
            (b"2 3\n\n01\n11\n", 2),
            (b"2 3\n01\n", 3),
            (b"2 3\n01\n11", 3),
            (b"2 3\n01\n1x\n", 3),
            (b"2 3\n01\n12\n", 3),
            (b"2 3\n01\n1 \n", 3),
            (b"2 3\n01\n11\n\n", 4),
            (b"2 3\n01\n11\n01\n", 4),
            (b"2 3\n01\n11\n\x00", 4),
        ];
        for (text, line) in cases {
            refused(&rt, text, Refusal::SheetForm { line });
        }
    }
}
