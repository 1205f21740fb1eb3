// The cabinets at work, by tables.

#![tactic(auto)]

#[cfg(test)]
mod tests {
    use cabinet::Cabinet;
    use cabinet::fault::PortFault;
    use cabinet::patch::Patch;
    use cabinet::ports::{read_inputs, send, terminals};
    use cabinet::row::Row;
    use cabinet::stimulus::Stimulus;
    use rules::refusal::Rule;
    use std::process::Abort;
    use std::test::Fail;

    // Port 7 is served and port 8 is refused by rule 26, at each call.
    fn has_eight_ports<C: Cabinet>(rt: &impl Abort, cabinet: &mut C) {
        assert_eq!(rt; cabinet.write(7, 200), Ok(()));
        assert_eq!(rt; cabinet.terminal(7), Ok(200));
        assert_eq!(rt; cabinet.input(7), Ok(0));
        for port in [8, 9, 255] {
            assert_eq!(rt; cabinet.write(port, 1), Err(PortFault::PortAboveSeven));
            assert_eq!(rt; cabinet.terminal(port), Err(PortFault::PortAboveSeven));
            assert_eq!(rt; cabinet.input(port), Err(PortFault::PortAboveSeven));
        }
        assert_eq!(rt; terminals(cabinet), [0, 0, 0, 0, 0, 0, 0, 200]);
        assert_eq!(rt; u8::from(Rule::from(PortFault::PortAboveSeven)), 26);
    }

    #[test]
    fn ports_above_seven_are_refused(rt: HostRuntime) {
        has_eight_ports(&rt, &mut Patch::new());
        has_eight_ports(&rt, &mut Stimulus::new(Vec::new(rt.alloc())));
    }

    #[test]
    fn patch_copies_terminals(rt: HostRuntime) -> Result<(), Fail> {
        let mut patch = Patch::new();
        let mut bytes = [9, 0, 0, 0, 0, 0, 0, 9, 1, 2, 3, 4, 5, 6, 7, 8, 9].to_vec(rt.alloc())?;
        assert!(rt; bytes.len() == 17);
        send(&mut patch, bytes.as_slice());
        read_inputs(&patch, &mut bytes);
        assert!(rt;
            bytes.as_slice() == [0, 0, 0, 0, 0, 0, 0, 0, 1, 2, 3, 4, 5, 6, 7, 8, 9].as_slice()
        );
        patch.advance();
        read_inputs(&patch, &mut bytes);
        assert!(rt;
            bytes.as_slice() == [1, 2, 3, 4, 5, 6, 7, 8, 1, 2, 3, 4, 5, 6, 7, 8, 9].as_slice()
        );
        assert_eq!(rt; terminals(&patch), [1, 2, 3, 4, 5, 6, 7, 8]);
        Ok(())
    }

    #[test]
    fn rows_are_applied_by_number(rt: HostRuntime) -> Result<(), Fail> {
        let table = [
            (0, 0, 11),
            (0, 8, 12),
            (0, 7, 13),
            (2, 0, 14),
            (2, 0, 15),
            (4, 7, 16),
        ];
        let mut rows = Vec::new(rt.alloc());
        for (scan, port, byte) in table {
            rows.push(Row { scan, port, byte })?;
        }
        let mut stimulus = Stimulus::new(rows);
        // inputs 0 and 7 at the making and after each advance
        let expected = [(11, 13), (11, 13), (15, 13), (15, 13), (15, 16), (15, 16)];
        for (first, last) in expected {
            assert_eq!(rt; stimulus.input(0), Ok(first));
            assert_eq!(rt; stimulus.input(1), Ok(0));
            assert_eq!(rt; stimulus.input(7), Ok(last));
            stimulus.advance();
        }
        assert_eq!(rt; terminals(&stimulus), [0; 8]);
        Ok(())
    }
}
