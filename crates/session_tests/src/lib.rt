// Sessions of small programs, from their images to their transcripts.

#![tactic(auto)]

#[cfg(test)]
mod tests {
    use cabinet::patch::Patch;
    use cabinet::row::Row;
    use cabinet::stimulus::Stimulus;
    use machine::memory::Memory;
    use rules::session::{Answer, Call};
    use session::call::SessionCall;
    use session::conduct::conducting::conduct;
    use session::observer::Observer;
    use std::test::Fail;
    use verdict::place::accept;

    // The gate program: one mechanism that opens a gate, waits, and shuts it.
    const GATE: [u8; 86] = [
        18, 0, 0, 0, 0, 0, 0, 0, 0, 0, 0, 0, 0, 0, 0, 0, 0, 0, 0, 0, 1, 0, 136, 0, 7, 0, 0, 0, 0,
        0, 0, 0, 9, 0, 1, 0, 1, 0, 0, 0, 11, 0, 1, 0, 0, 0, 8, 1, 136, 0, 22, 0, 0, 0, 7, 1, 64, 0,
        11, 0, 0, 0, 1, 0, 1, 0, 12, 0, 0, 0, 7, 0, 64, 0, 23, 0, 0, 0, 24, 0, 0, 0, 24, 0, 0, 0,
    ];

    // BLOCK_INIT is FL 1,128 and EX; BLOCK_DONE is FL 0,128.
    const BLOCK: [u8; 51] = [
        17, 0, 0, 0, 0, 0, 0, 0, 0, 0, 0, 0, 0, 0, 0, 0, 0, 0, 0, 0, 0, 7, 0, 0, 0, 2, 0, 1, 0, 0,
        0, 0, 0, 0, 0, 0, 0, 3, 0, 7, 1, 128, 0, 11, 0, 0, 0, 7, 0, 128, 0,
    ];

    // Keeps, of each call and of the start, what terminal 0 shows, the steps, the rule's number and the phase, in a row of numbers.
    #[derive(Drop)]
    struct Notes {
        seen: Vec<u32>,
    }

    impl Observer for Notes {
        fn note(
            &mut self,
            _call: Option<Call>,
            answer: Answer,
            _memory: &Memory,
            terminals: [u8; 8],
        ) {
            let (steps, rule, phase) = match answer {
                Answer::Scanned { steps, phase } => (steps, 0, phase),
                Answer::Done { phase } => (0, 0, phase),
                Answer::Refused { rule, phase } => (0, u32::from(u8::from(rule)), phase),
            };
            let _ = self.seen.push(u32::from(terminals[0]));
            let _ = self.seen.push(steps);
            let _ = self.seen.push(rule);
            let _ = self.seen.push(u32::from(u8::from(phase)));
        }
    }

    // Input 0 as 1, 1, 2 in three scans: steps 5, 5, 7, and terminal 0 shows 1, 1, 0.
    #[test]
    fn gate(rt: HostRuntime) -> Result<(), Fail> {
        let heap = rt.alloc();
        let Ok(program) = accept(heap, &GATE) else {
            return Err(Fail::new("refused"));
        };
        let mut rows = Vec::new(heap);
        let _ = rows.push(Row {
            scan: 0,
            port: 0,
            byte: 1,
        });
        let _ = rows.push(Row {
            scan: 2,
            port: 0,
            byte: 2,
        });
        let calls = [SessionCall::Scan, SessionCall::Scan, SessionCall::Scan];
        let mut notes = Notes {
            seen: Vec::new(heap),
        };
        let done = conduct(
            &program,
            Stimulus::new(rows),
            &calls,
            true,
            &mut notes,
            heap,
        );
        assert!(rt; done.is_ok());
        let expected = [0, 0, 0, 0, 1, 5, 0, 0, 1, 5, 0, 0, 0, 7, 0, 0, 0, 0, 0, 0];
        assert!(rt; notes.seen.as_slice() == expected.as_slice());
        Ok(())
    }

    // All phases, both refusals, a clear and a halt.
    #[test]
    fn phases(rt: HostRuntime) -> Result<(), Fail> {
        let heap = rt.alloc();
        let Ok(program) = accept(heap, &BLOCK) else {
            return Err(Fail::new("refused"));
        };
        let calls = [
            SessionCall::PositionReport,
            SessionCall::BlockStart,
            SessionCall::BlockStart,
            SessionCall::Scan,
            SessionCall::Scan,
            SessionCall::PositionReport,
            SessionCall::Scan,
            SessionCall::BlockStart,
            SessionCall::Clear,
        ];
        let mut notes = Notes {
            seen: Vec::new(heap),
        };
        let done = conduct(&program, Patch::new(), &calls, true, &mut notes, heap);
        assert!(rt; done.is_ok());
        let expected = [
            0, 0, 0, 0, 0, 0, 21, 0, 0, 0, 0, 1, 0, 0, 20, 1, 0, 2, 0, 1, 0, 0, 0, 2, 0, 0, 0, 3,
            0, 1, 0, 0, 0, 0, 0, 1, 0, 0, 0, 0, 0, 0, 0, 0,
        ];
        assert!(rt; notes.seen.as_slice() == expected.as_slice());
        Ok(())
    }

    // Counts the calls and the steps of a session.
    #[derive(Drop)]
    struct Counts {
        calls: u64,
        steps: u64,
    }

    impl Observer for Counts {
        fn note(
            &mut self,
            _call: Option<Call>,
            answer: Answer,
            _memory: &Memory,
            _terminals: [u8; 8],
        ) {
            self.calls = self.calls.saturating_add(1);
            if let Answer::Scanned { steps, phase: _ } = answer {
                self.steps = self.steps.saturating_add(u64::from(steps));
            }
        }
    }

    // A million scans with all inputs 0: the mechanism is never entered, and each scan has three steps.
    #[test]
    fn a_million_scans(rt: HostRuntime) -> Result<(), Fail> {
        let heap = rt.alloc();
        let Ok(program) = accept(heap, &GATE) else {
            return Err(Fail::new("refused"));
        };
        let mut calls = Vec::new(heap);
        for _ in 0..1000000u32 {
            let _ = calls.push(SessionCall::Scan);
        }
        let mut counts = Counts { calls: 0, steps: 0 };
        let done = conduct(
            &program,
            Patch::new(),
            calls.as_slice(),
            false,
            &mut counts,
            heap,
        );
        assert!(rt; done.is_ok());
        assert!(rt; counts.calls == 1000001);
        assert!(rt; counts.steps == 3000000);
        Ok(())
    }
}
