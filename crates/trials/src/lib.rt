// Runs of small models against the edges of the language: depth, turns of a repeat, full places, late times, many variables.
#![tactic(auto)]

#[cfg(test)]
mod tests {
    use body::Process;
    use meaning::{Line, Message};
    use reader::form;
    use sequential::{Lent, Outcome, Program, Progress, Report, begin};

    // One process of kind 0, with so many variables.
    fn one(width: u32) -> [Process; 1] {
        [Process {
            width,
            ..Process::default()
        }]
    }

    // A message from outside to process 0 of one.
    fn told(time: u64, count: u64, number: u32) -> Message {
        Message {
            time,
            to: 0,
            from: 1,
            count,
            number,
        }
    }

    // One process plays code at one message, with 4 places for messages and 4 for lines.
    fn play(
        code: &[u32],
        processes: &mut [Process],
        vars: &mut [u32],
        lines: &mut [Line],
        outside: &[Message],
        end: u32,
    ) -> (Report, Progress) {
        let mut row = [Message::default(); 4];
        let mut sends = [Message::default(); 4];
        let mut progress = Progress::default();
        let _ = begin(processes, &mut row, &mut progress, 1, outside);
        let program = Program { code, kinds: &[0] };
        let mut lent = Lent {
            processes,
            vars,
            row: &mut row,
            lines,
            progress: &mut progress,
        };
        let report = lent.run(program, &mut sends, end, 1000);
        (report, progress)
    }

    // What `say` said first, where the message carries this number.
    fn said(code: &[u32], width: u32, number: u32) -> u32 {
        let mut vars = [0; 64];
        let mut lines = [Line::default(); 4];
        let _ = play(
            code,
            &mut one(width),
            &mut vars,
            &mut lines,
            &[told(0, 0, number)],
            100,
        );
        lines[0].number
    }

    #[test]
    fn repeats_at_most_a_thousand_times(rt: HostRuntime) {
        // again it / a = (a + 1) / end / say a
        let code = [6, 8, 2, 1, 0, 5, 1, 0, 0, 1, 0, 3, 1, 0, 0];
        assert_eq!(rt; said(&code, 1, 0), 0);
        assert_eq!(rt; said(&code, 1, 1), 1);
        assert_eq!(rt; said(&code, 1, 1000), 1000);
        assert_eq!(rt; said(&code, 1, 1001), 1000);
        assert_eq!(rt; said(&code, 1, 4294967295), 1000);
    }

    #[test]
    fn divides_by_nothing(rt: HostRuntime) {
        assert_eq!(rt; said(&[3, 8, 2, 0, 0, 0], 0, 7), 0);
        assert_eq!(rt; said(&[3, 9, 2, 0, 0, 0], 0, 7), 0);
        assert_eq!(rt; said(&[3, 8, 2, 0, 2, 0], 0, 7), 3);
        assert_eq!(rt; said(&[3, 9, 2, 0, 4, 0], 0, 7), 3);
    }

    #[test]
    fn wraps(rt: HostRuntime) {
        assert_eq!(rt; said(&[3, 5, 2, 0, 2, 0], 0, 4294967295), 1);
        assert_eq!(rt; said(&[3, 6, 0, 0, 2, 0], 0, 1), 4294967295);
        assert_eq!(rt; said(&[3, 7, 2, 2, 0], 0, 4294967295), 1);
        assert_eq!(rt; said(&[3, 10, 2, 0, 3, 0], 0, 2), 1);
        assert_eq!(rt; said(&[3, 10, 2, 0, 3, 0], 0, 3), 0);
        assert_eq!(rt; said(&[3, 11, 2, 0, 3, 0], 0, 3), 1);
    }

    #[test]
    fn keeps_64_variables(rt: HostRuntime) {
        // variable 63 = it / say variable 63; there is no variable 64
        assert_eq!(rt; said(&[1, 63, 2, 3, 1, 63, 0], 64, 9), 9);
        assert_eq!(rt; said(&[1, 64, 2, 3, 1, 64, 0], 64, 9), 0);
        assert_eq!(rt; said(&[1, 1, 2, 3, 1, 1, 0], 1, 9), 0);
    }

    // 16 times in each other: if it, [..], end; innermost: say it.
    const DEEP: [u32; 99] = [
        5, 93, 1, 2, 5, 87, 1, 2, 5, 81, 1, 2, 5, 75, 1, 2, 5, 69, 1, 2, 5, 63, 1, 2, 5, 57, 1, 2,
        5, 51, 1, 2, 5, 45, 1, 2, 5, 39, 1, 2, 5, 33, 1, 2, 5, 27, 1, 2, 5, 21, 1, 2, 5, 15, 1, 2,
        5, 9, 1, 2, 5, 3, 1, 2, 3, 2, 0, 0, 0, 0, 0, 0, 0, 0, 0, 0, 0, 0, 0, 0, 0, 0, 0, 0, 0, 0,
        0, 0, 0, 0, 0, 0, 0, 0, 0, 0, 0, 0, 0,
    ];

    #[test]
    fn goes_16_deep(rt: HostRuntime) {
        assert_eq!(rt; said(&DEEP, 0, 7), 7);
        assert_eq!(rt; said(&DEEP, 0, 0), 0);
    }

    #[test]
    fn sends_past_the_end_of_time(rt: HostRuntime) {
        // send it to me after 4294967295: for a time beyond 2^32, which waits and is never handled
        let code = [4, 0, 4294967295, 3, 2, 0];
        let mut row = [Message::default(); 4];
        let mut sends = [Message::default(); 4];
        let mut lines = [Line::default(); 1];
        let mut processes = one(0);
        let mut progress = Progress::default();
        let begun = begin(
            &mut processes,
            &mut row,
            &mut progress,
            1,
            &[told(4294967294, 0, 5), told(4294967295, 1, 6)],
        );
        assert!(rt; begun.is_ok());
        let program = Program {
            code: &code,
            kinds: &[0],
        };
        let mut lent = Lent {
            processes: &mut processes,
            vars: &mut [0; 64],
            row: &mut row,
            lines: &mut lines,
            progress: &mut progress,
        };
        let report = lent.run(program, &mut sends, 4294967295, 1000);
        assert_eq!(rt; report.outcome, Outcome::Ended);
        assert_eq!(rt; report.steps, 1);
        assert_eq!(rt; progress.waiting, 2);
        assert_eq!(rt; row[0].time, 8589934589);
        assert_eq!(rt; row[1].time, 4294967295);
        assert_eq!(rt; processes[0].sent, 1);
    }

    #[test]
    fn stops_where_the_row_is_full(rt: HostRuntime) {
        // again 4 / send it to me after 1 / end: four would wait in the place of one, of four places
        let code = [6, 6, 0, 4, 4, 0, 1, 3, 2, 0, 0];
        let mut lines = [Line::default(); 4];
        let mut processes = one(0);
        let first = [told(0, 0, 5)];
        let (report, progress) = play(&code, &mut processes, &mut [0; 64], &mut lines, &first, 1);
        assert_eq!(rt; report.outcome, Outcome::Ended);
        assert_eq!(rt; progress.waiting, 4);
        assert_eq!(rt; processes[0].sent, 4);
        let (report, progress) = play(&code, &mut processes, &mut [0; 64], &mut lines, &first, 2);
        assert_eq!(rt; report.outcome, Outcome::Waiting);
        assert_eq!(rt; report.steps, 1);
        assert_eq!(rt; progress.waiting, 4);
        assert_eq!(rt; processes[0].sent, 4);
    }

    #[test]
    fn stops_where_lines_are_full(rt: HostRuntime) {
        // again it / say it / end, with four places
        let code = [6, 3, 2, 3, 2, 0, 0];
        let mut lines = [Line::default(); 4];
        let (report, progress) = play(
            &code,
            &mut one(0),
            &mut [0; 64],
            &mut lines,
            &[told(0, 0, 4)],
            100,
        );
        assert_eq!(rt; report.outcome, Outcome::Ended);
        assert_eq!(rt; progress.said, 4);
        let (report, progress) = play(
            &code,
            &mut one(0),
            &mut [0; 64],
            &mut lines,
            &[told(0, 0, 5)],
            100,
        );
        assert_eq!(rt; report.outcome, Outcome::Lines);
        assert_eq!(rt; progress.said, 0);
        let (report, progress) = play(
            &code,
            &mut one(0),
            &mut [0; 64],
            &mut lines,
            &[told(0, 0, 3), told(0, 1, 2)],
            100,
        );
        assert_eq!(rt; report.outcome, Outcome::Paused);
        assert_eq!(rt; report.steps, 1);
        assert_eq!(rt; progress.said, 3);
    }

    #[test]
    fn stops_where_a_count_would_end(rt: HostRuntime) {
        let mut processes = [Process {
            kind: 0,
            width: 0,
            seed: 0,
            sent: 18446744073709551615,
        }];
        let mut row = [told(3, 0, 8); 4];
        let mut lines = [Line::default(); 1];
        let mut progress = Progress {
            waiting: 1,
            said: 0,
        };
        let sends = Program {
            code: &[4, 0, 1, 3, 2, 0],
            kinds: &[0],
        };
        let stops = Program {
            code: &[0],
            kinds: &[0],
        };
        let mut lent = Lent {
            processes: &mut processes,
            vars: &mut [0; 64],
            row: &mut row,
            lines: &mut lines,
            progress: &mut progress,
        };
        let report = lent.run(sends, &mut [Message::default(); 4], 100, 1000);
        assert_eq!(rt; report.outcome, Outcome::Count);
        assert_eq!(rt; report.steps, 0);
        assert_eq!(rt; lent.progress.waiting, 1);
        let report = lent.run(stops, &mut [Message::default(); 3], 100, 1000);
        assert_eq!(rt; report.outcome, Outcome::Short);
    }

    #[test]
    fn handles_one_time_in_order(rt: HostRuntime) {
        // say it; messages of one time come by their count, however they were given
        let mut lines = [Line::default(); 4];
        let outside = [
            told(3, 2, 30),
            told(3, 0, 10),
            told(2, 3, 5),
            told(3, 1, 20),
        ];
        let (report, _progress) = play(
            &[3, 2, 0],
            &mut one(0),
            &mut [0; 64],
            &mut lines,
            &outside,
            100,
        );
        assert_eq!(rt; report.outcome, Outcome::Ended);
        assert_eq!(rt; lines[0].number, 5);
        assert_eq!(rt; lines[1].number, 10);
        assert_eq!(rt; lines[2].number, 20);
        assert_eq!(rt; lines[3].number, 30);
    }

    #[test]
    fn texts_stop_at_the_first_bad_byte(rt: HostRuntime) {
        assert!(rt; form(b"").is_ok());
        assert!(rt;
            form(
                b"kind a x\nx = draw (x + 1)\nif it\nsay me\nelse\nend\nend\nthing a 7\nmessage 0 0 0\n",
            ).is_ok()
        );
        assert_eq!(rt; form(b"kind if\nend\n"), Err(7));
        assert_eq!(rt; form(b"kind abcdefghi\nend\n"), Err(13));
        assert_eq!(rt; form(b"kind a\nagain 1\nelse\nend\nend\n"), Err(19));
        assert_eq!(rt; form(b"kind a\nsay 01\nend\n"), Err(12));
        assert_eq!(rt; form(b"kind a\nsay (1 + 2\nend\n"), Err(17));
        assert_eq!(rt; form(b"kind a\nend\nthing a\nkind b\nend\n"), Err(19));
        assert_eq!(rt; form(b"kind a\nsay 1"), Err(12));
    }
}
