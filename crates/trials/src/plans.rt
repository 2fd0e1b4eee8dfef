//! Plans that are read, texts that are refused, and the fits of words.
use notation::PlanRefusal;
use plan::Plan;
use std::alloc::{AllocError, Global};
use std::test::Fail;

/// The number of the refusal and its line (0 where it names none), or (0, 0) for a plan, as the tables of cases write it.
fn refused(answer: Result<Plan, PlanRefusal>) -> (u8, usize) {
    answer.err().map_or((0, 0), |refusal| {
        (refusal.number(), refusal.line().unwrap_or(0))
    })
}

#[test]
fn refusals(rt: HostRuntime) {
    let cases: &[(u8, &[u8], u8, usize)] = &[
        (0, b"A\n", 1, 0),
        (33, b"", 1, 0),
        (2, b"", 2, 0),
        (2, b"A\nB", 2, 0),
        (4, b"A\nE\n", 4, 2),
        (4, b"A]\n", 4, 1),
        (4, b"^A\n", 4, 1),
        (4, b"A\r\n", 4, 1),
        (4, b"A B\n", 4, 1),
        (4, b"[A\n]\n", 5, 1),
        (4, b"[]\n", 5, 1),
        (4, b"[^]\n", 5, 1),
        (4, b"[A-C]\n", 5, 1),
        (4, b"[A^]\n", 5, 1),
        (4, b"[[]\n", 5, 1),
        (4, b"[^^A]\n", 5, 1),
        (4, b"[AE]\n", 5, 1),
        (2, b"[^AB]\n", 6, 1),
        (4, b"A\n\nB\n", 8, 2),
        (4, b"\n", 8, 1),
    ];
    for (letters, text, number, line) in cases {
        assert_eq!(rt; refused(Plan::read(*letters, *text)), (*number, *line));
    }
}

/// The front, so many times the sign, and the end.
fn long(
    heap: Global,
    front: &[u8],
    sign: u8,
    times: usize,
    end: &[u8],
) -> Result<Vec<u8>, AllocError> {
    let mut text = vec![in heap; sign; times]?;
    text.extend_from_slice(end)?;
    let mut all = front.to_vec(heap)?;
    all.extend_from_slice(&text)?;
    Ok(all)
}

#[test]
fn limits(rt: HostRuntime) -> Result<(), Fail> {
    let lines =
        b"A\nA\nA\nA\nA\nA\nA\nA\nA\nA\nA\nA\nA\nA\nA\nA\nA\nA\nA\nA\nA\nA\nA\nA\nA\nA\nA\nA\nA\nA\nA\n";
    let cases: &[(&[u8], u8, usize, &[u8], u8, usize)] = &[
        // 32 lines and 33
        (lines, b'A', 1, b"\n", 0, 0),
        (lines, b'A', 1, b"\nA\n", 3, 33),
        // 64 steps and 65, and what comes before the refusal of a 65th
        (b"", b'.', 64, b"\n", 0, 0),
        (b"", b'.', 65, b"\n", 7, 1),
        (b"", b'.', 64, b"\nA\n", 7, 2),
        (b"", b'.', 64, b"\n\n", 8, 2),
        (b"", b'.', 64, b"B\n", 4, 1),
        // 65,536 bytes and one more
        (b"[", b'A', 65533, b"]\n", 0, 0),
        (b"[", b'A', 65534, b"]\n", 2, 0),
    ];
    for (front, sign, times, end, number, line) in cases {
        let text = long(rt.alloc(), *front, *sign, *times, *end)?;
        assert_eq!(rt; refused(Plan::read(1, &text)), (*number, *line));
    }
    Ok(())
}

#[test]
fn plans(rt: HostRuntime) -> Result<(), Fail> {
    let plan = Plan::read(32, b"A.[BCB]\n[^A]\nZaf.\n")?;
    assert_eq!(rt; (plan.letters(), plan.patterns()), (32, 3));
    assert_eq!(rt; (plan.shortest(), plan.longest()), (1, 4));
    // the steps that admit A, B, Z, a and f, by the fits of these letters
    let cases: &[(u8, u64)] = &[
        (0, 0b1000_0011),
        (1, 0b1000_1110),
        (25, 0b1001_1010),
        (26, 0b1010_1010),
        (31, 0b1100_1010),
    ];
    for (letter, steps) in cases {
        let (closing, inner) = plan.first(*letter);
        assert_eq!(rt; closing | inner, *steps);
    }
    let empty = Plan::empty(32)?;
    assert_eq!(rt; (empty.letters(), empty.patterns()), (32, 0));
    assert_eq!(rt; (empty.shortest(), empty.longest()), (0, 0));
    assert_eq!(rt; refused(Plan::empty(33)), (1, 0));
    Ok(())
}

#[test]
fn fits(rt: HostRuntime) -> Result<(), Fail> {
    let plan = Plan::read(26, b"ABA\n")?;
    // A closes at step 2 and goes on at step 0; BA closes at step 1; ABA at step 0
    let a = plan.first(0);
    assert_eq!(rt; a, (0b100, 0b001));
    let ba = plan.extend(a, 1);
    assert_eq!(rt; ba, (0b010, 0));
    let aba = plan.extend(ba, 0);
    assert_eq!(rt; aba, (0b001, 0));
    assert_eq!(rt; (plan.is_prefix(a), plan.is_prefix(ba)), (true, false));
    assert_eq!(rt; (plan.marks(ba), plan.marks(aba)), (0, 1));
    assert_eq!(rt; (plan.extend(aba, 1), plan.first(26)), ((0, 0), (0, 0)));
    let three = Plan::read(2, b"AB\nB\n.\n")?;
    let b = three.first(1);
    assert_eq!(rt;
        (three.marks(b), three.marks(three.extend(b, 0))),
        (0b110, 0b001)
    );
    Ok(())
}
