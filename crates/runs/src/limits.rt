//! Searches at the limits of plans and logs.
use judge::{DRAW_WORDS, WORD_BYTES, draw};
use logs::sign_log::SignLog;
use plan::Plan;
use reading::{Hit, Reading, Report, Search};
use std::alloc::Global;
use std::test::Fail;

/// A search of these bytes with the sheet that is drawn for the plan of this text.
fn begun<'a>(heap: Global, text: &[u8], bytes: &'a [u8]) -> Result<Search<SignLog<'a>>, Fail> {
    let plan = Plan::read(26, text)?;
    let mut memory: Vec<u64> = vec![in heap; 0; DRAW_WORDS]?;
    let mut word: Vec<u8> = vec![in heap; 0; WORD_BYTES]?;
    let sheet = draw(heap, &plan, memory.as_mut_slice())?;
    let mut reading = Reading::new(heap, SignLog::open(bytes)?)?;
    match reading.admit(plan, sheet, memory.as_mut_slice(), word.as_mut_slice()) {
        Ok(()) => Ok(reading.begin()),
        Err(_) => Err(Fail::new("the drawn sheet is admitted")),
    }
}

#[test]
fn the_longest_pattern_over_the_longest_log(rt: HostRuntime) -> Result<(), Fail> {
    let heap = rt.alloc();
    let mut text: Vec<u8> = vec![in heap; b'A'; 64]?;
    text.push(b'\n')?;
    let bytes: Vec<u8> = vec![in heap; b'A'; 65536]?;
    let mut search = begun(heap, text.as_slice(), bytes.as_slice())?;
    for start in 0..65473usize {
        let end = start + 63;
        assert!(rt;
            search.next()
                == Some(Hit {
                    start,
                    end,
                    marks: 1
                })
        );
    }
    assert!(rt; search.next() == None);
    // each hit is read from its end to its front, and one cell further, which the first hit does not have
    assert!(rt;
        search.report()
            == Report {
                hits: 65473,
                fetches: 65473 * 65 - 1,
                damaged: None
            }
    );
    Ok(())
}

#[test]
fn the_most_patterns(rt: HostRuntime) -> Result<(), Fail> {
    let heap = rt.alloc();
    let mut text: Vec<u8> = Vec::new(heap);
    for _ in 0..32 {
        text.extend_from_slice(b"AB\n")?;
    }
    let mut search = begun(heap, text.as_slice(), b"ABBAB")?;
    let all = u32::MAX;
    assert_eq!(rt;
        search.next(),
        Some(Hit {
            start: 0,
            end: 1,
            marks: all
        })
    );
    assert_eq!(rt;
        search.next(),
        Some(Hit {
            start: 3,
            end: 4,
            marks: all
        })
    );
    assert_eq!(rt; search.next(), None);
    assert_eq!(rt; search.next(), None);
    Ok(())
}

#[test]
fn a_log_of_damage_and_none(rt: HostRuntime) -> Result<(), Fail> {
    let heap = rt.alloc();
    let mut search = begun(heap, b".\n", b"??")?;
    assert_eq!(rt; search.next(), None);
    assert_eq!(rt;
        search.report(),
        Report {
            hits: 0,
            fetches: 2,
            damaged: Some(0)
        }
    );
    let mut empty = begun(heap, b".\n", b"")?;
    assert_eq!(rt; empty.next(), None);
    assert_eq!(rt;
        empty.report(),
        Report {
            hits: 0,
            fetches: 0,
            damaged: None
        }
    );
    Ok(())
}
