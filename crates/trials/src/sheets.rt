//! Sheets by example: a small one made, written and read, and each refusal at its limit.
use sheet::{GrowthError, Sheet, SheetError, SheetRefusal};
use std::alloc::Global;
use std::test::Fail;

/// Fails the test that asks, unless it is so.
fn is_so(it: bool, what: &str) -> Result<(), Fail> {
    if it { Ok(()) } else { Err(Fail::new(what)) }
}

/// The states of the sheet of the pattern ABA over 26 letters.
fn states(heap: Global) -> Result<Sheet, Fail> {
    let mut sheet = Sheet::single(heap, 26, 3)?;
    is_so(sheet.push_state(0, true)? == 2, "state 2")?;
    is_so(sheet.push_state(0, false)? == 3, "state 3")?;
    is_so(sheet.push_state(0, false)? == 4, "state 4")?;
    is_so(sheet.push_state(0, true)? == 5, "state 5")?;
    is_so(sheet.push_state(1, false)? == 6, "state 6")?;
    Ok(sheet)
}

/// The sheet of the pattern ABA, with its arrows.
fn aba(heap: Global) -> Result<Sheet, Fail> {
    let mut sheet = states(heap)?;
    is_so(sheet.set_arrow(1, 0, 2), "the arrow from 1 by A")?;
    is_so(sheet.set_arrow(1, 1, 3), "the arrow from 1 by B")?;
    is_so(sheet.set_arrow(2, 1, 4), "the arrow from 2 by B")?;
    is_so(sheet.set_arrow(3, 0, 5), "the arrow from 3 by A")?;
    is_so(sheet.set_arrow(4, 0, 6), "the arrow from 4 by A")?;
    Ok(sheet)
}

/// So many bytes of the buffer, or all.
fn front(bytes: &[u8], n: usize) -> &[u8] {
    bytes.get(..n).unwrap_or(bytes)
}

/// A byte of the buffer, 0 past its end.
fn byte(bytes: &[u8], i: usize) -> u8 {
    bytes.get(i).copied().unwrap_or(0)
}

/// The number of the refusal, or 0 for a sheet, as the tables of cases write it.
fn number(made: Result<Sheet, SheetError>) -> u8 {
    match made {
        Ok(_) => 0,
        Err(SheetError::Refused(refusal)) => refusal.number(),
        Err(SheetError::NoMemory) => 255,
    }
}

/// Reading the file answers with the refusal of this number, or with a sheet for 0.
fn reads(heap: Global, bytes: &[u8], answer: u8) -> Result<(), Fail> {
    is_so(
        number(Sheet::read(heap, bytes)) == answer,
        "what the file is read as",
    )
}

/// Whether the sheet answers as that of ABA.
fn is_aba(sheet: &Sheet) -> bool {
    sheet.letters() == 26
        && sheet.shortest() == 3
        && sheet.states() == 6
        && sheet.follow(3, 0) == Some(5)
        && sheet.follow(3, 1) == None
        && sheet.is_prefix(5)
        && !sheet.is_prefix(6)
        && sheet.marks(6) == 1
}

#[test]
fn written_and_read(rt: HostRuntime) -> Result<(), Fail> {
    let heap = rt.alloc();
    let sheet = aba(heap)?;
    let mut buffer: Vec<u8> = vec![in heap; 9; 200]?;
    assert_eq!(rt; sheet.write(buffer.as_mut_slice()), Ok(190));
    assert!(rt; byte(buffer.as_slice(), 189) == 0 && byte(buffer.as_slice(), 190) == 9);
    let again = Sheet::read(heap, front(buffer.as_slice(), 190))?;
    assert!(rt; is_aba(&again));
    let mut copy: Vec<u8> = vec![in heap; 9; 200]?;
    assert_eq!(rt; again.write(copy.as_mut_slice()), Ok(190));
    assert!(rt; copy.as_slice() == buffer.as_slice());
    Ok(())
}

#[test]
fn a_short_buffer_is_left_alone(rt: HostRuntime) -> Result<(), Fail> {
    let sheet = aba(rt.alloc())?;
    let mut short: Vec<u8> = vec![in rt.alloc(); 7; 189]?;
    assert_eq!(rt;
        sheet.write(short.as_mut_slice()),
        Err(SheetRefusal::Buffer)
    );
    assert_eq!(rt; SheetRefusal::Buffer.number(), 16);
    assert!(rt; byte(short.as_slice(), 0) == 7 && byte(short.as_slice(), 188) == 7);
    Ok(())
}

#[test]
fn questions_at_their_limits(rt: HostRuntime) -> Result<(), Fail> {
    let heap = rt.alloc();
    let cases: &[(&[u8], u8)] = &[
        (&[1, 1, 0], 11),
        (&[1, 1, 0, 2], 12),
        (&[0, 1, 0, 1], 13),
        (&[1, 0, 0, 1], 13),
        (&[1, 33, 0, 1], 13),
        (&[1, 32, 0, 1], 14),
        (&[1, 1, 0, 1, 0, 0, 0, 0, 2], 14),
        (&[1, 1, 0, 1, 0, 0, 0, 0, 2, 2, 0], 14),
        (&[1, 1, 0, 1, 0, 0, 0, 0, 2, 1], 15),
        (&[1, 1, 0, 1, 0, 0, 0, 0, 1, 2], 15),
        (&[1, 1, 0, 1, 0, 0, 0, 0, 1, 1], 0),
    ];
    for (bytes, answer) in cases {
        reads(heap, *bytes, *answer)?;
    }
    Ok(())
}

#[test]
fn limits_of_sheets(rt: HostRuntime) -> Result<(), Fail> {
    let heap = rt.alloc();
    assert_eq!(rt; number(Sheet::single(heap, 0, 0)), 13);
    assert_eq!(rt; number(Sheet::single(heap, 33, 0)), 13);
    let mut sheet = Sheet::single(heap, 1, 0)?;
    for _ in 1..255 {
        let _ = sheet.push_state(0, false)?;
    }
    assert_eq!(rt; sheet.push_state(0, false), Err(GrowthError::Full));
    assert!(rt; sheet.set_arrow(255, 0, 255) && !sheet.set_arrow(255, 0, 256));
    let mut buffer: Vec<u8> = vec![in heap; 0; 1534]?;
    assert_eq!(rt; sheet.write(buffer.as_mut_slice()), Ok(1534));
    let again = Sheet::read(heap, buffer.as_slice())?;
    assert!(rt; again.follow(255, 0) == Some(255) && again.follow(256, 0) == None);
    Ok(())
}
