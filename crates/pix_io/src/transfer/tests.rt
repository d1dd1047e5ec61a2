use super::*;
use crate::{MemSink, MemSource};
use std::test::Fail;

// Ten bytes, read four at a time into one buffer.
#[test]
fn reads_from_memory(rt: HostRuntime) -> Result<(), Fail> {
    let whole = [
        Ok(Got::Whole),
        Ok(Got::Whole),
        Ok(Got::Short(2)),
        Ok(Got::End),
    ];
    let stopped = [Err(Failed), Ok(Got::Whole), Ok(Got::Short(3)), Ok(Got::End)];
    let stopped_twice = [Err(Failed), Ok(Got::Whole), Err(Failed), Ok(Got::Whole)];
    for (piece, fails, answers, left_over, faults) in [
        (1, &[][..], whole, [9, 10, 7, 8], 0),
        (3, &[][..], whole, [9, 10, 7, 8], 0),
        (20, &[][..], whole, [9, 10, 7, 8], 0),
        (3, &[1u64][..], stopped, [8, 9, 10, 7], 1),
        (4, &[0, 2][..], stopped_twice, [5, 6, 7, 8], 2),
    ] {
        let bytes = [1u8, 2, 3, 4, 5, 6, 7, 8, 9, 10].to_vec(rt.alloc())?;
        let mut source = MemSource::new(bytes, piece, fails.to_vec(rt.alloc())?);
        let mut buf = [0; 4];
        for answer in answers {
            assert_eq!(rt; read_whole(&mut source, &mut buf), answer, "{piece}");
        }
        assert_eq!(rt; buf, left_over, "{piece}");
        assert_eq!(rt; source.faults(), faults, "{piece}");
    }
    Ok(())
}

// Three pieces of three bytes.
#[test]
fn writes_to_memory(rt: HostRuntime) -> Result<(), Fail> {
    for (room, piece, fails, answers, bytes, faults) in [
        (
            9,
            1,
            &[][..],
            [Ok(()), Ok(()), Ok(())],
            &[1u8, 2, 3, 1, 2, 3, 1, 2, 3][..],
            0,
        ),
        (
            9,
            5,
            &[][..],
            [Ok(()), Ok(()), Ok(())],
            &[1, 2, 3, 1, 2, 3, 1, 2, 3][..],
            0,
        ),
        (
            7,
            2,
            &[][..],
            [Ok(()), Ok(()), Err(Failed)],
            &[1, 2, 3, 1, 2, 3, 1][..],
            1,
        ),
        (
            9,
            2,
            &[1u64][..],
            [Err(Failed), Ok(()), Ok(())],
            &[1, 2, 1, 2, 3, 1, 2, 3][..],
            1,
        ),
        (
            0,
            1,
            &[0][..],
            [Err(Failed), Err(Failed), Err(Failed)],
            &[][..],
            3,
        ),
    ] {
        let mut sink = MemSink::new(rt.alloc(), room, piece, fails.to_vec(rt.alloc())?)?;
        for answer in answers {
            assert_eq!(rt; write_all(&mut sink, &[1, 2, 3]), answer, "{room} {piece}");
        }
        assert_eq!(rt; sink.bytes(), bytes, "{room} {piece}");
        assert_eq!(rt; sink.faults(), faults, "{room} {piece}");
        assert_eq!(rt; sink.write(&[]), Ok(0), "{room} {piece}");
    }
    Ok(())
}
