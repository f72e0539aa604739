use outside::{
    Failed, InputFault, MemSink, MemSource, Sink, Source, StdSink, StdSource, read_to_end,
    write_all,
};
use std::test::Fail;

const TEXT: [u8; 5] = *b"level";

#[test]
fn a_source_gives_its_bytes_in_pieces_and_fails_at_its_third_read(
    rt: HostRuntime,
) -> Result<(), Fail> {
    let alloc = rt.alloc();
    let mut source = MemSource::new(TEXT.to_vec(alloc)?, 2, vec![in alloc; 2]?);
    let mut into = [0; 4];
    for answer in [Ok(2), Ok(2), Err(Failed), Ok(1), Ok(0), Ok(0)] {
        assert_eq!(rt; source.read(&mut into), answer);
    }
    assert_eq!(rt; into, *b"le\0\0");
    Ok(())
}

#[test]
fn a_sink_takes_pieces_while_it_has_room_and_fails_at_its_third_write(
    rt: HostRuntime,
) -> Result<(), Fail> {
    let alloc = rt.alloc();
    let mut sink = MemSink::new(alloc, 7, 3, vec![in alloc; 2]?)?;
    for answer in [Ok(3), Ok(3), Err(Failed), Ok(1), Err(Failed)] {
        assert_eq!(rt; sink.write(&TEXT), answer);
    }
    assert_eq!(rt; sink.bytes(), b"levlevl".as_slice());
    Ok(())
}

#[test]
fn a_text_is_written_and_read_whole_or_up_to_a_fault(rt: HostRuntime) -> Result<(), Fail> {
    let alloc = rt.alloc();
    let mut sink = MemSink::new(alloc, 9, 2, vec![in alloc; 4]?)?;
    assert_eq!(rt; write_all(&mut sink, &TEXT), Ok(()));
    assert_eq!(rt; write_all(&mut sink, &TEXT), Err(Failed));
    assert_eq!(rt; sink.bytes(), b"levelle".as_slice());
    let mut source = MemSource::new(TEXT.to_vec(alloc)?, 2, vec![in alloc; 4]?);
    assert!(rt;
        read_to_end(alloc, &mut source, 5).is_ok_and(|bytes| bytes.as_slice() == TEXT.as_slice())
    );
    assert!(rt; read_to_end(alloc, &mut source, 5) == Err(InputFault::Failed));
    Ok(())
}

#[test]
fn the_machine_answers(rt: HostRuntime) {
    let mut into = [0; 16];
    assert!(rt; StdSource::new(&rt).read(&mut into).is_ok());
    assert_eq!(rt;
        write_all(&mut StdSink::new(&rt), b"a line of a test\n"),
        Ok(())
    );
}
