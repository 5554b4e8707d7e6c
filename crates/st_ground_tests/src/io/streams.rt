use super::numbers;
use st_base::Bytes;
use st_io::{
    Failed, PlainSink, PlainSource, ScriptSink, ScriptSource, Sink, Source, StdSink, StdSource,
};
use std::test::Fail;

fn gives_what_there_is_room_for(source: &mut PlainSource) -> bool {
    let mut room = [0u8; 3];
    source.read(&mut []) == Ok(0)
        && source.read(&mut room) == Ok(3)
        && room.as_slice() == b"abc".as_slice()
        && source.read(&mut room) == Ok(2)
        && room.as_slice() == b"dec".as_slice()
        && source.read(&mut room) == Ok(0)
}

#[test]
fn a_plain_source_gives_what_there_is_room_for(rt: HostRuntime) -> Result<(), Fail> {
    let mut source = PlainSource::new(Bytes::from_slice(rt.alloc(), b"abcde")?);
    assert!(rt; gives_what_there_is_room_for(&mut source));
    Ok(())
}

fn takes_all(sink: &mut PlainSink) -> bool {
    sink.write(b"ab") == Ok(2)
        && sink.write(b"") == Ok(0)
        && sink.write(b"c") == Ok(1)
        && sink.finish() == Ok(())
        && sink.written().as_slice() == b"abc".as_slice()
}

#[test]
fn a_plain_sink_takes_all(rt: HostRuntime) -> Result<(), Fail> {
    let mut sink = PlainSink::new(rt.alloc());
    assert!(rt; takes_all(&mut sink));
    Ok(())
}

/// Whether a read fails, or returns these bytes.
fn gives(source: &mut ScriptSource, want: Result<usize, Failed>, given: &[u8]) -> bool {
    let mut room = [0u8; 4];
    source.read(&mut room) == want && room.starts_with(given)
}

fn gives_pieces(source: &mut ScriptSource) -> bool {
    gives(source, Ok(2), b"ab")
        && gives(source, Err(Failed), b"")
        && gives(source, Err(Failed), b"")
        && gives(source, Ok(2), b"cd")
        && gives(source, Ok(1), b"e")
        && gives(source, Err(Failed), b"")
        && gives(source, Ok(0), b"")
}

#[test]
fn a_scripted_source_gives_pieces_and_fails_at_its_calls(rt: HostRuntime) -> Result<(), Fail> {
    let bytes = Bytes::from_slice(rt.alloc(), b"abcde")?;
    let mut source = ScriptSource::new(bytes, 2, numbers(rt.alloc(), &[2, 3, 6])?);
    assert!(rt; gives_pieces(&mut source));
    Ok(())
}

fn takes_pieces(sink: &mut ScriptSink) -> bool {
    sink.write(b"abc") == Ok(2)
        && sink.write(b"c") == Err(Failed)
        && sink.write(b"c") == Ok(1)
        && sink.finish() == Err(Failed)
        && sink.finish() == Ok(())
        && sink.calls() == 5
        && sink.written().as_slice() == b"abc".as_slice()
}

#[test]
fn a_scripted_sink_takes_pieces_and_fails_at_its_calls(rt: HostRuntime) -> Result<(), Fail> {
    let mut sink = ScriptSink::new(rt.alloc(), 2, numbers(rt.alloc(), &[2, 4])?);
    assert!(rt; takes_pieces(&mut sink));
    Ok(())
}

fn is_a_sink(sink: &mut impl Sink) -> bool {
    sink.write(b"") == Ok(0) && sink.write(b".") == Ok(1) && sink.finish() == Ok(())
}

#[test]
fn the_standard_streams_are_a_source_and_a_sink(rt: HostRuntime) -> Result<(), Fail> {
    assert!(rt; is_a_sink(&mut StdSink::new(&rt)));
    assert!(rt; StdSource::new(&rt).read(&mut []) == Ok(0));
    Ok(())
}
