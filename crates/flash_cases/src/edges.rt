use io_edge::{
    AnySource, EmptySource, Failed, MemSink, MemSource, NoSource, StdSink, StdSource, TakeEnd,
    put_all, take_all,
};
use std::io;
use std::io::{BufWriter, Read, Write};
use std::test::Fail;
use storage_model::Bytes;

// A reader that gives two bytes, and whose every later read fails.
#[derive(Drop)]
struct BrokenOff {
    begun: bool,
}

impl Read for BrokenOff {
    fn read(&mut self, buf: &mut [u8]) -> io::Result<usize> {
        if self.begun || buf.len() < 2 {
            return Err(io::Error::from(io::ErrorKind::Interrupted));
        }
        self.begun = true;
        buf[..2].copy_from_slice(b"ab");
        Ok(2)
    }
}

// A writer that takes two bytes at a call, and none where it is full.
#[derive(Drop)]
struct Narrow {
    bytes: Vec<u8>,
    room: usize,
}

impl Write for Narrow {
    fn write(&mut self, buf: &[u8]) -> io::Result<usize> {
        let count = buf.len().min(2).min(self.room);
        self.bytes.extend_from_slice(&buf[..count])?;
        self.room -= count;
        Ok(count)
    }

    fn flush(&mut self) -> io::Result<()> {
        Ok(())
    }
}

#[test]
fn failed_read_is_no_end(rt: HostRuntime) -> Result<(), Fail> {
    let mut file = AnySource::Std(StdSource::over(BrokenOff { begun: false }));
    let end = take_all(rt.alloc(), &mut file, 9).map(|_| ());
    assert_eq!(rt; end, Err(TakeEnd::Failed));
    Ok(())
}

#[test]
fn what_is_held_is_handed_on_at_the_end(rt: HostRuntime) -> Result<(), Fail> {
    let mut writer = Narrow {
        bytes: Vec::new(rt.alloc()),
        room: 5,
    };
    let held = BufWriter::with_capacity(rt.alloc(), 65536, &mut writer)?;
    let mut sink = StdSink::over(held);
    assert_eq!(rt; put_all(&mut sink, b"abc"), Ok(()));
    assert_eq!(rt; sink.finish(), Ok(()));
    assert_eq!(rt; put_all(&mut sink, b"def"), Ok(()));
    assert_eq!(rt; sink.finish(), Err(Failed));
    drop(sink);
    assert_eq!(rt; writer.bytes.as_slice(), b"abcde".as_slice());
    Ok(())
}

#[test]
fn texts_are_taken_and_put(rt: HostRuntime) -> Result<(), Fail> {
    let bytes = Bytes::from_vec(b"abcde".to_vec(rt.alloc())?);
    let mut source = MemSource::over(bytes, Vec::new(rt.alloc()));
    let front = take_all(rt.alloc(), &mut source, 2)?;
    assert_eq!(rt; front.as_slice(), b"abc".as_slice());
    let mut sink = MemSink::by_steps(rt.alloc(), 9, 1, vec![in rt.alloc(); 4]?)?;
    assert_eq!(rt; put_all(&mut sink, front.as_slice()), Ok(()));
    assert_eq!(rt; put_all(&mut sink, b"d"), Err(Failed));
    assert_eq!(rt; sink.bytes(), b"abc".as_slice());
    let mut sink = MemSink::with_room(rt.alloc(), 2, Vec::new(rt.alloc()))?;
    assert_eq!(rt; put_all(&mut sink, b"abc"), Err(Failed));
    assert_eq!(rt; sink.bytes(), b"ab".as_slice());
    Ok(())
}

#[test]
fn standard_texts_are_taken_and_put(rt: HostRuntime) -> Result<(), Fail> {
    let mut absent: AnySource<&[u8]> = AnySource::Empty(EmptySource::new());
    assert_eq!(rt; take_all(rt.alloc(), &mut absent, 9)?.len(), 0);
    let mut unopened: AnySource<&[u8]> = AnySource::No(NoSource::new());
    let end = take_all(rt.alloc(), &mut unopened, 9).map(|_| ());
    assert_eq!(rt; end, Err(TakeEnd::Failed));
    let mut file = AnySource::Std(StdSource::over(b"new 8\n".as_slice()));
    let text = take_all(rt.alloc(), &mut file, 9)?;
    assert_eq!(rt; text.as_slice(), b"new 8\n".as_slice());
    let mut sink = StdSink::over(Vec::new(rt.alloc()));
    put_all(&mut sink, text.as_slice())?;
    Ok(())
}
