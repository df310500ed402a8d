// What no clause says: that calls succeed, and what the real files and streams hold.
use op_outside::{
    Failed, FileShelf, MemoryShelf, MemorySink, OutSink, ReadRefusal, Shelf, SureShelf, SureSink,
    read_whole, write_all_of,
};
use std::io::Write;
use std::os::fd::AsRawFd;
use std::test::Fail;
use std::{fs, io};

#[test]
fn memory_fails_where_it_is_told_to(rt: HostRuntime) -> Result<(), Fail> {
    let alloc = rt.alloc();
    let mut shelf = MemoryShelf::new(alloc, vec![in alloc; 1]?);
    shelf.hold(String::from_str(alloc, "a")?, b"old".to_vec(alloc)?)?;
    shelf.hold(String::from_str(alloc, "a")?, b"abc".to_vec(alloc)?)?;
    for (name, limit, refusal) in [
        ("b", 9, ReadRefusal::Missing),
        ("a", 9, ReadRefusal::Failed),
        ("a", 2, ReadRefusal::TooLarge),
        ("", 9, ReadRefusal::Missing),
    ] {
        assert_eq!(rt;
            read_whole(alloc, &mut shelf, name, limit).err(),
            Some(refusal)
        );
    }
    let bytes = read_whole(alloc, &mut shelf, "a", 3)?;
    assert_eq!(rt; bytes.as_slice(), b"abc".as_slice());
    let mut sure = SureShelf::new(alloc);
    sure.hold(String::from_str(alloc, "a")?, bytes)?;
    assert_eq!(rt;
        read_whole(alloc, &mut sure, "a", 3)?.as_slice(),
        b"abc".as_slice()
    );
    assert_eq!(rt; write_all_of(&mut SureSink::new(), b"abc"), Ok(()));
    let mut sink = MemorySink::new(alloc, 4, vec![in alloc; 1]?)?;
    assert_eq!(rt; write_all_of(&mut sink, b"ab"), Ok(()));
    assert_eq!(rt; write_all_of(&mut sink, b"cd"), Err(Failed));
    assert_eq!(rt; write_all_of(&mut sink, b"cde"), Err(Failed));
    assert_eq!(rt; sink.bytes(), b"abcd".as_slice());
    Ok(())
}

#[test]
fn a_real_file(rt: HostRuntime) -> Result<(), Fail> {
    let alloc = rt.alloc();
    let text = vec![in alloc; b'x'; 140000]?;
    fs::write(&rt, "op_outside_test.txt", text.as_slice())?;
    let mut shelf = FileShelf::new(rt.clone()?);
    let bytes = read_whole(alloc, &mut shelf, "op_outside_test.txt", 140000)?;
    assert!(rt; bytes.as_slice() == text.as_slice());
    assert_eq!(rt;
        read_whole(alloc, &mut shelf, "op_outside_test.txt", 139999).err(),
        Some(ReadRefusal::TooLarge)
    );
    fs::remove_file(&rt, "op_outside_test.txt")?;
    assert_eq!(rt;
        read_whole(alloc, &mut shelf, "op_outside_test.txt", 9).err(),
        Some(ReadRefusal::Failed)
    );
    assert_eq!(rt;
        read_whole(alloc, &mut shelf, ".", 9).err(),
        Some(ReadRefusal::Failed)
    );
    Ok(())
}

#[test]
fn a_file_replaced_while_it_is_read(rt: HostRuntime) -> Result<(), Fail> {
    fs::write(&rt, "op_outside_replaced.txt", b"old text")?;
    let mut shelf = FileShelf::new(rt.clone()?);
    let mut piece = [0u8; 4];
    assert_eq!(rt;
        shelf.read_at("op_outside_replaced.txt", 0, &mut piece).ok(),
        Some(4)
    );
    assert_eq!(rt; piece.as_slice(), b"old ".as_slice());
    fs::remove_file(&rt, "op_outside_replaced.txt")?;
    fs::write(&rt, "op_outside_replaced.txt", b"new word")?;
    assert_eq!(rt;
        shelf.read_at("op_outside_replaced.txt", 4, &mut piece).ok(),
        Some(4)
    );
    assert_eq!(rt; piece.as_slice(), b"text".as_slice());
    assert_eq!(rt;
        shelf.read_at("op_outside_replaced.txt", 0, &mut piece).ok(),
        Some(4)
    );
    assert_eq!(rt; piece.as_slice(), b"new ".as_slice());
    fs::remove_file(&rt, "op_outside_replaced.txt")?;
    Ok(())
}

#[test]
fn a_pipe_is_read_whole(rt: HostRuntime) -> Result<(), Fail> {
    let alloc = rt.alloc();
    let (reader, mut writer) = io::pipe(&rt)?;
    writer.write_all(b"through a pipe")?;
    drop(writer);
    let name = format!(in alloc; "/proc/self/fd/{}", reader.as_raw_fd())?;
    let mut shelf = FileShelf::new(rt.clone()?);
    let bytes = read_whole(alloc, &mut shelf, &name, 14)?;
    assert_eq!(rt; bytes.as_slice(), b"through a pipe".as_slice());
    Ok(())
}

// A writer that takes two bytes at a time, and fails at its third call.
#[derive(Drop)]
struct Slow {
    calls: u8,
}

impl io::Write for Slow {
    fn write(&mut self, buf: &[u8]) -> io::Result<usize> {
        self.calls = self.calls.saturating_add(1);
        if self.calls == 3 {
            return Err(io::Error::from(io::ErrorKind::BrokenPipe));
        }
        Ok(buf.len().min(2))
    }

    fn flush(&mut self) -> io::Result<()> {
        Ok(())
    }
}

#[test]
fn a_stream_that_fails(rt: HostRuntime) {
    let mut sink = OutSink::new(Slow { calls: 0 });
    assert_eq!(rt; write_all_of(&mut sink, b"abcd"), Ok(()));
    assert_eq!(rt; write_all_of(&mut sink, b"e"), Err(Failed));
    assert_eq!(rt; write_all_of(&mut sink, b"f"), Ok(()));
}
