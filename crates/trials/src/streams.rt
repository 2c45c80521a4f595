//! Readers and writers that do less than they are asked to.
use console::fault::Fault;
use console::output::{buffered, send, send_refusal};
use console::text::read_text;
use filter::FilterFault;
use std::io;
use std::io::{Error, ErrorKind, Read, Write};
use std::test::Fail;

/// Takes or gives one byte at every second call, is interrupted at the others, and fails after so many.
#[derive(Drop)]
struct Slow {
    bytes: Vec<u8>,
    calls: u32,
}

impl Slow {
    fn turn(&mut self) -> io::Result<()> {
        if self.calls == 0 {
            return Err(Error::other("no more"));
        }
        self.calls -= 1;
        if self.calls % 2 == 0 {
            Ok(())
        } else {
            Err(Error::from(ErrorKind::Interrupted))
        }
    }
}

impl Write for Slow {
    fn write(&mut self, buf: &[u8]) -> io::Result<usize> {
        self.turn()?;
        let Some(first) = buf.first() else {
            return Ok(0);
        };
        self.bytes.push(*first)?;
        Ok(1)
    }

    fn flush(&mut self) -> io::Result<()> {
        Ok(())
    }
}

impl Read for Slow {
    fn read(&mut self, buf: &mut [u8]) -> io::Result<usize> {
        self.turn()?;
        let Some(last) = self.bytes.pop() else {
            return Ok(0);
        };
        let Some(place) = buf.first_mut() else {
            return Ok(0);
        };
        *place = last;
        Ok(1)
    }
}

#[test]
fn a_text_is_sent_byte_by_byte(rt: HostRuntime) -> Result<(), Fail> {
    let mut out = Slow {
        bytes: Vec::new(rt.alloc()),
        calls: 100,
    };
    assert!(rt; send(&mut out, b"block 0\n").is_ok());
    assert_eq!(rt; out.bytes.as_slice(), b"block 0\n".as_slice());
    Ok(())
}

#[test]
fn a_text_stops_where_its_stream_fails(rt: HostRuntime) -> Result<(), Fail> {
    let mut out = Slow {
        bytes: Vec::new(rt.alloc()),
        calls: 6,
    };
    assert!(rt; matches!(send(&mut out, b"block 0\n"), Err(Fault::Stream)));
    assert_eq!(rt; out.bytes.as_slice(), b"blo".as_slice());
    Ok(())
}

#[test]
fn a_refusal_is_sent_as_a_line(rt: HostRuntime) -> Result<(), Fail> {
    let mut out = Vec::new(rt.alloc());
    assert!(rt; send_refusal(&mut out, FilterFault::NoSuchFingerprint).is_ok());
    assert_eq!(rt; out.as_slice(), b"refused 21\n".as_slice());
    Ok(())
}

#[test]
fn a_buffer_holds_what_it_is_sent(rt: HostRuntime) -> Result<(), Fail> {
    let Ok(mut out) = buffered(rt.alloc(), Vec::new(rt.alloc())) else {
        return Err(Fail::from(ErrorKind::OutOfMemory));
    };
    assert!(rt; send(&mut out, b"ok\n").is_ok());
    assert_eq!(rt; out.buffer(), b"ok\n".as_slice());
    out.flush()?;
    assert_eq!(rt; out.get_ref().as_slice(), b"ok\n".as_slice());
    Ok(())
}

#[test]
fn a_text_is_read_byte_by_byte(rt: HostRuntime) -> Result<(), Fail> {
    let mut input = Slow {
        bytes: vec![in rt.alloc(); b'c', b'b', b'a']?,
        calls: 100,
    };
    assert!(rt;
        matches!(read_text(rt.alloc(), &mut input), Ok(text) if text.as_slice() == b"abc".as_slice())
    );
    input.bytes.push(b'd')?;
    input.calls = 1;
    assert!(rt; matches!(read_text(rt.alloc(), &mut input), Err(Fault::Stream)));
    Ok(())
}
