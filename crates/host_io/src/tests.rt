use crate::files::read_front;
use crate::{
    CommandLine, FileInputs, ProcessCommandLine, SystemClock, UdpLink, WriterSink, words_of,
};
use rp_base::{Bytes, Clock, InputEnd, Inputs, Link, LinkEnd, Node, Sink, write_all};
use std::alloc::Global;
use std::env::FillError;
use std::io::{Error, ErrorKind, Read, Write};
use std::net::UdpSocket;
use std::rt::Env;
use std::test::Fail;
use std::time::{Duration, Instant};
use std::{env, fs, io, process, thread};

// A reader or a writer by three bytes at most, at each second call; the others are interrupted. A broken one fails at its fourth
// call.
#[derive(Drop)]
struct Halting<T> {
    inner: T,
    calls: u8,
    is_broken: bool,
}

impl<T> Halting<T> {
    fn over(inner: T, is_broken: bool) -> Halting<T> {
        Halting {
            inner,
            calls: 0,
            is_broken,
        }
    }

    fn called(&mut self) -> io::Result<()> {
        self.calls = self.calls.wrapping_add(1);
        if self.calls % 2 == 1 {
            return Err(Error::from(ErrorKind::Interrupted));
        }
        if self.is_broken && self.calls == 4 {
            return Err(Error::from(ErrorKind::BrokenPipe));
        }
        Ok(())
    }
}

impl<R: Read> Read for Halting<R> {
    fn read(&mut self, buf: &mut [u8]) -> io::Result<usize> {
        self.called()?;
        let most = buf.len().min(3);
        self.inner.read(&mut buf[..most])
    }
}

impl<W: Write> Write for Halting<W> {
    fn write(&mut self, buf: &[u8]) -> io::Result<usize> {
        self.called()?;
        let most = buf.len().min(3);
        self.inner.write(&buf[..most])
    }

    fn flush(&mut self) -> io::Result<()> {
        Ok(())
    }
}

#[test]
fn interrupted_reads_are_tried_again(rt: HostRuntime) -> Result<(), Fail> {
    let alloc = rt.alloc();
    // whether the reader breaks, the limit, and what comes of it
    let rows: [(bool, u64, Result<(), InputEnd>, &[u8]); 4] = [
        (false, 9, Ok(()), b"abcdefgh"),
        (false, 7, Ok(()), b"abcdefgh"),
        (false, 4, Ok(()), b"abcde"),
        (true, 9, Err(InputEnd::Failed), b""),
    ];
    for (is_broken, limit, wanted, bytes) in rows {
        let reader = Halting::over(b"abcdefgh".as_slice(), is_broken);
        let mut into = Bytes::new(alloc);
        assert_eq!(rt;
            read_front(alloc, reader, limit, &mut into),
            wanted,
            "limit {limit}"
        );
        assert_eq!(rt; into.as_slice(), bytes, "limit {limit}");
    }
    Ok(())
}

#[test]
fn interrupted_writes_are_tried_again(rt: HostRuntime) -> Result<(), Fail> {
    let alloc = rt.alloc();
    let rows: [(bool, bool, &[u8]); 2] = [(false, true, b"abcdefgh"), (true, false, b"abc")];
    for (is_broken, is_whole, bytes) in rows {
        let mut writer = Halting::over(Vec::new(alloc), is_broken);
        let mut sink = WriterSink::new(&mut writer);
        let written = write_all(&mut sink, b"abcdefgh");
        assert_eq!(rt; written.is_ok(), is_whole);
        assert_eq!(rt; writer.inner.as_slice(), bytes);
    }
    Ok(())
}

#[test]
fn files_are_read_to_their_limit(rt: HostRuntime) -> Result<(), Fail> {
    let alloc = rt.alloc();
    let id = process::id(rt.process());
    let mut path = env::temp_dir(&rt)?;
    path.push(format!(in alloc; "host_io-{id}")?.as_str())?;
    let name = path.as_str().as_bytes();
    fs::write(&rt, path.as_str(), b"abcdef".as_slice())?;
    let mut inputs = FileInputs::new(&rt, alloc);
    let mut got = Bytes::new(alloc);
    let rows: [(u64, &[u8]); 4] = [
        (3, b"abcd"),
        (5, b"abcdef"),
        (6, b"abcdef"),
        (u64::MAX, b"abcdef"),
    ];
    for (limit, wanted) in rows {
        inputs.load(name, limit, &mut got)?;
        assert_eq!(rt; got.as_slice(), wanted, "limit {limit}");
    }
    fs::remove_file(&rt, path.as_str())?;
    // a file that isn't there, a name that isn't UTF-8, and a folder, which can be opened but not read
    let names: [&[u8]; 3] = [name, b"\xff", b"."];
    for name in names {
        assert_eq!(rt; inputs.load(name, 9, &mut got), Err(InputEnd::Failed));
        assert_eq!(rt; got.len(), 0);
    }
    Ok(())
}

#[test]
fn the_clock_goes_on_in_milliseconds(rt: HostRuntime) -> Result<(), Fail> {
    let before = Instant::now(&rt)?;
    let mut clock = SystemClock::started(&rt);
    let first = clock.now();
    thread::sleep(&rt, Duration::from_millis(30));
    let second = clock.now();
    let passed = before.elapsed(&rt)?.as_millis();
    assert!(rt; second.saturating_sub(first) >= 30);
    assert!(rt; u128::from(second) <= passed);
    Ok(())
}

// Sends once the ports are free: another run of these tests may have them for a moment.
fn sent(rt: &HostRuntime, link: &mut UdpLink<'_, HostRuntime>, frame: &[u8]) -> Result<(), Fail> {
    for _ in 0..100 {
        if link.send(Node::Switch(0), Node::Replica(0), frame).is_ok() {
            return Ok(());
        }
        thread::sleep(rt, Duration::from_millis(50));
    }
    Err(Fail::new("the ports stay in use"))
}

#[test]
fn a_long_datagram_arrives_whole(rt: HostRuntime) -> Result<(), Fail> {
    let alloc = rt.alloc();
    let mut frame = Bytes::new(alloc);
    for i in 0..100 {
        frame.push(i)?;
        frame.append(b"the thirty-six bytes behind a number")?;
    }
    let mut link = UdpLink::new(&rt, alloc);
    let mut got = Bytes::new(alloc);
    sent(&rt, &mut link, frame.as_slice())?;
    let mut is_there = false;
    for _ in 0..1000 {
        if link.recv(Node::Replica(0), &mut got)? {
            is_there = true;
            break;
        }
    }
    assert!(rt; is_there);
    assert!(rt; got.as_slice() == frame.as_slice());
    assert_eq!(rt; link.recv(Node::Replica(0), &mut got), Ok(false));
    assert_eq!(rt; got.len(), 0);
    Ok(())
}

#[test]
fn a_port_in_use_is_a_fault(rt: HostRuntime) -> Result<(), Fail> {
    let alloc = rt.alloc();
    // Where this fails, the port is another's: in use all the same.
    let _held = UdpSocket::bind(&rt, "127.0.0.1:47014");
    let mut link = UdpLink::new(&rt, alloc);
    let mut got = Bytes::new(alloc);
    let (here, there) = (Node::Switch(14), Node::Switch(13));
    assert_eq!(rt; link.recv(here, &mut got), Err(LinkEnd::Failed));
    assert_eq!(rt; link.send(there, here, b"frame"), Err(LinkEnd::Failed));
    Ok(())
}

// An environment with these arguments.
#[derive(Drop)]
struct Arguments<'a> {
    words: &'a [Vec<u8>],
}

impl Env for Arguments<'_> {
    fn arg(&self, i: usize, buf: &mut [u8]) -> Result<usize, FillError> {
        let Some(word) = self.words.get(i) else {
            return Err(FillError::NotPresent);
        };
        if word.len() > buf.len() {
            return Err(FillError::TooLong);
        }
        for (slot, byte) in buf.iter_mut().zip(word) {
            *slot = *byte;
        }
        Ok(word.len())
    }

    fn var(&self, _name: &str, _buf: &mut [u8]) -> Result<usize, FillError> {
        Err(FillError::NotPresent)
    }

    fn var_at(&self, _i: usize, _buf: &mut [u8]) -> Result<usize, FillError> {
        Err(FillError::NotPresent)
    }
}

#[test]
fn words_are_any_bytes(rt: HostRuntime) -> Result<(), Fail> {
    let alloc = rt.alloc();
    let words = vec![in alloc;
        b"rp".to_vec(alloc)?,
        b"run".to_vec(alloc)?,
        Vec::new(alloc),
        b"\xff \x80".to_vec(alloc)?,
        vec![in alloc; b'x'; 200_000]?,
    ]?;
    let got = words_of(
        alloc,
        &ProcessCommandLine::new(&Arguments { words: &words }),
    )?;
    assert_eq!(rt; got.len(), 4);
    for (i, word) in words.iter().skip(1).enumerate() {
        let Some(found) = got.at(i as u64) else {
            return Err(Fail::new("a word is missing"));
        };
        assert!(rt; found.as_slice() == word.as_slice(), "word {i}");
    }
    // of the words in memory the same but the first
    let again = words_of(alloc, &got)?;
    assert_eq!(rt; again.len(), 3);
    Ok(())
}
