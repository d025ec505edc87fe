//! Scripts from readers, and to writers, that fail, give little at a time or have no end.
use std::alloc::Global;
use std::cell::Cell;
use std::io;
use std::io::{Read, Write};
use txn_script::script::run_script;

/// A reader whose reads fail once its bytes are read.
#[derive(Drop)]
struct Broken<'a>(&'a [u8]);

impl Read for Broken<'_> {
    fn read(&mut self, buf: &mut [u8]) -> io::Result<usize> {
        if self.0.is_empty() {
            return Err(io::Error::from(io::ErrorKind::Other));
        }
        self.0.read(buf)
    }
}

/// A reader that gives one byte at a time, and is interrupted before each.
#[derive(Drop)]
struct Slow<'a> {
    bytes: &'a [u8],
    interrupted: bool,
}

impl Read for Slow<'_> {
    fn read(&mut self, buf: &mut [u8]) -> io::Result<usize> {
        self.interrupted = !self.interrupted;
        if self.interrupted {
            return Err(io::Error::from(io::ErrorKind::Interrupted));
        }
        if buf.is_empty() {
            return Ok(0);
        }
        self.bytes.read(&mut buf[..1])
    }
}

/// A reader of some bytes, and then of others again and again. It counts the bytes that it gave.
#[derive(Drop)]
struct Endless<'a> {
    first: &'a [u8],
    again: &'a [u8],
    given: &'a Cell<u64>,
}

impl Read for Endless<'_> {
    fn read(&mut self, buf: &mut [u8]) -> io::Result<usize> {
        let mut again = self.again;
        let count = if self.first.is_empty() {
            again.read(buf)?
        } else {
            self.first.read(buf)?
        };
        self.given
            .set(self.given.get().saturating_add(count as u64));
        Ok(count)
    }
}

/// A writer with room for so many bytes, whose writes then fail. A flush fails where it is told to.
#[derive(Drop)]
struct Full {
    room: usize,
    fails_flush: bool,
}

impl Write for Full {
    fn write(&mut self, buf: &[u8]) -> io::Result<usize> {
        if buf.len() > self.room {
            return Err(io::Error::from(io::ErrorKind::Other));
        }
        self.room -= buf.len();
        Ok(buf.len())
    }

    fn flush(&mut self) -> io::Result<()> {
        if self.fails_flush {
            return Err(io::Error::from(io::ErrorKind::Other));
        }
        Ok(())
    }
}

/// Whether a script ends with this status, and writes this.
fn ends_so<R: Read + Drop>(alloc: Global, reader: R, status: u8, out: &str, err: &str) -> bool {
    let mut wrote = Vec::new(alloc);
    let mut said = Vec::new(alloc);
    let ended = run_script(alloc, reader, &mut wrote, &mut said);
    ended == status && wrote.as_slice() == out.as_bytes() && said.as_slice() == err.as_bytes()
}

/// Scripts of a slow reader: the status, the output and the error.
const SLOWLY: [(&str, u8, &str, &str); 2] = [
    (
        "clients 2\nbegin 1 write - 0:1\nrun 1\nbegin 2 read\nrun 2\n",
        0,
        "op 1: wrote 1\nop 2: read 1 0:1\nentry 1 0:1\nboundary 0\nerased none\n",
        "",
    ),
    (
        "# a comment\n\nclients 1\n# another\nserve 1 \n",
        2,
        "",
        "line 5: bad line\n",
    ),
];

/// Scripts of a reader that fails after them, and what is printed before that.
const FAILING: [(&str, &str); 5] = [
    ("", ""),
    ("# no", ""),
    ("clients 1\nserve 1\n", "fault 1 UnknownNumber\n"),
    ("clients 1\nserve 1\nser", "fault 1 UnknownNumber\n"),
    ("clients 1\nserve 1\n# no", "fault 1 UnknownNumber\n"),
];

#[test]
fn readers_may_be_slow_or_fail(rt: HostRuntime) {
    for (script, status, out, err) in SLOWLY {
        let reader = Slow {
            bytes: script.as_bytes(),
            interrupted: false,
        };
        assert!(rt; ends_so(rt.alloc(), reader, status, out, err), "{script:?}");
    }
    for (script, out) in FAILING {
        let reader = Broken(script.as_bytes());
        assert!(rt;
            ends_so(rt.alloc(), reader, 1, out, "read failed\n"),
            "{script:?}"
        );
    }
}

/// How many bytes of a script are read whose third line has no end, where it ends as it should.
fn given_to_a_line(alloc: Global) -> Option<u64> {
    let given = Cell::new(0);
    let reader = Endless {
        first: b"clients 1\nserve 1\n",
        again: b"1",
        given: &given,
    };
    let out = "fault 1 UnknownNumber\n";
    ends_so(alloc, reader, 2, out, "line 3: bad line\n").then_some(given.get())
}

/// The status of a script whose output has so much room, where it says this of its end.
fn ended<R: Read + Drop>(
    alloc: Global,
    reader: R,
    room: usize,
    fails_flush: bool,
    err: &str,
) -> Option<u8> {
    let mut said = Vec::new(alloc);
    let mut out = Full { room, fails_flush };
    let status = run_script(alloc, reader, &mut out, &mut said);
    (said.as_slice() == err.as_bytes()).then_some(status)
}

/// The status of a script without end whose output is closed, and how many bytes of it are read.
fn given_to_a_closed_output(alloc: Global) -> (Option<u8>, u64) {
    let given = Cell::new(0);
    let reader = Endless {
        first: b"clients 1\n",
        again: b"serve 1\n",
        given: &given,
    };
    let status = ended(alloc, reader, 0, false, "write failed\n");
    (status, given.get())
}

#[test]
fn no_more_is_read_than_is_needed(rt: HostRuntime) {
    // The two lines, and one byte more than a line may have.
    assert_eq!(rt; given_to_a_line(rt.alloc()), Some(18 + 257));
    // Each of the lines prints 22 bytes, and what was printed is written from 8192 on.
    let want = (Some(1), 10 + 8 * 373);
    assert_eq!(rt; given_to_a_closed_output(rt.alloc()), want);
}

/// How many bytes the script below prints.
const ALL: usize = 45;

const SCRIPT: &[u8] = b"clients 1\nserve 1\n";

/// The room of a writer, whether its flush fails, and the status and the error then.
const WRITERS: [(usize, bool, u8, &str); 4] = [
    (ALL, false, 0, ""),
    (ALL - 1, false, 1, "write failed\n"),
    (0, false, 1, "write failed\n"),
    (ALL, true, 1, "write failed\n"),
];

/// The status where the refusal cannot be written either.
fn ended_deaf(alloc: Global, room: usize, fails_flush: bool) -> u8 {
    let mut out = Full { room, fails_flush };
    let mut deaf = Full {
        room: 0,
        fails_flush,
    };
    run_script(alloc, SCRIPT, &mut out, &mut deaf)
}

#[test]
fn a_failed_write_ends_the_script(rt: HostRuntime) {
    for (room, fails_flush, status, err) in WRITERS {
        let heard = ended(rt.alloc(), SCRIPT, room, fails_flush, err);
        assert_eq!(rt; heard, Some(status), "at room {room}");
        assert_eq!(rt; ended_deaf(rt.alloc(), room, fails_flush), status);
    }
}
