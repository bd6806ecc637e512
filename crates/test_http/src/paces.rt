//! A clock and two ends of a connection that pass the time by themselves: how long a server waits.

use crate::exchanges::{REPORT, serve};
use desk_http::{Connection, Limits, ServeFault, Served, drain_connection, serve_within};
use memory_desk::PlainDesk;
use std::alloc::Global;
use std::cell::Cell;
use std::io::{self, ErrorKind, Read, Write};
use std::test::Fail;
use std::time::{Clock, Duration};
use store_contract::Records;

// A call at a pace: so many bytes after each pause, the first after another, in milliseconds.
#[derive(Clone, Copy)]
struct Pace {
    first: u64,
    pause: u64,
    piece: usize,
}

// The paces of a client: it sends its request, takes its answer, and sends so many bytes more.
#[derive(Clone, Copy)]
struct Paces {
    sends: Pace,
    takes: Pace,
    more: usize,
    sends_more: Pace,
}

// A client at its paces, and the clock, which goes on where somebody waits, in milliseconds.
#[derive(Drop)]
struct Client {
    now: Cell<u64>,
    request: String,
    paces: Paces,
    // How many bytes were read and written, and the limits of the calls.
    read: Cell<usize>,
    written: Cell<usize>,
    read_limit: Cell<u64>,
    write_limit: Cell<u64>,
}

// How long a limit is, in milliseconds.
fn millis(limit: Duration) -> u64 {
    limit
        .as_secs()
        .saturating_mul(1_000)
        .saturating_add(u64::from(limit.subsec_millis()))
}

impl Client {
    fn new(request: String, paces: Paces) -> Client {
        Client {
            now: Cell::new(0),
            request,
            paces,
            read: Cell::new(0),
            written: Cell::new(0),
            read_limit: Cell::new(0),
            write_limit: Cell::new(0),
        }
    }

    // Waits so long, but no longer than the limit; whether that was long enough.
    fn waits(&self, pause: u64, limit: u64) -> bool {
        self.now
            .set(self.now.get().saturating_add(pause.min(limit)));
        pause <= limit
    }

    // Whether a call at a pace, after so many bytes, has waited long enough.
    fn comes(&self, pace: Pace, done: usize, limit: u64) -> bool {
        self.waits(if done == 0 { pace.first } else { pace.pause }, limit)
    }

    // What the client sends after so many bytes: how many more, and at which pace.
    fn sends(&self, done: usize) -> (usize, Pace) {
        let length = self.request.len();
        if done < length {
            return (length.saturating_sub(done), self.paces.sends);
        }
        let all = length.saturating_add(self.paces.more);
        (all.saturating_sub(done), self.paces.sends_more)
    }

    // Puts what is left of the request after so many bytes into a buffer, as far as it fits.
    fn put(&self, done: usize, buf: &mut [u8]) {
        let left = self.request.as_bytes().get(done..).unwrap_or(&[]);
        for (place, byte) in buf.iter_mut().zip(left) {
            *place = *byte;
        }
    }
}

impl Clock for Client {
    fn monotonic(&self) -> io::Result<Duration> {
        Ok(Duration::from_millis(self.now.get()))
    }

    fn since_1970(&self) -> io::Result<Duration> {
        Ok(Duration::from_millis(self.now.get()))
    }
}

impl Limits for &Client {
    fn limit_reads(&self, limit: Duration) -> io::Result<()> {
        self.read_limit.set(millis(limit));
        Ok(())
    }

    fn limit_writes(&self, limit: Duration) -> io::Result<()> {
        self.write_limit.set(millis(limit));
        Ok(())
    }

    fn end_writes(&self) -> io::Result<()> {
        Ok(())
    }
}

impl Read for &Client {
    fn read(&mut self, buf: &mut [u8]) -> io::Result<usize> {
        let done = self.read.get();
        let (count, pace) = self.sends(done);
        if count == 0 {
            return Ok(0);
        }
        if !self.comes(pace, done, self.read_limit.get()) {
            return Err(io::Error::from(ErrorKind::WouldBlock));
        }
        let len = count.min(buf.len()).min(pace.piece);
        self.put(done, buf);
        self.read.set(done.saturating_add(len));
        Ok(len)
    }
}

impl Write for &Client {
    fn write(&mut self, buf: &[u8]) -> io::Result<usize> {
        let done = self.written.get();
        if !self.comes(self.paces.takes, done, self.write_limit.get()) {
            return Err(io::Error::from(ErrorKind::WouldBlock));
        }
        let len = buf.len().min(self.paces.takes.piece);
        self.written.set(done.saturating_add(len));
        Ok(len)
    }

    fn flush(&mut self) -> io::Result<()> {
        Ok(())
    }
}

const AT_ONCE: Pace = Pace {
    first: 0,
    pause: 0,
    piece: usize::MAX,
};

// What came of serving a client.
#[derive(Clone, Copy, PartialEq, Eq)]
enum ServeEnd {
    Answered,
    Closed,
    ReadFault,
    WriteFault,
}

fn end_of(told: &Result<Served, ServeFault>) -> ServeEnd {
    match told {
        Ok(Served::Answered(_)) => ServeEnd::Answered,
        Ok(Served::Closed) => ServeEnd::Closed,
        Err(ServeFault::Read) => ServeEnd::ReadFault,
        Err(ServeFault::Write) => ServeEnd::WriteFault,
    }
}

// What came of serving a client and of draining its connection.
fn serve_client<S: Records>(alloc: Global, desk: &mut S, client: &Client) -> ServeEnd {
    let connection = Connection {
        reader: client,
        writer: client,
    };
    let (told, connection) = serve_within(client, alloc, desk, connection);
    drain_connection(client, &told, connection);
    end_of(&told)
}

// What came of a request at these paces: how it ended and when, and how many bugs there are then.
fn ends(alloc: Global, client: &Client) -> (ServeEnd, u64, u64) {
    let mut desk = PlainDesk::new(alloc, 1);
    let end = serve_client(alloc, &mut desk, client);
    let bugs = desk.next().unwrap_or(0).saturating_sub(1);
    (end, client.now.get(), bugs)
}

// The same of a report that is sent and whose answer is taken at these paces.
fn report_at(alloc: Global, sends: Pace, takes: Pace) -> Result<(ServeEnd, u64, u64), Fail> {
    let paces = Paces {
        sends,
        takes,
        more: 0,
        sends_more: AT_ONCE,
    };
    let client = Client::new(String::from_str(alloc, REPORT)?, paces);
    Ok(ends(alloc, &client))
}

// The first call waits so long, and no other waits.
fn late(first: u64) -> Pace {
    Pace { first, ..AT_ONCE }
}

// So many bytes after each pause, the first at once.
fn after_each(pause: u64, piece: usize) -> Pace {
    Pace {
        first: 0,
        pause,
        piece,
    }
}

// A request that stops in its body, after 60 bytes of 105.
fn stops(pause: u64) -> Pace {
    Pace {
        first: 500,
        pause,
        piece: 60,
    }
}

#[test]
fn a_report_has_so_long_to_come_and_its_answer_to_go(rt: HostRuntime) -> Result<(), Fail> {
    let cases = [
        // A client may be silent for a second.
        (late(1_000), AT_ONCE, (ServeEnd::Answered, 1_000, 1)),
        (late(1_001), AT_ONCE, (ServeEnd::ReadFault, 1_000, 0)),
        // A request has ten seconds.
        (stops(9_500), AT_ONCE, (ServeEnd::Answered, 10_000, 1)),
        (stops(9_501), AT_ONCE, (ServeEnd::ReadFault, 10_000, 0)),
        // Of 104 pauses the head, of 43 bytes, has 42.
        (after_each(96, 1), AT_ONCE, (ServeEnd::Answered, 9_984, 1)),
        (after_each(97, 1), AT_ONCE, (ServeEnd::ReadFault, 10_000, 0)),
        (
            after_each(300, 1),
            AT_ONCE,
            (ServeEnd::ReadFault, 10_000, 0),
        ),
        // A short answer has five seconds.
        (AT_ONCE, late(5_000), (ServeEnd::Answered, 5_000, 1)),
        (AT_ONCE, late(5_001), (ServeEnd::WriteFault, 5_000, 1)),
        // 103 bytes, and so 102 pauses.
        (AT_ONCE, after_each(49, 1), (ServeEnd::Answered, 4_998, 1)),
        (AT_ONCE, after_each(50, 1), (ServeEnd::WriteFault, 5_000, 1)),
    ];
    for (place, (sends, takes, ended)) in cases.iter().enumerate() {
        let told = report_at(rt.alloc(), *sends, *takes)?;
        assert!(rt; told == *ended, "{place}");
    }
    Ok(())
}

// A list of all bugs.
const LIST: &str = "GET /list/foo/1 HTTP/1.1\r\n\r\n";

// A report whose title has 200 bytes, so that its row of a list has 229.
fn long_report(alloc: Global) -> Result<String, Fail> {
    let mut request = String::from_str(
        alloc,
        "POST /bugs HTTP/1.1\r\nContent-Length: 261\r\n\r\n",
    )?;
    request.push_str("{\"from\":\"ann\",\"package\":\"foo\",\"severity\":\"normal\",\"title\":\"")?;
    for _ in 0..200 {
        request.push_str("x")?;
    }
    request.push_str("\"}")?;
    Ok(request)
}

// A desk with so many bugs, each of which has a row of 229 bytes in a list.
fn full_desk(alloc: Global, bugs: usize) -> Result<PlainDesk, Fail> {
    let mut desk = PlainDesk::new(alloc, 1);
    let request = long_report(alloc)?;
    for _ in 0..bugs {
        let mut written = Vec::new(alloc);
        serve(alloc, &mut desk, &request, &mut written);
    }
    Ok(desk)
}

// What comes of an answer: how it ends, when, and how many bytes of it are taken.
type Taken = (ServeEnd, u64, usize);

// What comes of a list of all bugs that is taken at this pace.
fn list_at(alloc: Global, desk: &mut PlainDesk, takes: Pace) -> Result<Taken, Fail> {
    let paces = Paces {
        sends: AT_ONCE,
        takes,
        more: 0,
        sends_more: AT_ONCE,
    };
    let client = Client::new(String::from_str(alloc, LIST)?, paces);
    let end = serve_client(alloc, desk, &client);
    Ok((end, client.now.get(), client.written.get()))
}

// The same of lists of so many bugs, one after another.
fn lists_at(alloc: Global, bugs: usize, takes: &[Pace]) -> Result<Vec<Taken>, Fail> {
    let mut desk = full_desk(alloc, bugs)?;
    let mut all = Vec::new(alloc);
    for pace in takes {
        all.push(list_at(alloc, &mut desk, *pace)?)?;
    }
    Ok(all)
}

// 18,000 bugs make 4,122,028 bytes, after a head of 104, which are 1,007 pieces of 4,096 bytes; the
// first comes at once, and each other after a pause.
// At pauses of 8 milliseconds 626 come in 5 seconds, more than 2,000,000 bytes, 876 in 7, more than
// 3,000,000, and 1,001 in 8, more than 4,000,000.
// At pauses of 20 milliseconds 251 come in 5 seconds, more than 1,000,000 bytes, and 301 in 6, less
// than 2,000,000.
// At pauses of 21 milliseconds 239 come in 5 seconds, less than 1,000,000 bytes.
#[test]
fn an_answer_has_a_second_more_for_each_million_bytes_that_are_taken(
    rt: HostRuntime,
) -> Result<(), Fail> {
    let paces = [
        late(4_999),
        late(5_001),
        after_each(2, 4_096),
        after_each(8, 4_096),
        after_each(20, 4_096),
        after_each(21, 4_096),
    ];
    let taken = lists_at(rt.alloc(), 18_000, &paces)?;
    assert!(rt;
        taken[..]
            == [
                (ServeEnd::Answered, 4_999, 4_122_132),
                (ServeEnd::WriteFault, 5_000, 0),
                (ServeEnd::Answered, 2_012, 4_122_132),
                (ServeEnd::Answered, 8_048, 4_122_132),
                (ServeEnd::WriteFault, 6_000, 1_232_896),
                (ServeEnd::WriteFault, 5_000, 978_944)
            ]
    );
    Ok(())
}

// How many bytes are read of those that a client sends after its request, at this pace, and how
// long that takes.
fn drained(alloc: Global, more: usize, sends_more: Pace) -> Result<(usize, u64), Fail> {
    let paces = Paces {
        sends: AT_ONCE,
        takes: AT_ONCE,
        more,
        sends_more,
    };
    let client = Client::new(String::from_str(alloc, REPORT)?, paces);
    ends(alloc, &client);
    Ok((
        client.read.get().saturating_sub(REPORT.len()),
        client.now.get(),
    ))
}

// How many bytes a client sends after its request, in which pieces and after which pauses, and then
// how many of them are read, and how long that takes.
const DRAINS: [(usize, usize, u64, (usize, u64)); 8] = [
    (100_000, usize::MAX, 0, (100_000, 0)),
    (16_777_216, usize::MAX, 0, (16_777_216, 0)),
    (16_777_217, usize::MAX, 0, (16_777_216, 0)),
    (100, 10, 1_000, (40, 4_000)),
    (100, 10, 900, (40, 4_000)),
    (100, 10, 1_001, (0, 1_000)),
    (100, 10, 400, (100, 4_000)),
    // The pieces may be small.
    (3_000, 1, 0, (3_000, 0)),
];

#[test]
fn what_a_connection_leaves_unread_is_drained(rt: HostRuntime) -> Result<(), Fail> {
    for (more, piece, pause, read) in DRAINS.iter() {
        let told = drained(rt.alloc(), *more, after_each(*pause, *piece))?;
        assert!(rt; told == *read, "{more} {piece} {pause}");
    }
    Ok(())
}
