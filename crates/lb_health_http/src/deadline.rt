//! The limit on a whole check: by when it has to be over, and connections whose calls wait no longer than that.
ghost use Rattle.std.specs.Prelude.{◌≡◌, ◌≢◌, ◌↔◌, ◌*◌, ◌^◌, ◌-◌, ◌<◌, ◌≤◌, max, Some, None, Err, IfSome, IsSomeAnd, IfOk};
ghost use Rattle.std.specs.Prelude.{IsErr, OnErr, option_map};
ghost use Rattle.std.specs.Duration.{as_nanos};
ghost use Rattle.lb_health_http.specs.Limits.{least_limit, left_at};

use crate::peer::{HttpPeer, duration_of};
use lb_health_core::error::CheckError;
use std::io::{self, Error, ErrorKind, Read, Write};
use std::net::TcpStream;
use std::os::unix::net::UnixStream;
use std::rt::Clock;
use std::time::{Duration, Instant};

/// Returns the smaller of two limits, of which each may be missing.
pub(crate) fn least_of(one: Option<u128>, other: Option<u128>) -> Option<u128>
    ensures { result ≡ least_limit one other }
{
    match (one, other) {
        (Some(one), Some(other)) => Some(one.min(other)),
        (Some(one), None) => Some(one),
        (None, other) => other,
    }
}

/// How long a check may take as a whole, and since when.
#[derive(Clone, Copy)]
pub(crate) struct Deadline {
    start: Instant,
    // In nanoseconds, at least 1.
    limit: u128,
}

impl Deadline {
    /// Returns the deadline of a check that begins now, with that limit; a limit of 0 acts as 1. Without a limit there is none, and the
    /// clock isn't read.
    ///
    /// Fault: `Connect`, where the clock can't be read.
    pub(crate) fn begin<C: Clock>(
        clock: &C,
        limit: Option<u128>,
    ) -> Result<Option<Deadline>, CheckError>
        ensures begun { IfOk result (λ deadline. option_map (λ d. d.limit) deadline ≡ option_map (λ nanos. max nanos 1) limit) }
        ensures refused { OnErr result (result ≡ Err CheckError.Connect) }
    {
        let Some(limit) = limit else {
            return Ok(None);
        };
        match Instant::now(clock) {
            Ok(start) => Ok(Some(Deadline {
                start,
                limit: limit.max(1),
            })),
            Err(_) => Err(CheckError::Connect),
        }
    }

    /// Returns how many nanoseconds are left at that moment.
    fn left_at(self, now: Instant) -> u128
        ensures { result ≡ left_at self now }
    {
        self.limit
            .saturating_sub(now.duration_since(self.start).as_nanos())
    }

    /// Returns how long a call may wait at that moment, whose own limit is given: the smaller of that limit and of what is left.
    ///
    /// Refused `TimedOut` where nothing is left.
    fn limit_at(self, now: Instant, own: Option<u128>) -> io::Result<Option<Duration>>
        ensures over { IsErr result ↔ left_at self now ≡ 0 }
        ensures there { IfOk result (λ limit. limit ≢ None) }
        ensures some { IfOk result (λ limit. IfSome (least_limit own (Some (left_at self now)))
            (λ nanos. nanos < 2 ^ 64 * 1000000000 → IsSomeAnd limit (λ d. as_nanos d ≡ max nanos 1))) }
        ensures above { IfOk result (λ limit. IfSome (least_limit own (Some (left_at self now)))
            (λ nanos. 2 ^ 64 * 1000000000 ≤ nanos
            → IsSomeAnd limit (λ d. (as_nanos d ≤ nanos) × ((2 ^ 64 - 1) * 1000000000 ≤ as_nanos d)))) }
    {
        let left = self.left_at(now);
        if left == 0 {
            return Err(Error::from(ErrorKind::TimedOut));
        }
        Ok(duration_of(least_of(own, Some(left))))
    }
}

/// A connection whose limits can be set.
pub(crate) trait Limited {
    /// Sets how long a read waits.
    fn limit_reads(&self, limit: Option<Duration>) -> io::Result<()>;

    /// Sets how long a write waits.
    fn limit_writes(&self, limit: Option<Duration>) -> io::Result<()>;
}

impl Limited for &TcpStream {
    fn limit_reads(&self, limit: Option<Duration>) -> io::Result<()> {
        self.set_read_timeout(limit)
    }

    fn limit_writes(&self, limit: Option<Duration>) -> io::Result<()> {
        self.set_write_timeout(limit)
    }
}

impl Limited for &UnixStream {
    fn limit_reads(&self, limit: Option<Duration>) -> io::Result<()> {
        self.set_read_timeout(limit)
    }

    fn limit_writes(&self, limit: Option<Duration>) -> io::Result<()> {
        self.set_write_timeout(limit)
    }
}

/// A connection whose calls wait no longer than the check may take.
#[derive(Drop)]
pub(crate) struct Timed<'a, C, S> {
    clock: &'a C,
    peer: HttpPeer,
    deadline: Option<Deadline>,
    stream: S,
}

impl<'a, C: Clock, S: Limited + Drop> Timed<'a, C, S> {
    /// Returns the connection with the peer's limits set.
    ///
    /// Fault: `Connect`, where a limit can't be set.
    pub(crate) fn new(
        clock: &'a C,
        peer: HttpPeer,
        deadline: Option<Deadline>,
        stream: S,
    ) -> Result<Timed<'a, C, S>, CheckError>
        ensures { OnErr result (result ≡ Err CheckError.Connect) }
    {
        let (reads, writes) = (
            duration_of(peer.read_timeout),
            duration_of(peer.write_timeout),
        );
        if stream.limit_reads(reads).is_err() || stream.limit_writes(writes).is_err() {
            return Err(CheckError::Connect);
        }
        Ok(Timed {
            clock,
            peer,
            deadline,
            stream,
        })
    }
}

impl<C: Clock, S: Limited + Read> Read for Timed<'_, C, S> {
    ghost remaining = { λ s. S.remaining s.stream };

    fn read(&mut self, buf: &mut [u8]) -> io::Result<usize> {
        if let Some(deadline) = self.deadline {
            let now = Instant::now(self.clock)?;
            self.stream
                .limit_reads(deadline.limit_at(now, self.peer.read_timeout)?)?;
        }
        self.stream.read(buf)
    }
}

impl<C: Clock, S: Limited + Write> Write for Timed<'_, C, S> {
    ghost contents = { λ s. S.contents s.stream };

    fn write(&mut self, buf: &[u8]) -> io::Result<usize> {
        if let Some(deadline) = self.deadline {
            let now = Instant::now(self.clock)?;
            self.stream
                .limit_writes(deadline.limit_at(now, self.peer.write_timeout)?)?;
        }
        self.stream.write(buf)
    }

    fn flush(&mut self) -> io::Result<()> {
        self.stream.flush()
    }
}
