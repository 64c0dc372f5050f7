//! Rows of answers to a check: one check over one stream, and the line that says what came.
use crate::check_tables::{Asked, Asks, Cut, DEFAULT, MadeStream, Where};
use crate::files::file;
use crate::streams::{Sink, Source};
use http::{Method, Request, StatusCode};
use lb_health_core::error::CheckError;
use lb_health_http::{AcceptStatus, check_over, request_for};
use lb_stream::counted::Counted;
use std::alloc::Global;
use std::io::{self, Error, ErrorKind};
use std::rt::Files;

// How many bytes the request of a row has: `GET / HTTP/1.1`, `host: h`, and an empty line.
const REQUEST_LENGTH: usize = 27;

/// Returns whether a check of the stream in a file gives the line in its file of the answer.
pub(crate) fn filed_agrees<R: Files + AllocGlobal>(
    rt: &R,
    name: &str,
    asked: Asked,
) -> io::Result<bool> {
    let stream = file(rt, name, "stream")?;
    let line = file(rt, name, "answer")?;
    line_agrees(rt.alloc(), asked, stream.as_slice(), line.as_slice())
}

/// Returns whether a default check of a stream that is made gives the line of its row.
pub(crate) fn made_agrees(alloc: Global, row: &MadeStream) -> io::Result<bool> {
    let stream = row.stream.bytes(alloc)?;
    line_agrees(alloc, DEFAULT, stream.as_slice(), row.line)
}

/// Returns whether a default check of the row's message gives the fault of each cut, and none where nothing is cut.
pub(crate) fn cut_agrees<R: Files + AllocGlobal>(rt: &R, row: &Cut) -> io::Result<bool> {
    let stream = file(rt, row.message, "stream")?;
    let message = stream.as_slice();
    each_cut_agrees(rt.alloc(), &message[..message.len().saturating_sub(1)], row)
}

// Whether a check is answered so after each number of bytes.
fn each_cut_agrees(alloc: Global, message: &[u8], cut: &Cut) -> io::Result<bool> {
    let whole = match cut.at {
        Where::End | Where::Read => message.len(),
        Where::Write => REQUEST_LENGTH,
    };
    let mut all = true;
    for length in 0..=whole {
        let wanted = if length < whole {
            Err(cut.fault)
        } else {
            Ok(())
        };
        all &= cut_check_agrees(alloc, message, cut.at, length, wanted)?;
    }
    Ok(all)
}

// Whether a check that is cut after so many bytes answers so. Where the message was cut, all that is left of it has to be read.
fn cut_check_agrees(
    alloc: Global,
    message: &[u8],
    at: Where,
    length: usize,
    wanted: Result<(), CheckError>,
) -> io::Result<bool> {
    let mut sink = Sink::new(alloc);
    let mut source = Source {
        left: message,
        fails: false,
    };
    match at {
        Where::End | Where::Read => {
            source.left = message.get(..length).unwrap_or(message);
            source.fails = matches!(&at, Where::Read);
        }
        Where::Write => sink.room = length,
    }
    let (outcome, unread) = checked(alloc, DEFAULT, source, sink)?;
    Ok(outcome == wanted && (unread == 0 || matches!(&at, Where::Write)))
}

// Whether a check of the stream gives that line.
fn line_agrees(alloc: Global, asked: Asked, stream: &[u8], line: &[u8]) -> io::Result<bool> {
    let source = Source {
        left: stream,
        fails: false,
    };
    let (outcome, unread) = checked(alloc, asked, source, Sink::new(alloc))?;
    let told = match outcome {
        Ok(()) => format!(in alloc; "ok unread {unread}\n")?,
        Err(fault) => format!(in alloc; "{fault} unread {unread}\n")?,
    };
    Ok(told.as_bytes() == line)
}

// What a check over these streams answers, and how many bytes it leaves. What owns the request makes one call.
fn checked(
    alloc: Global,
    asked: Asked,
    source: Source<'_>,
    sink: Sink,
) -> io::Result<(Result<(), CheckError>, usize)> {
    let method = match asked.asks {
        Asks::Get => Method::GET,
        Asks::Head => Method::HEAD,
    };
    match request_for(alloc, method, "h") {
        Ok(req) => Ok(checked_by(alloc, asked, &req, source, sink)),
        Err(_) => Err(Error::from(ErrorKind::OutOfMemory)),
    }
}

// The same of a check by that request.
fn checked_by(
    alloc: Global,
    asked: Asked,
    req: &Request<()>,
    source: Source<'_>,
    sink: Sink,
) -> (Result<(), CheckError>, usize) {
    let mut reader = Counted::new(source);
    let mut writer = Counted::new(sink);
    let accept = match asked.accept {
        Some(status) => StatusCode::from_u16(status).ok().map(AcceptStatus),
        None => None,
    };
    let outcome = check_over(
        alloc,
        req,
        &accept,
        asked.max_body_bytes,
        &mut reader,
        &mut writer,
    );
    (outcome, reader.into_inner().left.len())
}
