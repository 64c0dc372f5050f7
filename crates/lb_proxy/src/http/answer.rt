//! The proxy's own answers, without a body.
ghost use Rattle.std.specs.Prelude.{◌≡◌, ◌++◌, OnOk};
ghost use Rattle.lb_proxy.specs.Http.Write.{fault_line, no_content, spoken, short_text};

use crate::http::fault::Fault;
use std::alloc::AllocError;

// The start line of the answer.
fn status_line(fault: Fault) -> &'static [u8]
    ensures { result.now ≡ fault_line fault }
{
    match fault {
        Fault::BadRequest => b"HTTP/1.1 400 Bad Request\r\n",
        Fault::RequestTimeout => b"HTTP/1.1 408 Request Timeout\r\n",
        Fault::HeadTooLarge => b"HTTP/1.1 431 Request Header Fields Too Large\r\n",
        Fault::NotImplemented => b"HTTP/1.1 501 Not Implemented\r\n",
        Fault::BadGateway => b"HTTP/1.1 502 Bad Gateway\r\n",
        Fault::Unavailable => b"HTTP/1.1 503 Service Unavailable\r\n",
        Fault::GatewayTimeout => b"HTTP/1.1 504 Gateway Timeout\r\n",
        Fault::VersionNotSupported => b"HTTP/1.1 505 HTTP Version Not Supported\r\n",
    }
}

// That there is no body.
#[tactic(auto, unfolding(crate::specs::Http::Write::no_content))]
fn no_content() -> &'static [u8]
    ensures { result.now ≡ no_content }
{
    b"Content-Length: 0\r\n"
}

// What the answer says of the connection.
fn connection_line(keeps: bool) -> &'static [u8]
    ensures { result.now ≡ spoken keeps }
{
    if keeps {
        b"Connection: keep-alive\r\n"
    } else {
        b"Connection: close\r\n"
    }
}

/// Appends the answer that says the fault; `keeps` says whether the client's connection goes on behind it.
///
/// After an `Err` a part of it may have been appended.
pub fn short_answer(fault: Fault, keeps: bool, out: &mut Vec<u8>) -> Result<(), AllocError>
    ensures { OnOk result (out.new.items ≡ out.old.items ++ short_text fault keeps) }
{
    out.extend_from_slice(status_line(fault))?;
    out.extend_from_slice(no_content())?;
    out.extend_from_slice(connection_line(keeps))?;
    out.extend_from_slice(b"\r\n")
}
