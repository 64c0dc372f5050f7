//! A check of an answer that lies in a file or in memory: what the check says of it, and how many bytes it left unread.
ghost use Rattle.std.specs.Prelude.{◌≡◌, ◌≢◌, ◌⊎◌, Err, [], true, false, is_some};
ghost use Rattle.http.specs.Request.{head_of};
ghost use Rattle.lb_stream.specs.Counted.{inner_of, has_failed};
ghost use Rattle.lb_stream.specs.Stream.{OnBytes, Takes};
ghost use Rattle.lb_health_http.specs.Check.{accepts_of};
ghost use Rattle.lb_health_http.specs.Request.{asks_for_head};
ghost use Rattle.lbcheck.specs.Replay.{ReplayOutcome, GoodPasses};

use http::Request;
use lb_health_core::error::CheckError;
use lb_health_http::{Validate, check_over};
use lb_stream::counted::Counted;
use std::alloc::Global;
use std::io::{self, Read};

/// What the check said, and how many bytes it left unread.
#[derive(Clone, Copy)]
pub(crate) struct Replayed {
    pub outcome: Result<(), CheckError>,
    pub unread: u64,
}

// Reads to the end of the stream, or to a failed read, and counts the bytes.
fn count_rest<R: Read>(reader: &mut Counted<R>) -> u64
    ensures counted { OnBytes (R.remaining (inner_of reader.old)) (R.remaining (inner_of reader.new)) (Takes result) }
    ensures whole { has_failed reader.new ≡ false → OnBytes (R.remaining (inner_of reader.old)) (R.remaining (inner_of reader.new))
        (λ stream rest. (rest ≡ []) ⊎ (result ≡ u64.MAX)) }
    ensures failed { has_failed reader.old ≡ true → has_failed reader.new ≡ true }
{
    let mut count: u64 = 0;
    while count < u64::MAX {
        match reader.skip_some(u64::MAX - count) {
            Ok(0) => return count,
            Ok(some) => count += some,
            Err(_) => return count,
        }
    }
    count
}

/// Checks the answer that the reader gives, as one to that request, and counts the bytes behind what the check read: all of
/// them, up to the end of the stream or a failed read, 18446744073709551615 at most. The request goes nowhere.
///
/// The caller owes a reader of which no call has failed yet.
pub(crate) fn replay<V: Validate, R: Read>(
    alloc: Global,
    req: &Request<()>,
    validator: &Option<V>,
    max_body_bytes: u64,
    reader: &mut Counted<R>,
) -> Replayed
    requires { has_failed reader.old ≡ false }
    ensures outcome { result.outcome ≢ Err CheckError.Write
        → OnBytes (R.remaining (inner_of reader.old)) (R.remaining (inner_of reader.new))
        (ReplayOutcome (asks_for_head (head_of req.now)) max_body_bytes (is_some validator.now) (accepts_of V.accepts validator.now)
        result.outcome result.unread) }
    ensures only { OnBytes (R.remaining (inner_of reader.old)) (R.remaining (inner_of reader.new))
        (GoodPasses (asks_for_head (head_of req.now)) max_body_bytes (accepts_of V.accepts validator.now) result.outcome) }
    ensures whole { has_failed reader.new ≡ false → OnBytes (R.remaining (inner_of reader.old)) (R.remaining (inner_of reader.new))
        (λ stream end. (end ≡ []) ⊎ (result.unread ≡ u64.MAX)) }
    ensures read { result.outcome ≡ Err CheckError.Read → has_failed reader.new ≡ true }
{
    let mut writer = Counted::new(io::sink());
    let outcome = check_over(alloc, req, validator, max_body_bytes, reader, &mut writer);
    let unread = count_rest(reader);
    Replayed { outcome, unread }
}
