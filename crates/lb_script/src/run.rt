//! Runs a whole script: one answer for each line, and one more line where it ends early. The text is that of a world's run, whatever the
//! reader and the writer are.
ghost use Rattle.std.specs.Prelude.{◌≡◌, ℕ, [], ◌++◌, false, true, codes, OnOk, OnErr, IfSome, is_none};
ghost use Rattle.std.specs.Io.KnownBytes.{Appends};
ghost use Rattle.lb_world.specs.Meanings.{meaning_of};
ghost use Rattle.lb_world.specs.Stands.{Stands};
ghost use Rattle.lb_stream.specs.Counted.{inner_of, has_failed, is_flushed};
ghost use Rattle.lb_stream.specs.Stream.{AppendsFront};
ghost use Rattle.lb_script.specs.Internal.Session.{end_text, end_status};
ghost use Rattle.lb_script.specs.Output.{Wrote, WroteFront};
ghost use Rattle.lb_script.specs.Texts.{error_text};

use crate::error::ScriptError;
use crate::kinds::{Chosen, Kind};
use crate::session::{LineTurn, Session};
use itoa::Buffer;
use lb_select_base::walk::BackendSelection;
use lb_stream::counted::Counted;
use std::alloc::Global;
use std::io;
use std::io::{Read, Write};

/// Answers each line of the reader's script on the writer, from a world that is empty at first, and returns the status.
///
/// The status is 0, or 1 where an `error` line ended the script or a write failed. A line ends the script with `error`, its number from 1
/// and a name: `BadLine` where it is none that a script may have there, `LineTooLong` where it has more than 16777216 bytes, `OutOfMemory`
/// where memory was refused at it, and `Read` where a read failed before the line was whole; the whole lines before it are answered then.
/// Nothing is read after that. Where a write failed, what was written is a beginning of such a text. Answers are flushed before each read
/// and at the end, so a peer that waits for an answer before it sends more has it.
pub fn run_script<R, W>(alloc: Global, reader: &mut Counted<R>, writer: &mut Counted<W>) -> u8
where
    R: Read,
    W: Write,
    requires fresh_reader { has_failed reader.old ≡ false }
    requires fresh_writer { has_failed writer.old ≡ false }
    ensures whole { has_failed writer.new ≡ false → IfSome (R.remaining (inner_of reader.old)) (λ script.
        Wrote (meaning_of ⟦<Chosen as BackendSelection>⟧) (has_failed reader.new) script (R.remaining (inner_of reader.new))
        (W.contents (inner_of writer.old)) (W.contents (inner_of writer.new)) result) }
    ensures part { has_failed writer.new ≡ true → IfSome (R.remaining (inner_of reader.old)) (λ script.
        WroteFront (meaning_of ⟦<Chosen as BackendSelection>⟧) (has_failed reader.new) script (R.remaining (inner_of reader.new))
        (W.contents (inner_of writer.old)) (W.contents (inner_of writer.new))) }
    ensures failed { has_failed writer.new ≡ true → result ≡ 1 }
    ensures flushed { has_failed writer.new ≡ false → is_flushed writer.new ≡ true }
{
    run_script_with::<Chosen, R, W>(alloc, reader, writer)
}

/// Answers each line as `run_script` does, over any selector that is configured by a kind.
pub fn run_script_with<S, R, W>(
    alloc: Global,
    reader: &mut Counted<R>,
    writer: &mut Counted<W>,
) -> u8
where
    S: BackendSelection<Config = Kind>,
    R: Read,
    W: Write,
    requires fresh_reader { has_failed reader.old ≡ false }
    requires fresh_writer { has_failed writer.old ≡ false }
    ensures whole { has_failed writer.new ≡ false → IfSome (R.remaining (inner_of reader.old)) (λ script.
        Wrote (meaning_of S.BackendSelection) (has_failed reader.new) script (R.remaining (inner_of reader.new))
        (W.contents (inner_of writer.old)) (W.contents (inner_of writer.new)) result) }
    ensures part { has_failed writer.new ≡ true → IfSome (R.remaining (inner_of reader.old)) (λ script.
        WroteFront (meaning_of S.BackendSelection) (has_failed reader.new) script (R.remaining (inner_of reader.new))
        (W.contents (inner_of writer.old)) (W.contents (inner_of writer.new))) }
    ensures failed { has_failed writer.new ≡ true → result ≡ 1 }
    ensures flushed { has_failed writer.new ≡ false → is_flushed writer.new ≡ true }
{
    match answer_lines::<S, R, W>(alloc, reader, writer) {
        Some(status) => match writer.flush() {
            Ok(()) => status,
            Err(_) => 1,
        },
        None => 1,
    }
}

// Answers each line, without a flush at the end. `None` where the writer failed.
fn answer_lines<S, R, W>(
    alloc: Global,
    reader: &mut Counted<R>,
    writer: &mut Counted<W>,
) -> Option<u8>
where
    S: BackendSelection<Config = Kind>,
    R: Read,
    W: Write,
    requires fresh_reader { has_failed reader.old ≡ false }
    requires fresh_writer { has_failed writer.old ≡ false }
    ensures some { IfSome result (λ status. IfSome (R.remaining (inner_of reader.old)) (λ script.
        Wrote (meaning_of S.BackendSelection) (has_failed reader.new) script (R.remaining (inner_of reader.new))
        (W.contents (inner_of writer.old)) (W.contents (inner_of writer.new)) status)) }
    ensures none { result ≡ None → IfSome (R.remaining (inner_of reader.old)) (λ script.
        WroteFront (meaning_of S.BackendSelection) (has_failed reader.new) script (R.remaining (inner_of reader.new))
        (W.contents (inner_of writer.old)) (W.contents (inner_of writer.new))) }
    ensures writer_failed { has_failed writer.new ≡ is_none result }
{
    let mut session = Session::<S>::new(alloc);
    take_turns(alloc, &mut session, reader, writer)
}

// Takes turns of a session that is new, until one ends the script. `None` where the writer failed.
fn take_turns<S, R, W>(
    alloc: Global,
    session: &mut Session<S>,
    reader: &mut Counted<R>,
    writer: &mut Counted<W>,
) -> Option<u8>
where
    S: BackendSelection<Config = Kind>,
    R: Read,
    W: Write,
    requires stands { Stands (meaning_of S.BackendSelection) session.old.world [] }
    requires ahead { session.old.ahead ≡ [] }
    requires waiting { session.old.waiting.items ≡ [] }
    requires fresh_reader { has_failed reader.old ≡ false }
    requires fresh_writer { has_failed writer.old ≡ false }
    ensures some { IfSome result (λ status. IfSome (R.remaining (inner_of reader.old)) (λ script.
        Wrote (meaning_of S.BackendSelection) (has_failed reader.new) script (R.remaining (inner_of reader.new))
        (W.contents (inner_of writer.old)) (W.contents (inner_of writer.new)) status)) }
    ensures none { result ≡ None → IfSome (R.remaining (inner_of reader.old)) (λ script.
        WroteFront (meaning_of S.BackendSelection) (has_failed reader.new) script (R.remaining (inner_of reader.new))
        (W.contents (inner_of writer.old)) (W.contents (inner_of writer.new))) }
    ensures writer_failed { has_failed writer.new ≡ is_none result }
{
    for number in 1..u64::MAX {
        match session.take_turn(alloc, reader, writer) {
            LineTurn::Answered => {}
            LineTurn::LastAnswered => return put_end(writer, &session.waiting, number, None),
            LineTurn::Ended => return put_end(writer, &session.waiting, number, None),
            LineTurn::Failed(error) => {
                return put_end(writer, &session.waiting, number, Some(error));
            }
            LineTurn::WriteFailed => return None,
        }
    }
    // A line past the last number counts as one that memory was refused at.
    put_end(
        writer,
        &session.waiting,
        u64::MAX,
        Some(ScriptError::OutOfMemory),
    )
}

// Writes what waits, and the line of the error that ended the script at that line, if one did. Returns the script's status, or `None`
// where the writer failed. No memory is taken.
fn put_end<W: Write>(
    writer: &mut Counted<W>,
    waiting: &[u8],
    line: u64,
    error: Option<ScriptError>,
) -> Option<u8>
    requires fresh_writer { has_failed writer.old ≡ false }
    ensures some { IfSome result (λ status. (status ≡ end_status error)
        × Appends (W.contents (inner_of writer.old)) (W.contents (inner_of writer.new)) (waiting.now ++ end_text line error)) }
    ensures none { result ≡ None
        → AppendsFront (W.contents (inner_of writer.old)) (W.contents (inner_of writer.new)) (waiting.now ++ end_text line error) }
    ensures writer_failed { has_failed writer.new ≡ is_none result }
{
    match writer.put(waiting) {
        Ok(()) => {}
        Err(_) => return None,
    }
    let Some(error) = error else {
        return Some(0);
    };
    match put_error(writer, line, error) {
        Ok(()) => Some(1),
        Err(_) => None,
    }
}

// Writes the last line of a script that ends at that line. No memory is taken.
fn put_error<W: Write>(writer: &mut Counted<W>, line: u64, error: ScriptError) -> io::Result<()>
    ensures ok { OnOk result (Appends (W.contents (inner_of writer.old)) (W.contents (inner_of writer.new))
        (error_text line error ++ codes "\n")) }
    ensures part { OnErr result (AppendsFront (W.contents (inner_of writer.old)) (W.contents (inner_of writer.new))
        (error_text line error ++ codes "\n")) }
    ensures kept { OnOk result (has_failed writer.new ≡ has_failed writer.old) }
    ensures noted { OnErr result (has_failed writer.new ≡ true) }
{
    let mut buffer = Buffer::new();
    writer.put(b"error ")?;
    writer.put(buffer.format(line).as_bytes())?;
    writer.put(b" ")?;
    writer.put(error.name().as_bytes())?;
    writer.put(b"\n")
}
