//! One line of a script at a time: it is read, its step is taken, and the text of the answer joins what waits to be written. A run's state
//! between its lines is here; the buffers are used again for each line.
ghost use Rattle.std.specs.Prelude.{◌≡◌, ◌≢◌, ℕ, List, [], ◌∷◌, ◌++◌, Err, Some, true, OnOk, OnErr};
ghost use Rattle.std.specs.Io.KnownBytes.{Appends, Keeps, prepend_known};
ghost use Rattle.lb_world.specs.History.{History};
ghost use Rattle.lb_world.specs.Meanings.{meaning_of};
ghost use Rattle.lb_world.specs.Stands.{Stands};
ghost use Rattle.lb_script.specs.LineSteps.{line_step_seen, selection_seen};
ghost use Rattle.lb_script.specs.StepLines.{step_of};
ghost use Rattle.lb_stream.specs.Counted.{inner_of, has_failed};
ghost use Rattle.lb_stream.specs.Stream.{OnBytes, AppendsFront};
ghost use Rattle.lb_script.specs.Internal.Session.{AnswersLine, TakesTurn, Joins};

use crate::error::ScriptError;
use crate::kinds::Kind;
use crate::parse::{LineStep, parse};
use crate::selection::{SelectionLine, plain_selection};
use crate::texts::{Scratch, push_line};
use lb_select_base::walk::BackendSelection;
use lb_stream::counted::Counted;
use lb_stream::lines::{LineRead, line_ahead, read_line};
use lb_stream::read_ahead::ReadAhead;
use lb_world::answer::Answer;
use lb_world::world::World;
use std::alloc::Global;
use std::io;
use std::io::{Read, Write};

// Where so many bytes of answers wait, they are written before the next line is answered.
const MOST_WAITING: usize = 32768;

/// What came of a turn, which reads a line and answers it.
#[derive(Clone, Copy, Debug, PartialEq, Eq)]
pub(crate) enum LineTurn {
    /// A line was answered: the text of the answer and a line feed wait to be written.
    Answered,
    /// The same, and the stream's end ended that line: nothing comes after it.
    LastAnswered,
    /// No line was left.
    Ended,
    /// There is no answer to the line.
    Failed(ScriptError),
    /// The writer failed, as what waited was written or flushed.
    WriteFailed,
}

/// What a script's run keeps between its lines.
#[derive(Drop)]
pub(crate) struct Session<S: BackendSelection> {
    world: World<S>,
    ahead: ReadAhead,
    line: Vec<u8>,
    // the answers that aren't written yet
    pub(crate) waiting: Vec<u8>,
    scratch: Scratch,
}

impl<S: BackendSelection<Config = Kind>> Session<S> {
    /// Returns a run that has read nothing.
    pub(crate) fn new(alloc: Global) -> Session<S>
        ensures stands { Stands (meaning_of S.BackendSelection) result.world [] }
        ensures ahead { result.ahead ≡ [] }
        ensures waiting { result.waiting.items ≡ [] }
    {
        Session {
            world: World::new(alloc),
            ahead: ReadAhead::new(),
            line: Vec::new(alloc),
            waiting: Vec::new(alloc),
            scratch: Scratch::new(alloc),
        }
    }

    /// Answers the next line: one that was read ahead in place, else one that is read first.
    ///
    /// Before a read all that waits is written and flushed; while lines were read ahead, their answers wait together, 32768 bytes and one
    /// answer at most.
    pub(crate) fn take_turn<R: Read, W: Write>(
        &mut self,
        alloc: Global,
        reader: &mut Counted<R>,
        writer: &mut Counted<W>,
    ) -> LineTurn
        ensures turn { let M = meaning_of S.BackendSelection in
            (h : History Kind) → Stands M self.old.world h
            → OnBytes (prepend_known self.old.ahead (R.remaining (inner_of reader.old)))
            (prepend_known self.new.ahead (R.remaining (inner_of reader.new)))
            (TakesTurn M h self.new.world (Joins (W.contents (inner_of writer.old)) (W.contents (inner_of writer.new))
            self.old.waiting.items self.new.waiting.items) result) }
        ensures none { result ≡ LineTurn.Failed ScriptError.Read → self.new.ahead ≡ [] }
        ensures part { result ≡ LineTurn.WriteFailed
            → AppendsFront (W.contents (inner_of writer.old)) (W.contents (inner_of writer.new)) self.old.waiting.items }
        ensures reader_failed { result ≡ LineTurn.Failed ScriptError.Read → has_failed reader.new ≡ true }
        ensures reader_kept { result ≢ LineTurn.Failed ScriptError.Read → has_failed reader.new ≡ has_failed reader.old }
        ensures writer_failed { result ≡ LineTurn.WriteFailed → has_failed writer.new ≡ true }
        ensures writer_kept { result ≢ LineTurn.WriteFailed → has_failed writer.new ≡ has_failed writer.old }
    {
        if self.waiting.len() < MOST_WAITING {
            if let Some(line) = line_ahead(&self.ahead) {
                let count = line.len() + 1;
                let answered = answer(
                    alloc,
                    &mut self.world,
                    line,
                    &mut self.waiting,
                    &mut self.scratch,
                );
                self.ahead.consume(count);
                return match answered {
                    Ok(()) => LineTurn::Answered,
                    Err(error) => LineTurn::Failed(error),
                };
            }
        }
        match self.write_waiting(writer) {
            Ok(()) => self.take_read_turn(alloc, reader, writer),
            Err(_) => LineTurn::WriteFailed,
        }
    }

    // Writes what waits.
    fn write_waiting<W: Write>(&mut self, writer: &mut Counted<W>) -> io::Result<()>
        ensures ok { OnOk result (Appends (W.contents (inner_of writer.old)) (W.contents (inner_of writer.new)) self.old.waiting.items) }
        ensures part { OnErr result
            (AppendsFront (W.contents (inner_of writer.old)) (W.contents (inner_of writer.new)) self.old.waiting.items) }
        ensures none { OnOk result (self.new.waiting.items ≡ []) }
        ensures kept { OnOk result (has_failed writer.new ≡ has_failed writer.old) }
        ensures noted { OnErr result (has_failed writer.new ≡ true) }
        ensures world { self.new.world ≡ self.old.world }
        ensures ahead { self.new.ahead ≡ self.old.ahead }
    {
        writer.put(&self.waiting)?;
        self.waiting.clear();
        Ok(())
    }

    // A turn in which the next line is read and copied. Nothing waits.
    fn take_read_turn<R: Read, W: Write>(
        &mut self,
        alloc: Global,
        reader: &mut Counted<R>,
        writer: &mut Counted<W>,
    ) -> LineTurn
        requires none { self.old.waiting.items ≡ [] }
        ensures turn { let M = meaning_of S.BackendSelection in
            (h : History Kind) → Stands M self.old.world h
            → OnBytes (prepend_known self.old.ahead (R.remaining (inner_of reader.old)))
            (prepend_known self.new.ahead (R.remaining (inner_of reader.new)))
            (TakesTurn M h self.new.world (λ text. self.new.waiting.items ≡ text) result) }
        ensures none { result ≡ LineTurn.Failed ScriptError.Read → self.new.ahead ≡ [] }
        ensures written { Keeps (W.contents (inner_of writer.old)) (W.contents (inner_of writer.new)) }
        ensures reader_failed { result ≡ LineTurn.Failed ScriptError.Read → has_failed reader.new ≡ true }
        ensures reader_kept { result ≢ LineTurn.Failed ScriptError.Read → has_failed reader.new ≡ has_failed reader.old }
        ensures writer_failed { result ≡ LineTurn.WriteFailed → has_failed writer.new ≡ true }
        ensures writer_kept { result ≢ LineTurn.WriteFailed → has_failed writer.new ≡ has_failed writer.old }
    {
        match read_line(reader, writer, &mut self.ahead, &mut self.line) {
            LineRead::Line => match self.answer_read(alloc) {
                Ok(()) => LineTurn::Answered,
                Err(error) => LineTurn::Failed(error),
            },
            LineRead::LastLine => match self.answer_read(alloc) {
                Ok(()) => LineTurn::LastAnswered,
                Err(error) => LineTurn::Failed(error),
            },
            LineRead::End => LineTurn::Ended,
            LineRead::TooLong => LineTurn::Failed(ScriptError::LineTooLong),
            LineRead::ReadFailed => LineTurn::Failed(ScriptError::Read),
            LineRead::WriteFailed => LineTurn::WriteFailed,
            LineRead::NoMemory => LineTurn::Failed(ScriptError::OutOfMemory),
        }
    }

    // Answers the line that was read and copied.
    fn answer_read(&mut self, alloc: Global) -> Result<(), ScriptError>
        ensures line { let M = meaning_of S.BackendSelection in
            (h : History Kind) → Stands M self.old.world h
            → AnswersLine M h self.old.line.items self.new.world (λ text. self.new.waiting.items ≡ self.old.waiting.items ++ text) result }
        ensures own { result ≢ Err ScriptError.Read }
        ensures ahead { self.new.ahead ≡ self.old.ahead }
    {
        answer(
            alloc,
            &mut self.world,
            &self.line,
            &mut self.waiting,
            &mut self.scratch,
        )
    }
}

// Takes the step that the line asks for, and appends the text of its answer and a line feed; nothing where there is no answer.
fn answer<S: BackendSelection<Config = Kind>>(
    alloc: Global,
    world: &mut World<S>,
    line: &[u8],
    text: &mut Vec<u8>,
    scratch: &mut Scratch,
) -> Result<(), ScriptError>
    ensures line { let M = meaning_of S.BackendSelection in
        (h : History Kind) → Stands M world.old h
        → AnswersLine M h line.now world.new (λ t. text.new.items ≡ text.old.items ++ t) result }
    ensures own { result ≢ Err ScriptError.Read }
{
    match plain_selection(line) {
        Some(selection) => answer_selection(alloc, world, selection, text, scratch),
        None => answer_other(alloc, world, line, text, scratch),
    }
}

// Answers a selection, read from its line already. Most lines are one.
fn answer_selection<S: BackendSelection<Config = Kind>>(
    alloc: Global,
    world: &mut World<S>,
    selection: SelectionLine<'_>,
    text: &mut Vec<u8>,
    scratch: &mut Scratch,
) -> Result<(), ScriptError>
    ensures line { let M = meaning_of S.BackendSelection in
        (h : History Kind) (line : List ℕ) → step_of line ≡ Some (selection_seen selection.entry) → Stands M world.old h
        → AnswersLine M h line world.new (λ t. text.new.items ≡ text.old.items ++ t) result }
    ensures own { result ≢ Err ScriptError.Read }
{
    let answer = world.select(
        selection.group,
        selection.slot,
        selection.key,
        selection.limit,
        &[],
    );
    push_line(alloc, text, scratch, &answer)?;
    Ok(())
}

// Answers every other line. It is a function of its own, so that a selection does not pay for what other steps need.
#[inline(never)]
fn answer_other<S: BackendSelection<Config = Kind>>(
    alloc: Global,
    world: &mut World<S>,
    line: &[u8],
    text: &mut Vec<u8>,
    scratch: &mut Scratch,
) -> Result<(), ScriptError>
    ensures line { let M = meaning_of S.BackendSelection in
        (h : History Kind) → Stands M world.old h
        → AnswersLine M h line.now world.new (λ t. text.new.items ≡ text.old.items ++ t) result }
    ensures own { result ≢ Err ScriptError.Read }
{
    let step = parse(alloc, line)?;
    let answer = take_step(world, step);
    push_line(alloc, text, scratch, &answer)?;
    Ok(())
}

// Takes the step of a line.
fn take_step<S: BackendSelection<Config = Kind>>(world: &mut World<S>, step: LineStep<'_>) -> Answer
    ensures { (h : History Kind) → Stands (meaning_of S.BackendSelection) world.old h
        → Stands (meaning_of S.BackendSelection) world.new ((line_step_seen step.entry, result) ∷ h) }
{
    match step {
        LineStep::Select(selection) => world.select(
            selection.group,
            selection.slot,
            selection.key,
            selection.limit,
            &[],
        ),
        LineStep::Other(step) => world.step(step),
    }
}
