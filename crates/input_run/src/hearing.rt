//! A run that hears its input in pieces.

use crate::line_run::{LineRun, Taken, take_line};
use command_text::Cutter;
use house_base::Memory;
use house_model::Goal;
use house_model::limits::{MOST_BYTES, MOST_LINES};
use std::alloc::Global;

/// How far a run has come with a piece of its input.
#[derive(Clone, Copy, Debug, PartialEq, Eq)]
pub enum Progress {
    /// The piece was heard, and the run goes on.
    Going,
    /// A line of it has ended the run.
    Ended,
    /// The input is over its limits, and no line within them ends the run.
    Over,
    /// No memory was left.
    Memory,
}

/// A run, and what it has heard of its input. Of the input itself no more is kept than the line that has begun.
#[derive(Drop)]
pub struct Hearing {
    pub goal: Goal,
    pub run: LineRun,
    pub cutter: Cutter,
    /// How many bytes of the input were heard.
    pub bytes: usize,
    /// How many lines of the input have ended.
    pub lines: usize,
}

impl Hearing {
    ghost use Rattle.std.specs.Prelude.{◌≡◌, ◌≢◌, ℕ, ◌+◌, ◌<◌, ◌≤◌, ◌++◌, [], List, length, take, IfOk};
    ghost use Rattle.house_model.specs.Text.{Lines, lines};
    ghost use Rattle.house_model.specs.declared.goal.Goal.{Goal};
    ghost use Rattle.house_model.specs.declared.limits.TheConstants.{MOST_BYTES, MOST_LINES};
    ghost use Rattle.input_run.specs.Kept.{keeps};
    ghost use Rattle.input_run.specs.Hearing.{Advances, HasHeard, HasLines, HasOpened, HearsPiece, TellsEnd};

    /// A run that has taken its opening lines, and has heard nothing of its input.
    pub fn new(alloc: Global, goal: Goal, run: LineRun) -> Hearing
        ensures heard { (opening : Lines) → HasOpened goal opening run → HasHeard goal opening [] result }
        ensures keeps { keeps result.run ≡ keeps run }
    {
        Hearing {
            goal,
            run,
            cutter: Cutter::new(alloc),
            bytes: 0,
            lines: 0,
        }
    }

    /// Hears a piece of the input, line by line, up to one that ends the run or to the end of the limits.
    pub fn hear(&mut self, piece: &[u8]) -> Progress
        ensures hears { (g : Goal) (opening : Lines) (heard : List ℕ) → HasHeard g opening heard self.old →
            HearsPiece g opening heard piece.now result self.new }
        ensures keeps { keeps self.new.run ≡ keeps self.old.run }
    {
        let mut rest = piece;
        while !rest.is_empty() {
            if self.bytes >= MOST_BYTES || self.lines >= MOST_LINES {
                return Progress::Over;
            }
            let most = rest.len().min(MOST_BYTES - self.bytes);
            let (used, progress) = self.advance(&rest[..most]);
            match progress {
                Progress::Going => rest = &rest[used..],
                _ => return progress,
            }
        }
        Progress::Going
    }

    /// Hears some bytes of the input, up to the end of a line, and tells how many.
    fn advance(&mut self, piece: &[u8]) -> (usize, Progress)
        requires room { self.old.bytes + length piece.now ≤ MOST_BYTES }
        requires lines { self.old.lines < MOST_LINES }
        ensures used { result.0 ≤ length piece.now }
        ensures some { 0 < length piece.now → result.1 ≡ Progress.Going → 0 < result.0 }
        ensures advances { (g : Goal) (opening : Lines) (heard : List ℕ) → HasHeard g opening heard self.old →
            Advances g opening (heard ++ take result.0 piece.now) result.1 self.new }
        ensures keeps { keeps self.new.run ≡ keeps self.old.run }
    {
        if let Some((line, used)) = self.cutter.whole_line(piece) {
            self.bytes += used;
            self.lines += 1;
            return (used, take_line(self.goal, &mut self.run, line).progress());
        }
        let Ok(fed) = self.cutter.feed(piece) else {
            return (0, Progress::Memory);
        };
        self.bytes += fed.used;
        let Some(line) = self.cutter.line() else {
            return (fed.used, Progress::Going);
        };
        self.lines += 1;
        (
            fed.used,
            take_line(self.goal, &mut self.run, line).progress(),
        )
    }

    /// The run at the end of the input, whose last line no line feed need end.
    pub fn finish(self) -> Result<LineRun, Memory>
        ensures ends { (g : Goal) (opening : Lines) (heard : List ℕ) → HasHeard g opening heard self →
            IfOk result (λ run. HasLines g (opening ++ lines heard) run
            × TellsEnd g opening heard [] (opening ++ lines heard)) }
        ensures keeps { IfOk result (λ run. keeps run ≡ keeps self.run) }
    {
        let Hearing {
            goal,
            mut run,
            cutter,
            bytes: _,
            lines: _,
        } = self;
        match cutter.rest() {
            Some(line) => match take_line(goal, &mut run, line) {
                Taken::Memory => Err(Memory),
                _ => Ok(run),
            },
            None => Ok(run),
        }
    }
}
