// How an answer is told.
ghost use Rattle.std.specs.Prelude.{◌≡◌};
ghost use Rattle.update_spec.specs.Text.{answer_text};
ghost use Rattle.answer_lines.specs.Line.{line_bytes};
ghost use Rattle.rbu_run.specs.Told.{IsTold};

use answer_lines::{Line, status_of, text_of};
use rbu_disk::{Sink, SinkFault};
use update_spec::Answer;

// The status where the output failed.
const OUTPUT_FAULT: u8 = 8;

/// Writes the text of an answer at once, and answers its status, or that of an output that failed.
pub fn write_text<O: Sink>(answer: &Answer, line: &Line, out: &mut O) -> u8
    requires { line_bytes answer.now line.now ≡ answer_text answer.now }
    ensures { IsTold O.Sink answer.now out.old out.new result }
{
    match out.write_all(text_of(answer, line)) {
        Ok(()) => status_of(answer),
        Err(SinkFault) => OUTPUT_FAULT,
    }
}
