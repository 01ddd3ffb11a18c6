// A text in memory answered: its bytes are known.
ghost use Rattle.std.specs.Prelude.{◌≡◌, ◌++◌, Some, OnOk, IfOk, IfErr};
ghost use Rattle.lines.specs.Lines.{AppendsFront};
ghost use Rattle.session.specs.Session.{lines_in, output_of, all_obeyed, Answers};

use crate::end::Ended;
use crate::session::run;
use lines::failure::Failure;
use std::alloc::Global;

/// Puts what the lines of a text are answered behind what a list holds.
pub fn answer_text(alloc: Global, text: &[u8], out: &mut Vec<u8>) -> Result<Ended, Failure>
    ensures whole { OnOk result (out.new.items ≡ out.old.items ++ output_of text.now) }
    ensures front { AppendsFront (Some out.old.items) (Some out.new.items) (output_of text.now) }
    ensures answers { IfErr result (λ why.
        Answers why (Some out.old.items) (Some out.new.items) (lines_in text.now)) }
    ensures obeyed { IfOk result (λ ended. ended.all_obeyed ≡ all_obeyed text.now) }
{
    let mut input = text;
    run(alloc, &mut input, out)
}
