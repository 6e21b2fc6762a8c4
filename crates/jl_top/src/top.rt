//! The top call.
ghost use Rattle.std.specs.Prelude.{◌≡◌, ◌↔◌, ◌≤◌, ◌^◌, ℕ, List, length, true, false, None, IfSome};
ghost use Rattle.jl_io.specs.Outside.{SaysMore};
ghost use Rattle.jl_top.specs.Blocks.{CountsLines};
ghost use Rattle.jl_top.specs.ConversionRuns.{ConversionAnswers, GrantsLines, WriteAnswers};
ghost use Rattle.jl_top.specs.Headline.{IsUntouched, AnswersRead, AnswersFault, AnswersTaken, AnswersMemory, AnswersTooLong, AnswersTaking, AnswersWriting, PutsSureLines, IsComplete, RunAnswers};
ghost use Rattle.jl_top.specs.Promptness.{Grants};
ghost use Rattle.jl_top.specs.Reports.{IsReport, report_line};
ghost use Rattle.jl_top.specs.Runs.{IsFresh};
ghost use Rattle.jl_top.specs.Words.{settings_of, are_write, IsNoCommand};

use super::blocks::Block;
use super::conversion_runs::convert_all;
use super::conversions::Conversion;
use super::reports::{Report, make_report, plain, say_report};
use super::runs::read_all;
use super::words::{are_write, read_words};
use jl_io::{Port, Shelf};
use jl_model::Text;
use std::alloc::Global;

/// Does all that the program does: reads the document that the port gives and puts the lines of its
/// quads, or reads lines of quads and puts their JSON-LD, while it reads; says a line where the
/// status isn't 0, and reports.
///
/// `words` are those after the program's name. Nothing is fetched from the shelf.
pub fn run<P: Port, F: Shelf>(alloc: Global, words: &[Text], port: &mut P, _shelf: &mut F) -> Report
    requires open { P.ended port.old ≡ false }
    requires fresh { IsFresh (P.taken port.old) (P.written port.old) }
    requires may { IfSome (settings_of words.now) (λ s. Grants s (P.may_take port.old)) }
    requires may_write { are_write words.now ≡ true → GrantsLines (P.may_take port.old) }

    // The words.
    ensures words { (result.status ≡ 2) ↔ IsNoCommand words.now }
    ensures untouched { IsNoCommand words.now → IsUntouched (P.taken port.old) (P.taken port.new)
        (P.left port.old) (P.left port.new) (P.written port.old) (P.written port.new)
        (P.ended port.old) (P.ended port.new) }

    // What status 0 says.
    ensures read { IfSome (settings_of words.now)
        (λ s. AnswersRead s result (P.taken port.new) (P.left port.old) (P.left port.new)
        (P.written port.new)) }
    ensures ended { result.status ≡ 0 → P.ended port.new ≡ true }

    // When the other answers come.
    ensures fault { IfSome (settings_of words.now)
        (λ s. AnswersFault s result (P.taken port.new) (P.left port.old) (P.left port.new)
        (P.written port.new) (P.ended port.new)) }
    ensures taking { AnswersTaking result (P.take_faults port.old) (P.take_faults port.new) }
    ensures writing { AnswersWriting result (P.put_faults port.old) (P.put_faults port.new) }
    ensures taken { IfSome (settings_of words.now)
        (λ s. AnswersTaken s result (P.taken port.new) (P.left port.old) (P.left port.new)
        (P.written port.new)) }
    ensures too_long { IfSome (settings_of words.now)
        (λ s. AnswersTooLong s result (P.taken port.new) (P.left port.old) (P.left port.new)
        (P.written port.new)) }
    ensures memory { IfSome (settings_of words.now)
        (λ s. AnswersMemory s result (P.taken port.new) (P.left port.old) (P.left port.new)
        (P.written port.new)) }
    ensures complete { IfSome (settings_of words.now)
        (λ s. IsComplete s result (P.left port.old) (P.take_faults port.old)
        (P.take_faults port.new) (P.put_faults port.old) (P.put_faults port.new)) }

    // What `write` answers, at every end.
    ensures write { are_write words.now ≡ true → ConversionAnswers result (P.taken port.new)
        (P.left port.old) (P.left port.new) (P.written port.new) (P.ended port.new)
        (P.take_faults port.old) (P.take_faults port.new) (P.put_faults port.old)
        (P.put_faults port.new) }

    // At every end.
    ensures lines { IfSome (settings_of words.now)
        (λ s. PutsSureLines s result (P.taken port.new) (P.left port.old) (P.left port.new)
        (P.written port.new)) }
    ensures quads { are_write words.now ≡ false → CountsLines (P.written port.new) result.quads }
    ensures report { IsReport result }
    ensures said { SaysMore (P.said port.old) (report_line result) (P.said port.new) }
    ensures shelf { _shelf.new ≡ _shelf.old }
{
    let report = answer(alloc, words, port);
    say_report(port, &report);
    report
}

/// Does all but saying a line.
fn answer<P: Port>(alloc: Global, words: &[Text], port: &mut P) -> Report
    requires open { P.ended port.old ≡ false }
    requires fresh { IsFresh (P.taken port.old) (P.written port.old) }
    requires may { IfSome (settings_of words.now) (λ s. Grants s (P.may_take port.old)) }
    requires may_write { are_write words.now ≡ true → GrantsLines (P.may_take port.old) }
    ensures answers { RunAnswers words.now result (P.taken port.old) (P.taken port.new)
        (P.left port.old) (P.left port.new) (P.written port.old) (P.written port.new)
        (P.ended port.old) (P.ended port.new) (P.take_faults port.old) (P.take_faults port.new)
        (P.put_faults port.old) (P.put_faults port.new) }
    ensures said { P.said port.new ≡ P.said port.old }
{
    if are_write(words) {
        return answer_write(alloc, port);
    }
    let Some(options) = read_words(words) else {
        return plain(2, 0);
    };
    let mut block = match Block::new(alloc) {
        Ok(block) => block,
        Err(_) => return plain(5, 0),
    };
    let outcome = read_all(alloc, options.base, port, &mut block);
    make_report(outcome, block.lines)
}

/// Does all of `write` but saying a line.
fn answer_write<P: Port>(alloc: Global, port: &mut P) -> Report
    requires open { P.ended port.old ≡ false }
    requires fresh { IsFresh (P.taken port.old) (P.written port.old) }
    requires may { GrantsLines (P.may_take port.old) }
    ensures answers { WriteAnswers result (P.taken port.new) (P.left port.old) (P.left port.new)
        (P.written port.new) (P.ended port.new)
        (P.take_faults port.old) (P.take_faults port.new) (P.put_faults port.old)
        (P.put_faults port.new) }
    ensures said { P.said port.new ≡ P.said port.old }
{
    let mut block = match Block::new(alloc) {
        Ok(block) => block,
        Err(_) => return plain(5, 0),
    };
    let mut conversion = Conversion::new(alloc);
    let outcome = convert_all(alloc, port, &mut block, &mut conversion);
    make_report(outcome, conversion.quads)
}
