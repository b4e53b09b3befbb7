// The whole report of a log, its sections one after the other.

ghost use Rattle.std.specs.Prelude.{◌≡◌, ◌++◌, [], IfOk, None, OnOk, false, string_bytes};
ghost use Rattle.report_lines.specs.Refusals.{refused_lines};
ghost use Rattle.report_text.specs.Report.{report_text};

use report_lines::log_entries::Entry;
use report_lines::{write_main, write_outcomes, write_prints_and_note, write_refusals};
use std::alloc::{AllocError, Global};

/// Writes the last section, for which it goes over the log again only if an event was refused.
fn write_if_refused(text: &mut String, refused: bool, log: &[Entry]) -> Result<(), AllocError>
    requires { refused ≡ false → refused_lines None log.now ≡ [] }
    ensures { OnOk result (string_bytes text.new ≡ string_bytes text.old ++ refused_lines None log.now) }
{
    if !refused {
        return Ok(());
    }
    write_refusals(text, log)
}

/// The report of a log, in lines that each end with a line feed, each section in the order of the log: the prints
/// (`print 49`), main's end (`main value 0`, `main trap DivZero`, `main fault OwnerDied o2.1` or `main open`), the
/// attempts but main's (`attempt a1.1#0 w2 accepted`, else `ended`, `faulted` or `open`, by the whole log), the objects
/// with a fault (`resolved o1.2 PutLost o1.1`), those released (`released o1.1`), and the refused events
/// (`refused 30 kill 2`).
///
/// It is made of any log, a legal one or not: of several ends or faults of main the first counts, an end counts before a
/// fault, and a refusal with no event before it is written without one. Goes over the log a fixed number of times.
pub fn report_text(alloc: Global, log: &[Entry]) -> Result<String, AllocError>
    ensures { IfOk result (λ text. string_bytes text ≡ report_text log.now) }
{
    let mut text = String::new(alloc);
    // Lines are fewer than entries, and short: so the text is seldom copied as it grows.
    text.reserve(log.len().saturating_mul(4))?;
    let noted = write_prints_and_note(alloc, &mut text, log)?;
    write_main(&mut text, log)?;
    write_outcomes(alloc, &mut text, &noted.states, log)?;
    write_if_refused(&mut text, noted.refused, log)?;
    Ok(text)
}
