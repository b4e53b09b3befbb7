// The report of a legal log begins as what the serial run writes.

ghost use Rattle.report_laws.specs.Law.{ReportsBeginAsSerial, LinesBegin};

/// The report of a legal log of a checked script begins as what `raysim serial` writes of that script: with the whole of it and its
/// status, or with the lines of first prints, followed by `main open`, or by main's fault, whose cause stands before it in the log. The
/// report as JSON says the same of main, in its members `prints` and `main`.
pub fn reports_begin_as_serial()
    ensures { ReportsBeginAsSerial }
{}

/// The lines of first prints begin the lines of all of them, byte for byte.
pub fn lines_begin()
    ensures { LinesBegin }
{}
